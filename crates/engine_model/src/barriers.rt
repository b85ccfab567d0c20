//! A barrier makes the newest content of each page the only possible one, takes the marks of what was written and
//! the Barrier edges, and moves stage 1 to stage 2.

ghost use Rattle.std.specs.Prelude.{◌≡◌, ◌∷◌, ℕ, List, Bool};
ghost use Rattle.order_model.specs.Calls.{Call, Fixed};
ghost use Rattle.order_model.specs.declared.Slot.{Slot};
ghost use Rattle.engine_model.specs.Births.{BirthKnown};
ghost use Rattle.engine_model.specs.Contents.{ContentsInvariant};
ghost use Rattle.engine_model.specs.Counts.{CountsInvariant};
ghost use Rattle.engine_model.specs.DeviceSteps.{Barrier, barrier_made};
ghost use Rattle.engine_model.specs.Entries.{Apart};
ghost use Rattle.engine_model.specs.Invariant.{EngineInvariant, Moment};
ghost use Rattle.order_model.specs.Pool.{Told, after_fixed};
ghost use Rattle.engine_model.specs.Pool.{PoolExact, PoolKnows};
ghost use Rattle.engine_model.specs.SmallRuns.{with_barrier};
ghost use Rattle.order_model.specs.World.{Agree, Layout, World};

/// A barrier that ended done keeps each part of the invariant.
pub fn barrier()
    ensures counts { (lay : Layout) (top : ℕ) (w v : World) → CountsInvariant lay top w → Barrier w v
        → CountsInvariant lay top v }
    ensures contents { (lay : Layout) (sound : Bool) (array : ℕ → List (List ℕ)) (w v : World)
        → ContentsInvariant lay sound array w → Barrier w v → ContentsInvariant lay sound array v }
    ensures births { (lay : Layout) (w v : World) (calls : List Call) (slot : Slot) → BirthKnown lay w calls slot
        → Barrier w v → BirthKnown lay v (Fixed ∷ calls) slot }
    ensures pool { (lay : Layout) (w v : World) (pool : ℕ → Told) (p : ℕ) → PoolKnows lay w (pool p) p → Barrier w v
        → PoolKnows lay v (after_fixed pool p) p }
    ensures pool_is_exact { (lay : Layout) (w v : World) (pool : ℕ → Told) (p : ℕ) → PoolExact lay w (pool p) p
        → Barrier w v → PoolExact lay v (after_fixed pool p) p }
    ensures whole { (lay : Layout) (top : ℕ) (sound : Bool) → Apart lay → (m n : Moment)
        → EngineInvariant lay top sound m → Barrier m.world n.world → Agree n.array m.array
        → n.calls ≡ Fixed ∷ m.calls → Agree n.pool (after_fixed m.pool) → EngineInvariant lay top sound n }
    ensures made { (w : World) → Barrier w (barrier_made w) }
    ensures kept { (lay : Layout) (top : ℕ) (sound : Bool) → Apart lay → (m : Moment)
        → EngineInvariant lay top sound m → EngineInvariant lay top sound (with_barrier m) }
{}
