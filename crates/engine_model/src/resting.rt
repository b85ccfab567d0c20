//! A session begins on a device with nothing pending: whatever fit image it holds, all parts of the invariant are
//! met.

ghost use Rattle.std.specs.Prelude.{◌≡◌, ◌↔◌, ◌<◌, [], ℕ, List, Bool};
ghost use Rattle.order_model.specs.declared.Slot.{Slot};
ghost use Rattle.engine_model.specs.Births.{BirthKnown};
ghost use Rattle.engine_model.specs.Contents.{ContentsInvariant, Last};
ghost use Rattle.engine_model.specs.Counts.{CountsInvariant};
ghost use Rattle.engine_model.specs.DeviceSteps.{AtRest};
ghost use Rattle.order_model.specs.World.{IsData, Agree, Layout, World};
ghost use Rattle.engine_model.specs.Entries.{cached_count};
ghost use Rattle.engine_model.specs.Images.{ContentsFit, CountsBelow, CountsFit};
ghost use Rattle.engine_model.specs.Invariant.{EngineInvariant, Moment};
ghost use Rattle.order_model.specs.Pool.{Listed, after_fixed, new_pool, taken_all, written_all};
ghost use Rattle.engine_model.specs.Pool.{PoolExact, PoolKnows};
ghost use Rattle.order_model.specs.Contents.{IsAmong};

/// A state at rest over a fit image meets the invariant. With the calls that a mount makes, the pool gives exactly
/// the pages that are free.
pub fn start()
    ensures counts { (lay : Layout) (top : ℕ) (w : World) → AtRest w → CountsFit lay w.newest
        → CountsBelow lay top w.newest → CountsInvariant lay top w }
    ensures contents { (lay : Layout) (top : ℕ) (w : World) → AtRest w → (sound : Bool) (array : ℕ → List (List ℕ))
        → ContentsFit lay sound w.newest array
        → ((l : ℕ) → l < lay.blocks → (c : List ℕ) → IsAmong c (array l) → Last (array l) c)
        → ContentsInvariant lay sound array w }
    ensures births { (lay : Layout) (w : World) (slot : Slot) → AtRest w → BirthKnown lay w [] slot }
    ensures pool { (lay : Layout) (w : World) (counted tables : List ℕ) → AtRest w
        → ((p : ℕ) → IsData lay p → Listed p counted ↔ (0 < cached_count lay w p))
        → ((p : ℕ) → IsData lay p → Listed (lay.count_page p) tables) → (p : ℕ) → IsData lay p
        → PoolKnows lay w (after_fixed (written_all lay tables (taken_all counted new_pool)) p) p }
    ensures pool_is_exact { (lay : Layout) (w : World) (counted tables : List ℕ) → AtRest w
        → ((p : ℕ) → IsData lay p → Listed p counted ↔ (0 < cached_count lay w p))
        → ((p : ℕ) → IsData lay p → Listed (lay.count_page p) tables) → (p : ℕ) → IsData lay p
        → PoolExact lay w (after_fixed (written_all lay tables (taken_all counted new_pool)) p) p }
    ensures whole { (lay : Layout) (top : ℕ) (sound : Bool) (m : Moment) (counted tables : List ℕ) → AtRest m.world
        → CountsFit lay m.world.newest → CountsBelow lay top m.world.newest
        → ContentsFit lay sound m.world.newest m.array
        → ((l : ℕ) → l < lay.blocks → (c : List ℕ) → IsAmong c (m.array l) → Last (m.array l) c) → m.calls ≡ []
        → ((p : ℕ) → IsData lay p → Listed p counted ↔ (0 < cached_count lay m.world p))
        → ((p : ℕ) → IsData lay p → Listed (lay.count_page p) tables)
        → Agree m.pool (after_fixed (written_all lay tables (taken_all counted new_pool)))
        → EngineInvariant lay top sound m }
{}
