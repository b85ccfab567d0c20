//! A write of a page to which no edge leads. It may end done, refused, or failed and yet taken; what the device may
//! have taken counts as possible from then on.

ghost use Rattle.std.specs.Prelude.{◌≡◌, ◌∷◌, ℕ, List, Bool};
ghost use Rattle.order_model.specs.Calls.{Call, Tried, Written};
ghost use Rattle.order_model.specs.declared.Slot.{Slot};
ghost use Rattle.engine_model.specs.Births.{BirthKnown};
ghost use Rattle.engine_model.specs.Contents.{ContentsInvariant};
ghost use Rattle.engine_model.specs.Counts.{CountsInvariant};
ghost use Rattle.engine_model.specs.DeviceSteps.{IsReady, KeepsMarks, MovesMarks, Same, Taken, page_taken, page_written};
ghost use Rattle.engine_model.specs.Entries.{Apart};
ghost use Rattle.engine_model.specs.Invariant.{EngineInvariant, Moment};
ghost use Rattle.order_model.specs.Pool.{Told, after_tried, after_written};
ghost use Rattle.engine_model.specs.Pool.{PoolExact, PoolKnows, PossibleStays};
ghost use Rattle.engine_model.specs.SmallRuns.{with_refused, with_taken, with_written};
ghost use Rattle.order_model.specs.World.{Agree, Layout, World};

/// A write that ended done: the page is hung and not dirty, the Live edges from it become Barrier edges, and the
/// releases of its blocks move from stage 0 to stage 1.
pub fn write_done()
    ensures counts { (lay : Layout) (top : ℕ) (w v : World) (page : ℕ) → CountsInvariant lay top w → Taken w v page
        → MovesMarks lay w v page → CountsInvariant lay top v }
    ensures contents { (lay : Layout) (top : ℕ) (sound : Bool) (array : ℕ → List (List ℕ)) (w v : World) (page : ℕ)
        → CountsInvariant lay top w → ContentsInvariant lay sound array w → Taken w v page → MovesMarks lay w v page
        → ContentsInvariant lay sound array v }
    ensures births { (lay : Layout) (w v : World) (calls : List Call) (slot : Slot) (page : ℕ)
        → BirthKnown lay w calls slot → Taken w v page → MovesMarks lay w v page
        → BirthKnown lay v (Written page ∷ (Tried page ∷ calls)) slot }
    ensures pool { (lay : Layout) (w v : World) (page : ℕ) (pool : ℕ → Told) (p : ℕ) → PoolKnows lay w (pool p) p
        → Taken w v page → PoolKnows lay v (after_written lay page (after_tried lay page pool) p) p }
    ensures pool_is_exact { (lay : Layout) (w v : World) (page : ℕ) (pool : ℕ → Told) (p : ℕ)
        → PoolKnows lay w (pool p) p → PoolExact lay w (pool p) p → Taken w v page → PossibleStays w v
        → PoolExact lay v (after_written lay page (after_tried lay page pool) p) p }
    ensures whole { (lay : Layout) (top : ℕ) (sound : Bool) → Apart lay → (m n : Moment)
        → EngineInvariant lay top sound m → (page : ℕ) → Taken m.world n.world page
        → MovesMarks lay m.world n.world page → Agree n.array m.array
        → n.calls ≡ Written page ∷ (Tried page ∷ m.calls)
        → Agree n.pool (after_written lay page (after_tried lay page m.pool)) → EngineInvariant lay top sound n }
    ensures made { (lay : Layout) (w : World) (page : ℕ) → IsReady w page
        → Taken w (page_written lay page w) page × MovesMarks lay w (page_written lay page w) page }
    ensures kept { (lay : Layout) (top : ℕ) (sound : Bool) → Apart lay → (m : Moment)
        → EngineInvariant lay top sound m → (page : ℕ) → IsReady m.world page
        → EngineInvariant lay top sound (with_written lay page m) }
{}

/// A write that failed and was taken: page, mark and edges stay.
pub fn write_taken()
    ensures counts { (lay : Layout) (top : ℕ) (w v : World) (page : ℕ) → CountsInvariant lay top w → Taken w v page
        → KeepsMarks w v → CountsInvariant lay top v }
    ensures contents { (lay : Layout) (top : ℕ) (sound : Bool) (array : ℕ → List (List ℕ)) (w v : World) (page : ℕ)
        → CountsInvariant lay top w → ContentsInvariant lay sound array w → Taken w v page → KeepsMarks w v
        → ContentsInvariant lay sound array v }
    ensures births { (lay : Layout) (w v : World) (calls : List Call) (slot : Slot) (page : ℕ)
        → BirthKnown lay w calls slot → Taken w v page → KeepsMarks w v → BirthKnown lay v (Tried page ∷ calls) slot }
    ensures pool { (lay : Layout) (w v : World) (page : ℕ) (pool : ℕ → Told) (p : ℕ) → PoolKnows lay w (pool p) p
        → Taken w v page → PoolKnows lay v (after_tried lay page pool p) p }
    ensures whole { (lay : Layout) (top : ℕ) (sound : Bool) → Apart lay → (m n : Moment)
        → EngineInvariant lay top sound m → (page : ℕ) → Taken m.world n.world page → KeepsMarks m.world n.world
        → Agree n.array m.array → n.calls ≡ Tried page ∷ m.calls → Agree n.pool (after_tried lay page m.pool)
        → EngineInvariant lay top sound n }
    ensures made { (w : World) (page : ℕ) → IsReady w page
        → Taken w (page_taken page w) page × KeepsMarks w (page_taken page w) }
    ensures kept { (lay : Layout) (top : ℕ) (sound : Bool) → Apart lay → (m : Moment)
        → EngineInvariant lay top sound m → (page : ℕ) → IsReady m.world page
        → EngineInvariant lay top sound (with_taken lay page m) }
{}

/// A write that was refused changes nothing, but birth_marks and the pool were told of the try.
pub fn write_refused()
    ensures births { (lay : Layout) (w : World) (calls : List Call) (slot : Slot) (page : ℕ)
        → BirthKnown lay w calls slot → BirthKnown lay w (Tried page ∷ calls) slot }
    ensures pool { (lay : Layout) (w : World) (page : ℕ) (pool : ℕ → Told) (p : ℕ) → PoolKnows lay w (pool p) p
        → PoolKnows lay w (after_tried lay page pool p) p }
    ensures whole { (lay : Layout) (top : ℕ) (sound : Bool) → Apart lay → (m n : Moment)
        → EngineInvariant lay top sound m → (page : ℕ) → Same m.world n.world → Agree n.array m.array
        → n.calls ≡ Tried page ∷ m.calls → Agree n.pool (after_tried lay page m.pool)
        → EngineInvariant lay top sound n }
    ensures kept { (lay : Layout) (top : ℕ) (sound : Bool) → Apart lay → (m : Moment)
        → EngineInvariant lay top sound m → (page : ℕ) → EngineInvariant lay top sound (with_refused lay page m) }
{}
