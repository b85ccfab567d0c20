//! The dirty content of a data page with count 0 is given up, with its edges.

ghost use Rattle.std.specs.Prelude.{◌≡◌, ℕ, List, Bool};
ghost use Rattle.order_model.specs.Calls.{Call};
ghost use Rattle.order_model.specs.declared.Slot.{Slot};
ghost use Rattle.engine_model.specs.Births.{BirthKnown, IsSlot};
ghost use Rattle.engine_model.specs.Contents.{ContentsInvariant};
ghost use Rattle.engine_model.specs.Counts.{CountsInvariant};
ghost use Rattle.engine_model.specs.Drops.{Dropped};
ghost use Rattle.order_model.specs.World.{IsData, Layout, World};
ghost use Rattle.engine_model.specs.Entries.{Apart, cached_count};
ghost use Rattle.order_model.specs.Pool.{Told};
ghost use Rattle.engine_model.specs.Pool.{PoolKnows};
ghost use Rattle.engine_model.specs.SmallSteps.{given_up};

/// A dropped data page keeps the invariant.
pub fn dropped()
    ensures counts { (lay : Layout) (top : ℕ) (w v : World) (p : ℕ) → Apart lay → CountsInvariant lay top w
        → Dropped lay w v p → CountsInvariant lay top v }
    ensures contents { (lay : Layout) (top : ℕ) (w v : World) (p : ℕ) → Apart lay → CountsInvariant lay top w
        → Dropped lay w v p → (sound : Bool) (array : ℕ → List (List ℕ)) → ContentsInvariant lay sound array w
        → ContentsInvariant lay sound array v }
    ensures births { (lay : Layout) (top : ℕ) (w v : World) (p : ℕ) → Apart lay → CountsInvariant lay top w
        → Dropped lay w v p → (calls : List Call) (slot : Slot) → IsSlot lay slot → BirthKnown lay w calls slot
        → BirthKnown lay v calls slot }
    ensures pool { (lay : Layout) (top : ℕ) (w v : World) (p : ℕ) → Apart lay → CountsInvariant lay top w
        → Dropped lay w v p → (told : Told) (q : ℕ) → IsData lay q → PoolKnows lay w told q → PoolKnows lay v told q }
    ensures made { (lay : Layout) (w : World) (p : ℕ) → IsData lay p → cached_count lay w p ≡ 0
        → Dropped lay w (given_up (lay.data_page p) w) p }
{}
