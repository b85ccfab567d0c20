//! What birth_marks records accounts for each possible value of a slot.

ghost use Rattle.std.specs.Prelude.{◌≡◌, ◌≢◌, ◌↔◌, ◌<◌, ℕ, List, Bool, true};
ghost use Rattle.order_model.specs.Calls.{Call, is_changed, is_unborn, since};
ghost use Rattle.order_model.specs.declared.Slot.{Slot};
ghost use Rattle.engine_model.specs.Births.{BirthKnown, GoesOn, NothingRecorded, TriedWith, place_of, value_in};
ghost use Rattle.engine_model.specs.Contents.{ContentsInvariant};
ghost use Rattle.order_model.specs.World.{IsData, Layout, Possible, World};
ghost use Rattle.engine_model.specs.Entries.{MayName, MayPrint};
ghost use Rattle.engine_model.specs.Invariant.{EngineInvariant, Moment, known_at};
ghost use Rattle.engine_model.specs.Known.{Tells};
ghost use Rattle.engine_model.specs.Schedule.{NoNode};

/// A value that is unborn by the calls is in no possible content. In words: the slot was changed since its page was
/// settled, and had the value neither then nor at a try since. Where no page is a node nothing is recorded.
pub fn births()
    ensures unborn { (lay : Layout) (w : World) (calls : List Call) (slot : Slot) (value : ℕ)
        → BirthKnown lay w calls slot → is_unborn slot (place_of lay slot) value calls ≡ true → (c : List ℕ)
        → Possible w (place_of lay slot) c → value_in lay slot c ≢ value }
    ensures words { (slot : Slot) (x page v : ℕ) (calls : List Call) → GoesOn slot x (since page calls)
        → (is_unborn slot page v calls ≡ true) ↔ ((is_changed slot (since page calls) ≡ true) × (v ≢ x) × (TriedWith slot x page v (since page calls) → ⊥)) }
    ensures known { (lay : Layout) (top : ℕ) (sound : Bool) (m : Moment) → EngineInvariant lay top sound m
        → Tells lay m.world (known_at lay m) }
    ensures nothing { (lay : Layout) (top : ℕ) (sound : Bool) (m : Moment) → EngineInvariant lay top sound m
        → NoNode m → NothingRecorded lay m.calls }
    ensures dirty_name { (lay : Layout) (sound : Bool) (array : ℕ → List (List ℕ)) (w : World)
        → ContentsInvariant lay sound array w → (p : ℕ) → IsData lay p → w.dirty (lay.data_page p) ≡ true → (l : ℕ)
        → l < lay.blocks → MayName lay w p l → ⊥ }
    ensures dirty_print { (lay : Layout) (sound : Bool) (array : ℕ → List (List ℕ)) (w : World)
        → ContentsInvariant lay sound array w → (p : ℕ) → IsData lay p → w.dirty (lay.data_page p) ≡ true
        → (print : List ℕ) → MayPrint lay w p print → ⊥ }
{}
