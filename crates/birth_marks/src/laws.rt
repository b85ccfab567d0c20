// What is recorded follows the list of calls.
ghost use Rattle.std.specs.Prelude.{◌≡◌, ◌∷◌, [], ◌&&◌, not, false, ℕ, List};
ghost use Rattle.order_model.specs.declared.Slot.{Slot};
ghost use Rattle.order_model.specs.Calls.{Call, Change, Fixed, Tried, Written, is_unborn};
ghost use Rattle.birth_marks.specs.Births.{BirthsView, Changed, FixedAll, Remembers, Same, TriedAt, WrittenAt, is_unborn_in, recorded_in};

/// Whatever the calls, what is recorded is what they say, where each slot stands on a page of its own: so is what `unborn` answers.
/// The calls stand in a list, the latest first. It does not say that a list of calls was made.
pub fn calls_are_remembered()
    ensures nothing { (place : Slot → ℕ) (b : BirthsView) → ((s : Slot) → recorded_in b s ≡ false) → Remembers place b [] }
    ensures same { (place : Slot → ℕ) (b c : BirthsView) (calls : List Call) → Remembers place b calls → Same b c → Remembers place c calls }
    ensures changed { (place : Slot → ℕ) (b c : BirthsView) (calls : List Call) (slot : Slot) (at from to : ℕ) → Remembers place b calls → place slot ≡ at
        → Changed b c slot at from to → Remembers place c (Change slot at from to ∷ calls) }
    ensures tried { (place : Slot → ℕ) (b c : BirthsView) (calls : List Call) (at : ℕ) → Remembers place b calls → TriedAt b c at → Remembers place c (Tried at ∷ calls) }
    ensures written { (place : Slot → ℕ) (b c : BirthsView) (calls : List Call) (at : ℕ) → Remembers place b calls → WrittenAt b c at → Remembers place c (Written at ∷ calls) }
    ensures fixed { (place : Slot → ℕ) (b c : BirthsView) (calls : List Call) → Remembers place b calls → FixedAll b c → Remembers place c (Fixed ∷ calls) }
    ensures unborn { (place : Slot → ℕ) (b : BirthsView) (calls : List Call) (slot : Slot) (value : ℕ) → Remembers place b calls
        → is_unborn_in b slot value ≡ is_unborn slot (place slot) value calls }
{}
