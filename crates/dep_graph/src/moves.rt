// Edges that go, or wait for a barrier alone.
ghost use Rattle.std.specs.Prelude.{◌≡◌, ◌||◌, ◌&&◌, eqb, ℕ, ◌+◌, ◌<◌, ◌≤◌, [], ◌∷◌, length, vec_capacity};
ghost use Rattle.dep_graph.specs.Pairs.{has_pair, ends_at, AreRising};
ghost use Rattle.dep_graph.specs.Waits.{waits_for};

use crate::pairs::{self, Pair};
use crate::waiting::Waiting;

// Each page to which some of these edges lead waits for that many less.
pub fn lower_each(gone: &[Pair], dirty: &mut Waiting)
    requires some { (b : ℕ) → ends_at gone.now b ≤ waits_for dirty.old b }
    requires room { length dirty.old.pages ≤ dirty.old.room }
    ensures pages { dirty.new.pages ≡ dirty.old.pages }
    ensures counts { (b : ℕ) → waits_for dirty.new b + ends_at gone.now b ≡ waits_for dirty.old b }
    ensures room { dirty.new.room ≡ dirty.old.room }
{
    for pair in gone {
        dirty.lower(pair.after);
    }
}

// Each of these edges waits for a barrier alone from now on.
pub fn bar_each(out: &[Pair], barred: &mut Vec<Pair>, dirty: &mut Waiting)
    requires rising { AreRising barred.old.items }
    requires room { length barred.old.items + length out.now ≤ vec_capacity barred.old }
    requires some { (b : ℕ) → ends_at out.now b + ends_at barred.old.items b ≤ waits_for dirty.old b }
    requires pages_room { length dirty.old.pages ≤ dirty.old.room }
    ensures pairs { (a b : ℕ) → has_pair barred.new.items a b ≡ has_pair barred.old.items a b || has_pair out.now a b }
    ensures rising { AreRising barred.new.items }
    ensures len { length barred.new.items ≤ length barred.old.items + length out.now }
    ensures room { vec_capacity barred.new ≡ vec_capacity barred.old }
    ensures pages { dirty.new.pages ≡ dirty.old.pages }
    ensures counts { (b : ℕ) → waits_for dirty.new b + ends_at out.now b + ends_at barred.old.items b ≡ waits_for dirty.old b + ends_at barred.new.items b }
    ensures pages_room { dirty.new.room ≡ dirty.old.room }
{
    for pair in out {
        bar(*pair, barred, dirty);
    }
}

// This edge waits for a barrier alone from now on. Where such an edge is there, its page waits for one edge less.
fn bar(pair: Pair, barred: &mut Vec<Pair>, dirty: &mut Waiting)
    requires rising { AreRising barred.old.items }
    requires room { length barred.old.items < vec_capacity barred.old }
    requires some { 0 < waits_for dirty.old pair.after }
    requires pages_room { length dirty.old.pages ≤ dirty.old.room }
    ensures pairs { (a b : ℕ) → has_pair barred.new.items a b ≡ has_pair barred.old.items a b || (eqb a pair.before && eqb b pair.after) }
    ensures rising { AreRising barred.new.items }
    ensures len { length barred.new.items ≤ length barred.old.items + 1 }
    ensures room { vec_capacity barred.new ≡ vec_capacity barred.old }
    ensures pages { dirty.new.pages ≡ dirty.old.pages }
    ensures counts { (b : ℕ) → waits_for dirty.new b + ends_at (pair ∷ []) b + ends_at barred.old.items b ≡ waits_for dirty.old b + ends_at barred.new.items b }
    ensures pages_room { dirty.new.room ≡ dirty.old.room }
{
    if pairs::contains(barred, pair) {
        dirty.lower(pair.after);
    } else {
        pairs::insert(barred, pair);
    }
}
