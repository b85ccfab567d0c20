// Pairs of pages in rising order, in a vector. No call takes memory.
ghost use Rattle.std.specs.Prelude.{◌≡◌, ℕ, ◌+◌, ◌<◌, ◌≤◌, Bool, false, true, ◌||◌, ◌&&◌, not, eqb, [], ◌∷◌, length, vec_len, vec_capacity};
ghost use Rattle.dep_graph.specs.Pairs.{has_pair, ends_at, from_page, not_from_page, same_pair, AreRising, IsPairPlace, IsRange, precedes};

use crate::room::{cut_out, insert_at};

/// One page that must be on the device before another.
#[derive(Clone, Copy)]
pub struct Pair {
    pub before: u32,
    pub after: u32,
}

impl Pair {
    /// The pair turned round.
    pub fn turned(&self) -> Pair
        ensures before { result.before ≡ self.now.after }
        ensures after { result.after ≡ self.now.before }
    {
        Pair {
            before: self.after,
            after: self.before,
        }
    }

    fn is(&self, other: Pair) -> bool
        ensures { result ≡ same_pair self.now other }
    {
        self.before == other.before && self.after == other.after
    }

    fn precedes(&self, other: Pair) -> bool
        ensures { result ≡ precedes self.now other }
    {
        self.before < other.before || self.before == other.before && self.after < other.after
    }
}

// How many of the pairs precede this one.
fn place_of(pairs: &[Pair], pair: Pair) -> usize
    requires { AreRising pairs.now }
    ensures { IsPairPlace pairs.now pair result }
{
    pairs.partition_point(|p| p.precedes(pair))
}

// Whether the pair is one of them.
pub fn contains(pairs: &[Pair], pair: Pair) -> bool
    requires { AreRising pairs.now }
    ensures { result ≡ has_pair pairs.now pair.before pair.after }
{
    let at = place_of(pairs, pair);
    at < pairs.len() && pairs[at].is(pair)
}

// Puts a pair in that is not there.
pub fn insert(pairs: &mut Vec<Pair>, pair: Pair)
    requires rising { AreRising pairs.old.items }
    requires room { vec_len pairs.old < vec_capacity pairs.old }
    requires absent { has_pair pairs.old.items pair.before pair.after ≡ false }
    ensures pairs { (a b : ℕ) → has_pair pairs.new.items a b ≡ has_pair pairs.old.items a b || (eqb a pair.before && eqb b pair.after) }
    ensures ends { (b : ℕ) → ends_at pairs.new.items b ≡ ends_at pairs.old.items b + ends_at (pair ∷ []) b }
    ensures rising { AreRising pairs.new.items }
    ensures len { length pairs.new.items ≡ length pairs.old.items + 1 }
    ensures room { vec_capacity pairs.new ≡ vec_capacity pairs.old }
{
    let at = place_of(pairs, pair);
    insert_at(pairs, at, pair);
}

// Takes out a pair that is there.
pub fn remove(pairs: &mut Vec<Pair>, pair: Pair)
    requires rising { AreRising pairs.old.items }
    requires present { has_pair pairs.old.items pair.before pair.after ≡ true }
    ensures pairs { (a b : ℕ) → has_pair pairs.new.items a b ≡ (has_pair pairs.old.items a b && not (eqb a pair.before && eqb b pair.after)) }
    ensures rising { AreRising pairs.new.items }
    ensures len { length pairs.new.items + 1 ≡ length pairs.old.items }
    ensures room { vec_capacity pairs.new ≡ vec_capacity pairs.old }
{
    let at = place_of(pairs, pair);
    let _ = pairs.remove(at);
}

// Where the pairs that begin at the page stand: from the first place up to the second.
fn range_of(pairs: &[Pair], page: u32) -> (usize, usize)
    requires { AreRising pairs.now }
    ensures { IsRange pairs.now page result.0 result.1 }
{
    let first = pairs.partition_point(|p| p.before < page);
    let end = pairs.partition_point(|p| p.before <= page);
    (first, end)
}

// The pairs that begin at the page.
pub fn out_of(pairs: &[Pair], page: u32) -> &[Pair]
    requires { AreRising pairs.now }
    ensures { result.now ≡ from_page pairs.now page }
{
    let (first, end) = range_of(pairs, page);
    &pairs[first..end]
}

// Takes out the pairs that begin at the page.
pub fn remove_out_of(pairs: &mut Vec<Pair>, page: u32)
    requires { AreRising pairs.old.items }
    ensures items { pairs.new.items ≡ not_from_page pairs.old.items page }
    ensures rising { AreRising pairs.new.items }
    ensures room { vec_capacity pairs.new ≡ vec_capacity pairs.old }
{
    let (first, end) = range_of(pairs, page);
    cut_out(pairs, first, end);
}
