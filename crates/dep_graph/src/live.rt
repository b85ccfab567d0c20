// Live edges, found by the page before and by the page after.
ghost use Rattle.std.specs.Prelude.{◌≡◌, ℕ, ◌+◌, ◌<◌, ◌≤◌, true, false, ◌||◌, ◌&&◌, not, eqb, [], ◌∷◌, length, vec_capacity, OnOk};
ghost use Rattle.dep_graph.specs.Pairs.{has_pair, ends_at, from_page, not_from_page, AreRising, IsTurned};

use crate::pairs::{self, Pair};
use crate::room::room_for;
use std::alloc::{AllocError, Global};
use std::marker::Model;

/// Edges in rising order, and the same edges turned round.
#[derive(Drop)]
pub struct LiveEdges {
    forward: Vec<Pair>,
    back: Vec<Pair>,
}

impl Model for LiveEdges {
    ghost use Rattle.std.specs.Prelude.{min, vec_capacity};
    ghost use Rattle.dep_graph.specs.Pairs.{BothWays, IsTurned};

    ghost Value = { BothWays };

    ghost view = { λ e. record { pairs = e.forward.items; back = e.back.items; room = min (vec_capacity e.forward) (vec_capacity e.back) } };

    ghost invariant = { λ e. IsTurned e.forward.items e.back.items };
}

impl LiveEdges {
    pub fn new(alloc: Global) -> LiveEdges
        ensures { result.pairs ≡ [] }
    {
        LiveEdges {
            forward: Vec::new(alloc),
            back: Vec::new(alloc),
        }
    }

    // Makes room for so many edges in all.
    pub fn reserve(&mut self, all: u32) -> Result<(), AllocError>
        ensures pairs { self.new.pairs ≡ self.old.pairs }
        ensures ok { OnOk result (all ≤ self.new.room) }
        ensures room { self.old.room ≤ self.new.room }
    {
        room_for(&mut self.forward, all as usize)?;
        room_for(&mut self.back, all as usize)?;
        Ok(())
    }

    // Each edge from the page before to the page after.
    pub fn pairs(&self) -> &[Pair]
        ensures pairs { result.now ≡ self.now.pairs }
        ensures rising { AreRising self.now.pairs }
    {
        &self.forward
    }

    // Each edge from the page after to the page before.
    pub fn back(&self) -> &[Pair]
        ensures pairs { result.now ≡ self.now.back }
        ensures turned { IsTurned self.now.pairs self.now.back }
    {
        &self.back
    }

    // Puts an edge in that is not there.
    pub fn insert(&mut self, pair: Pair)
        requires room { length self.old.pairs < self.old.room }
        requires absent { has_pair self.old.pairs pair.before pair.after ≡ false }
        ensures pairs { (a b : ℕ) → has_pair self.new.pairs a b ≡ has_pair self.old.pairs a b || (eqb a pair.before && eqb b pair.after) }
        ensures ends { (b : ℕ) → ends_at self.new.pairs b ≡ ends_at self.old.pairs b + ends_at (pair ∷ []) b }
        ensures rising { AreRising self.new.pairs }
        ensures len { length self.new.pairs ≡ length self.old.pairs + 1 }
        ensures room { self.new.room ≡ self.old.room }
    {
        pairs::insert(&mut self.forward, pair);
        pairs::insert(&mut self.back, pair.turned());
    }

    // Takes out the edges that lead from the page.
    pub fn remove_out_of(&mut self, page: u32)
        ensures pairs { self.new.pairs ≡ not_from_page self.old.pairs page }
        ensures rising { AreRising self.new.pairs }
        ensures room { self.new.room ≡ self.old.room }
    {
        remove_turned(&mut self.back, pairs::out_of(&self.forward, page));
        pairs::remove_out_of(&mut self.forward, page);
    }
}

// Takes out each of these edges, turned round.
fn remove_turned(back: &mut Vec<Pair>, gone: &[Pair])
    requires rising { AreRising back.old.items }
    requires gone_rising { AreRising gone.now }
    requires there { (a b : ℕ) → has_pair gone.now a b ≡ true → has_pair back.old.items b a ≡ true }
    ensures pairs { (a b : ℕ) → has_pair back.new.items b a ≡ (has_pair back.old.items b a && not (has_pair gone.now a b)) }
    ensures rising { AreRising back.new.items }
    ensures len { length back.new.items + length gone.now ≡ length back.old.items }
    ensures room { vec_capacity back.new ≡ vec_capacity back.old }
{
    for pair in gone {
        pairs::remove(back, pair.turned());
    }
}
