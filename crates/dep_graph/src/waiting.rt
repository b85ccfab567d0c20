// The dirty pages, each with the number of edges that lead to it, and those to which none leads.
ghost use Rattle.std.specs.Prelude.{◌≡◌, ℕ, ◌+◌, ◌-◌, ◌<◌, ◌≤◌, ◌^◌, Bool, false, true, ◌||◌, ◌&&◌, not, eqb, length, [], OnOk, if◌then◌else◌};
ghost use Rattle.dep_graph.specs.Pages.{holds, IsLeast, IsRising};
ghost use Rattle.dep_graph.specs.Waits.{waits_for};

use crate::pages;
use crate::room::{insert_at, room_for};
use std::alloc::{AllocError, Global};
use std::marker::Model;

/// Pages and the edges that lead to them.
#[derive(Drop)]
pub struct Waiting {
    pages: Vec<u32>,
    counts: Vec<u32>,
    ready: Vec<u32>,
}

impl Model for Waiting {
    ghost use Rattle.std.specs.Prelude.{min, vec_capacity};
    ghost use Rattle.dep_graph.specs.Waits.{IsWaiting, Waits};

    ghost Value = { Waits };

    ghost view = { λ w. record { pages = w.pages.items; counts = w.counts.items; room = min (vec_capacity w.pages) (min (vec_capacity w.counts) (vec_capacity w.ready)) } };

    ghost invariant = { λ w. IsWaiting w.pages.items w.counts.items w.ready.items };
}

impl Waiting {
    pub fn new(alloc: Global) -> Waiting
        ensures { result.pages ≡ [] }
    {
        Waiting {
            pages: Vec::new(alloc),
            counts: Vec::new(alloc),
            ready: Vec::new(alloc),
        }
    }

    // Makes room for so many pages in all.
    pub fn reserve(&mut self, all: u32) -> Result<(), AllocError>
        ensures pages { self.new.pages ≡ self.old.pages }
        ensures counts { self.new.counts ≡ self.old.counts }
        ensures ok { OnOk result (all ≤ self.new.room) }
        ensures room { self.old.room ≤ self.new.room }
    {
        room_for(&mut self.pages, all as usize)?;
        room_for(&mut self.counts, all as usize)?;
        room_for(&mut self.ready, all as usize)?;
        Ok(())
    }

    pub fn pages(&self) -> &[u32]
        ensures pages { result.now ≡ self.now.pages }
        ensures rising { IsRising self.now.pages }
    {
        &self.pages
    }

    pub fn contains(&self, page: u32) -> bool
        ensures { result ≡ holds self.now.pages page }
    {
        pages::contains(&self.pages, page)
    }

    // No edge leads to the page, which is one of these.
    pub fn is_ready(&self, page: u32) -> bool
        ensures { result ≡ (holds self.now.pages page && eqb (waits_for self.now page) 0) }
    {
        pages::contains(&self.ready, page)
    }

    pub fn first_ready(&self, from: u32) -> Option<u32>
        ensures { IsLeast (λ page. (holds self.now.pages page && eqb (waits_for self.now page) 0) ≡ true) from result }
    {
        pages::first_from(&self.ready, from)
    }

    // The pages to which no edge leads.
    pub fn ready(&self) -> &[u32]
        ensures pages { (a : ℕ) → holds result.now a ≡ (holds self.now.pages a && eqb (waits_for self.now a) 0) }
        ensures rising { IsRising result.now }
        ensures some { length result.now ≤ length self.now.pages }
    {
        &self.ready
    }

    // Takes in a page to which no edge leads.
    pub fn enter(&mut self, page: u32)
        requires absent { holds self.old.pages page ≡ false }
        requires room { length self.old.pages < self.old.room }
        ensures pages { (a : ℕ) → holds self.new.pages a ≡ holds self.old.pages a || eqb a page }
        ensures counts { (a : ℕ) → waits_for self.new a ≡ waits_for self.old a }
        ensures rising { IsRising self.new.pages }
        ensures room { self.new.room ≡ self.old.room }
    {
        let at = pages::insert(&mut self.pages, page);
        insert_at(&mut self.counts, at, 0);
        pages::insert(&mut self.ready, page);
    }

    // Lets a page go to which no edge leads.
    pub fn leave(&mut self, page: u32)
        requires there { holds self.old.pages page ≡ true }
        requires ready { waits_for self.old page ≡ 0 }
        ensures pages { (a : ℕ) → holds self.new.pages a ≡ holds self.old.pages a && not (eqb a page) }
        ensures counts { (a : ℕ) → waits_for self.new a ≡ waits_for self.old a }
        ensures rising { IsRising self.new.pages }
        ensures room { self.new.room ≡ self.old.room }
    {
        let at = pages::remove(&mut self.pages, page);
        self.counts.remove(at);
        pages::remove(&mut self.ready, page);
    }

    // One edge more leads to the page.
    pub fn raise(&mut self, page: u32)
        requires there { holds self.old.pages page ≡ true }
        requires few { waits_for self.old page + 1 < 2 ^ 32 }
        ensures pages { self.new.pages ≡ self.old.pages }
        ensures counts { (a : ℕ) → waits_for self.new a ≡ (if eqb a page then waits_for self.old a + 1 else waits_for self.old a) }
        ensures room { self.new.room ≡ self.old.room }
    {
        let at = pages::position_of(&self.pages, page);
        let count = self.counts[at];
        self.counts[at] = count + 1;
        if count == 0 {
            pages::remove(&mut self.ready, page);
        }
    }

    // One edge less leads to the page.
    pub fn lower(&mut self, page: u32)
        requires some { 0 < waits_for self.old page }
        requires room { length self.old.pages ≤ self.old.room }
        ensures pages { self.new.pages ≡ self.old.pages }
        ensures counts { (a : ℕ) → waits_for self.new a ≡ (if eqb a page then waits_for self.old a - 1 else waits_for self.old a) }
        ensures room { self.new.room ≡ self.old.room }
    {
        let at = pages::position_of(&self.pages, page);
        let count = self.counts[at];
        self.counts[at] = count - 1;
        if count == 1 {
            pages::insert(&mut self.ready, page);
        }
    }
}
