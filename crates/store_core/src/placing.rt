// Data pages: which are free, what they hold, fresh ones, and those that are given up.
ghost use Rattle.std.specs.Prelude.{◌≡◌, false, OnErr, OnOk};
ghost use Rattle.page_cache.specs.Calls.{Same};
ghost use Rattle.page_cache.specs.View.{dirty_in as cached_dirty, holds_in};
ghost use Rattle.store_core.specs.Placed.{FreeWhereGiven, TakenIn};

use crate::Core;
use flush_engine::touched_is_whole;
use page_cache::{Cache, NoMemory, Page, edits_one_page};

/// A page that the pool gives is free, whatever the core stands for: no count of it is above 0, in the cache and in whatever a crash
/// may leave.
pub fn given_page_is_free()
    ensures { FreeWhereGiven }
{}

// A page that is not dirty and that nobody holds gets this content, and is held.
fn take_in(cache: &mut Cache, page: u32, from: &Page) -> Result<(), NoMemory>
    requires clean { cached_dirty cache.old page ≡ false }
    requires free { holds_in cache.old page ≡ 0 }
    ensures ok { OnOk result (TakenIn page from.now cache.old cache.new) }
    ensures err { OnErr result (Same cache.old cache.new) }
{
    match cache.place(page, from) {
        Ok(()) => {}
        Err(_) => return Err(NoMemory),
    }
    // Nobody held it, so one hold more is none too many.
    match cache.hold(page) {
        Ok(()) => Ok(()),
        Err(_) => Err(NoMemory),
    }
}

impl Core {
    ghost use Rattle.std.specs.Prelude.{◌≡◌, ◌≢◌, ◌⊎◌, ◌<◌, ◌≤◌, ◌+◌, ◌||◌, ℕ, List, Bool, true, false, cond, eqb, Some, IfNone, IfSome, OnOk, OnErr};
    ghost use Rattle.page_device.specs.Meaning.{Meaning};
    ghost use Rattle.page_layout.specs.Shape.{data_page};
    ghost use Rattle.page_cache.specs.View.{content_in, holds_in, is_there};
    ghost use Rattle.dep_graph.specs.Lists.{dirty_in, entered, is_node, node_count};
    ghost use Rattle.order_model.specs.Pool.{is_free};
    ghost use Rattle.page_alloc.specs.Pool.{told_of};
    ghost use Rattle.flush_engine.specs.Tallies.{counted};
    ghost use Rattle.engine_model.specs.SmallSteps.{placed};
    ghost use Rattle.store_core.specs.Frames.{OnlyEngine};
    ghost use Rattle.store_core.specs.Orderly.{OnlyCame};
    ghost use Rattle.store_core.specs.Placed.{IsFreePage, MakesOver, PlaceStands, SameCore};
    ghost use Rattle.store_core.specs.Quiet.{Quiet, none};
    ghost use Rattle.store_core.specs.Views.{page_in};

    /// The lowest free data page. Constant.
    pub fn lowest_free(&self) -> Option<u32>
        ensures free { IfSome result (λ p. IsFreePage p self.now) }
        ensures lowest { IfSome result (λ p. (q : ℕ) → 1 ≤ q → q < p → is_free (told_of self.now.ledger.pool q) ≡ false) }
        ensures none { IfNone result ((q : ℕ) → 1 ≤ q → q ≤ self.now.shape.pages → is_free (told_of self.now.ledger.pool q) ≡ false) }
    {
        self.ledger.pool.lowest()
    }

    /// Whether the pool gives a data page. Constant.
    pub fn is_free(&self, p: u32) -> bool
        requires first { 1 ≤ p }
        requires last { p ≤ self.now.shape.pages }
        ensures { result ≡ is_free (told_of self.now.ledger.pool p) }
    {
        self.ledger.pool.is_free(p)
    }

    /// Whether a page is not dirty and nobody holds it. Logarithmic.
    pub fn is_idle(&self, page: u32) -> bool
        ensures clean { result ≡ true → dirty_in self.now.engine.graph page ≡ false }
        ensures free { result ≡ true → holds_in self.now.engine.cache page ≡ 0 }
        ensures busy { result ≡ false → (dirty_in self.now.engine.graph page ≡ true) ⊎ (0 < holds_in self.now.engine.cache page) }
    {
        if self.engine.graph_seen().is_dirty(page) {
            return false;
        }
        self.engine.cache_seen().holds(page) == 0
    }

    /// Whether a page that is in memory has this content. It compares two pages.
    pub fn is_same(&self, page: u32, from: &Page) -> bool
        requires { is_there self.now.engine.cache page ≡ true }
        ensures same { result ≡ true → page_in self.now page ≡ from.now }
        ensures differs { result ≡ false → page_in self.now page ≢ from.now }
    {
        match self.engine.cache_seen().look(page) {
            Some(found) => found.0 == from.0,
            None => false,
        }
    }

    /// A data page that is not dirty and that nobody holds gets this content, and is dirty and held. A page that is not hung takes a
    /// spare node. Logarithmic, beside copying one page and moving small elements of sorted vectors.
    ///
    /// `NoMemory` where no memory is found for the page; the core is as before then.
    pub fn place(&mut self, p: u32, from: &Page) -> Result<(), NoMemory>
        requires first { 1 ≤ p }
        requires last { p ≤ self.old.shape.pages }
        requires clean { dirty_in self.old.engine.graph (data_page self.old.shape p) ≡ false }
        requires free { holds_in self.old.engine.cache (data_page self.old.shape p) ≡ 0 }
        requires spare { is_node self.old.engine.graph (data_page self.old.shape p) ≡ false → 0 < self.old.engine.graph.spare_nodes }
        requires room { is_node self.old.engine.graph (data_page self.old.shape p) ≡ false → node_count self.old.engine.graph < self.old.engine.room }
        ensures rest { OnlyEngine self.old self.new }
        ensures ok { OnOk result (MakesOver (placed (data_page self.old.shape p) from.now) self.old self.new) }
        ensures stands { OnOk result (PlaceStands p self.old self.new) }
        ensures err { OnErr result (SameCore self.old self.new) }
        ensures quiet { OnErr result ((d : Meaning) → Quiet none d d self.old self.new) }
        ensures holds { OnOk result ((q : ℕ) → holds_in self.new.engine.cache q ≡ holds_in self.old.engine.cache q + cond (eqb q (data_page self.old.shape p)) 1 0) }
        ensures held { OnOk result ((q : ℕ) → 0 < holds_in self.old.engine.cache q → content_in self.new.engine.cache q ≡ content_in self.old.engine.cache q) }
        ensures came { OnlyCame (data_page self.old.shape p) self.old self.new }
        ensures content { OnOk result (content_in self.new.engine.cache (data_page self.old.shape p) ≡ Some from.now) }
        ensures graph { OnOk result (self.new.engine.graph ≡ entered (data_page self.old.shape p) self.old.engine.graph) }
        ensures dirty { OnOk result ((a : ℕ) → dirty_in self.new.engine.graph a ≡ (dirty_in self.old.engine.graph a || eqb a (data_page self.old.shape p))) }
        ensures nodes { OnOk result (node_count self.new.engine.graph ≤ node_count self.old.engine.graph + 1) }
        ensures tallies { OnOk result (self.new.engine.tallies ≡ counted (data_page self.old.shape p) self.old.engine.tallies) }
        ensures calls { OnOk result (self.new.engine.cache.calls ≡ self.old.engine.cache.calls) }
    {
        edits_one_page();
        touched_is_whole();
        let at = self.shape.data_place(p);
        match take_in(self.engine.cache(), at, from) {
            Ok(()) => {}
            Err(_) => return Err(NoMemory),
        }
        let _ = self.engine.touch(at);
        Ok(())
    }
}
