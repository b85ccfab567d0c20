// Releases that are applied, and data pages that are given up.
use crate::Core;
use birth_marks::Slot;
use release_queue::{NOT_WRITTEN, Release, WRITTEN};

impl Core {
    ghost use Rattle.std.specs.Prelude.{◌≡◌, ◌<◌, ◌≤◌, ◌⊎◌, ℕ, List, Bool, true, false, cond, length, remove, slice_get, Some};
    ghost use Rattle.page_layout.specs.Shape.{data_page};
    ghost use Rattle.page_cache.specs.View.{holds_in};
    ghost use Rattle.order_model.specs.Paths.{Closes};
    ghost use Rattle.dep_graph.specs.Lists.{dirty_in, hung_in, is_node, live_in, node_count, waits_in};
    ghost use Rattle.flush_engine.specs.Edits.{GivenUp};
    ghost use Rattle.engine_model.specs.SmallPass.{map_edge};
    ghost use Rattle.engine_model.specs.SmallSteps.{given_up, ordered};
    ghost use Rattle.release_queue.specs.declared.Release.{Release};
    ghost use Rattle.store_core.specs.Applied.{AppliesRelease, CanApply, ClearsPrint, GrowsInto, LosesContent, LowersRelease, MapOrdered, Takes, count_of_release, has_print_of, is_last_print, is_loose, is_print_unborn};
    ghost use Rattle.store_core.specs.Edits.{Makes};
    ghost use Rattle.store_core.specs.Frames.{KeepsStands, OnlyEngine};
    ghost use Rattle.store_core.specs.Moments.{AppliesByLaws, ClearsByLaws, GivesUpByLaws, LeavesByLaws, LowersByLaws};
    ghost use Rattle.store_core.specs.Orderly.{IsOrderly, KeepsOrderBut};
    ghost use Rattle.store_core.specs.Placed.{DropStands};
    ghost use Rattle.store_core.specs.Whole.{IsPlaced};

    // map before release: the name is gone, whatever a crash leaves, before the count is lowered. A Live edge while the map page was
    // not written since, and a Barrier edge once it was, even where the page is dirty again. Later, or where the name was unborn,
    // nothing has to come first.
    fn order_release(&mut self, release: Release)
        requires placed { IsPlaced self.old.shape release }
        requires spare { 0 < self.old.engine.graph.spare_edges }
        requires after { dirty_in self.old.engine.graph release.count_at ≡ true }
        requires opens { release.stage ≡ NOT_WRITTEN → Closes (live_in self.old.engine.graph) release.map_at release.count_at → ⊥ }
        ensures ordered { MapOrdered release self.old.engine.graph self.new.engine.graph }
        ensures world { (release.stage ≡ NOT_WRITTEN → dirty_in self.old.engine.graph release.map_at ≡ true) → (release.stage ≡ WRITTEN → hung_in self.old.engine.graph release.map_at ≡ true)
            → Makes (map_edge release.stage release.map_at release.count_at) self.old self.new }
        ensures dirty { self.new.engine.graph.dirty ≡ self.old.engine.graph.dirty }
        ensures tallies { self.new.engine.tallies ≡ self.old.engine.tallies }
        ensures grows { GrowsInto release.count_at self.old.engine.graph self.new.engine.graph }
        ensures takes { Takes 0 1 self.old.engine self.new.engine }
        ensures cache { self.new.engine.cache ≡ self.old.engine.cache }
        ensures rest { OnlyEngine self.old self.new }
        ensures stands { KeepsStands self.old self.new }
        ensures in_order { KeepsOrderBut release.page self.old self.new }
    {
        if release.stage == NOT_WRITTEN {
            self.order(release.map_at, release.count_at);
            return;
        }
        if release.stage == WRITTEN {
            self.order_by_barrier(release.map_at, release.count_at);
        }
    }

    // print before release: the print is gone, whatever a crash leaves, before the count is 0. An unborn print needs no edge.
    fn order_print(&mut self, release: Release)
        requires placed { IsPlaced self.old.shape release }
        requires spare { 0 < self.old.engine.graph.spare_edges }
        requires before { dirty_in self.old.engine.graph release.print_at ≡ true }
        requires after { dirty_in self.old.engine.graph release.count_at ≡ true }
        requires opens { is_print_unborn self.old release ≡ false → Closes (live_in self.old.engine.graph) release.print_at release.count_at → ⊥ }
        ensures ordered { (live_in self.new.engine.graph release.print_at release.count_at ≡ true) ⊎ (is_print_unborn self.old release ≡ true) }
        ensures world { Makes (λ w. cond (is_print_unborn self.old release) w (ordered release.print_at release.count_at w)) self.old self.new }
        ensures dirty { self.new.engine.graph.dirty ≡ self.old.engine.graph.dirty }
        ensures tallies { self.new.engine.tallies ≡ self.old.engine.tallies }
        ensures grows { GrowsInto release.count_at self.old.engine.graph self.new.engine.graph }
        ensures takes { Takes 0 1 self.old.engine self.new.engine }
        ensures cache { self.new.engine.cache ≡ self.old.engine.cache }
        ensures rest { OnlyEngine self.old self.new }
        ensures stands { KeepsStands self.old self.new }
        ensures in_order { KeepsOrderBut release.page self.old self.new }
    {
        let unborn = self.ledger.births.unborn(Slot::Print(release.page), 1);
        if unborn {
            return;
        }
        self.order(release.print_at, release.count_at);
    }

    // The print of a page that has one, and of which the last count is about to go, is taken away.
    fn clear_print(&mut self, release: Release)
        requires placed { IsPlaced self.old.shape release }
        requires count_held { 0 < holds_in self.old.engine.cache release.count_at }
        requires held { 0 < holds_in self.old.engine.cache release.print_at }
        requires node { is_node self.old.engine.graph release.print_at ≡ false → 0 < self.old.engine.graph.spare_nodes }
        requires room { is_node self.old.engine.graph release.print_at ≡ false → node_count self.old.engine.graph < self.old.engine.room }
        requires spare { 0 < self.old.engine.graph.spare_edges }
        requires changes { 0 < self.old.ledger.births.spare }
        requires after { dirty_in self.old.engine.graph release.count_at ≡ true }
        requires one { count_of_release self.old release ≡ 1 }
        requires had { has_print_of self.old release ≡ true }
        requires opens { is_print_unborn self.old release ≡ false → Closes (live_in self.old.engine.graph) release.print_at release.count_at → ⊥ }
        ensures cleared { ClearsPrint release self.old self.new }
        ensures laws { ClearsByLaws release.page self.old self.new }
        ensures stands { KeepsStands self.old self.new }
        ensures in_order { KeepsOrderBut release.page self.old self.new }
    {
        self.touch(release.print_at);
        self.order_print(release);
        self.set_print(release.page, None);
    }

    // The print goes where the count is about to become 0.
    fn clear_last_print(&mut self, release: Release)
        requires placed { IsPlaced self.old.shape release }
        requires count_held { 0 < holds_in self.old.engine.cache release.count_at }
        requires held { 0 < holds_in self.old.engine.cache release.print_at }
        requires node { is_node self.old.engine.graph release.print_at ≡ false → 0 < self.old.engine.graph.spare_nodes }
        requires room { is_node self.old.engine.graph release.print_at ≡ false → node_count self.old.engine.graph < self.old.engine.room }
        requires spare { 0 < self.old.engine.graph.spare_edges }
        requires changes { 0 < self.old.ledger.births.spare }
        requires after { dirty_in self.old.engine.graph release.count_at ≡ true }
        requires opens { is_last_print self.old release ≡ true → Closes (live_in self.old.engine.graph) release.print_at release.count_at → ⊥ }
        ensures cleared { ClearsPrint release self.old self.new }
        ensures laws { ClearsByLaws release.page self.old self.new }
        ensures stands { KeepsStands self.old self.new }
        ensures in_order { KeepsOrderBut release.page self.old self.new }
    {
        let count = self.count_of(release.page);
        if count != 1 {
            return;
        }
        match self.print_of(release.page) {
            Some(_) => self.clear_print(release),
            None => {}
        }
    }

    // The steps of a release but the last: its edges are added, a last print goes, its page is counted once less, and it leaves the
    // queue.
    fn lower_release(&mut self, i: u32, release: Release)
        requires { CanApply i release self.old }
        ensures lowered { LowersRelease i release self.old self.new }
        ensures laws { LowersByLaws i release self.old self.new }
        ensures stands { KeepsStands self.old self.new }
        ensures in_order { KeepsOrderBut release.page self.old self.new }
    {
        self.touch(release.count_at);
        self.order_release(release);
        self.clear_last_print(release);
        self.lower_count(i, release);
    }

    // Whether the content of a data page may be given up: it is dirty and waits for no other page, and nobody holds it.
    fn is_loose(&self, release: Release) -> bool
        requires placed { IsPlaced self.now.shape release }
        ensures { result ≡ is_loose self.now release }
    {
        let at = self.shape.data_place(release.page);
        if !self.engine.graph_seen().ready(at) {
            return false;
        }
        self.engine.cache_seen().holds(at) == 0
    }

    // The content of a data page whose count is 0 is given up where it may be.
    fn lose_content(&mut self, release: Release)
        requires placed { IsPlaced self.old.shape release }
        requires held { 0 < holds_in self.old.engine.cache release.count_at }
        ensures lost { LosesContent release self.old self.new }
        ensures calls { self.new.engine.cache.calls ≡ self.old.engine.cache.calls }
        ensures laws { GivesUpByLaws release.page self.old self.new }
        ensures stands { KeepsStands self.old self.new }
        ensures in_order { KeepsOrderBut release.page self.old self.new }
    {
        let count = self.count_of(release.page);
        if count != 0 {
            return;
        }
        let loose = self.is_loose(release);
        if loose {
            self.give_up(release.page);
        }
    }

    /// A release that is not blocked is applied: its page is counted once less, and it leaves the queue. Its edges are added first. A
    /// last print goes with the last count, and so does the content of a data page that was not written yet, where nobody holds it.
    /// Logarithmic, beside moving small elements of sorted vectors and the releases that come after, and the edges of a data page that
    /// is given up.
    pub fn apply(&mut self, i: u32, release: Release)
        requires { CanApply i release self.old }
        ensures applied { AppliesRelease i release self.old self.new }
        ensures calls { self.new.engine.cache.calls ≡ self.old.engine.cache.calls }
        ensures laws { AppliesByLaws i release self.old self.new }
        ensures stands { KeepsStands self.old self.new }
        ensures orderly { IsOrderly self.old → IsOrderly self.new }
    {
        self.lower_release(i, release);
        self.lose_content(release);
    }

    /// A release on a count of 0, as no honest device brings about, leaves the queue, and nothing is lowered. Its count page is held.
    /// It moves the releases that come after.
    pub fn let_go(&mut self, i: u32)
        requires queued { i < length self.old.ledger.queue.releases }
        requires held { (r : Release) → slice_get self.old.ledger.queue.releases i ≡ Some r → 0 < holds_in self.old.engine.cache r.count_at }
        requires none { (r : Release) → slice_get self.old.ledger.queue.releases i ≡ Some r → count_of_release self.old r ≡ 0 }
        ensures ledger { self.new.ledger ≡ record self.old.ledger { queue = record self.old.ledger.queue { releases = remove self.old.ledger.queue.releases i } } }
        ensures shape { self.new.shape ≡ self.old.shape }
        ensures engine { self.new.engine ≡ self.old.engine }
        ensures laws { (r : Release) → slice_get self.old.ledger.queue.releases i ≡ Some r → LeavesByLaws i r self.old self.new }
        ensures stands { KeepsStands self.old self.new }
        ensures orderly { IsOrderly self.old → IsOrderly self.new }
    {
        let _ = self.ledger.queue.remove(i);
    }

    /// A dirty data page that nobody holds, and to which no edge leads, is given up: its content is lost, with the edges from it.
    /// Logarithmic, beside its edges and moving small elements of sorted vectors.
    pub fn give_up(&mut self, p: u32)
        requires first { 1 ≤ p }
        requires last { p ≤ self.old.shape.pages }
        requires dirty { dirty_in self.old.engine.graph (data_page self.old.shape p) ≡ true }
        requires alone { waits_in self.old.engine.graph (data_page self.old.shape p) ≡ false }
        requires free { holds_in self.old.engine.cache (data_page self.old.shape p) ≡ 0 }
        ensures world { Makes (given_up (data_page self.old.shape p)) self.old self.new }
        ensures stands { DropStands p self.old self.new }
        ensures given_up { GivenUp (data_page self.old.shape p) self.old.engine self.new.engine }
        ensures rest { OnlyEngine self.old self.new }
    {
        let at = self.shape.data_place(p);
        self.engine.give_up(at);
    }
}
