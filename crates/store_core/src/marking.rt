// Pages that become dirty, and the order in which they are written.
ghost use Rattle.std.specs.Prelude.{◌≡◌, ◌<◌, true};
ghost use Rattle.dep_graph.specs.Lists.{IsGraph, dirty_in};
ghost use Rattle.store_core.specs.Edits.{Barred};

use crate::Core;
use dep_graph::{Graph, Kind};
use flush_engine::touched_is_whole;
use page_cache::edits_one_page;

// A barrier must come ahead of the next write of one page where the other is hung.
fn bar(graph: &mut Graph, before: u32, after: u32)
    requires spare { 0 < graph.old.spare_edges }
    requires after { dirty_in graph.old after ≡ true }
    requires graph { IsGraph graph.old }
    ensures { Barred before after graph.old graph.new }
{
    let hung = graph.is_hung(before);
    if hung {
        graph.add(before, after, Kind::Barrier);
    }
}

impl Core {
    ghost use Rattle.std.specs.Prelude.{◌≡◌, ◌+◌, ◌<◌, ◌≤◌, ◌||◌, ℕ, List, Bool, true, false, cond, eqb};
    ghost use Rattle.page_cache.specs.View.{holds_in};
    ghost use Rattle.order_model.specs.Paths.{Closes};
    ghost use Rattle.dep_graph.specs.Lists.{dirty_in, entered, is_node, live_in, node_count};
    ghost use Rattle.flush_engine.specs.Edits.{Ordered};
    ghost use Rattle.flush_engine.specs.Tallies.{counted};
    ghost use Rattle.engine_model.specs.Entries.{EdgeKind, IsTable};
    ghost use Rattle.engine_model.specs.SmallSteps.{ordered_after, ordered_by_barrier, touched};
    ghost use Rattle.store_core.specs.Edits.{Barred, Makes};
    ghost use Rattle.store_core.specs.Frames.{KeepsStands, OnlyEngine, SameHolds};
    ghost use Rattle.store_core.specs.Layout.{lay_of};
    ghost use Rattle.store_core.specs.Views.{page_in};

    /// A held page is dirty from now on, with the content that it has, and one edit of it is counted. A page that is neither dirty
    /// nor hung takes a spare node. Logarithmic, beside moving small elements of sorted vectors.
    pub fn touch(&mut self, page: u32)
        requires held { 0 < holds_in self.old.engine.cache page }
        requires spare { is_node self.old.engine.graph page ≡ false → 0 < self.old.engine.graph.spare_nodes }
        requires room { is_node self.old.engine.graph page ≡ false → node_count self.old.engine.graph < self.old.engine.room }
        ensures world { Makes (touched page) self.old self.new }
        ensures stands { IsTable (lay_of self.old.shape) page → KeepsStands self.old self.new }
        ensures graph { self.new.engine.graph ≡ entered page self.old.engine.graph }
        ensures dirty { (a : ℕ) → dirty_in self.new.engine.graph a ≡ (dirty_in self.old.engine.graph a || eqb a page) }
        ensures nodes { node_count self.new.engine.graph ≤ node_count self.old.engine.graph + 1 }
        ensures spare_nodes { self.old.engine.graph.spare_nodes ≤ self.new.engine.graph.spare_nodes + 1 }
        ensures tallies { self.new.engine.tallies ≡ counted page self.old.engine.tallies }
        ensures same { SameHolds self.old self.new }
        ensures pages { (q : ℕ) → page_in self.new q ≡ page_in self.old q }
        ensures rest { OnlyEngine self.old self.new }
    {
        edits_one_page();
        touched_is_whole();
        let _ = self.engine.touch(page);
    }

    /// One page must be on the device ahead of the next write of the other: a Live edge where it is dirty, a Barrier edge where it is
    /// hung alone, and nothing where it is neither. A new edge takes a spare one. Logarithmic, beside moving small elements of
    /// sorted vectors.
    pub fn order(&mut self, before: u32, after: u32)
        requires spare { 0 < self.old.engine.graph.spare_edges }
        requires after { dirty_in self.old.engine.graph after ≡ true }
        requires opens { dirty_in self.old.engine.graph before ≡ true → Closes (live_in self.old.engine.graph) before after → ⊥ }
        ensures world { Makes (ordered_after before after) self.old self.new }
        ensures stands { EdgeKind (lay_of self.old.shape) before after → KeepsStands self.old self.new }
        ensures ordered { Ordered before after self.old.engine.graph self.new.engine.graph }
        ensures nodes { node_count self.new.engine.graph ≡ node_count self.old.engine.graph }
        ensures others { self.new.engine ≡ record self.old.engine { graph = self.new.engine.graph } }
        ensures rest { OnlyEngine self.old self.new }
    {
        self.engine.order(before, after);
    }

    /// A barrier must come ahead of the next write of one page where the other is hung, also where that one is dirty again: a Barrier
    /// edge, which takes a spare one where it is new. Logarithmic, beside moving small elements of sorted vectors.
    pub fn order_by_barrier(&mut self, before: u32, after: u32)
        requires spare { 0 < self.old.engine.graph.spare_edges }
        requires after { dirty_in self.old.engine.graph after ≡ true }
        ensures world { Makes (λ w. cond (w.hung before) (ordered_by_barrier before after w) w) self.old self.new }
        ensures stands { EdgeKind (lay_of self.old.shape) before after → KeepsStands self.old self.new }
        ensures barred { Barred before after self.old.engine.graph self.new.engine.graph }
        ensures nodes { node_count self.new.engine.graph ≡ node_count self.old.engine.graph }
        ensures others { self.new.engine ≡ record self.old.engine { graph = self.new.engine.graph } }
        ensures rest { OnlyEngine self.old self.new }
    {
        bar(self.engine.graph(), before, after);
    }
}
