// Edits of pages, and the order of their writes.
ghost use Rattle.std.specs.Prelude.{◌≡◌, ◌<◌, true, false, nat_le, map};
ghost use Rattle.order_model.specs.Paths.{Closes};
ghost use Rattle.page_cache.specs.View.{holds_in};
ghost use Rattle.dep_graph.specs.Lists.{dirty_in, is_node, live_in, node_count, waits_in};
ghost use Rattle.flush_engine.specs.Tallies.{older};
ghost use Rattle.flush_engine.specs.View.{IsWhole};
ghost use Rattle.flush_engine.specs.Edits.{GivenUp, Ordered, marked};

use crate::tallies::{count, leave, raise};
use crate::writer::Writer;
use dep_graph::Kind;

impl Writer {
    // Whether as many pages are dirty or hung as there is room for.
    pub(crate) fn is_full(&self) -> bool
        ensures { result ≡ nat_le self.now.room (node_count self.now.graph) }
    {
        self.graph.nodes() as usize >= self.tallies.capacity()
    }

    // How many pages there is room for.
    pub(crate) fn room(&self) -> usize
        ensures { result ≡ self.now.room }
    {
        self.tallies.capacity()
    }

    // Enters a page in the graph, and counts one edit.
    pub(crate) fn mark(&mut self, page: u32)
        requires spare { is_node self.old.graph page ≡ false → 0 < self.old.graph.spare_nodes }
        requires room { is_node self.old.graph page ≡ false → node_count self.old.graph < self.old.room }
        requires whole { IsWhole self.old }
        ensures { self.new ≡ marked page self.old }
    {
        count(&mut self.tallies, page);
        self.graph.enter(page);
    }

    // Orders one page before another.
    pub(crate) fn order(&mut self, before: u32, after: u32)
        requires after { dirty_in self.old.graph after ≡ true }
        requires spare { 0 < self.old.graph.spare_edges }
        requires opens { Closes (live_in self.old.graph) before after → ⊥ }
        requires whole { IsWhole self.old }
        ensures order { Ordered before after self.old.graph self.new.graph }
        ensures others { self.new ≡ record self.old { graph = self.new.graph } }
    {
        if self.graph.is_dirty(before) {
            self.graph.add(before, after, Kind::Live);
        } else if self.graph.is_hung(before) {
            self.graph.add(before, after, Kind::Barrier);
        }
    }

    // Takes out a dirty page.
    pub(crate) fn give_up(&mut self, page: u32)
        requires dirty { dirty_in self.old.graph page ≡ true }
        requires alone { waits_in self.old.graph page ≡ false }
        requires free { holds_in self.old.cache page ≡ 0 }
        requires whole { IsWhole self.old }
        ensures { GivenUp page self.old self.new }
    {
        self.cache.give_up(page);
        leave(&mut self.tallies, page);
        self.graph.drop_node(page);
    }

    // Counts a turn in the age of each dirty page.
    pub(crate) fn turn_done(&mut self)
        ensures { self.new ≡ record self.old { tallies = map older self.old.tallies } }
    {
        raise(&mut self.tallies);
    }
}
