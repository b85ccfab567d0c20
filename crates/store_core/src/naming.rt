// The names of blocks, and the releases that they owe.
ghost use Rattle.std.specs.Prelude.{◌≡◌, ◌<◌, ◌≤◌};
ghost use Rattle.store_core.specs.Edits.{release_of};

use crate::Core;
use birth_marks::Slot;
use page_cache::edits_one_page;
use page_layout::Shape;
use release_queue::{NOT_WRITTEN, Release, UNBORN};

// The release that a block owes to a data page.
fn release_of(shape: &Shape, block: u32, p: u32, unborn: bool) -> Release
    requires block { block < shape.now.blocks }
    requires first { 1 ≤ p }
    requires last { p ≤ shape.now.pages }
    ensures { result ≡ release_of shape.now block p unborn }
{
    let (map_at, _) = shape.map_place(block);
    let (count_at, _) = shape.count_place(p);
    let (print_at, _) = shape.print_place(p);
    let stage = if unborn { UNBORN } else { NOT_WRITTEN };
    Release {
        block,
        page: p,
        map_at,
        count_at,
        print_at,
        stage,
        look: true,
    }
}

impl Core {
    ghost use Rattle.std.specs.Prelude.{◌≡◌, ◌<◌, ◌≤◌, ℕ, List, Bool, true, false, eqb, length};
    ghost use Rattle.page_layout.specs.Shape.{map_page};
    ghost use Rattle.page_cache.specs.View.{holds_in, is_there};
    ghost use Rattle.dep_graph.specs.Lists.{dirty_in};
    ghost use Rattle.store_core.specs.Edits.{NamesBlock, named_in};
    ghost use Rattle.store_core.specs.Named.{NameStands};

    /// The data page that a block names, or 0, by a map page that is in memory. Constant.
    pub fn name_of(&self, block: u32) -> u32
        requires block { block < self.now.shape.blocks }
        requires there { is_there self.now.engine.cache (map_page block) ≡ true }
        ensures { result ≡ named_in self.now block }
    {
        let (at, _) = self.shape.map_place(block);
        match self.engine.cache_seen().look(at) {
            Some(page) => logical_map::slot(&self.shape, page, block),
            None => 0,
        }
    }

    /// A block takes the name of a data page, or none, and owes a release of the page that it named. Births are told of the change.
    /// The map page is held and dirty, the old name is one of the format, and there is a place in the queue and room for a change.
    /// Constant.
    pub fn set_name(&mut self, block: u32, p: u32)
        requires block { block < self.old.shape.blocks }
        requires held { 0 < holds_in self.old.engine.cache (map_page block) }
        requires dirty { dirty_in self.old.engine.graph (map_page block) ≡ true }
        requires place { eqb (length self.old.ledger.queue.releases) self.old.ledger.queue.limit ≡ false }
        requires old { named_in self.old block ≤ self.old.shape.pages }
        requires spare { 0 < self.old.ledger.births.spare }
        ensures named { NamesBlock block p self.old self.new }
        ensures stands { NameStands block p self.old self.new }
    {
        edits_one_page();
        let shape = self.shape;
        let (at, _) = shape.map_place(block);
        let page = self.engine.cache().edit(at);
        let old = logical_map::slot(&shape, page, block);
        logical_map::set_slot(&shape, page, block, p);
        let unborn = self.ledger.births.unborn(Slot::Name(block), old);
        self.ledger.births.change(Slot::Name(block), at, old, p);
        if old != 0 {
            let release = release_of(&shape, block, old, unborn);
            self.ledger.queue.push(release);
        }
    }
}
