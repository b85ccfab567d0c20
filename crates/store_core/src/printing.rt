// The prints of data pages.
ghost use Rattle.std.specs.Prelude.{◌≡◌};
ghost use Rattle.engine_model.specs.Births.{has_print};
ghost use Rattle.store_core.specs.Printed.{had_print};

use crate::Core;
use birth_marks::Slot;
use page_cache::edits_one_page;
use page_layout::{print_entry, set_print_entry};

// What births are told that the slot of a print had, and has.
fn values(print: &Option<[u8; 20]>) -> (u32, u32)
    ensures from { result.0 ≡ had_print print.now }
    ensures to { result.1 ≡ has_print print.now }
{
    match print {
        Some(_) => (0, 1),
        None => (1, 0),
    }
}

impl Core {
    ghost use Rattle.std.specs.Prelude.{◌≡◌, ◌<◌, ◌≤◌, ℕ, List, Bool, true};
    ghost use Rattle.page_layout.specs.Shape.{print_page, print_place};
    ghost use Rattle.page_layout.specs.Tables.{print_entry_of};
    ghost use Rattle.page_cache.specs.View.{holds_in, is_there};
    ghost use Rattle.dep_graph.specs.Lists.{dirty_in};
    ghost use Rattle.store_core.specs.Printed.{PrintStands, PrintsPage};
    ghost use Rattle.store_core.specs.Views.{page_in};

    /// The print of a data page, by a print page that is in memory. Constant.
    pub fn print_of(&self, p: u32) -> Option<[u8; 20]>
        requires first { 1 ≤ p }
        requires last { p ≤ self.now.shape.pages }
        requires there { is_there self.now.engine.cache (print_page self.now.shape p) ≡ true }
        ensures { result ≡ print_entry_of (page_in self.now (print_page self.now.shape p)) (print_place p) }
    {
        let (at, entry) = self.shape.print_place(p);
        match self.engine.cache_seen().look(at) {
            Some(page) => print_entry(page, entry),
            None => None,
        }
    }

    /// A data page without a print gets one, or one with a print loses it. Births are told of the change. The print page is held and
    /// dirty, and there is room for a change. Constant.
    pub fn set_print(&mut self, p: u32, print: Option<[u8; 20]>)
        requires first { 1 ≤ p }
        requires last { p ≤ self.old.shape.pages }
        requires held { 0 < holds_in self.old.engine.cache (print_page self.old.shape p) }
        requires dirty { dirty_in self.old.engine.graph (print_page self.old.shape p) ≡ true }
        requires spare { 0 < self.old.ledger.births.spare }
        ensures printed { PrintsPage p print self.old self.new }
        ensures stands { PrintStands p print self.old self.new }
    {
        edits_one_page();
        let shape = self.shape;
        let (at, entry) = shape.print_place(p);
        set_print_entry(self.engine.cache().edit(at), entry, print);
        let (from, to) = values(&print);
        self.ledger.births.change(Slot::Print(p), at, from, to);
    }
}
