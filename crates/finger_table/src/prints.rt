// The prints of all data pages.
ghost use Rattle.std.specs.Prelude.{◌≡◌, ◌≢◌, ◌↔◌, ◌≤◌, ℕ, List, length, true, None, Some, IfOk, OnOk, OnErr, IsOk};
ghost use Rattle.std.specs.List.Sorted.{IsStrictlyIncreasing};
ghost use Rattle.finger_table.specs.Index.{print_at, is_ready, StandsIn};
ghost use Rattle.finger_table.specs.Order.{bucket_of, print_in};

use crate::bulk::{fill_lists, sort_lists};
use crate::lists::{lengthen, make_lists, put_page, reserve, take_page};
use crate::order::{list_of, part_of, place};
use page_device::NoMemory;
use std::alloc::Global;
use std::marker::Model;

/// The print of each data page that has one, and the pages of each print.
///
/// A table has the print of each page, and 65,536 lists, one for each value of a print's first two
/// bytes, have the pages in the order of their prints. So a print of a fair hash is looked up among
/// some 16 of a million. An image whose prints all begin alike has them in one list: a look-up is then
/// logarithmic still, and an insert or a remove moves up to 4 bytes for each print behind it.
///
/// Memory: 24 bytes for each page up to the highest with a print, 4 for each print, each at most
/// doubled while they grow, and 1.5 MiB for the lists.
#[derive(Drop)]
pub struct Prints {
    alloc: Global,
    // By the number of the page.
    table: Vec<Option<[u8; 20]>>,
    // None before the first reserve.
    lists: Vec<Vec<u32>>,
}

impl Model for Prints {
    ghost use Rattle.finger_table.specs.Order.{print_in};
    ghost use Rattle.finger_table.specs.Index.{PrintsView, list_at, rooms_of, IsIndexed};

    ghost Value = { PrintsView };

    ghost view = { λ s. record {
      prints = s.table.items;
      rooms = rooms_of s.lists.items;
    } };

    ghost invariant = { λ s. IsIndexed (print_in s.table.items) (list_at s.lists.items) };
}

impl Prints {
    /// No prints. Takes no memory, which no clause says.
    pub fn new(alloc: Global) -> Prints
        ensures { (p : ℕ) → print_at result p ≡ None }
    {
        Prints {
            alloc,
            table: Vec::new(alloc),
            lists: Vec::new(alloc),
        }
    }

    /// The prints of a whole table by the number of the page, which need not be in any order. Takes the lists beside the
    /// table. Linear in the table, beside a sort of each list: a step that is logarithmic in its list for each print,
    /// whatever the prints are. It does not say that there is memory.
    pub fn from_table(alloc: Global, table: Vec<Option<[u8; 20]>>) -> Result<Prints, NoMemory>
        requires { length table.items ≤ 4294967295 }
        ensures { IfOk result (λ prints. (p : ℕ) → print_at prints p ≡ print_in table.items p) }
    {
        let mut lists = Vec::new(alloc);
        match make_lists(alloc, &mut lists) {
            Ok(()) => {}
            Err(error) => return Err(error),
        }
        match fill_lists(&table, &mut lists) {
            Ok(()) => {}
            Err(error) => return Err(error),
        }
        sort_lists(&table, &mut lists);
        Ok(Prints {
            alloc,
            table,
            lists,
        })
    }

    /// The print of a page, if it has one. Constant time. It does not say that this is the fingerprint of what the page holds.
    pub fn print_of(&self, p: u32) -> Option<[u8; 20]>
        ensures { result ≡ print_at self.now p }
    {
        match self.table.get(p as usize) {
            Some(print) => *print,
            None => None,
        }
    }

    /// The pages that have a print, in rising order. Logarithmic in the pages of the print's list. It does not say that they
    /// hold equal contents.
    pub fn candidates(&self, print: &[u8; 20]) -> &[u32]
        ensures rising { IsStrictlyIncreasing result.now }
        ensures exact { (p : ℕ) → (StandsIn result.now p ↔ (print_at self.now p ≡ Some print.now)) }
    {
        let Some(pages) = self.lists.get(list_of(print)) else {
            return &[];
        };
        part_of(&self.table, pages, print)
    }

    /// Makes room for a print of a page: one `insert` of this pair can't fail then, and a `remove`
    /// takes none of the room. After an error nothing is changed. Constant time, amortized; the first
    /// one makes the lists. It does not say that there is memory where the pair is not ready.
    pub fn reserve(&mut self, print: &[u8; 20], p: u32) -> Result<(), NoMemory>
        ensures ready { OnOk result (is_ready self.new print.now p ≡ true) }
        ensures prints { (q : ℕ) → print_at self.new q ≡ print_at self.old q }
        ensures others { (own : List ℕ) (q : ℕ) → is_ready self.old own q ≡ true → is_ready self.new own q ≡ true }
        ensures succeeds { is_ready self.old print.now p ≡ true → IsOk result }
    {
        lengthen(&mut self.table, p)?;
        reserve(self.alloc, &mut self.lists, list_of(print))
    }

    // Gives a page without a print one, for which there is room.
    fn put(&mut self, print: &[u8; 20], p: u32)
        requires ready { is_ready self.old print.now p ≡ true }
        requires absent { print_at self.old p ≡ None }
        ensures here { print_at self.new p ≡ Some print.now }
        ensures others { (q : ℕ) → q ≢ p → print_at self.new q ≡ print_at self.old q }
        ensures ready { (own : List ℕ) (q : ℕ) → bucket_of own ≢ bucket_of print.now → is_ready self.old own q ≡ true → is_ready self.new own q ≡ true }
    {
        let list = list_of(print);
        let at = place(&self.table, &self.lists[list], print, p as u64);
        put_page(&mut self.lists, list, at, p);
        self.table[p as usize] = Some(*print);
    }

    /// Gives a page this print, in place of the one that it had. After an error nothing is changed. Each pair whose
    /// print begins with other two bytes is as ready as it was; of one that begins with the same two this says
    /// nothing, as the room that was made for it may be taken.
    /// Logarithmic in the pages of the print's list, beside a move of those behind the page.
    pub fn insert(&mut self, print: &[u8; 20], p: u32) -> Result<(), NoMemory>
        ensures here { OnOk result (print_at self.new p ≡ Some print.now) }
        ensures others { (q : ℕ) → q ≢ p → print_at self.new q ≡ print_at self.old q }
        ensures same { OnErr result (print_at self.new p ≡ print_at self.old p) }
        ensures succeeds { is_ready self.old print.now p ≡ true → IsOk result }
        ensures ready { (own : List ℕ) (q : ℕ) → bucket_of own ≢ bucket_of print.now → is_ready self.old own q ≡ true → is_ready self.new own q ≡ true }
    {
        self.reserve(print, p)?;
        self.remove(p);
        self.put(print, p);
        Ok(())
    }

    /// Takes a page's print away. A page without a print stays as it is. Costs what `insert` does. It does not say that the
    /// pair which is taken away is ready then.
    pub fn remove(&mut self, p: u32)
        ensures gone { print_at self.new p ≡ None }
        ensures others { (q : ℕ) → q ≢ p → print_at self.new q ≡ print_at self.old q }
        ensures ready { (own : List ℕ) (q : ℕ) → is_ready self.old own q ≡ true → is_ready self.new own q ≡ true }
    {
        let Some(print) = self.print_of(p) else {
            return;
        };
        let list = list_of(&print);
        let at = place(&self.table, &self.lists[list], &print, p as u64);
        take_page(&mut self.lists, list, at);
        self.table[p as usize] = None;
    }
}
