// One number for each data page.
ghost use Rattle.std.specs.Prelude.{◌≡◌, ◌≤◌, ◌<◌, ◌+◌, ◌*◌, ◌==◌, not, min, ℕ, length, replicate, IfOk};
ghost use Rattle.page_layout.specs.Numbers.{entry_of};
ghost use Rattle.page_layout.specs.Shape.{map_pages};
ghost use Rattle.page_layout.specs.Tables.{IsMapPage};
ghost use Rattle.array_model.specs.Counting.{count_below};
ghost use Rattle.image_reader.specs.Tallies.{tally_of, AreNamesOf, NamesTo};

use page_device::{NoMemory, Page};
use page_layout::{Shape, map_entry, used_entries};
use std::alloc::Global;

/// So many zeros: a tally for each data page before any name is counted. Takes 4 bytes for each, and
/// answers `NoMemory` where there are none. Linear in `n`. It does not say that there is memory.
pub fn zeros(alloc: Global, n: u32) -> Result<Vec<u32>, NoMemory>
    ensures { IfOk result (λ list. list.items ≡ replicate n 0) }
{
    let Ok(mut list) = Vec::with_capacity(alloc, n as usize) else {
        return Err(NoMemory);
    };
    for _ in 0..n {
        list.push_reserved(0);
    }
    Ok(list)
}

// Counts one more name of the data page `p`, and answers that it was one; where `p` is 0, which names none,
// nothing changes. A tally of 4,294,967,295 stays.
pub(crate) fn count_name(tallies: &mut Vec<u32>, p: u32) -> u32
    requires within { p ≤ length tallies.old.items }
    ensures length { length tallies.new.items ≡ length tallies.old.items }
    ensures here { 1 ≤ p → tally_of tallies.old.items p < 4294967295 → tally_of tallies.new.items p ≡ tally_of tallies.old.items p + 1 }
    ensures others { (q : ℕ) → 1 ≤ q → (q ≡ p → ⊥) → tally_of tallies.new.items q ≡ tally_of tallies.old.items q }
    ensures few { result ≤ 1 }
    ensures one { 1 ≤ p → result ≡ 1 }
    ensures none { p ≡ 0 → result ≡ 0 }
{
    if p == 0 {
        return 0;
    }
    let at = p as usize - 1;
    tallies[at] = tallies[at].saturating_add(1);
    1
}

// Counts the names in the first entries of a map page, and answers how many they are. A page of zeros, which
// names nothing, is passed at once.
fn count_names(tallies: &mut Vec<u32>, page: &Page, used: u32) -> u32
    requires used { used ≤ 1024 }
    requires within { (i : ℕ) → i < used → entry_of page.now i ≤ length tallies.old.items }
    ensures length { length tallies.new.items ≡ length tallies.old.items }
    ensures names { (p : ℕ) → 1 ≤ p → tally_of tallies.old.items p + used ≤ 4294967295
        → tally_of tallies.new.items p ≡ tally_of tallies.old.items p + count_below (λ i. entry_of page.now i == p) used }
    ensures named { result ≡ count_below (λ i. not (entry_of page.now i == 0)) used }
{
    if page.is_zero() {
        return 0;
    }
    let mut named = 0_u32;
    for i in 0..used {
        named += count_name(tallies, map_entry(page, i));
    }
    named
}

/// Counts the names in the map page `j`, counted from 0, where those of the blocks before it are counted in
/// the tallies and `mapped` of those blocks have a name. Answers how many blocks have one by now. Linear in
/// the page; a page of zeros, which names nothing, is passed at once. It does not say what a name is worth that names no
/// data page: that is a malformed entry.
pub fn tally_page(tallies: &mut Vec<u32>, j: u32, page: &Page, shape: &Shape, mapped: u32) -> u32
    requires within { j < map_pages shape.now }
    requires entries { IsMapPage shape.now j page.now }
    requires length { length tallies.old.items ≡ shape.now.pages }
    ensures length { length tallies.new.items ≡ shape.now.pages }
    ensures names { (names : ℕ → ℕ) → AreNamesOf page.now j names → NamesTo shape.now.pages (min shape.now.blocks (1024 * j)) names tallies.old.items mapped
        → NamesTo shape.now.pages (min shape.now.blocks (1024 * (j + 1))) names tallies.new.items result }
{
    let used = used_entries(shape.blocks, j);
    mapped.saturating_add(count_names(tallies, page, used))
}
