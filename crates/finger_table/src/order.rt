// Where a page stands in its list, and the part of a list that has a print.
ghost use Rattle.std.specs.Prelude.{◌≡◌, ℕ, ◌+◌, ◌*◌, ◌<◌, ◌≤◌, nat_le, List, Some, length, slice_index};
ghost use Rattle.std.specs.List.Sorted.{IsNonDecreasingBy};
ghost use Rattle.finger_table.specs.Index.{IsRange};
ghost use Rattle.finger_table.specs.Order.{IsPrint, rank, key_in, print_in, bucket_of};

use std::cmp::Ordering;

// The number of lists.
pub const LISTS: usize = 65_536;

// The list of a print, by its first two bytes.
pub fn list_of(print: &[u8; 20]) -> usize
    ensures list { result ≡ bucket_of print.now }
    ensures within { result < 65536 }
    ensures is_print { IsPrint print.now }
{
    256 * print[0] as usize + print[1] as usize
}

// The page is before a number of a print.
pub fn is_before(prints: &[Option<[u8; 20]>], page: u32, print: &[u8; 20], from: u64) -> bool
    requires small { from ≤ 4294967296 }
    requires prints { (p : ℕ) (own : List ℕ) → print_in prints.now p ≡ Some own → IsPrint own }
    ensures { result ≡ nat_le (key_in prints.now page) (rank print.now * 4294967296 + from) }
{
    match prints.get(page as usize) {
        Some(Some(own)) => match own.cmp(print) {
            Ordering::Less => true,
            Ordering::Equal => (page as u64) < from,
            Ordering::Greater => false,
        },
        _ => true,
    }
}

// The first place of a list whose page is not before a number of a print.
pub fn place(prints: &[Option<[u8; 20]>], pages: &[u32], print: &[u8; 20], from: u64) -> usize
    requires small { from ≤ 4294967296 }
    requires prints { (p : ℕ) (own : List ℕ) → print_in prints.now p ≡ Some own → IsPrint own }
    requires order { IsNonDecreasingBy (key_in prints.now) pages.now }
    ensures within { result ≤ length pages.now }
    ensures before { (k : ℕ) → k < result → key_in prints.now (slice_index pages.now k) ≤ rank print.now * 4294967296 + from }
    ensures behind { (k : ℕ) → result ≤ k → k < length pages.now → rank print.now * 4294967296 + from < key_in prints.now (slice_index pages.now k) }
{
    pages.partition_point(|page| is_before(prints, *page, print, from))
}

// The part of a list whose pages have a print.
pub fn part_of<'a>(prints: &[Option<[u8; 20]>], pages: &'a [u32], print: &[u8; 20]) -> &'a [u32]
    requires prints { (p : ℕ) (own : List ℕ) → print_in prints.now p ≡ Some own → IsPrint own }
    requires order { IsNonDecreasingBy (key_in prints.now) pages.now }
    ensures { IsRange prints.now pages.now print.now result.now }
{
    let first = place(prints, pages, print, 0);
    let end = place(prints, pages, print, 4_294_967_296);
    &pages[first..end]
}
