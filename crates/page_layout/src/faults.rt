// The first malformed entry of a table page.
ghost use Rattle.std.specs.Prelude.{◌≡◌, ℕ, ◌+◌, ◌*◌, ◌<◌, ◌≤◌, ◌↔◌, length, IsTrue, IsNone, IsSome, IfSome, true, false};
ghost use Rattle.page_layout.specs.Numbers.{entry_of};
ghost use Rattle.page_layout.specs.Tables.{IsPrintEntry, AreZero};
ghost use Rattle.page_layout.specs.declared.shape.Table.{Table};
ghost use Rattle.page_layout.specs.Entries.{table_at, entries_of, IsTablePage, IsEntry, IsNumberEntry, IsPrintPlace, IsFirstFault};

use crate::numbers::number;
use crate::shape::{NUMBERS, PRINTS};
use crate::zeros::are_zero;
use crate::{Shape, Table};
use page_device::{Damage, Page};

/// The largest count of a data page.
pub const MAX_COUNT: u32 = 2_147_483_647;

/// The first malformed entry of a table page, in rising order; none exactly where the page is well
/// formed for its place. Malformed are: in the map a data page above the last one, a count above
/// 2,147,483,647, a print whose flag is neither 0 nor 1, whose three bytes behind it are not zero, or
/// that has bytes without a flag, and behind the last used entry any byte that is not zero. The last
/// 16 bytes of a print page count as its entry 170. Linear in the page.
pub fn table_fault(page_no: u32, page: &Page, shape: &Shape) -> Option<Damage>
    requires { IsSome (table_at shape.now page_no) }
    ensures fault { (t : Table) → table_at shape.now page_no ≡ Some t → IfSome result (λ damage. (damage.page ≡ page_no)
        × IsFirstFault (IsEntry t shape.now page_no page.now) (entries_of t) (Some damage.entry)) }
    ensures none { (t : Table) → table_at shape.now page_no ≡ Some t → (IsNone result ↔ IsTablePage t shape.now page_no page.now) }
{
    let table = shape.table_of(page_no).unwrap();
    match entry_fault(table, page_no, page, shape) {
        Some(entry) => Some(Damage {
            page: page_no,
            entry,
        }),
        None => None,
    }
}

// The number of the first malformed entry.
fn entry_fault(table: Table, page_no: u32, page: &Page, shape: &Shape) -> Option<u32>
    requires { table_at shape.now page_no ≡ Some table }
    ensures { IsFirstFault (IsEntry table shape.now page_no page.now) (entries_of table) result }
{
    let bytes = &page.0;
    match table {
        Table::Map => {
            let before = NUMBERS * (page_no - 1);
            number_fault(bytes, shape.blocks - before, shape.pages)
        }
        Table::Count => {
            let before = NUMBERS * (page_no - shape.first_count_page());
            number_fault(bytes, shape.pages - before, MAX_COUNT)
        }
        Table::Print => {
            let before = PRINTS * (page_no - shape.first_print_page());
            print_fault(bytes, shape.pages - before)
        }
    }
}

// No number of a page is larger.
fn largest(bytes: &[u8]) -> u32
    requires { length bytes.now ≡ 4096 }
    ensures { (i : ℕ) → i < 1024 → entry_of bytes.now i ≤ result }
{
    let mut most = 0_u32;
    for i in 0..NUMBERS {
        most = most.max(number(bytes, 4 * i as usize));
    }
    most
}

// Among numbers, of which the first `used` are up to a limit and the others 0. Where all are used, a page
// without a fault is passed several numbers at a time.
fn number_fault(bytes: &[u8], used: u32, limit: u32) -> Option<u32>
    requires { length bytes.now ≡ 4096 }
    ensures { IsFirstFault (IsNumberEntry used limit bytes.now) 1024 result }
{
    if used >= NUMBERS && largest(bytes) <= limit {
        return None;
    }
    for i in 0..NUMBERS {
        let most = if i < used { limit } else { 0 };
        if number(bytes, 4 * i as usize) > most {
            return Some(i);
        }
    }
    None
}

// Among prints, of which the first `used` may be there.
fn print_fault(bytes: &[u8], used: u32) -> Option<u32>
    requires { length bytes.now ≡ 4096 }
    ensures { IsFirstFault (IsPrintPlace used bytes.now) 171 result }
{
    for i in 0..PRINTS {
        if !is_print(bytes, i, i < used) {
            return Some(i);
        }
    }
    if !are_zero(bytes, 4080, 4096) {
        return Some(PRINTS);
    }
    None
}

// The entry is a well-formed print, and where it is not used, zeros. Its flag and the three bytes behind it are read as
// one number.
fn is_print(bytes: &[u8], i: u32, used: bool) -> bool
    requires length { length bytes.now ≡ 4096 }
    requires within { i < 170 }
    ensures used { used ≡ true → (IsTrue result ↔ IsPrintEntry bytes.now i) }
    ensures rest { used ≡ false → (IsTrue result ↔ AreZero bytes.now (24 * i) (24 * i + 24)) }
{
    let at = 24 * i as usize;
    match number(bytes, at) {
        0 => are_zero(bytes, at + 4, at + 24),
        1 => used,
        _ => false,
    }
}
