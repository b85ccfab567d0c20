// The entries of map pages and of count pages: 1024 numbers a page.
ghost use Rattle.std.specs.Prelude.{◌≡◌, ◌<◌, ◌≤◌, ◌+◌, ◌*◌, min};
ghost use Rattle.page_layout.specs.Numbers.{entry_of, SetsEntry};

use crate::numbers::{number, set_number};
use crate::shape::NUMBERS;
use page_device::Page;

/// How many entries of the map page or count page `j`, counted from 0, are used, where so many are used in
/// all pages. Constant time.
pub fn used_entries(entries: u32, j: u32) -> u32
    requires { 1024 * j ≤ entries }
    ensures upto { 1024 * j + result ≡ min entries (1024 * (j + 1)) }
    ensures few { result ≤ 1024 }
{
    (entries - NUMBERS * j).min(NUMBERS)
}

/// The entry `i` of a map page: the data page that a block names, or 0. Constant time.
pub fn map_entry(page: &Page, i: u32) -> u32
    requires { i < 1024 }
    ensures { result ≡ entry_of page.now i }
{
    number(&page.0, 4 * i as usize)
}

/// Sets the entry `i` of a map page, and no other byte of it. Constant time.
pub fn set_map_entry(page: &mut Page, i: u32, p: u32)
    requires { i < 1024 }
    ensures { SetsEntry page.old i p page.new }
{
    set_number(&mut page.0, 4 * i as usize, p);
}

/// The entry `i` of a count page: how often a data page is counted. Constant time.
pub fn count_entry(page: &Page, i: u32) -> u32
    requires { i < 1024 }
    ensures { result ≡ entry_of page.now i }
{
    number(&page.0, 4 * i as usize)
}

/// Sets the entry `i` of a count page, and no other byte of it. Constant time.
pub fn set_count_entry(page: &mut Page, i: u32, count: u32)
    requires { i < 1024 }
    ensures { SetsEntry page.old i count page.new }
{
    set_number(&mut page.0, 4 * i as usize, count);
}
