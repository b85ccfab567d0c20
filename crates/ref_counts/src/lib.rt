//! The counts of an image, one page at a time: for each data page how often it is counted.
//!
//! A count page has 1024 counts, and stands behind the map pages. A call is given the page in which the
//! count stands, wherever that page is kept. `specs/Counts.antt` says what a count is, and what it is to
//! set one. A count goes up and down by one, so that each step can be ordered after what it stands for;
//! it is set at once where a correction finds it too high, or a fresh page is counted whatever stood there.
#![tactic(auto)]

ghost use Rattle.std.specs.Prelude.{◌≡◌, ◌+◌, ◌-◌, ◌<◌, ◌≤◌};
ghost use Rattle.ref_counts.specs.Counts.{count_in, SetsCount};

use page_device::Page;
pub use page_layout::MAX_COUNT;
use page_layout::{Shape, count_entry, set_count_entry};

/// How often the data page `p` is counted. `page` is its count page. Constant time, as each call here.
pub fn count(shape: &Shape, page: &Page, p: u32) -> u32
    requires first { 1 ≤ p }
    requires last { p ≤ shape.now.pages }
    ensures { result ≡ count_in page.now p }
{
    let (_, entry) = shape.count_place(p);
    count_entry(page, entry)
}

/// Counts the data page `p` once more, in `page`, its count page. No other count changes, nor any other
/// byte of the page. Its count has to be below [`MAX_COUNT`].
pub fn raise(shape: &Shape, page: &mut Page, p: u32)
    requires first { 1 ≤ p }
    requires last { p ≤ shape.now.pages }
    requires below { count_in page.old p < MAX_COUNT }
    ensures { SetsCount shape.now page.old p (count_in page.old p + 1) page.new }
{
    let (_, entry) = shape.count_place(p);
    let raised = count_entry(page, entry) + 1;
    set_count_entry(page, entry, raised);
}

/// Counts the data page `p` once less, in `page`, its count page. No other count changes, nor any other
/// byte of the page. Its count has to be above 0.
pub fn lower(shape: &Shape, page: &mut Page, p: u32)
    requires first { 1 ≤ p }
    requires last { p ≤ shape.now.pages }
    requires above { 0 < count_in page.old p }
    ensures { SetsCount shape.now page.old p (count_in page.old p - 1) page.new }
{
    let (_, entry) = shape.count_place(p);
    let lowered = count_entry(page, entry) - 1;
    set_count_entry(page, entry, lowered);
}

/// Sets the count of the data page `p`, whatever it was, in `page`, its count page. No other count changes,
/// nor any other byte of the page. The new count is at most [`MAX_COUNT`].
pub fn set(shape: &Shape, page: &mut Page, p: u32, new_count: u32)
    requires first { 1 ≤ p }
    requires last { p ≤ shape.now.pages }
    requires known { new_count ≤ MAX_COUNT }
    ensures { SetsCount shape.now page.old p new_count page.new }
{
    let (_, entry) = shape.count_place(p);
    set_count_entry(page, entry, new_count);
}
