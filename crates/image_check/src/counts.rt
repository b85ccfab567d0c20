// The count pages are looked at: the first count that is too low.
ghost use Rattle.std.specs.Prelude.{◌≡◌, ◌≤◌, ◌<◌, ◌+◌, ◌-◌, ◌*◌, min, ℕ, List, length, IfOk, IfErr};
ghost use Rattle.page_device.specs.Block.{Block};
ghost use Rattle.page_layout.specs.Shape.{total, count_pages, first_count_page, first_print_page};
ghost use Rattle.page_layout.specs.Tables.{page_of, shape_of};
ghost use Rattle.array_model.specs.Counting.{sum_below};
ghost use Rattle.array_model.specs.Images.{names};
ghost use Rattle.image_reader.specs.Looked.{Looked, Holds, Reads};
ghost use Rattle.image_reader.specs.Tallies.{tally_of};
ghost use Rattle.image_check.specs.Reads.{AtMost, StoppedFrom};
ghost use Rattle.image_check.specs.Steps.{FormedBelow, CountsTo, NamesAre, noted};
ghost use Rattle.image_check.specs.Stops.{StopCause};

use crate::tables::read_table;
use crate::verdict::Stop;
use page_device::{Device, Page};
use page_layout::{Shape, count_entry};

// A count that is below the number of blocks that name its data page.
#[derive(Clone, Copy, Drop)]
pub struct Low {
    pub page: u32,
    pub stored: u32,
    pub named: u32,
}

// The first low count, after one more count was looked at.
fn first_low(low: Option<Low>, page: u32, stored: u32, named: u32) -> Option<Low>
    ensures { result ≡ noted low page stored named }
{
    match low {
        Some(first) => Some(first),
        None => {
            if stored < named {
                return Some(Low {
                    page,
                    stored,
                    named,
                });
            }
            None
        }
    }
}

// Puts the count of a data page in the place of its tally.
fn put_count(tallies: &mut Vec<u32>, p: u32, count: u32)
    requires first { 1 ≤ p }
    requires last { p ≤ length tallies.old.items }
    ensures length { length tallies.new.items ≡ length tallies.old.items }
    ensures here { tally_of tallies.new.items p ≡ count }
    ensures others { (q : ℕ) → 1 ≤ q → (q ≡ p → ⊥) → tally_of tallies.new.items q ≡ tally_of tallies.old.items q }
{
    tallies[p as usize - 1] = count;
}

// Compares the counts of the count page `k` with the tallies, and puts them in their place. Answers the
// first low count.
fn compare_page(
    tallies: &mut Vec<u32>,
    k: u32,
    page: &Page,
    shape: &Shape,
    before: Option<Low>,
) -> Option<Low>
    requires first { first_count_page shape.now ≤ k }
    requires last { k < first_print_page shape.now }
    requires length { length tallies.old.items ≡ shape.now.pages }
    ensures length { length tallies.new.items ≡ shape.now.pages }
    ensures counts { (image : List Block) → shape_of image ≡ shape.now → page_of image k ≡ page.now → CountsTo shape.now.pages (1024 * (k - first_count_page shape.now)) image tallies.old.items before
        → CountsTo shape.now.pages (min shape.now.pages (1024 * (k - first_count_page shape.now) + 1024)) image tallies.new.items result }
{
    let pages = shape.pages;
    let start = 1024 * (k - shape.first_count_page());
    let end = pages.min(start + 1024);
    let mut low = before;
    for at in start..end {
        let stored = count_entry(page, at - start);
        low = first_low(low, at + 1, stored, tallies[at as usize]);
        put_count(tallies, at + 1, stored);
    }
    low
}

// Looks at all count pages once, in order, up to the first malformed entry: where the tallies are the names
// before, they are the counts after it. Answers the first low count.
pub fn compare_counts<D: Device>(
    device: &mut D,
    shape: &Shape,
    tallies: &mut Vec<u32>,
) -> Result<Option<Low>, Stop>
    requires room { total shape.now ≤ (D.seen device.old).pages }
    requires length { length tallies.old.items ≡ shape.now.pages }
    ensures looked { Looked (D.seen device.old) (D.seen device.new) }
    ensures pages { (D.seen device.new).pages ≡ (D.seen device.old).pages }
    ensures never_falls { (D.seen device.old).faults ≤ (D.seen device.new).faults }
    ensures cause { IfErr result (λ stop. StopCause shape.now (FormedBelow (first_count_page shape.now) shape.now) stop (D.seen device.old) (D.seen device.new)) }
    ensures reads { IfOk result (λ _. Reads (count_pages shape.now) (D.seen device.old) (D.seen device.new)) }
    ensures stopped { IfErr result (λ stop. StoppedFrom (first_count_page shape.now) stop (D.seen device.old) (D.seen device.new)) }
    ensures few { AtMost (count_pages shape.now) (D.seen device.old) (D.seen device.new) }
    ensures length { IfOk result (λ _. length tallies.new.items ≡ shape.now.pages) }
    ensures formed { IfOk result (λ _. Holds (λ image. FormedBelow (first_count_page shape.now) shape.now image → FormedBelow (first_print_page shape.now) shape.now image) (D.seen device.old)) }
    ensures counts { IfOk result (λ low. Holds (λ image. shape_of image ≡ shape.now → NamesAre shape.now.pages image tallies.old.items → CountsTo shape.now.pages shape.now.pages image tallies.new.items low) (D.seen device.old)) }
{
    let mut low = None;
    for k in shape.first_count_page()..shape.first_print_page() {
        let page = match read_table(device, k, shape) {
            Ok(page) => page,
            Err(stop) => return Err(stop),
        };
        low = compare_page(tallies, k, &page, shape, low);
    }
    Ok(low)
}

// The sum of the counts of all data pages.
pub fn sum_of(shape: &Shape, counts: &[u32]) -> u64
    requires { length counts.now ≡ shape.now.pages }
    ensures { result ≡ sum_below (λ k. tally_of counts.now (k + 1)) shape.now.pages }
{
    let mut sum: u64 = 0;
    for at in 0..shape.pages {
        sum += u64::from(counts[at as usize]);
    }
    sum
}
