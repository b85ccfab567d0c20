// The count pages are read.
ghost use Rattle.std.specs.Prelude.{◌≡◌, ◌⊎◌, ◌≤◌, ◌<◌, ◌+◌, ◌-◌, ◌*◌, ℕ, length, IfOk, IfErr};
ghost use Rattle.page_layout.specs.Numbers.{entry_of};
ghost use Rattle.page_layout.specs.Shape.{total, count_pages, first_count_page, first_print_page};
ghost use Rattle.page_layout.specs.Entries.{IsEntry, IsFirstFault};
ghost use Rattle.page_layout.specs.declared.shape.Table.TheVariants as table;
ghost use Rattle.image_reader.specs.Looked.{Looked, Holds, Reads};
ghost use Rattle.image_reader.specs.Tallies.{tally_of};
ghost use Rattle.mount_tables.specs.Made.{AreFew};
ghost use Rattle.mount_tables.specs.Reading.{AreCounts, AreTallies, IsEnough, ReadCause, ReadFit};

use crate::MountError;
use crate::places::lower;
use image_reader::{malformed_entry, read_into};
use page_device::{Damage, Device, Page};
use page_layout::{Shape, count_entry, used_entries};

// The first entry of a count page, counted from 0, that is below its tally.
fn low_count(j: u32, page: &Page, shape: &Shape, tallies: &[u32]) -> Option<u32>
    requires page { j < count_pages shape.now }
    requires tallies { length tallies.now ≡ shape.now.pages }
    ensures { IsFirstFault (IsEnough shape.now tallies.now j page.now) 1024 result }
{
    let pages = shape.pages;
    let before = 1024 * j;
    for i in 0..1024 {
        let at = before + i;
        if at < pages && count_entry(page, i) < tallies[at as usize] {
            return Some(i);
        }
    }
    None
}

// The first entry of a count page that no fit image has.
fn count_fault(k: u32, page: &Page, shape: &Shape, tallies: &[u32]) -> Option<u32>
    requires first { first_count_page shape.now ≤ k }
    requires last { k < first_count_page shape.now + count_pages shape.now }
    requires tallies { length tallies.now ≡ shape.now.pages }
    ensures { IsFirstFault (λ i. IsEntry table.Count shape.now k page.now i × IsEnough shape.now tallies.now (k - first_count_page shape.now) page.now i) 1024 result }
{
    let malformed = malformed_entry(k, page, shape);
    lower(
        malformed,
        low_count(k - shape.first_count_page(), page, shape, tallies),
    )
}

// Puts the counts of a count page, counted from 0, in place of the tallies of its data pages.
fn keep_counts(j: u32, page: &Page, shape: &Shape, tallies: &mut Vec<u32>)
    requires page { j < count_pages shape.now }
    requires length { length tallies.old.items ≡ shape.now.pages }
    ensures length { length tallies.new.items ≡ shape.now.pages }
    ensures here { (i : ℕ) → i < 1024 → 1024 * j + i < shape.now.pages → tally_of tallies.new.items (1024 * j + i + 1) ≡ entry_of page.now i }
    ensures others { (p : ℕ) → 1 ≤ p → (p ≤ 1024 * j) ⊎ (1024 * (j + 1) < p) → tally_of tallies.new.items p ≡ tally_of tallies.old.items p }
{
    let used = used_entries(shape.pages, j);
    let before = 1024 * j;
    for i in 0..used {
        tallies[(before + i) as usize] = count_entry(page, i);
    }
}

// Reads all count pages in order, and puts the count of each data page in place of its tally; ends at the first
// entry that is malformed or below its tally.
pub fn read_counts<D: Device>(
    device: &mut D,
    shape: &Shape,
    tallies: &mut Vec<u32>,
) -> Result<(), MountError>
    requires room { total shape.now ≤ (D.seen device.old).pages }
    requires tallies { length tallies.old.items ≡ shape.now.pages }
    ensures looked { Looked (D.seen device.old) (D.seen device.new) }
    ensures pages { (D.seen device.new).pages ≡ (D.seen device.old).pages }
    ensures never_falls { (D.seen device.old).faults ≤ (D.seen device.new).faults }
    ensures cause { IfErr result (λ why. ReadCause (first_count_page shape.now) shape.now (AreTallies shape.now tallies.old.items) why (D.seen device.old) (D.seen device.new)) }
    ensures reads { IfOk result (λ _. Reads (count_pages shape.now) (D.seen device.old) (D.seen device.new)) }
    ensures length { IfOk result (λ _. length tallies.new.items ≡ shape.now.pages) }
    ensures few { IfOk result (λ _. AreFew shape.now.pages tallies.new.items) }
    ensures fitted { IfOk result (λ _. ReadFit (first_count_page shape.now) (first_print_page shape.now) shape.now (AreTallies shape.now tallies.old.items) (D.seen device.old)) }
    ensures read { IfOk result (λ _. Holds (AreCounts shape.now tallies.new.items) (D.seen device.old)) }
{
    let first = shape.first_count_page();
    let end = shape.first_print_page();
    let mut page = Page::zero();
    for k in first..end {
        match read_into(device, k, &mut page) {
            Ok(()) => {}
            Err(_) => return Err(MountError::Device),
        }
        match count_fault(k, &page, shape, tallies) {
            Some(entry) => return Err(MountError::Damaged(Damage { page: k, entry })),
            None => keep_counts(k - first, &page, shape, tallies),
        }
    }
    Ok(())
}
