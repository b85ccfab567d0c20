// The print pages are read.
ghost use Rattle.std.specs.Prelude.{◌≡◌, ◌⊎◌, ◌≤◌, ◌<◌, ◌+◌, ◌-◌, ◌*◌, ℕ, None, length, replicate, IfOk, IfErr};
ghost use Rattle.page_layout.specs.Shape.{total, print_pages, first_print_page, first_data_page};
ghost use Rattle.page_layout.specs.Tables.{print_entry_of};
ghost use Rattle.page_layout.specs.Entries.{IsEntry, IsFirstFault};
ghost use Rattle.page_layout.specs.declared.shape.Table.TheVariants as table;
ghost use Rattle.finger_table.specs.Order.{print_in};
ghost use Rattle.image_reader.specs.Looked.{Looked, Holds, Reads};
ghost use Rattle.mount_tables.specs.Reading.{AreCounts, ArePrints, IsBacked, ReadCause, ReadFit};

use crate::MountError;
use crate::places::lower;
use image_reader::{malformed_entry, read_into};
use page_device::{Damage, Device, NoMemory, Page};
use page_layout::{Shape, print_entry};
use std::alloc::Global;

// The first print of a print page, counted from 0, that stands on a data page that nothing counts.
fn loose_print(j: u32, page: &Page, shape: &Shape, counts: &[u32]) -> Option<u32>
    requires page { j < print_pages shape.now }
    requires counts { length counts.now ≡ shape.now.pages }
    ensures { IsFirstFault (IsBacked shape.now counts.now j page.now) 171 result }
{
    let pages = shape.pages;
    let before = 170 * j;
    for i in 0..170 {
        let at = before + i;
        if at < pages && counts[at as usize] == 0 && print_entry(page, i).is_some() {
            return Some(i);
        }
    }
    None
}

// The first entry of a print page that no fit image has. A page of zeros is passed at once.
fn print_fault(k: u32, page: &Page, shape: &Shape, counts: &[u32]) -> Option<u32>
    requires first { first_print_page shape.now ≤ k }
    requires last { k < first_data_page shape.now }
    requires counts { length counts.now ≡ shape.now.pages }
    ensures { IsFirstFault (λ i. IsEntry table.Print shape.now k page.now i × IsBacked shape.now counts.now (k - first_print_page shape.now) page.now i) 171 result }
{
    if page.is_zero() {
        return None;
    }
    let malformed = malformed_entry(k, page, shape);
    lower(
        malformed,
        loose_print(k - shape.first_print_page(), page, shape, counts),
    )
}

// A table of no print for so many pages.
fn no_prints(alloc: Global, n: u32) -> Result<Vec<Option<[u8; 20]>>, NoMemory>
    ensures { IfOk result (λ table. table.items ≡ replicate n None) }
{
    let Ok(mut table) = Vec::with_capacity(alloc, n as usize) else {
        return Err(NoMemory);
    };
    for _ in 0..n {
        table.push_reserved(None);
    }
    Ok(table)
}

// Puts the prints of a print page, counted from 0, into a table by the number of the data page.
fn keep_prints(j: u32, page: &Page, shape: &Shape, table: &mut Vec<Option<[u8; 20]>>)
    requires page { 170 * j < shape.now.pages }
    requires length { length table.old.items ≡ shape.now.pages + 1 }
    ensures length { length table.new.items ≡ shape.now.pages + 1 }
    ensures here { (i : ℕ) → i < 170 → 170 * j + i < shape.now.pages → print_in table.new.items (170 * j + i + 1) ≡ print_entry_of page.now i }
    ensures others { (p : ℕ) → (p ≤ 170 * j) ⊎ (170 * (j + 1) < p) → print_in table.new.items p ≡ print_in table.old.items p }
{
    let pages = shape.pages;
    let before = 170 * j;
    let used = (pages - before).min(170);
    for i in 0..used {
        table[(before + i + 1) as usize] = print_entry(page, i);
    }
}

// Reads all print pages in order, and answers the print of each data page by its number; ends at the first entry
// that is malformed or stands on a page that nothing counts.
pub fn read_prints<D: Device>(
    alloc: Global,
    device: &mut D,
    shape: &Shape,
    counts: &[u32],
) -> Result<Vec<Option<[u8; 20]>>, MountError>
    requires room { total shape.now ≤ (D.seen device.old).pages }
    requires counts { length counts.now ≡ shape.now.pages }
    ensures looked { Looked (D.seen device.old) (D.seen device.new) }
    ensures pages { (D.seen device.new).pages ≡ (D.seen device.old).pages }
    ensures never_falls { (D.seen device.old).faults ≤ (D.seen device.new).faults }
    ensures cause { IfErr result (λ why. ReadCause (first_print_page shape.now) shape.now (AreCounts shape.now counts.now) why (D.seen device.old) (D.seen device.new)) }
    ensures reads { IfOk result (λ _. Reads (print_pages shape.now) (D.seen device.old) (D.seen device.new)) }
    ensures length { IfOk result (λ table. length table.items ≡ shape.now.pages + 1) }
    ensures none { IfOk result (λ table. print_in table.items 0 ≡ None) }
    ensures fitted { IfOk result (λ _. ReadFit (first_print_page shape.now) (first_data_page shape.now) shape.now (AreCounts shape.now counts.now) (D.seen device.old)) }
    ensures read { IfOk result (λ table. Holds (ArePrints shape.now table.items) (D.seen device.old)) }
{
    let Ok(mut table) = no_prints(alloc, shape.pages + 1) else {
        return Err(MountError::NoMemory);
    };
    let first = shape.first_print_page();
    let end = shape.first_data_page();
    let mut page = Page::zero();
    for k in first..end {
        match read_into(device, k, &mut page) {
            Ok(()) => {}
            Err(_) => return Err(MountError::Device),
        }
        match print_fault(k, &page, shape, counts) {
            Some(entry) => return Err(MountError::Damaged(Damage { page: k, entry })),
            None => keep_prints(k - first, &page, shape, &mut table),
        }
    }
    Ok(table)
}
