// The map pages are read.
ghost use Rattle.std.specs.Prelude.{◌≡◌, ◌≤◌, length, replicate, IfOk, IfErr};
ghost use Rattle.page_layout.specs.Shape.{total, map_pages, first_count_page};
ghost use Rattle.page_layout.specs.Tables.{map_of};
ghost use Rattle.image_reader.specs.Looked.{Looked, Holds, Reads};
ghost use Rattle.image_reader.specs.Tallies.{NamesTo};
ghost use Rattle.mount_tables.specs.Reading.{ReadCause, ReadFit};

use crate::MountError;
use image_reader::{malformed_entry, read_into, tally_page};
use page_device::{Damage, Device, Page};
use page_layout::Shape;

// Reads all map pages in order, puts the number of blocks that name each data page in place of the zeros, and
// answers how many blocks have a name; ends at the first malformed entry.
pub fn read_maps<D: Device>(
    device: &mut D,
    shape: &Shape,
    tallies: &mut Vec<u32>,
) -> Result<u32, MountError>
    requires room { total shape.now ≤ (D.seen device.old).pages }
    requires zeros { tallies.old.items ≡ replicate shape.now.pages 0 }
    ensures looked { Looked (D.seen device.old) (D.seen device.new) }
    ensures pages { (D.seen device.new).pages ≡ (D.seen device.old).pages }
    ensures never_falls { (D.seen device.old).faults ≤ (D.seen device.new).faults }
    ensures cause { IfErr result (λ why. ReadCause 1 shape.now (λ image. Unit {0}) why (D.seen device.old) (D.seen device.new)) }
    ensures reads { IfOk result (λ _. Reads (map_pages shape.now) (D.seen device.old) (D.seen device.new)) }
    ensures length { IfOk result (λ _. length tallies.new.items ≡ shape.now.pages) }
    ensures fitted { IfOk result (λ _. ReadFit 1 (first_count_page shape.now) shape.now (λ image. Unit {0}) (D.seen device.old)) }
    ensures names { IfOk result (λ mapped. Holds (λ image. NamesTo shape.now.pages shape.now.blocks (map_of image) tallies.new.items mapped) (D.seen device.old)) }
{
    let end = shape.first_count_page();
    let mut mapped = 0;
    let mut page = Page::zero();
    for k in 1..end {
        match read_into(device, k, &mut page) {
            Ok(()) => {}
            Err(_) => return Err(MountError::Device),
        }
        match malformed_entry(k, &page, shape) {
            Some(entry) => return Err(MountError::Damaged(Damage { page: k, entry })),
            None => mapped = tally_page(tallies, k - 1, &page, shape, mapped),
        }
    }
    Ok(mapped)
}
