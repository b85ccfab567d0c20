// An image is opened.
ghost use Rattle.std.specs.Prelude.{◌≤◌, IfOk, IfErr};
ghost use Rattle.page_layout.specs.Shape.{first_data_page, total};
ghost use Rattle.page_layout.specs.Tables.{HasShape};
ghost use Rattle.image_reader.specs.Looked.{Looked, Holds, Reads, TellsShape};
ghost use Rattle.mount_tables.specs.Describes.{Describes, OfEveryDevice};
ghost use Rattle.mount_tables.specs.Mount.{MountCause, IsRefusal};

use crate::MountError;
use crate::counts::read_counts;
use crate::maps::read_maps;
use crate::prints::read_prints;
use crate::tables::{Tables, tables_of};
use image_reader::{find_shape, zeros};
use page_device::Device;
use page_layout::Shape;
use std::alloc::Global;

// The shape that the superblock tells, where the device has its pages.
fn told_shape<D: Device>(device: &mut D) -> Result<Shape, MountError>
    ensures looked { Looked (D.seen device.old) (D.seen device.new) }
    ensures never_falls { (D.seen device.old).faults ≤ (D.seen device.new).faults }
    ensures cause { IfErr result (λ why. MountCause why (D.seen device.old) (D.seen device.new)) }
    ensures reads { IfOk result (λ _. Reads 1 (D.seen device.old) (D.seen device.new)) }
    ensures enough { IfOk result (λ shape. total shape ≤ (D.seen device.new).pages) }
    ensures shape { IfOk result (λ shape. Holds (TellsShape shape) (D.seen device.old)) }
    ensures has_shape { IfOk result (λ _. Holds HasShape (D.seen device.old)) }
{
    match find_shape(device) {
        Ok(Some(shape)) => Ok(shape),
        Ok(None) => Err(MountError::NotFormatted),
        Err(_) => Err(MountError::Device),
    }
}

/// Reads what a store keeps of the image that a device holds, of version 1 or 2: makes room for no page, reads
/// page 0 and then each table page once, in rising order, writes nothing and makes no barrier. Over an honest
/// device that tells its pages an image mounts exactly where it is fit.
///
/// `Device` where the device counted a fault. `NotFormatted` where it has no page, page 0 is no superblock, or it
/// has fewer pages than that tells of. `Damaged` names the first entry, in rising pages and entries, that no fit
/// image has: a malformed one, a count below the number of blocks that name its data page, or a print on a data
/// page that nothing counts. `NoMemory` may come wherever memory is asked for.
///
/// No table page is kept. While it reads it takes 4 bytes a data page beside what it hands over: up to 24 bytes a
/// data page for the prints, 8 for each print, 3 bits a data page and 1.5 MiB. Linear in the table pages; each print
/// costs a step that is logarithmic in the prints that begin with the same two bytes.
pub fn read_tables<D: Device>(alloc: Global, device: &mut D) -> Result<Tables, MountError>
    ensures looked { Looked (D.seen device.old) (D.seen device.new) }
    ensures never_falls { (D.seen device.old).faults ≤ (D.seen device.new).faults }
    ensures cause { IfErr result (λ why. MountCause why (D.seen device.old) (D.seen device.new)) }
    ensures refusal { IfErr result (λ why. IsRefusal why (D.seen device.old)) }
    ensures reads { IfOk result (λ tables. Reads (first_data_page tables.shape) (D.seen device.old) (D.seen device.new)) }
    ensures enough { IfOk result (λ tables. total tables.shape ≤ (D.seen device.new).pages) }
    ensures shape { IfOk result (λ tables. Holds (TellsShape tables.shape) (D.seen device.old)) }
    ensures every_device { IfOk result OfEveryDevice }
    ensures describes { IfOk result (λ tables. Holds (λ image. Describes image tables) (D.seen device.old)) }
{
    let shape = match told_shape(device) {
        Ok(shape) => shape,
        Err(why) => return Err(why),
    };
    let Ok(mut tallies) = zeros(alloc, shape.pages) else {
        return Err(MountError::NoMemory);
    };
    let mapped = match read_maps(device, &shape, &mut tallies) {
        Ok(mapped) => mapped,
        Err(why) => return Err(why),
    };
    match read_counts(device, &shape, &mut tallies) {
        Ok(()) => {}
        Err(why) => return Err(why),
    }
    let table = match read_prints(alloc, device, &shape, &tallies) {
        Ok(table) => table,
        Err(why) => return Err(why),
    };
    match tables_of(alloc, shape, mapped, tallies, table) {
        Ok(tables) => Ok(tables),
        Err(_) => Err(MountError::NoMemory),
    }
}
