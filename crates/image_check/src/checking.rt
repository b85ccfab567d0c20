// An image is checked.
ghost use Rattle.std.specs.Prelude.{◌≡◌, ◌≤◌, ◌<◌, ◌+◌, ◌-◌, [], length, replicate, IfOk, IfErr};
ghost use Rattle.page_layout.specs.Shape.{total, print_pages, first_data_page};
ghost use Rattle.page_layout.specs.Tables.{shape_of, HasShape};
ghost use Rattle.array_model.specs.Counting.{mapped_of};
ghost use Rattle.page_layout.specs.Tables.{map_of};
ghost use Rattle.image_reader.specs.Looked.{Looked, Holds, Reads};
ghost use Rattle.image_check.specs.Reads.{AtMost, Hashed, ReadsAfter, StopReads, StoppedHashing, reads_of};
ghost use Rattle.image_check.specs.Steps.{IsReady, ArePrints};
ghost use Rattle.image_check.specs.Stops.{StopCause, NothingKnown};
ghost use Rattle.image_check.specs.Verdicts.{IsVerdict, CheckCause, IsUnsound};

use crate::counts::{compare_counts, sum_of};
use crate::hashes::hash_prints;
use crate::maps::tally_maps;
use crate::prints::look_at_prints;
use crate::verdict::{CheckError, Stop, Verdict};
use image_reader::{find_shape, zeros};
use page_device::Device;
use page_layout::Shape;
use sparse_pages::SparsePages;
use std::alloc::Global;

// The verdict on an image of well-formed tables and no low count, of which these are the print pages.
fn judge<D: Device>(
    device: &mut D,
    shape: &Shape,
    prints: &SparsePages,
    counts: &[u32],
    mapped: u32,
) -> Result<Verdict, Stop>
    requires room { total shape.now ≤ (D.seen device.old).pages }
    requires prints { length prints.now.items ≡ print_pages shape.now }
    requires counts { length counts.now ≡ shape.now.pages }
    ensures looked { Looked (D.seen device.old) (D.seen device.new) }
    ensures pages { (D.seen device.new).pages ≡ (D.seen device.old).pages }
    ensures never_falls { (D.seen device.old).faults ≤ (D.seen device.new).faults }
    ensures cause { IfErr result (λ stop. StopCause shape.now (λ image. ArePrints shape.now prints.now.items image × IsReady shape.now counts.now image) stop (D.seen device.old) (D.seen device.new)) }
    ensures reads { IfOk result (λ verdict. Hashed prints.now.items shape.now.pages verdict (D.seen device.old) (D.seen device.new)) }
    ensures stopped { IfErr result (λ stop. StoppedHashing prints.now.items shape.now.pages stop (D.seen device.old) (D.seen device.new)) }
    ensures few { AtMost shape.now.pages (D.seen device.old) (D.seen device.new) }
    ensures verdict { IfOk result (λ verdict. Holds (λ image. HasShape image → shape_of image ≡ shape.now → ArePrints shape.now prints.now.items image → IsReady shape.now counts.now image → mapped ≡ mapped_of (map_of image) shape.now.blocks → IsVerdict verdict image) (D.seen device.old)) }
{
    match hash_prints(device, shape, prints, counts) {
        Ok(Some(page)) => Ok(Verdict::PrintOnZero { page }),
        Ok(None) => Ok(Verdict::Sound {
            waste: sum_of(shape, counts).saturating_sub(u64::from(mapped)),
        }),
        Err(stop) => Err(stop),
    }
}

// The verdict on an image of this shape, whose page 0 was read. Keeps the print pages.
fn look_over<D: Device>(
    device: &mut D,
    shape: &Shape,
    tallies: &mut Vec<u32>,
    prints: &mut SparsePages,
) -> Result<Verdict, Stop>
    requires room { total shape.now ≤ (D.seen device.old).pages }
    requires zeros { tallies.old.items ≡ replicate shape.now.pages 0 }
    requires empty { prints.old.items ≡ [] }
    requires limit { prints.old.limit ≡ print_pages shape.now }
    ensures looked { Looked (D.seen device.old) (D.seen device.new) }
    ensures pages { (D.seen device.new).pages ≡ (D.seen device.old).pages }
    ensures never_falls { (D.seen device.old).faults ≤ (D.seen device.new).faults }
    ensures cause { IfErr result (λ stop. StopCause shape.now NothingKnown stop (D.seen device.old) (D.seen device.new)) }
    ensures reads { IfOk result (λ verdict. Holds (λ image. shape_of image ≡ shape.now → ReadsAfter 1 (reads_of verdict image) (D.seen device.old) (D.seen device.new)) (D.seen device.old)) }
    ensures stopped { IfErr result (λ stop. Holds (λ image. shape_of image ≡ shape.now → StopReads 1 stop image (D.seen device.old) (D.seen device.new)) (D.seen device.old)) }
    ensures few { AtMost (total shape.now - 1) (D.seen device.old) (D.seen device.new) }
    ensures verdict { IfOk result (λ verdict. Holds (λ image. HasShape image → shape_of image ≡ shape.now → IsVerdict verdict image) (D.seen device.old)) }
{
    let mapped = match tally_maps(device, shape, tallies) {
        Ok(mapped) => mapped,
        Err(stop) => return Err(stop),
    };
    let low = match compare_counts(device, shape, tallies) {
        Ok(low) => low,
        Err(stop) => return Err(stop),
    };
    match look_at_prints(device, shape, prints) {
        Ok(()) => {}
        Err(stop) => return Err(stop),
    }
    match low {
        Some(low) => Ok(Verdict::LowCount {
            page: low.page,
            stored: low.stored,
            named: low.named,
        }),
        None => judge(device, shape, prints, tallies, mapped),
    }
}

/// Checks the image that a device holds, of version 1 or 2: makes room for no page, reads page 0 and each
/// table page once, in rising order and up to the first malformed entry, and writes nothing. Where no entry
/// is malformed and no count is low it reads each data page that has a fingerprint once, up to the first
/// wrong one, and hashes it. It answers the first of the verdicts in the order of `Verdict`, `Sound` exactly
/// where the image is sound.
///
/// Answers `Device` only where the device counted a fault, and `NotFormatted` where there is no image.
/// Takes 4 bytes for each data page, and 4096 for each print page that is not zeros. Linear in the table
/// pages, and a SHA-1 or, in version 2, a SHA-256 for each data page that has a fingerprint.
pub fn check<D: Device>(alloc: Global, device: &mut D) -> Result<Verdict, CheckError>
    ensures looked { Looked (D.seen device.old) (D.seen device.new) }
    ensures never_falls { (D.seen device.old).faults ≤ (D.seen device.new).faults }
    ensures cause { IfErr result (λ why. CheckCause why (D.seen device.old) (D.seen device.new)) }
    ensures verdict { IfOk result (λ verdict. Holds (IsVerdict verdict) (D.seen device.old)) }
    ensures unsound { IfOk result (λ verdict. IsUnsound verdict (D.seen device.old)) }
    ensures reads { IfOk result (λ verdict. Holds (λ image. Reads (reads_of verdict image) (D.seen device.old) (D.seen device.new)) (D.seen device.old)) }
    ensures few { AtMost (D.seen device.new).pages (D.seen device.old) (D.seen device.new) }
{
    let shape = match find_shape(device) {
        Ok(Some(shape)) => shape,
        Ok(None) => return Err(CheckError::NotFormatted),
        Err(_) => return Err(CheckError::Device),
    };
    let Ok(mut tallies) = zeros(alloc, shape.pages) else {
        return Err(CheckError::NoMemory);
    };
    let print_pages = shape.first_data_page() - shape.first_print_page();
    let Ok(mut prints) = SparsePages::with_capacity(alloc, print_pages) else {
        return Err(CheckError::NoMemory);
    };
    match look_over(device, &shape, &mut tallies, &mut prints) {
        Ok(verdict) => Ok(verdict),
        Err(Stop::Told(verdict)) => Ok(verdict),
        Err(Stop::Device) => Err(CheckError::Device),
    }
}
