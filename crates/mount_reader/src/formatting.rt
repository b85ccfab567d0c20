// A new image is laid out.
ghost use Rattle.std.specs.Prelude.{◌≡◌, ◌↔◌, ◌⊎◌, ◌≤◌, ◌<◌, true, length, Ok, Err};
ghost use Rattle.page_device.specs.Block.{zero_block};
ghost use Rattle.page_device.specs.Counts.{OneFault, raised};
ghost use Rattle.page_device.specs.Meaning.{IsUntouched};
ghost use Rattle.page_device.specs.Possible.{Only};
ghost use Rattle.page_layout.specs.Shape.{total, first_data_page};
ghost use Rattle.dedup_writer.specs.Put.{PutsPage};
ghost use Rattle.mount_reader.specs.Format.{LaysOut, Clears, Formats, IsFormatted, MakesCalls, AreFormat, zeros_before};

use page_device::{Device, Failed, Page};
use page_layout::{Shape, super_page};

/// Why a device was not formatted.
#[derive(Clone, Copy, Debug, PartialEq, Eq, Drop)]
pub enum FormatError {
    /// The device counted a fault.
    Device,
    /// There are 1 to 4,194,304 blocks and 1 to 1,048,576 data pages.
    BadShape,
}

// Writes a page and makes a barrier. Stops at the first that fails.
fn put<D: Device>(device: &mut D, page: u32, from: &Page) -> Result<(), Failed>
    requires { page < (D.seen device.old).pages }
    ensures cause { OneFault result (D.seen device.old).faults (D.seen device.new).faults }
    ensures pages { (D.seen device.new).pages ≡ (D.seen device.old).pages }
    ensures puts { PutsPage page from.now result (D.seen device.old) (D.seen device.new) }
{
    match device.write(page, from) {
        Ok(()) => device.flush(),
        Err(failed) => Err(failed),
    }
}

// Writes zeros to each table page.
fn clear_tables<D: Device>(device: &mut D, shape: &Shape) -> Result<(), Failed>
    requires { total shape.now ≤ (D.seen device.old).pages }
    ensures cause { OneFault result (D.seen device.old).faults (D.seen device.new).faults }
    ensures writes { MakesCalls (λ calls. calls ≡ zeros_before (first_data_page shape.now)) result (D.seen device.old) (D.seen device.new) }
    ensures clears { (D.seen device.old).honest ≡ true → (D.seen device.old).tells_pages ≡ true → Only (D.seen device.old).state 0 zero_block → Clears shape.now result (D.seen device.old) (D.seen device.new) }
{
    let zero = Page::zero();
    for k in 1..shape.first_data_page() {
        match device.write(k, &zero) {
            Ok(()) => {}
            Err(failed) => return Err(failed),
        }
    }
    Ok(())
}

// Writes all pages of a new image but the data pages. Until the superblock is written at the end there is
// no image.
fn lay_out<D: Device>(device: &mut D, shape: &Shape) -> Result<(), Failed>
    requires pages { total shape.now ≤ (D.seen device.old).pages }
    requires version { shape.now.version ≡ 1 }
    ensures cause { OneFault result (D.seen device.old).faults (D.seen device.new).faults }
    ensures writes { MakesCalls (AreFormat shape.now) result (D.seen device.old) (D.seen device.new) }
    ensures lays_out { (D.seen device.old).honest ≡ true → (D.seen device.old).tells_pages ≡ true → LaysOut shape.now result (D.seen device.old) (D.seen device.new) }
{
    match put(device, 0, &Page::zero()) {
        Ok(()) => {}
        Err(failed) => return Err(failed),
    }
    match clear_tables(device, shape) {
        Ok(()) => {}
        Err(failed) => return Err(failed),
    }
    match device.flush() {
        Ok(()) => {}
        Err(failed) => return Err(failed),
    }
    put(device, 0, &super_page(shape))
}

/// Formats a device: makes room for an image of so many blocks and data pages, of version 1, in which no
/// block is mapped. Writes zeros to page 0, makes a barrier, writes zeros to every table page in rising
/// order, makes a barrier, writes the superblock and makes a barrier; the data pages stay as they are. A
/// crash within it leaves the old device, one whose page 0 is zeros, or the new image; after `Ok` there is
/// the new image alone, and nothing is pending. It reads no page.
///
/// `BadShape` comes before any device call. Linear in the table pages.
pub fn format<D: Device>(blocks: u32, pages: u32, device: &mut D) -> Result<(), FormatError>
    ensures bad_shape { result ≡ Err FormatError.BadShape ↔ ¬ ((1 ≤ blocks) × (blocks ≤ 4194304) × (1 ≤ pages) × (pages ≤ 1048576)) }
    ensures nothing { result ≡ Err FormatError.BadShape → device.new ≡ device.old }
    ensures cause { result ≡ Err FormatError.Device → (D.seen device.new).faults ≡ raised (D.seen device.old).faults 1 }
    ensures calm { result ≡ Ok tt → (D.seen device.new).faults ≡ (D.seen device.old).faults }
    ensures never_falls { (D.seen device.old).faults ≤ (D.seen device.new).faults }
    ensures failed { result ≡ Err FormatError.Device → IsUntouched (D.seen device.old) (D.seen device.new) ⊎ Formats (record { blocks = blocks; pages = pages; version = 1 }) (D.seen device.old) (D.seen device.new) }
    ensures done { result ≡ Ok tt → IsFormatted (record { blocks = blocks; pages = pages; version = 1 }) (D.seen device.old) (D.seen device.new) }
{
    let Ok(shape) = Shape::new(blocks, pages) else {
        return Err(FormatError::BadShape);
    };
    match device.room(shape.total()) {
        Ok(()) => {}
        Err(_) => return Err(FormatError::Device),
    }
    match lay_out(device, &shape) {
        Ok(()) => Ok(()),
        Err(_) => Err(FormatError::Device),
    }
}
