// A device is looked at.
ghost use Rattle.std.specs.Prelude.{◌≡◌, ◌⊎◌, ◌≤◌, ◌<◌, IfOk, OnOk, IfNone, IfSome};
ghost use Rattle.page_device.specs.Meaning.{HasCause};
ghost use Rattle.page_layout.specs.Shape.{total};
ghost use Rattle.page_layout.specs.Tables.{page_of, HasShape};
ghost use Rattle.image_reader.specs.Looked.{Looked, Holds, Reads, TellsShape};

use page_device::{Device, Failed, Page};
use page_layout::{Shape, read_super};

/// Reads one page of a device, from 0 and below its number of pages, into a page. Answers `Failed` where
/// the device does, which has then counted a fault; then nothing is known of `into`. One read. Of a device that is not
/// honest or tells no pages it does not say what is read.
pub fn read_into<D: Device>(device: &mut D, k: u32, into: &mut Page) -> Result<(), Failed>
    requires { k < (D.seen device.old).pages }
    ensures cause { HasCause result (D.seen device.old) (D.seen device.new) }
    ensures looked { Looked (D.seen device.old) (D.seen device.new) }
    ensures reads { Reads 1 (D.seen device.old) (D.seen device.new) }
    ensures pages { (D.seen device.new).pages ≡ (D.seen device.old).pages }
    ensures read { OnOk result (Holds (λ image. page_of image k ≡ into.new) (D.seen device.old)) }
{
    device.read(k, into)
}

/// The content of one page of a device, from 0 and below its number of pages. Answers `Failed` where the
/// device does, which has then counted a fault. One read. Of a device that is not honest or tells no pages it does not
/// say what is read.
pub fn read_page<D: Device>(device: &mut D, k: u32) -> Result<Page, Failed>
    requires { k < (D.seen device.old).pages }
    ensures cause { HasCause result (D.seen device.old) (D.seen device.new) }
    ensures looked { Looked (D.seen device.old) (D.seen device.new) }
    ensures reads { Reads 1 (D.seen device.old) (D.seen device.new) }
    ensures pages { (D.seen device.new).pages ≡ (D.seen device.old).pages }
    ensures read { IfOk result (λ page. Holds (λ image. page_of image k ≡ page) (D.seen device.old)) }
{
    let mut page = Page::zero();
    match read_into(device, k, &mut page) {
        Ok(()) => Ok(page),
        Err(failed) => Err(failed),
    }
}

/// The shape of the image that a device holds, by its superblock: makes room for no page, and reads page 0
/// where there is one. None where the device has no page, page 0 is no superblock, or the device has fewer
/// pages than it tells of. Answers `Failed` where the device does, which has then counted a fault. At most one
/// read. Of a device that is not honest or tells no pages it says only that the shape fits in.
pub fn find_shape<D: Device>(device: &mut D) -> Result<Option<Shape>, Failed>
    ensures cause { HasCause result (D.seen device.old) (D.seen device.new) }
    ensures looked { Looked (D.seen device.old) (D.seen device.new) }
    ensures reads { Reads 0 (D.seen device.old) (D.seen device.new) ⊎ Reads 1 (D.seen device.old) (D.seen device.new) }
    ensures no_page { (D.seen device.new).pages ≡ 0 → Reads 0 (D.seen device.old) (D.seen device.new) }
    ensures one { IfOk result (λ found. IfSome found (λ _. Reads 1 (D.seen device.old) (D.seen device.new))) }
    ensures none { IfOk result (λ found. IfNone found (Holds (λ image. ¬ HasShape image) (D.seen device.old))) }
    ensures enough { IfOk result (λ found. IfSome found (λ shape. total shape ≤ (D.seen device.new).pages)) }
    ensures shape { IfOk result (λ found. IfSome found (λ shape. Holds (TellsShape shape) (D.seen device.old))) }
    ensures has_shape { IfOk result (λ found. IfSome found (λ _. Holds HasShape (D.seen device.old))) }
{
    match device.room(0) {
        Ok(()) => {}
        Err(failed) => return Err(failed),
    }
    if device.pages() == 0 {
        return Ok(None);
    }
    let page = match read_page(device, 0) {
        Ok(page) => page,
        Err(failed) => return Err(failed),
    };
    let Ok(shape) = read_super(&page) else {
        return Ok(None);
    };
    if device.pages() < shape.total() {
        return Ok(None);
    }
    Ok(Some(shape))
}
