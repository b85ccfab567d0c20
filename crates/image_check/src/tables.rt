// A table page is read.
ghost use Rattle.std.specs.Prelude.{◌≡◌, ◌≤◌, ◌<◌, ℕ, Some, IsSome, IfOk, IfErr};
ghost use Rattle.page_layout.specs.declared.shape.Table.{Table};
ghost use Rattle.page_layout.specs.Tables.{page_of};
ghost use Rattle.page_layout.specs.Entries.{table_at, entries_of, IsEntry};
ghost use Rattle.image_reader.specs.Looked.{Looked, Holds, Reads};
ghost use Rattle.image_check.specs.Reads.{StopPage};
ghost use Rattle.image_check.specs.Steps.{FormedBelow, IsFormedPage};
ghost use Rattle.image_check.specs.Stops.{StopCause};

use crate::verdict::{Stop, Verdict};
use image_reader::{malformed_entry, read_page};
use page_device::{Damage, Device, Page};
use page_layout::Shape;

// One table page, where each of its entries is well formed. One read.
pub fn read_table<D: Device>(device: &mut D, k: u32, shape: &Shape) -> Result<Page, Stop>
    requires page { k < (D.seen device.old).pages }
    requires table { IsSome (table_at shape.now k) }
    ensures looked { Looked (D.seen device.old) (D.seen device.new) }
    ensures reads { Reads 1 (D.seen device.old) (D.seen device.new) }
    ensures stopped { IfErr result (StopPage k) }
    ensures pages { (D.seen device.new).pages ≡ (D.seen device.old).pages }
    ensures never_falls { (D.seen device.old).faults ≤ (D.seen device.new).faults }
    ensures cause { IfErr result (λ stop. StopCause shape.now (FormedBelow k shape.now) stop (D.seen device.old) (D.seen device.new)) }
    ensures entries { IfOk result (λ page. IsFormedPage shape.now k page) }
    ensures read { IfOk result (λ page. Holds (λ image. page_of image k ≡ page) (D.seen device.old)) }
{
    let page = match read_page(device, k) {
        Ok(page) => page,
        Err(_) => return Err(Stop::Device),
    };
    match malformed_entry(k, &page, shape) {
        Some(entry) => Err(Stop::Told(Verdict::Damaged(Damage { page: k, entry }))),
        None => Ok(page),
    }
}
