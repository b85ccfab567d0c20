// The map pages are looked at: how many blocks name each data page.
ghost use Rattle.std.specs.Prelude.{◌≡◌, ◌≤◌, length, replicate, IfOk, IfErr};
ghost use Rattle.page_layout.specs.Shape.{total, map_pages, first_count_page};
ghost use Rattle.page_layout.specs.Tables.{map_of};
ghost use Rattle.image_reader.specs.Looked.{Looked, Holds, Reads};
ghost use Rattle.image_reader.specs.Tallies.{NamesTo};
ghost use Rattle.image_check.specs.Reads.{AtMost, StoppedFrom};
ghost use Rattle.image_check.specs.Steps.{FormedBelow};
ghost use Rattle.image_check.specs.Stops.{StopCause};

use crate::tables::read_table;
use crate::verdict::Stop;
use image_reader::tally_page;
use page_device::Device;
use page_layout::Shape;

// Looks at all map pages once, in order, up to the first malformed entry. Answers how many blocks are
// mapped.
pub fn tally_maps<D: Device>(
    device: &mut D,
    shape: &Shape,
    tallies: &mut Vec<u32>,
) -> Result<u32, Stop>
    requires room { total shape.now ≤ (D.seen device.old).pages }
    requires zeros { tallies.old.items ≡ replicate shape.now.pages 0 }
    ensures looked { Looked (D.seen device.old) (D.seen device.new) }
    ensures pages { (D.seen device.new).pages ≡ (D.seen device.old).pages }
    ensures never_falls { (D.seen device.old).faults ≤ (D.seen device.new).faults }
    ensures cause { IfErr result (λ stop. StopCause shape.now (FormedBelow 1 shape.now) stop (D.seen device.old) (D.seen device.new)) }
    ensures reads { IfOk result (λ _. Reads (map_pages shape.now) (D.seen device.old) (D.seen device.new)) }
    ensures stopped { IfErr result (λ stop. StoppedFrom 1 stop (D.seen device.old) (D.seen device.new)) }
    ensures few { AtMost (map_pages shape.now) (D.seen device.old) (D.seen device.new) }
    ensures length { IfOk result (λ _. length tallies.new.items ≡ shape.now.pages) }
    ensures formed { IfOk result (λ _. Holds (λ image. FormedBelow 1 shape.now image → FormedBelow (first_count_page shape.now) shape.now image) (D.seen device.old)) }
    ensures names { IfOk result (λ mapped. Holds (λ image. NamesTo shape.now.pages shape.now.blocks (map_of image) tallies.new.items mapped) (D.seen device.old)) }
{
    let mut mapped = 0;
    for k in 1..shape.first_count_page() {
        let page = match read_table(device, k, shape) {
            Ok(page) => page,
            Err(stop) => return Err(stop),
        };
        mapped = tally_page(tallies, k - 1, &page, shape, mapped);
    }
    Ok(mapped)
}
