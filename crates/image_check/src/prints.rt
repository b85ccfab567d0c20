// The print pages are looked at for malformed entries, and kept.
ghost use Rattle.std.specs.Prelude.{◌≡◌, ◌≤◌, ◌<◌, [], length, IfOk, IfErr};
ghost use Rattle.page_layout.specs.Shape.{total, print_pages, first_print_page, first_data_page};
ghost use Rattle.image_reader.specs.Looked.{Looked, Holds, Reads};
ghost use Rattle.image_check.specs.Reads.{AtMost, StoppedFrom};
ghost use Rattle.image_check.specs.Steps.{FormedBelow, ArePrints};
ghost use Rattle.image_check.specs.Stops.{StopCause};

use crate::tables::read_table;
use crate::verdict::Stop;
use page_device::Device;
use page_layout::Shape;
use sparse_pages::SparsePages;

// Looks at all print pages once, in order, up to the first malformed entry, and keeps them.
pub fn look_at_prints<D: Device>(
    device: &mut D,
    shape: &Shape,
    prints: &mut SparsePages,
) -> Result<(), Stop>
    requires room { total shape.now ≤ (D.seen device.old).pages }
    requires empty { prints.old.items ≡ [] }
    requires limit { prints.old.limit ≡ print_pages shape.now }
    ensures looked { Looked (D.seen device.old) (D.seen device.new) }
    ensures pages { (D.seen device.new).pages ≡ (D.seen device.old).pages }
    ensures never_falls { (D.seen device.old).faults ≤ (D.seen device.new).faults }
    ensures cause { IfErr result (λ stop. StopCause shape.now (FormedBelow (first_print_page shape.now) shape.now) stop (D.seen device.old) (D.seen device.new)) }
    ensures reads { IfOk result (λ _. Reads (print_pages shape.now) (D.seen device.old) (D.seen device.new)) }
    ensures stopped { IfErr result (λ stop. StoppedFrom (first_print_page shape.now) stop (D.seen device.old) (D.seen device.new)) }
    ensures few { AtMost (print_pages shape.now) (D.seen device.old) (D.seen device.new) }
    ensures formed { IfOk result (λ _. Holds (λ image. FormedBelow (first_print_page shape.now) shape.now image → FormedBelow (first_data_page shape.now) shape.now image) (D.seen device.old)) }
    ensures length { IfOk result (λ _. length prints.new.items ≡ print_pages shape.now) }
    ensures kept { IfOk result (λ _. Holds (ArePrints shape.now prints.new.items) (D.seen device.old)) }
{
    for k in shape.first_print_page()..shape.first_data_page() {
        let page = match read_table(device, k, shape) {
            Ok(page) => page,
            Err(stop) => return Err(stop),
        };
        prints.push(&page);
    }
    Ok(())
}
