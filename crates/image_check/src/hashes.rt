// The fingerprints are compared with the contents of their data pages.
ghost use Rattle.std.specs.Prelude.{◌≡◌, ◌≤◌, ◌<◌, ◌+◌, ◌↔◌, true, is_some, cond, length, IsTrue, IfOk, IfErr};
ghost use Rattle.page_device.specs.Meaning.{HasCause};
ghost use Rattle.page_layout.specs.Shape.{total, print_pages, first_print_page, first_data_page};
ghost use Rattle.page_layout.specs.Tables.{shape_of, print_of};
ghost use Rattle.image_reader.specs.Looked.{Looked, Holds, Reads};
ghost use Rattle.image_check.specs.Reads.{AtMost, StoppedHashing, print_in, printed_in};
ghost use Rattle.image_check.specs.Steps.{PrintsTo, IsReady, ArePrints, noted_zero};
ghost use Rattle.image_check.specs.Stops.{StopCause};
ghost use Rattle.image_check.specs.Verdicts.{HasTruePrint};

use crate::verdict::{Stop, Verdict};
use finger_table::fingerprint;
use image_reader::read_page;
use page_device::{Device, Failed};
use page_layout::{Shape, print_entry};
use sparse_pages::SparsePages;

// The fingerprint of a data page, where it has one, by the print pages.
fn print_at(shape: &Shape, prints: &SparsePages, p: u32) -> Option<[u8; 20]>
    requires first { 1 ≤ p }
    requires last { p ≤ shape.now.pages }
    requires prints { length prints.now.items ≡ print_pages shape.now }
    ensures { result ≡ print_in prints.now.items p }
{
    let (page, entry) = shape.print_place(p);
    print_entry(prints.page(page - shape.first_print_page()), entry)
}

// The fingerprint of a data page, where it has one, is that of its content. Reads the data page then.
fn is_true<D: Device>(
    device: &mut D,
    shape: &Shape,
    p: u32,
    print: Option<[u8; 20]>,
) -> Result<bool, Failed>
    requires first { 1 ≤ p }
    requires last { p ≤ shape.now.pages }
    requires room { total shape.now ≤ (D.seen device.old).pages }
    ensures cause { HasCause result (D.seen device.old) (D.seen device.new) }
    ensures looked { Looked (D.seen device.old) (D.seen device.new) }
    ensures reads { Reads (cond (is_some print) 1 0) (D.seen device.old) (D.seen device.new) }
    ensures pages { (D.seen device.new).pages ≡ (D.seen device.old).pages }
    ensures tells { IfOk result (λ yes. Holds (λ image. shape_of image ≡ shape.now → print_of image p ≡ print → (IsTrue yes ↔ HasTruePrint image p)) (D.seen device.old)) }
{
    let Some(print) = print else {
        return Ok(true);
    };
    match read_page(device, shape.data_place(p)) {
        Ok(page) => Ok(fingerprint(shape.version, &page) == print),
        Err(failed) => Err(failed),
    }
}

// The first data page with a print and the count 0, after one more was looked at.
fn first_zero(zero: Option<u32>, p: u32, printed: bool, count: u32) -> Option<u32>
    ensures { result ≡ noted_zero zero p printed count }
{
    match zero {
        Some(first) => Some(first),
        None => {
            if printed && count == 0 {
                return Some(p);
            }
            None
        }
    }
}

// Hashes each data page that has a print, up to the first wrong one. Answers the first print on a data
// page whose count is 0.
pub fn hash_prints<D: Device>(
    device: &mut D,
    shape: &Shape,
    prints: &SparsePages,
    counts: &[u32],
) -> Result<Option<u32>, Stop>
    requires room { total shape.now ≤ (D.seen device.old).pages }
    requires prints { length prints.now.items ≡ print_pages shape.now }
    requires counts { length counts.now ≡ shape.now.pages }
    ensures looked { Looked (D.seen device.old) (D.seen device.new) }
    ensures pages { (D.seen device.new).pages ≡ (D.seen device.old).pages }
    ensures never_falls { (D.seen device.old).faults ≤ (D.seen device.new).faults }
    ensures cause { IfErr result (λ stop. StopCause shape.now (λ image. ArePrints shape.now prints.now.items image × IsReady shape.now counts.now image) stop (D.seen device.old) (D.seen device.new)) }
    ensures reads { IfOk result (λ _. Reads (printed_in prints.now.items shape.now.pages) (D.seen device.old) (D.seen device.new)) }
    ensures stopped { IfErr result (λ stop. StoppedHashing prints.now.items shape.now.pages stop (D.seen device.old) (D.seen device.new)) }
    ensures few { AtMost shape.now.pages (D.seen device.old) (D.seen device.new) }
    ensures prints { IfOk result (λ zero. Holds (λ image. shape_of image ≡ shape.now → ArePrints shape.now prints.now.items image → IsReady shape.now counts.now image → PrintsTo shape.now.pages image zero) (D.seen device.old)) }
{
    let mut zero = None;
    for at in 0..shape.pages {
        let print = print_at(shape, prints, at + 1);
        zero = first_zero(zero, at + 1, print.is_some(), counts[at as usize]);
        match is_true(device, shape, at + 1, print) {
            Ok(true) => {}
            Ok(false) => return Err(Stop::Told(Verdict::WrongPrint { page: at + 1 })),
            Err(_) => return Err(Stop::Device),
        }
    }
    Ok(zero)
}
