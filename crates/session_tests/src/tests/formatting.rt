// A new image is laid out, also over an old one, and every image that a crash may leave of it.
use crate::tests::bench::{begun, ends, ends_with};
use page_device::MemDevice;
use session::Status;
use std::alloc::Global;
use std::process::Abort;
use std::test::Fail;

// The words of one job, its input and text, and the device calls up to its end.
type Step = (&'static [&'static str], &'static str, &'static str, u64);

const WORDS: [&str; 5] = ["format", "--blocks", "4", "--pages", "4"];

const LINE: &str = "formatted blocks=4 pages=4\n";

// Jobs over one device, each of which ends well.
fn takes(
    rt: &impl Abort,
    alloc: Global,
    device: &mut MemDevice,
    steps: &[Step],
) -> Result<(), Fail> {
    for (words, input, text, calls) in steps {
        let end = ends_with(alloc, device, words, input, text)?;
        assert_eq!(rt; end, (Status::Done, true), "{text}");
        assert_eq!(rt; device.calls(), *calls, "{text}");
    }
    Ok(())
}

// Eight calls; the image is sound, is written in one session, and read in the next.
#[test]
fn formats_writes_and_reads_again(rt: HostRuntime) -> Result<(), Fail> {
    let mut device = MemDevice::holding(rt.alloc(), Vec::new(rt.alloc()));
    let steps: [Step; 4] = [
        (&WORDS, "", LINE, 8),
        (&["check"], "", "sound waste=0\n", 8),
        (&["trace"], "w 3 7\n", "6 ok\n", 14),
        (&["trace"], "r 3\n", "0 data 0000000000000007\n", 14),
    ];
    takes(&rt, rt.alloc(), &mut device, &steps)
}

// A session finds this in the image after so many calls, with this content of each page: 0 is the fixed one,
// and 1 the first one written since.
fn finds(
    rt: &impl Abort,
    alloc: Global,
    device: &MemDevice,
    (calls, content, text): (u64, u32, &str),
) -> Result<(), Fail> {
    let mut image = device.image(calls, &[content; 8])?;
    let (_, put) = ends(alloc, &mut image, "r 0\n", text)?;
    assert!(rt; put, "after {calls} calls");
    Ok(())
}

const OLD: &str = "0 data 0000000000000005\n";

const NONE: &str = "not formatted\n";

const NEW: &str = "0 data -\n";

// What is found after each call of the formatting, with the fixed contents and with those written since.
const FOUND: [(u64, &str, &str); 9] = [
    (6, OLD, OLD),
    (7, OLD, NONE),
    (8, NONE, NONE),
    (9, NONE, NONE),
    (10, NONE, NONE),
    (11, NONE, NONE),
    (12, NONE, NONE),
    (13, NONE, NEW),
    (14, NEW, NEW),
];

// The old image holds a block. It is gone after the second of the eight calls, and the new one is there
// after the last.
#[test]
fn an_old_image_goes_at_once(rt: HostRuntime) -> Result<(), Fail> {
    let mut device = begun(rt.alloc(), (4, 4, 1))?;
    let steps: [Step; 2] = [(&["trace"], "w 0 5\n", "6 ok\n", 6), (&WORDS, "", LINE, 14)];
    takes(&rt, rt.alloc(), &mut device, &steps)?;
    for (calls, fixed, since) in FOUND {
        finds(&rt, rt.alloc(), &device, (calls, 0, fixed))?;
        finds(&rt, rt.alloc(), &device, (calls, 1, since))?;
    }
    Ok(())
}
