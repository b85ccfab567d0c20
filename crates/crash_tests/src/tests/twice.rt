// Two sessions of the same lines, with a crash in each. Over each image that a crash in the first may leave the
// second begins and answers as over any other; and each image that a crash in the second may leave is fit, and
// reads what is allowed.
use crate::tests::bench::{ends, formatted};
use crate::tests::images::{holds, images_at, left_at, pages_of};
use page_device::{MemDevice, Page};
use plain_array::{block_of, is_fit};
use session::Status;
use std::alloc::Global;
use std::process::Abort;
use std::test::Fail;

const REPLIES: &str = "6 ok\n6 ok\n12 ok\n";

// Until the flush is answered, after 6 calls, block 0 reads what it read at the start or 5, and from then on 5 or 6.
fn may_read(content: &Page, start: &Page, at: u64) -> bool {
    let old_or_new = if at < 6 {
        content.bytes() == start.bytes()
    } else {
        holds(content, 6)
    };
    holds(content, 5) || old_or_new
}

// A crash in the second session, after so many calls.
fn is_left_well(
    rt: &impl Abort,
    alloc: Global,
    device: &MemDevice,
    start: &Page,
    at: u64,
) -> Result<(), Fail> {
    for pages in images_at(alloc, device, at)? {
        let well = is_fit(&pages) && may_read(&block_of(&pages, 0), start, at);
        assert!(rt; well, "after {at} calls");
    }
    Ok(())
}

// The second session, over an image that a crash in the first left.
fn begins_again(rt: &impl Abort, alloc: Global, left: MemDevice) -> Result<(), Fail> {
    let mut device = left;
    let start = block_of(&pages_of(alloc, &mut device)?, 0);
    let end = ends(alloc, &mut device, REPLIES)?;
    assert_eq!(rt; (end, device.calls()), ((Status::Done, true), 12));
    for at in 0..13 {
        is_left_well(rt, alloc, &device, &start, at)?;
    }
    Ok(())
}

// A crash in the first session, after so many calls.
fn goes_on(rt: &impl Abort, alloc: Global, device: &MemDevice, at: u64) -> Result<(), Fail> {
    for left in left_at(alloc, device, at)? {
        begins_again(rt, alloc, left)?;
    }
    Ok(())
}

#[test]
fn survives_a_crash_in_each_of_two_sessions(rt: HostRuntime) -> Result<(), Fail> {
    let mut device = formatted(rt.alloc())?;
    let end = ends(rt.alloc(), &mut device, REPLIES)?;
    assert_eq!(rt; end, (Status::Done, true));
    for at in 0..13 {
        goes_on(&rt, rt.alloc(), &device, at)?;
    }
    Ok(())
}
