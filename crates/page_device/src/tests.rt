// Each call once, and the images of a small history against a table made by hand.

use crate::{Device, Failed, MemDevice, Page};
use std::alloc::Global;

// Writes the block of a number.
pub fn put<D: Device>(device: &mut D, page: u32, number: u64) -> Result<(), Failed> {
    if page < device.pages() {
        return device.write(page, &Page::numbered(number));
    }
    Err(Failed)
}

// The last byte of the number of the block that a read gives.
pub fn got<D: Device>(device: &mut D, page: u32) -> Result<u8, Failed> {
    let mut into = Page::zero();
    if page < device.pages() {
        device.read(page, &mut into)?;
        return Ok(into.bytes()[7]);
    }
    Err(Failed)
}

// A device of two pages of zeros.
fn two_pages(alloc: Global) -> Result<MemDevice, Failed> {
    let mut device = MemDevice::holding(alloc, Vec::new(alloc));
    device.room(2)?;
    Ok(device)
}

// What the first two pages of an image begin with.
fn image_of(device: &MemDevice, at: u64, choice: &[u32]) -> Result<(u8, u8), Failed> {
    let Ok(mut image) = device.image(at, choice) else {
        return Err(Failed);
    };
    Ok((got(&mut image, 0)?, got(&mut image, 1)?))
}

// Four writes and two barriers: the fifth call is a write that fails and is taken, and the sixth a barrier
// that fails.
fn history(alloc: Global) -> Result<MemDevice, Failed> {
    let mut device = two_pages(alloc)?;
    if device.fail_call(5, true).is_err() || device.fail_call(6, true).is_err() {
        return Err(Failed);
    }
    put(&mut device, 0, 1)?;
    put(&mut device, 0, 2)?;
    device.flush()?;
    put(&mut device, 1, 3)?;
    if put(&mut device, 0, 4).is_ok() || device.flush().is_ok() {
        return Err(Failed);
    }
    Ok(device)
}

// The moment, the choice, and the two pages.
const IMAGES: [(u64, [u32; 2], u8, u8); 19] = [
    (0, [0, 0], 0, 0),
    (0, [3, 3], 0, 0),
    (1, [0, 0], 0, 0),
    (1, [1, 0], 1, 0),
    (1, [2, 9], 1, 0),
    (2, [0, 1], 0, 0),
    (2, [1, 1], 1, 0),
    (2, [2, 1], 2, 0),
    (2, [4_000_000_000, 0], 2, 0),
    (3, [0, 0], 2, 0),
    (3, [1, 1], 2, 0),
    (4, [0, 0], 2, 0),
    (4, [1, 1], 2, 3),
    (5, [0, 0], 2, 0),
    (5, [0, 1], 2, 3),
    (5, [1, 0], 4, 0),
    (5, [1, 1], 4, 3),
    (6, [1, 0], 4, 0),
    (u64::MAX, [2, 2], 4, 3),
];

// A failed read, a lie and the truth.
fn three_reads(device: &mut MemDevice) -> [Result<u8, Failed>; 3] {
    [got(device, 0), got(device, 0), got(device, 0)]
}

#[test]
fn gives_each_image(rt: HostRuntime) {
    let Ok(device) = history(rt.alloc()) else {
        panic!(rt; "the history went wrong");
    };
    for (at, choice, first, second) in IMAGES {
        assert_eq!(rt;
            image_of(&device, at, &choice),
            Ok((first, second)),
            "after {at} calls"
        );
    }
}

#[test]
fn knows_the_page_of_zeros(rt: HostRuntime) {
    assert!(rt; Page::zero().is_zero());
    assert!(rt; !Page::numbered(1).is_zero());
}

#[test]
fn counts_each_call(rt: HostRuntime) {
    let Ok(device) = history(rt.alloc()) else {
        panic!(rt; "the history went wrong");
    };
    assert_eq!(rt; device.log().len(), 6);
    assert_eq!(rt; device.calls(), 6);
}

#[test]
fn grows_by_zeros(rt: HostRuntime) {
    let mut device = MemDevice::holding(rt.alloc(), Vec::new(rt.alloc()));
    assert_eq!(rt; device.fail_room(1), Ok(()));
    assert_eq!(rt; device.room(3), Err(Failed));
    assert_eq!(rt; device.room(3), Ok(()));
    assert_eq!(rt; device.pages(), 3);
}

#[test]
fn fails_by_the_later_plan(rt: HostRuntime) {
    let Ok(mut device) = two_pages(rt.alloc()) else {
        panic!(rt; "no room was made");
    };
    assert_eq!(rt; device.fail_call(1, true), Ok(()));
    assert_eq!(rt; device.fail_call(1, false), Ok(()));
    assert_eq!(rt; device.reserve(1), Ok(()));
    assert_eq!(rt; put(&mut device, 0, 7), Err(Failed));
    assert_eq!(rt; got(&mut device, 0), Ok(0));
}

#[test]
fn lies_where_planned(rt: HostRuntime) {
    let Ok(mut device) = two_pages(rt.alloc()) else {
        panic!(rt; "no room was made");
    };
    assert_eq!(rt; device.fail_read(1), Ok(()));
    assert_eq!(rt; device.lie(1, &Page::numbered(5)), Ok(()));
    assert_eq!(rt; device.lie(2, &Page::numbered(6)), Ok(()));
    assert_eq!(rt; three_reads(&mut device), [Err(Failed), Ok(6), Ok(0)]);
    assert_eq!(rt; device.reads(), 3);
}
