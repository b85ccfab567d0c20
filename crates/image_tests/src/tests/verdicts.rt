// What is found in images made by hand.
use crate::tests::images::{Byte, FIVE, FIVE_OF_2, Print, SIX, ZEROS, formatted, image};
use image_check::{CheckError, Verdict, check};
use page_device::{Damage, MemDevice};
use page_layout::Shape;
use std::alloc::Global;
use std::process::Abort;
use std::test::Fail;

// An image and its verdict.
type Row = (&'static [Byte], &'static [Print], Verdict);

fn damaged(page: u32, entry: u32) -> Verdict {
    Verdict::Damaged(Damage { page, entry })
}

// An image of 4 blocks and 4 data pages with a malformed entry, also behind a low count.
fn malformed() -> [Row; 7] {
    [
        (&[(1, 0, 5)], &[], damaged(1, 0)),
        (&[(1, 16, 1)], &[], damaged(1, 4)),
        (&[(2, 15, 128)], &[], damaged(2, 3)),
        (&[(3, 0, 2)], &[], damaged(3, 0)),
        (&[(3, 4095, 1)], &[], damaged(3, 170)),
        (&[(1, 0, 1), (3, 0, 2)], &[], damaged(3, 0)),
        (&[(3, 0, 2), (2, 15, 128)], &[], damaged(2, 3)),
    ]
}

fn low(page: u32, stored: u32, named: u32) -> Verdict {
    Verdict::LowCount {
        page,
        stored,
        named,
    }
}

// One with a low count, also one with a wrong print on the same page.
fn low_counts() -> [Row; 6] {
    [
        (&[(1, 0, 1)], &[], low(1, 0, 1)),
        (&[(1, 0, 1)], &[(3, 0, [1; 20])], low(1, 0, 1)),
        (&[(1, 0, 3), (1, 4, 3), (2, 8, 1)], &[], low(3, 1, 2)),
        (&[(1, 0, 4), (1, 4, 2), (2, 0, 9)], &[], low(2, 0, 1)),
        (&[(1, 0, 4), (1, 8, 1), (1, 12, 4)], &[], low(1, 0, 1)),
        (
            &[(1, 0, 4), (1, 8, 1), (1, 12, 4), (2, 0, 1)],
            &[],
            low(4, 0, 2),
        ),
    ]
}

// Block 0 names data page 1, which holds the number 5 and is counted once.
const ONE: [Byte; 3] = [(1, 0, 1), (2, 0, 1), (4, 7, 5)];

// The same in version 2.
const ONE_OF_2: [Byte; 4] = [(0, 8, 2), (1, 0, 1), (2, 0, 1), (4, 7, 5)];

fn wrong(page: u32) -> Verdict {
    Verdict::WrongPrint { page }
}

// One with a wrong print, or with a print on a page that nothing counts.
fn prints() -> [Row; 8] {
    [
        (&[], &[(3, 1, [1; 20])], wrong(2)),
        (&ONE, &[(3, 0, SIX)], wrong(1)),
        (&ONE, &[(3, 0, FIVE_OF_2)], wrong(1)),
        (&ONE_OF_2, &[(3, 0, FIVE)], wrong(1)),
        (&[], &[(3, 0, ZEROS), (3, 1, [1; 20])], wrong(2)),
        (&[], &[(3, 2, [1; 20]), (3, 1, [1; 20])], wrong(2)),
        (&[], &[(3, 1, ZEROS)], Verdict::PrintOnZero { page: 2 }),
        (
            &[],
            &[(3, 3, ZEROS), (3, 2, ZEROS)],
            Verdict::PrintOnZero { page: 3 },
        ),
    ]
}

fn sound(waste: u64) -> Verdict {
    Verdict::Sound { waste }
}

fn sounds() -> [Row; 6] {
    [
        (&[], &[], sound(0)),
        (&ONE, &[(3, 0, FIVE)], sound(0)),
        (&ONE_OF_2, &[(3, 0, FIVE_OF_2)], sound(0)),
        (&[(1, 0, 1), (2, 0, 3), (4, 7, 5)], &[], sound(2)),
        (&[(2, 4, 7), (2, 8, 1)], &[(3, 1, ZEROS)], sound(8)),
        (
            &[(1, 0, 4), (1, 8, 1), (1, 12, 4), (2, 0, 1), (2, 12, 2)],
            &[],
            sound(0),
        ),
    ]
}

// Checks images of a shape. No write and no barrier is made.
fn are_found(rt: &impl Abort, alloc: Global, shape: &Shape, rows: &[Row]) -> Result<(), Fail> {
    for (bytes, prints, verdict) in rows {
        let mut device = image(alloc, shape, bytes, prints)?;
        assert_eq!(rt; check(alloc, &mut device), Ok(*verdict), "{bytes:?}");
        assert_eq!(rt; device.calls(), 0);
    }
    Ok(())
}

#[test]
fn finds_malformed_entries(rt: HostRuntime) -> Result<(), Fail> {
    are_found(&rt, rt.alloc(), &Shape::new(4, 4)?, &malformed())
}

#[test]
fn finds_low_counts(rt: HostRuntime) -> Result<(), Fail> {
    are_found(&rt, rt.alloc(), &Shape::new(4, 4)?, &low_counts())
}

#[test]
fn finds_prints(rt: HostRuntime) -> Result<(), Fail> {
    are_found(&rt, rt.alloc(), &Shape::new(4, 4)?, &prints())
}

#[test]
fn finds_that_all_is_sound(rt: HostRuntime) -> Result<(), Fail> {
    are_found(&rt, rt.alloc(), &Shape::new(4, 4)?, &sounds())
}

// An image of 1025 blocks and 1025 data pages, the last of which stand in table pages of their own: the
// last block names the last data page, which holds zeros.
fn last_pages() -> [Row; 4] {
    [
        (
            &[(2, 0, 1), (2, 1, 4), (4, 0, 2)],
            &[(11, 4, ZEROS)],
            sound(1),
        ),
        (&[(2, 0, 1), (2, 1, 4)], &[], low(1025, 0, 1)),
        (
            &[(2, 0, 1), (2, 1, 4), (4, 0, 1)],
            &[(11, 4, FIVE)],
            wrong(1025),
        ),
        (&[(2, 0, 2), (2, 1, 4)], &[], damaged(2, 0)),
    ]
}

#[test]
fn finds_what_the_last_pages_hold(rt: HostRuntime) -> Result<(), Fail> {
    are_found(&rt, rt.alloc(), &Shape::new(1025, 1025)?, &last_pages())
}

fn not_formatted(rt: &impl Abort, alloc: Global, mut device: MemDevice) {
    assert_eq!(rt; check(alloc, &mut device), Err(CheckError::NotFormatted));
}

// No magic, version 3, no block, a device without its last page, and one without any page.
#[test]
fn finds_no_image(rt: HostRuntime) -> Result<(), Fail> {
    let shape = Shape::new(4, 4)?;
    let superblocks: [&[Byte]; 3] = [&[(0, 0, 0)], &[(0, 8, 3)], &[(0, 12, 0)]];
    for bytes in superblocks {
        not_formatted(&rt, rt.alloc(), image(rt.alloc(), &shape, bytes, &[])?);
    }
    not_formatted(&rt, rt.alloc(), formatted(rt.alloc(), &shape, 7)?);
    not_formatted(
        &rt,
        rt.alloc(),
        MemDevice::holding(rt.alloc(), Vec::new(rt.alloc())),
    );
    Ok(())
}

// Block 0 names data page 1, which has a fingerprint: page 0, three table pages and the one data page are read.
fn one(alloc: Global) -> Result<MemDevice, Fail> {
    image(
        alloc,
        &Shape::new(4, 4)?,
        &[(1, 0, 1), (2, 0, 1), (4, 7, 5)],
        &[(3, 0, FIVE)],
    )
}

#[test]
fn tells_a_fault(rt: HostRuntime) -> Result<(), Fail> {
    for read in 1..6 {
        let mut device = one(rt.alloc())?;
        device.fail_read(read)?;
        assert_eq!(rt;
            check(rt.alloc(), &mut device),
            Err(CheckError::Device),
            "read {read}"
        );
        assert_eq!(rt; device.reads(), read);
        assert_eq!(rt;
            check(rt.alloc(), &mut device),
            Ok(Verdict::Sound { waste: 0 })
        );
    }
    let mut device = one(rt.alloc())?;
    device.fail_room(1)?;
    assert_eq!(rt; check(rt.alloc(), &mut device), Err(CheckError::Device));
    Ok(())
}
