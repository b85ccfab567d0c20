// Images made by hand from the freshly formatted one of 4 blocks and 4 data pages: what a check tells, and
// what a session does.
use crate::tests::bench::{Byte, Print, cut, ends, ends_with, image};
use image_check::Verdict;
use page_device::{Damage, MemDevice};
use session::Status;
use std::alloc::Global;
use std::process::Abort;
use std::test::Fail;

// SHA-1 of 4096 zero bytes, by another program.
const ZEROS: [u8; 20] = [
    0x1c, 0xea, 0xf7, 0x3d, 0xf4, 0x0e, 0x53, 0x1d, 0xf3, 0xbf, 0xb2, 0x6b, 0x4f, 0xb7, 0xcd, 0x95,
    0xfb, 0x7b, 0xff, 0x1d,
];

// SHA-1 of the numbered block 6, by another program.
const SIX: [u8; 20] = [
    0xcd, 0x7a, 0xcc, 0x86, 0x78, 0xda, 0x58, 0xa6, 0xc4, 0x3d, 0x8e, 0xc9, 0x36, 0x70, 0xae, 0xe0,
    0xbf, 0x9a, 0xb3, 0xdc,
];

// An image; the line and the status of a check; and an input, the text and the status of a session, with
// the device calls up to its end.
type Row = (
    &'static [Byte],
    &'static [Print],
    (&'static str, Status),
    (&'static str, &'static str, Status, u64),
);

fn damage(page: u32, entry: u32) -> Status {
    Status::Unsound(Verdict::Damaged(Damage { page, entry }))
}

// Fingerprints on data pages that nothing counts, and a count that is too low: a check and a session tell
// different things.
fn not_fit() -> [Row; 4] {
    let low = Status::Unsound(Verdict::LowCount {
        page: 1,
        stored: 0,
        named: 1,
    });
    let zero = Status::Unsound(Verdict::PrintOnZero { page: 2 });
    let wrong = Status::Unsound(Verdict::WrongPrint { page: 2 });
    let count = ("r 0\n", "damaged 2 0\n", damage(2, 0), 0);
    let print = ("r 0\n", "damaged 3 1\n", damage(3, 1), 0);
    [
        (&[(1, 0, 1)], &[], ("lowcount 1 0 1\n", low), count),
        (&[], &[(2, ZEROS)], ("printonzero 2\n", zero), print),
        (&[], &[(2, [1; 20])], ("wrongprint 2\n", wrong), print),
        (
            &[(1, 0, 1), (3, 0, 2)],
            &[],
            ("damaged 3 0\n", damage(3, 0)),
            count,
        ),
    ]
}

// Block 0 names data page 1, which holds the numbered block 5. Once it has the print of the numbered block 6:
// the image is fit, and reads what its pages hold, but it is not sound. Once its count is 3.
fn fit() -> [Row; 2] {
    [
        (
            &[(1, 0, 1), (2, 0, 1), (4, 7, 5)],
            &[(1, SIX)],
            (
                "wrongprint 1\n",
                Status::Unsound(Verdict::WrongPrint { page: 1 }),
            ),
            (
                "w 1 6\nr 0\nr 1\n",
                "6 ok\n6 data 0000000000000005\n6 data 0000000000000006\n",
                Status::Done,
                6,
            ),
        ),
        (
            &[(1, 0, 1), (2, 0, 3), (4, 7, 5)],
            &[],
            ("sound waste=2\n", Status::Done),
            (
                "s\nt\n",
                "0 bad\n0 stat live=1 waste=2 postponed=0 dirty=0\n",
                Status::Done,
                0,
            ),
        ),
    ]
}

// A check makes no write and no barrier.
#[test]
fn tells_what_it_finds(rt: HostRuntime) -> Result<(), Fail> {
    for (bytes, prints, (line, status), (input, text, ended, calls)) in not_fit()
        .into_iter()
        .chain(fit())
    {
        let mut device = image(rt.alloc(), (4, 4, 1), bytes, prints)?;
        let end = ends_with(rt.alloc(), &mut device, &["check"], "", line)?;
        assert_eq!(rt; (end, device.calls()), ((status, true), 0), "{line}");
        let end = ends(rt.alloc(), &mut device, input, text)?;
        assert_eq!(rt; (end, device.calls()), ((ended, true), calls), "{text}");
    }
    Ok(())
}

// One malformed entry: both name it.
fn malformed() -> [(&'static [Byte], &'static str, Status); 5] {
    [
        (&[(1, 0, 5)], "damaged 1 0\n", damage(1, 0)),
        (&[(1, 16, 1)], "damaged 1 4\n", damage(1, 4)),
        (&[(2, 15, 128)], "damaged 2 3\n", damage(2, 3)),
        (&[(3, 0, 2)], "damaged 3 0\n", damage(3, 0)),
        (&[(3, 4095, 1)], "damaged 3 170\n", damage(3, 170)),
    ]
}

#[test]
fn tells_what_is_malformed(rt: HostRuntime) -> Result<(), Fail> {
    for (bytes, line, status) in malformed() {
        for action in ["check", "trace"] {
            let mut device = image(rt.alloc(), (4, 4, 1), bytes, &[])?;
            let end = ends_with(rt.alloc(), &mut device, &[action], "r 0\n", line)?;
            assert_eq!(rt; end, (status, true), "{action}: {line}");
        }
    }
    Ok(())
}

// Page 0 without its magic, of version 3, of no block, and all zero.
const NO_SUPERBLOCKS: [&[Byte]; 4] = [
    &[(0, 0, 0)],
    &[(0, 8, 3)],
    &[(0, 12, 0)],
    &[
        (0, 0, 0),
        (0, 1, 0),
        (0, 2, 0),
        (0, 3, 0),
        (0, 4, 0),
        (0, 5, 0),
        (0, 6, 0),
        (0, 7, 0),
        (0, 8, 0),
        (0, 12, 0),
        (0, 16, 0),
    ],
];

fn is_no_image(
    rt: &impl Abort,
    alloc: Global,
    mut device: MemDevice,
    action: &str,
) -> Result<(), Fail> {
    let end = ends_with(alloc, &mut device, &[action], "", "not formatted\n")?;
    assert_eq!(rt; end, (Status::NotFormatted, true), "{action}");
    Ok(())
}

// No superblock is in page 0, or the last page is not there.
#[test]
fn is_not_formatted(rt: HostRuntime) -> Result<(), Fail> {
    for action in ["check", "trace"] {
        for bytes in NO_SUPERBLOCKS {
            let device = image(rt.alloc(), (4, 4, 1), bytes, &[])?;
            is_no_image(&rt, rt.alloc(), device, action)?;
        }
        is_no_image(&rt, rt.alloc(), cut(rt.alloc())?, action)?;
    }
    Ok(())
}
