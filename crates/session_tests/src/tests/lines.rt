// Lines and their replies. The number before each reply is that of the device writes and barriers so far:
// six for a write, two for a discard.
use crate::tests::bench::{Image, begun, ends, ends_over, sink, source};
use session::Status;
use std::test::Fail;

const FOUR: Image = (4, 4, 1);

// One data page alone.
const NARROW: Image = (2, 1, 1);

const OF_VERSION_2: Image = (4, 4, 2);

// A freshly formatted image, an input, and its text.
const ROWS: [(Image, &str, &str); 15] = [
    (FOUR, "", ""),
    (FOUR, "r 0\n", "0 data -\n"),
    (
        FOUR,
        "w 0 5\nf\nr 0\nr 1\n",
        "6 ok\n6 ok\n6 data 0000000000000005\n6 data -\n",
    ),
    (
        FOUR,
        "w 0 5\nw 1 5\nf\nt\n",
        "6 ok\n12 ok\n12 ok\n12 stat live=2 waste=0 postponed=0 dirty=0\n",
    ),
    (
        FOUR,
        "w 0 5\nw 0 6\nt\n",
        "6 ok\n12 ok\n12 stat live=2 waste=1 postponed=0 dirty=0\n",
    ),
    (
        FOUR,
        "w 0 5\nf\nd 0\nt\nf\nr 0\nd 0\n",
        "6 ok\n6 ok\n8 ok\n8 stat live=1 waste=1 postponed=0 dirty=0\n8 ok\n8 data -\n8 ok\n",
    ),
    (
        FOUR,
        "x 0 00\nf\nr 0\nt\n",
        "6 ok\n6 ok\n6 data -\n6 stat live=1 waste=0 postponed=0 dirty=0\n",
    ),
    (
        FOUR,
        "p 9\np 2\nn 3\n.\ns\nc 0 1 1\n",
        "0 nopolicy\n0 nopolicy\n0 ok\n0 ok\n0 bad\n0 bad\n",
    ),
    (FOUR, "x 0 ABcd\nr 0", "6 ok\n6 data abcd\n"),
    (FOUR, "w 0 5\nr", "6 ok\n6 bad\n"),
    (FOUR, "r 4\nr 4294967295\n", "0 range\n0 range\n"),
    (
        FOUR,
        "r 4294967296\nx 0 0\n\nw 0\nw 00 5\n r 0\n",
        "0 bad\n0 bad\n0 bad\n0 bad\n0 bad\n0 bad\n",
    ),
    // a second write finds no data page, also after a discard, since no count is lowered
    (
        NARROW,
        "w 0 5\nw 1 6\nw 1 5\n",
        "6 ok\n6 full 1 0\n6 full 1 0\n",
    ),
    (NARROW, "w 0 5\nd 0\nw 0 6\n", "6 ok\n8 ok\n8 full 1 1\n"),
    // a write of zeros unmaps its block
    (
        OF_VERSION_2,
        "x 0 00\nf\nr 0\nt\n",
        "0 ok\n0 ok\n0 data -\n0 stat live=0 waste=0 postponed=0 dirty=0\n",
    ),
];

#[test]
fn answers(rt: HostRuntime) -> Result<(), Fail> {
    for (image, input, text) in ROWS {
        let mut device = begun(rt.alloc(), image)?;
        let end = ends(rt.alloc(), &mut device, input, text)?;
        assert_eq!(rt; end, (Status::Done, true), "{input}");
    }
    Ok(())
}

// The front of an input, how many ones follow it, what is behind them, and the text. Lines of 8,205 bytes at
// most are taken; a longer one is bad, and is skipped to its end.
const LONG: [(&[u8], usize, &[u8], &str); 3] = [
    (b"x 0 ", 8194, b"\n", "0 bad\n"),
    (b"", 8206, b"\nr 0\n", "0 bad\n0 data -\n"),
    (b"x 4294967295 ", 8192, b"\n", "0 range\n"),
];

#[test]
fn long_lines(rt: HostRuntime) -> Result<(), Fail> {
    for (front, digits, rest, text) in LONG {
        let mut input = front.to_vec(rt.alloc())?;
        input.resize(front.len() + digits, b'1')?;
        input.extend_from_slice(rest)?;
        let mut device = begun(rt.alloc(), FOUR)?;
        let ports = (
            source(rt.alloc(), &input, 1000, &[])?,
            sink(rt.alloc(), &[])?,
        );
        let end = ends_over(rt.alloc(), &mut device, &["trace"], ports, text)?;
        assert_eq!(rt; end, (Status::Done, true), "{digits}");
    }
    Ok(())
}
