// Rows of the trace language: lines and what they read as, and the text of each reply.
use page_device::{Damage, Page};
use trace_text::{
    Halt, LineBuf, Reply, ScanReport, Stat, command_text, formatted_text, low_count_text, parse,
    print_on_zero_text, read_number, reply_text, sound_text, wrong_print_text,
};

// The line that a line is read as, with its LF, or no bytes where it is bad.
#[tactic(auto, using(trace_text::proofs::Shapes::has_line))]
fn read_as(line: &[u8]) -> LineBuf {
    let mut text = LineBuf::new();
    if let Ok(command) = parse(line) {
        command_text(&command, &mut text);
    }
    text
}

#[test]
fn lines_are_commands(rt: HostRuntime) {
    for (line, same) in [
        (b"w 3 110".as_slice(), b"w 3 110\n".as_slice()),
        (
            b"w 4294967295 18446744073709551615",
            b"w 4294967295 18446744073709551615\n",
        ),
        (b"x 0 aBCd", b"x 0 abcd\n"),
        (b"x 7 0a0000", b"x 7 0a\n"),
        (b"x 7 0000", b"x 7 00\n"),
        (b"r 0", b"r 0\n"),
        (b"d 4294967295", b"d 4294967295\n"),
        (b"c 0 20 4294967295", b"c 0 20 4294967295\n"),
        (b"f", b"f\n"),
        (b"s", b"s\n"),
        (b"t", b"t\n"),
        (b"p 2", b"p 2\n"),
        (b"n 10", b"n 10\n"),
        (b".", b".\n"),
    ] {
        assert_eq!(rt; read_as(line).bytes(), same);
    }
}

#[test]
fn numbers_have_a_limit(rt: HostRuntime) {
    assert_eq!(rt; read_number(b"4096", 4096), Some(4096));
    assert_eq!(rt; read_number(b"4097", 4096), None);
    assert_eq!(rt; read_number(b"0", 0), Some(0));
}

#[test]
fn other_lines_are_bad(rt: HostRuntime) {
    for line in [
        b"".as_slice(),
        b" ",
        b"F",
        b"f ",
        b" f",
        b"f\r",
        b"ff",
        b"q 1",
        b"w 1",
        b"w 1 2 3",
        b"w  1 2",
        b"w\t1 2",
        b"w 4294967296 0",
        b"w 0 18446744073709551616",
        b"w 0 99999999999999999999",
    ] {
        assert_eq!(rt; parse(line).is_err(), true, "{} bytes", line.len());
    }
}

#[test]
fn other_numbers_are_bad(rt: HostRuntime) {
    for line in [
        b"r".as_slice(),
        b"r ",
        b"r 00",
        b"r 01",
        b"r +1",
        b"r -1",
        b"r 1a",
        b"r 1 ",
        b"r 1\r",
        b"d 4294967296",
        b"p 4294967296",
        b"n 4294967296",
        b"c 1 2",
        b"c 1 2 0",
        b"c 1 2 4294967296",
        b"c 1 2 3 4",
    ] {
        assert_eq!(rt; parse(line).is_err(), true, "{} bytes", line.len());
    }
}

#[test]
fn digits_come_in_pairs(rt: HostRuntime) {
    for line in [
        b"x 0".as_slice(),
        b"x 0 ",
        b"x 0 a",
        b"x 0 abc",
        b"x 0 0g",
        b"x 0 a ",
        b"x 0 ab ab",
    ] {
        assert_eq!(rt; parse(line).is_err(), true, "{} bytes", line.len());
    }
}

#[test]
fn digits_are_at_most_a_page(rt: HostRuntime) {
    let mut line = [b'7'; 8199];
    line[..5].copy_from_slice(b"x 12 ");
    assert_eq!(rt; parse(&line[..8196]).is_err(), true, "8191 digits");
    assert_eq!(rt; read_as(&line[..8197]).bytes().len(), 8198, "8192 digits");
    assert_eq!(rt; parse(&line).is_err(), true, "8194 digits");
}

// The text of a reply after 7 device calls is this.
fn shows(reply: Reply, want: &[u8]) -> bool {
    let mut text = LineBuf::new();
    reply_text(7, &reply, &mut text);
    text.bytes() == want
}

#[test]
fn replies_of_one_word(rt: HostRuntime) {
    for (reply, want) in [
        (Reply::Done, b"7 ok\n".as_slice()),
        (Reply::Range, b"7 range\n"),
        (Reply::Fault, b"7 fault\n"),
        (Reply::NoMemory, b"7 nomem\n"),
        (Reply::NoPolicy, b"7 nopolicy\n"),
        (Reply::Bad, b"7 bad\n"),
        (Reply::Overlap, b"7 overlap\n"),
    ] {
        assert!(rt; shows(reply, want), "{want:?}");
    }
}

const DAMAGE: Damage = Damage {
    page: 5,
    entry: 170,
};

const STAT: Stat = Stat {
    live: 2,
    waste: 1,
    postponed: 0,
    dirty: 4,
};

const SCAN: ScanReport = ScanReport {
    freed: 1,
    lowered: 0,
    printed: 3,
};

#[test]
fn replies_with_numbers(rt: HostRuntime) {
    for (reply, want) in [
        (Reply::Damaged(DAMAGE), b"7 damaged 5 170\n".as_slice()),
        (Reply::Full { live: 1, waste: 0 }, b"7 full 1 0\n"),
        (
            Reply::Stat(STAT),
            b"7 stat live=2 waste=1 postponed=0 dirty=4\n",
        ),
        (Reply::Scan(SCAN), b"7 scan freed=1 lowered=0 printed=3\n"),
    ] {
        assert!(rt; shows(reply, want), "{want:?}");
    }
}

#[test]
fn replies_of_a_copy_that_stopped(rt: HostRuntime) {
    for (done, why, want) in [
        (0, Halt::Fault, b"7 stopped 0 fault\n".as_slice()),
        (1, Halt::Damaged(DAMAGE), b"7 stopped 1 damaged 5 170\n"),
        (
            2,
            Halt::Full { live: 4, waste: 3 },
            b"7 stopped 2 full 4 3\n",
        ),
        (3, Halt::NoMemory, b"7 stopped 3 nomem\n"),
    ] {
        assert!(rt; shows(Reply::Stopped { done, why }, want), "{done}");
    }
}

#[test]
fn replies_with_contents(rt: HostRuntime) {
    for (page, want) in [
        (Page::zero(), b"7 data -\n".as_slice()),
        (Page::numbered(5), b"7 data 0000000000000005\n"),
        (Page::numbered(171 << 56), b"7 data ab\n"),
    ] {
        assert!(rt; shows(Reply::Bytes(page), want), "{want:?}");
    }
}

#[test]
fn lines_of_actions(rt: HostRuntime) {
    let mut text = LineBuf::new();
    formatted_text(4, 1048576, &mut text);
    assert_eq!(rt;
        text.bytes(),
        b"formatted blocks=4 pages=1048576\n".as_slice()
    );
    sound_text(u64::MAX, &mut text);
    assert_eq!(rt;
        text.bytes(),
        b"sound waste=18446744073709551615\n".as_slice()
    );
    low_count_text(1, 0, 1, &mut text);
    assert_eq!(rt; text.bytes(), b"lowcount 1 0 1\n".as_slice());
    wrong_print_text(1, &mut text);
    assert_eq!(rt; text.bytes(), b"wrongprint 1\n".as_slice());
    print_on_zero_text(2, &mut text);
    assert_eq!(rt; text.bytes(), b"printonzero 2\n".as_slice());
}

#[test]
fn the_longest_reply_fits(rt: HostRuntime) {
    let mut text = LineBuf::new();
    reply_text(u64::MAX, &Reply::Bytes(Page([255; 4096])), &mut text);
    assert_eq!(rt; text.bytes().len(), 8219);
    text.clear();
    assert_eq!(rt; text.bytes().len(), 0);
}
