// The first lines of a load.
use trace_text::{LineBuf, command_text};
use workload::line;

#[test]
fn begins_as_the_table_says(rt: HostRuntime) {
    let mut text = LineBuf::new();
    for (i, want) in [
        (0, b"d 1\n".as_slice()),
        (1, b"w 3 110\n"),
        (2, b"r 1\n"),
        (3, b"w 2 221\n"),
        (4, b"w 0 21\n"),
        (5, b"r 2\n"),
        (6, b"w 3 132\n"),
        (7, b"f\n"),
    ] {
        command_text(&line(1, i, 4), &mut text);
        assert_eq!(rt; text.bytes(), want, "at {i}");
    }
}
