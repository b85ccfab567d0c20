// Each device call of the session fails in turn, taken and not: the replies against a table made by hand, and
// every image of every moment against the plain array.
use crate::tests::bench::{command, ends, formatted};
use crate::tests::images::{holds, images_at, pages_of};
use page_device::{MemDevice, Page};
use plain_array::{
    Mode, Row, array_after, array_start, block_of, fits_reply, is_tight, may_be_left,
};
use session::Status;
use std::alloc::Global;
use std::process::Abort;
use std::test::Fail;
use trace_text::{Command, Reply};

// Whether each line is done, and the number of its reply.
type Turns = [(bool, u64); 3];

// The call that fails, counted from 1, and 0 for none; the turns; the device calls with those of the closing
// flush; and the number of the block that block 0 reads then. Until the map page is tried a fault refuses the
// write. From then on the write is done, and the next flush, or the one that closes the session, puts the map
// page by two calls more.
const TABLE: [(u64, Turns, u64, u64); 13] = [
    (0, [(true, 6), (true, 6), (true, 12)], 12, 6),
    (1, [(false, 1), (true, 1), (true, 7)], 7, 6),
    (2, [(false, 2), (true, 2), (true, 8)], 8, 6),
    (3, [(false, 3), (true, 3), (true, 9)], 9, 6),
    (4, [(false, 4), (true, 4), (true, 10)], 10, 6),
    (5, [(true, 5), (true, 7), (true, 13)], 13, 6),
    (6, [(true, 6), (true, 8), (true, 14)], 14, 6),
    (7, [(true, 6), (true, 6), (false, 7)], 7, 5),
    (8, [(true, 6), (true, 6), (false, 8)], 8, 5),
    (9, [(true, 6), (true, 6), (false, 9)], 9, 5),
    (10, [(true, 6), (true, 6), (false, 10)], 10, 5),
    (11, [(true, 6), (true, 6), (true, 11)], 13, 6),
    (12, [(true, 6), (true, 6), (true, 12)], 14, 6),
];

fn reply(done: bool) -> Reply {
    if done { Reply::Done } else { Reply::Fault }
}

fn word(done: bool) -> &'static str {
    if done { "ok" } else { "fault" }
}

// The text of the replies.
fn text(alloc: Global, turns: Turns) -> Result<String, Fail> {
    let mut text = String::new(alloc);
    for (done, at) in turns {
        let line = format!(in alloc; "{at} {}\n", word(done))?;
        text.push_str(&line)?;
    }
    Ok(text)
}

// How many lines had been answered after so many calls.
fn answered(turns: Turns, calls: u64) -> usize {
    let mut lines: usize = 0;
    for (_, at) in turns {
        if at <= calls {
            lines = lines.saturating_add(1);
        }
    }
    lines
}

// The plain array after a line, whose reply fits.
fn after_line(
    rt: &impl Abort,
    alloc: Global,
    rows: &[Row],
    line: usize,
    done: bool,
) -> Result<Vec<Row>, Fail> {
    let command = command(line);
    let reply = reply(done);
    assert!(rt; fits_reply(rows, &[], &command, &reply), "line {line}");
    Ok(array_after(alloc, 1, rows, &command, &reply)?)
}

// The plain array after the first lines.
fn after_lines(
    rt: &impl Abort,
    alloc: Global,
    start: &[Page],
    turns: Turns,
    lines: usize,
) -> Result<Vec<Row>, Fail> {
    let mut rows = array_start(alloc, start, 4)?;
    for (line, (done, _)) in turns.iter().take(lines).enumerate() {
        rows = after_line(rt, alloc, &rows, line, *done)?;
    }
    Ok(rows)
}

// Every image of a moment is sound, and reads what is allowed or what the command at work writes.
fn may_all_be_left(
    rt: &impl Abort,
    alloc: Global,
    device: &MemDevice,
    at: u64,
    rows: &[Row],
    command: &Command,
) -> Result<(), Fail> {
    for pages in images_at(alloc, device, at)? {
        let left = may_be_left(Mode::Sound, rows, command, &pages)?;
        assert!(rt; left, "after {at} calls");
    }
    Ok(())
}

// So it is at every moment while lines are answered, and once the session has closed by a flush.
fn at_each_moment(
    rt: &impl Abort,
    alloc: Global,
    device: &MemDevice,
    start: &[Page],
    turns: Turns,
) -> Result<(), Fail> {
    let calls = device.calls();
    for at in 0..15 {
        let lines = answered(turns, at);
        let rows = after_lines(rt, alloc, start, turns, lines)?;
        may_all_be_left(rt, alloc, device, at, &rows, &command(lines))?;
    }
    let rows = after_lines(rt, alloc, start, turns, 3)?;
    let closed = array_after(alloc, 1, &rows, &Command::Flush, &Reply::Done)?;
    may_all_be_left(rt, alloc, device, calls, &closed, &Command::Tick)
}

// The session, where a call fails that is taken or not. Gives how it ended, whether it put the text of these
// turns, and its device.
fn one_fails(
    alloc: Global,
    call: u64,
    taken: bool,
    turns: Turns,
) -> Result<(MemDevice, Status, bool), Fail> {
    let mut device = formatted(alloc)?;
    device.fail_call(call, taken)?;
    let text = text(alloc, turns)?;
    let (status, put) = ends(alloc, &mut device, &text)?;
    Ok((device, status, put))
}

// The number of the block that block 0 reads is this one.
fn reads(alloc: Global, device: &mut MemDevice, number: u64) -> Result<bool, Fail> {
    let pages = pages_of(alloc, device)?;
    Ok(holds(&block_of(&pages, 0), number))
}

// A row of the table.
fn survives(
    rt: &impl Abort,
    alloc: Global,
    start: &[Page],
    row: (u64, Turns, u64, u64),
    taken: bool,
) -> Result<(), Fail> {
    let (call, turns, calls, last) = row;
    let (mut device, status, put) = one_fails(alloc, call, taken, turns)?;
    let end = (status, put, device.calls());
    assert_eq!(rt; end, (Status::Done, true, calls), "call {call}");
    at_each_moment(rt, alloc, &device, start, turns)?;
    assert!(rt; reads(alloc, &mut device, last)?, "call {call}");
    Ok(())
}

#[test]
fn survives_each_fault(rt: HostRuntime) -> Result<(), Fail> {
    let start = pages_of(rt.alloc(), &mut formatted(rt.alloc())?)?;
    assert!(rt; is_tight(&start));
    for row in TABLE {
        survives(&rt, rt.alloc(), &start, row, false)?;
        survives(&rt, rt.alloc(), &start, row, true)?;
    }
    Ok(())
}
