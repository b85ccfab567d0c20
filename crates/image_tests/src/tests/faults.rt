// Each device call of a write fails in turn.
use crate::tests::bench::{Bench, Step};
use dedup_writer::Refusal;
use std::alloc::Global;
use std::process::Abort;
use std::test::Fail;

// The call of the first write that fails, whether the write is done, the device calls up to the end of a flush
// behind it, and the data page that the next write takes. Until the map page is tried a fault refuses the write,
// and from then on the write is done and the map page is pending: a flush makes two calls more. The next write
// takes another data page where the first is counted.
const ROWS: [(u64, bool, u64, u32); 6] = [
    (1, false, 1, 4),
    (2, false, 2, 4),
    (3, false, 3, 5),
    (4, false, 4, 5),
    (5, true, 7, 5),
    (6, true, 8, 5),
];

// A write of which one call fails, a flush, and a write of another block.
fn goes_on(
    rt: &impl Abort,
    alloc: Global,
    (call, done, calls, next): (u64, bool, u64, u32),
    taken: bool,
) -> Result<(), Fail> {
    let mut bench = Bench::formatted(alloc, 4, 4)?;
    bench.fail_calls(&[call], taken)?;
    let answer = if done { Ok(()) } else { Err(Refusal::Device) };
    let rows = [
        (Step::Write(2, 7), answer, call),
        (Step::Flush, Ok(()), calls),
        (Step::Write(0, 8), Ok(()), calls.saturating_add(6)),
    ];
    assert_eq!(rt; bench.first_wrong(&rows), None, "call {call}");
    assert!(rt; bench.wrote(calls as usize, &[Some(next)]), "call {call}");
    let number = if done { 7 } else { 0 };
    assert!(rt; bench.hold(&[(2, number), (0, 8)]), "call {call}");
    Ok(())
}

#[test]
fn goes_on_after_each_fault(rt: HostRuntime) -> Result<(), Fail> {
    for row in ROWS {
        goes_on(&rt, rt.alloc(), row, false)?;
        goes_on(&rt, rt.alloc(), row, true)?;
    }
    Ok(())
}
