// The device calls of a write and of a flush, in order.
use crate::tests::bench::{Bench, Row, Step};
use dedup_writer::Refusal;
use std::test::Fail;

const TWO_WRITES: [Row; 3] = [
    (Step::Write(2, 7), Ok(()), 6),
    (Step::Write(0, 8), Ok(()), 12),
    (Step::Flush, Ok(()), 12),
];

const WRITTEN: [Option<u32>; 12] = [
    Some(4),
    None,
    Some(2),
    None,
    Some(1),
    None,
    Some(5),
    None,
    Some(2),
    None,
    Some(1),
    None,
];

// The data page, the count page and the map page are written, with a barrier behind each. A second write
// takes the next data page, and a flush where nothing is pending makes no call.
#[test]
fn writes_data_then_count_then_map(rt: HostRuntime) -> Result<(), Fail> {
    let mut bench = Bench::formatted(rt.alloc(), 4, 4)?;
    assert_eq!(rt; bench.first_wrong(&TWO_WRITES), None);
    assert!(rt; bench.wrote(0, &WRITTEN));
    Ok(())
}

const TWO_PENDING: [Row; 5] = [
    (Step::Write(0, 7), Ok(()), 5),
    (Step::Write(1024, 8), Ok(()), 10),
    (Step::Flush, Err(Refusal::Device), 11),
    (Step::Flush, Ok(()), 15),
    (Step::Flush, Ok(()), 15),
];

// Two map pages could not be written. A flush that fails at the first leaves both for the next, which
// writes each behind a barrier of its own; then nothing is left.
#[test]
fn flush_writes_what_is_pending(rt: HostRuntime) -> Result<(), Fail> {
    let mut bench = Bench::formatted(rt.alloc(), 1025, 2)?;
    bench.fail_calls(&[5, 10, 11], false)?;
    assert_eq!(rt; bench.first_wrong(&TWO_PENDING), None);
    assert!(rt; bench.wrote(11, &[Some(1), None, Some(2), None]));
    Ok(())
}
