// Worked graphs with their device calls, and each device call failing in turn beside the plain program.
use super::plain::Call::{self, Barrier, Write};
use super::steps::Step::{self, Flush, Idle, Order, Settle, Touch};
use super::steps::{is_log, is_told, run, run_plainly};
use std::alloc::Global;
use std::process::Abort;

// One write of a block: its data page 4 and its count page 2 before its map page 1 and its print page 3.
const ONE_BLOCK: &[Step] = &[
    Touch(4),
    Touch(2),
    Touch(3),
    Order(4, 3),
    Order(2, 3),
    Touch(1),
    Order(4, 1),
    Order(2, 1),
    Flush,
];

const ONE_BLOCK_CALLS: &[Call] = &[Write(2), Write(4), Barrier, Write(1), Write(3), Barrier];

// Then another block at the same place, in data page 5; and the old page is released: its print is removed before its count falls.
const RELEASED: &[Step] = &[
    Touch(5),
    Touch(2),
    Touch(3),
    Touch(1),
    Order(5, 3),
    Order(2, 3),
    Order(5, 1),
    Order(2, 1),
    Flush,
    Touch(3),
    Touch(2),
    Order(3, 2),
    Flush,
    Flush,
];

const RELEASED_CALLS: &[Call] = &[
    Write(2),
    Write(5),
    Barrier,
    Write(1),
    Write(3),
    Barrier,
    Write(3),
    Barrier,
    Write(2),
    Barrier,
];

// A settle of a map page: what the print page waits for is written with it, and the print page stays dirty.
const SETTLED: &[Step] = &[
    Touch(7),
    Touch(4),
    Touch(5),
    Touch(1),
    Touch(0),
    Order(7, 5),
    Order(4, 5),
    Order(7, 1),
    Order(4, 1),
    Settle(1),
    Settle(1),
    Settle(6),
];

const SETTLED_CALLS: &[Call] = &[Write(4), Write(7), Barrier, Write(1), Barrier];

// A print page is settled, since the count page that it would wait for waits for it.
const TURNED: &[Step] = &[
    Touch(3),
    Touch(2),
    Order(3, 2),
    Order(2, 3),
    Settle(3),
    Touch(6),
    Touch(3),
    Touch(1),
    Order(6, 3),
    Order(2, 3),
    Order(6, 1),
    Order(2, 1),
    Flush,
];

const TURNED_CALLS: &[Call] = &[
    Write(3),
    Barrier,
    Write(2),
    Write(6),
    Barrier,
    Write(1),
    Write(3),
    Barrier,
];

// A chain, an idle turn that writes its first page, and an edit of that page that is to come last.
const CHAIN: &[Step] = &[
    Touch(5),
    Touch(3),
    Touch(1),
    Order(5, 3),
    Order(3, 1),
    Idle,
    Touch(5),
    Order(1, 5),
    Flush,
    Idle,
];

const CHAIN_CALLS: &[Call] = &[
    Write(5),
    Barrier,
    Write(3),
    Barrier,
    Write(1),
    Barrier,
    Write(5),
    Barrier,
];

// A settle of page 6, to which page 4 alone leads, while others are ready: two below them and one between them, and page 7 once page
// 4 is on the device. The settle writes none of these.
const AMONG_OTHERS: &[Step] = &[
    Touch(0),
    Touch(2),
    Touch(4),
    Touch(5),
    Touch(6),
    Touch(7),
    Touch(3),
    Order(4, 6),
    Order(4, 7),
    Order(0, 3),
    Settle(6),
    Flush,
];

const AMONG_OTHERS_CALLS: &[Call] = &[
    Write(4),
    Barrier,
    Write(6),
    Barrier,
    Write(0),
    Write(2),
    Write(5),
    Write(7),
    Barrier,
    Write(3),
    Barrier,
];

fn are_calls(alloc: Global, steps: &[Step], wanted: &[Call]) -> bool {
    match run(alloc, steps, 0, false) {
        Some(ran) => is_log(ran.device.log(), wanted) && is_told(&ran.watch.calls, wanted),
        None => false,
    }
}

// Whether engine and plain program do the same where the call of this number fails.
fn fails_alike(alloc: Global, steps: &[Step], failing: u64, taken: bool) -> bool {
    let Ok(mut calls) = Vec::with_capacity(alloc, 256) else {
        return false;
    };
    run_plainly(steps, failing, &mut calls);
    match run(alloc, steps, failing, taken) {
        Some(ran) => is_log(ran.device.log(), &calls) && is_told(&ran.watch.calls, &calls),
        None => false,
    }
}

// The same for each of the calls, taken by the device or not.
fn each_fails_alike(alloc: Global, steps: &[Step]) -> bool {
    for failing in 0..12u64 {
        if !fails_alike(alloc, steps, failing, false) || !fails_alike(alloc, steps, failing, true) {
            return false;
        }
    }
    true
}

#[test]
fn worked_graphs(rt: HostRuntime) {
    for (steps, calls) in [
        (ONE_BLOCK, ONE_BLOCK_CALLS),
        (RELEASED, RELEASED_CALLS),
        (SETTLED, SETTLED_CALLS),
        (TURNED, TURNED_CALLS),
        (CHAIN, CHAIN_CALLS),
        (AMONG_OTHERS, AMONG_OTHERS_CALLS),
    ] {
        assert!(&rt; are_calls(rt.alloc(), steps, calls));
        assert!(&rt; each_fails_alike(rt.alloc(), steps));
    }
}
