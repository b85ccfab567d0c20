// Each kind's answers to a list of calls.
use merge_policy::{Adaptive, Batch, Delay, Eager, Hold, MergePolicy, Offer};
use std::process::Abort;

// A call, and what it answers.
#[derive(Clone, Copy)]
pub enum Call<'a> {
    Tune(u32),
    Pick(&'a [Offer], Option<usize>),
    Wrote(u32),
    Barrier(u32, bool),
}

// A page of this age, with so many changes.
pub fn page(age: u64, edits: u32) -> Offer {
    Offer {
        page: 4,
        age,
        edits,
        waiters: 1,
    }
}

pub fn follow(rt: &impl Abort, policy: &mut dyn MergePolicy, calls: &[Call]) {
    for (place, call) in calls.iter().enumerate() {
        match call {
            Call::Tune(n) => policy.tune(*n),
            Call::Pick(offers, want) => {
                assert_eq!(rt; policy.pick(offers), *want, "of call {place}");
            }
            Call::Wrote(edits) => policy.wrote(*edits),
            Call::Barrier(hung, want) => {
                assert_eq!(rt; policy.barrier(*hung), *want, "of call {place}");
            }
        }
    }
}

#[test]
fn hold_waits(rt: HostRuntime) {
    let mut policy = Hold::new();
    assert_eq!(rt; policy.label(), 0);
    let calls = [
        Call::Tune(0),
        Call::Pick(&[page(u64::MAX, u32::MAX)], None),
        Call::Wrote(1),
        Call::Barrier(4096, false),
    ];
    follow(&rt, &mut policy, &calls);
}

#[test]
fn eager_takes_the_first(rt: HostRuntime) {
    let mut policy = Eager::new();
    assert_eq!(rt; policy.label(), 1);
    let calls = [
        Call::Tune(9),
        Call::Pick(&[page(0, 1), page(9, 9)], Some(0)),
        Call::Wrote(1),
        Call::Pick(&[], None),
        Call::Barrier(1, true),
    ];
    follow(&rt, &mut policy, &calls);
}

#[test]
fn delay_goes_by_age(rt: HostRuntime) {
    let mut policy = Delay::new();
    assert_eq!(rt; policy.label(), 2);
    let calls = [
        Call::Pick(&[page(7, 900), page(8, 1), page(9, 1)], Some(1)),
        Call::Wrote(900),
        Call::Pick(&[page(7, 900)], None),
        Call::Barrier(1, true),
        Call::Tune(0),
        Call::Pick(&[page(0, 1)], Some(0)),
        Call::Pick(&[], None),
        Call::Tune(u32::MAX),
        Call::Pick(&[page(4_294_967_294, 1)], None),
        Call::Pick(&[page(4_294_967_295, 1)], Some(0)),
    ];
    follow(&rt, &mut policy, &calls);
}

#[test]
fn batch_goes_by_number(rt: HostRuntime) {
    let mut policy = Batch::new();
    assert_eq!(rt; policy.label(), 3);
    let calls = [
        Call::Pick(&[page(99, 99); 15], None),
        Call::Barrier(15, false),
        Call::Barrier(16, true),
        Call::Pick(&[page(0, 1); 16], Some(0)),
        Call::Pick(&[page(0, 1)], Some(0)),
        Call::Tune(2),
        Call::Pick(&[page(0, 1)], Some(0)),
        Call::Pick(&[], None),
        Call::Pick(&[page(0, 1)], None),
        Call::Pick(&[page(0, 1); 2], Some(0)),
        Call::Pick(&[], None),
        Call::Tune(0),
        Call::Pick(&[page(0, 1)], Some(0)),
        Call::Barrier(1, true),
    ];
    follow(&rt, &mut policy, &calls);
}

#[test]
fn adaptive_grows(rt: HostRuntime) {
    let mut policy = Adaptive::new();
    assert_eq!(rt; policy.label(), 4);
    let calls = [
        Call::Pick(&[page(15, 3), page(16, 1), page(0, 4)], Some(1)),
        Call::Pick(&[page(15, 3), page(0, 4)], Some(1)),
        Call::Wrote(4),
        Call::Pick(&[page(31, 7)], None),
        Call::Pick(&[page(31, 8)], Some(0)),
        Call::Pick(&[page(32, 7)], Some(0)),
        Call::Tune(600),
        Call::Wrote(600),
        Call::Pick(&[page(4095, 1023)], None),
        Call::Pick(&[page(0, 1024)], Some(0)),
        Call::Barrier(1, true),
    ];
    follow(&rt, &mut policy, &calls);
}

#[test]
fn adaptive_shrinks(rt: HostRuntime) {
    let mut policy = Adaptive::new();
    let calls = [
        Call::Tune(u32::MAX),
        Call::Wrote(1023),
        Call::Pick(&[page(2047, 511)], None),
        Call::Pick(&[page(0, 512)], Some(0)),
        Call::Tune(3),
        Call::Wrote(2),
        Call::Wrote(0),
        Call::Pick(&[page(3, 0)], None),
        Call::Pick(&[page(0, 1)], Some(0)),
        Call::Tune(0),
        Call::Pick(&[page(4, 0)], Some(0)),
        Call::Pick(&[], None),
    ];
    follow(&rt, &mut policy, &calls);
}
