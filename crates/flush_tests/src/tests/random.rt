// Many graphs beside the plain program: the calls are the same, and a flush has as many barriers as the graph has levels.
ghost use Rattle.flush_engine.specs.View.{Fits};

use super::listed::Listed;
use super::plain::{Call, Plain};
use super::rig;
use super::steps::{Step, device, is_log, make, make_plainly};
use flush_engine::{Device, Engine};
use std::alloc::Global;
use std::process::Abort;

const GRAPHS: u32 = 10_000;

// The next number of a list that is the same each time.
fn next(seed: &mut u64) -> u64 {
    *seed = seed
        .wrapping_mul(6_364_136_223_846_793_005)
        .wrapping_add(1_442_695_040_888_963_407);
    *seed >> 33
}

fn page(seed: &mut u64) -> u32 {
    (next(seed) % 8) as u32
}

// Of sixteen steps, on an average: five edits, nine orders, a settle and an idle turn.
fn step(seed: &mut u64) -> Step {
    match next(seed) % 16 {
        0..=4 => Step::Touch(page(seed)),
        5 => Step::Settle(page(seed)),
        6 => Step::Idle,
        _ => Step::Order(page(seed), page(seed)),
    }
}

// Sixteen steps of both.
fn make_steps<D: Device>(
    engine: &mut Engine,
    device: &mut D,
    watch: &mut Listed,
    plain: &mut Plain,
    calls: &mut Vec<Call>,
    seed: &mut u64,
)
    requires { Fits engine.old (D.seen device.old) }
    ensures { Fits engine.new (D.seen device.new) }
{
    for _ in 0..16u32 {
        let step = step(seed);
        make(engine, device, watch, step);
        make_plainly(plain, step, calls);
    }
}

fn barriers(calls: &[Call]) -> u32 {
    let mut many = 0u32;
    for call in calls {
        if *call == Call::Barrier {
            many = many.saturating_add(1);
        }
    }
    many
}

// Whether both make the same calls, and the last flush, if it succeeds, as many barriers as there are levels.
fn is_alike(alloc: Global, seed: &mut u64) -> bool {
    let failing = next(seed) % 24;
    let mut device = device(alloc, failing, next(seed) % 2 == 0);
    let mut plain = Plain::new(failing);
    let Some(mut engine) = rig::empty(alloc) else {
        return false;
    };
    let (Ok(told), Ok(mut calls)) = (Vec::with_capacity(alloc, 1), Vec::with_capacity(alloc, 512))
    else {
        return false;
    };
    let mut watch = Listed { calls: told };
    make_steps(
        &mut engine,
        &mut device,
        &mut watch,
        &mut plain,
        &mut calls,
        seed,
    );
    let before = barriers(&calls);
    let levels = rig::levels(&mut engine);
    let flushed = engine.flush_all(&mut device, &mut watch).is_ok();
    let alike = plain.waves(None, &mut calls) == flushed && is_log(device.log(), &calls);
    alike && (!flushed || barriers(&calls) == before.saturating_add(levels))
}

#[test]
fn many_graphs(rt: HostRuntime) {
    let mut seed = 27u64;
    for graph in 0..GRAPHS {
        assert!(&rt; is_alike(rt.alloc(), &mut seed), "of graph {graph}");
    }
}
