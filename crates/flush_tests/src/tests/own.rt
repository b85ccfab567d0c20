// A policy of a caller's own, in a box: it goes by the age and the edits of what is offered.
ghost use Rattle.std.specs.Prelude.{[]};
ghost use Rattle.merge_policy.specs.declared.labels.TheConstants.{FIRST_OWN};
ghost use Rattle.flush_engine.specs.View.{Fits};

use super::listed::Listed;
use super::plain::Call::{Barrier, Write};
use super::rig;
use super::steps::Step::{Order, Touch};
use super::steps::{device, is_log, make_each};
use flush_engine::{Device, Engine};
use merge_policy::labels::FIRST_OWN;
use merge_policy::{MergePolicy, Offer};
use std::alloc::Global;
use std::process::Abort;
use std::test::Fail;

/// Picks the first page that was dirty when a turn ended, or was edited twice. It makes a barrier where two pages are hung.
#[derive(Drop)]
struct Aged;

impl MergePolicy for Aged {
    ghost seen = { λ policy. record { label = FIRST_OWN; state = [] } };

    fn label(&self) -> u32 {
        FIRST_OWN
    }

    fn tune(&mut self, _n: u32) {}

    fn pick(&mut self, offers: &[Offer]) -> Option<usize> {
        offers
            .iter()
            .position(|offer| offer.age > 0 || offer.edits > 1)
    }

    fn wrote(&mut self, _edits: u32) {}

    fn barrier(&mut self, hung: u32) -> bool {
        hung >= 2
    }
}

// One idle turn, and then it is counted.
fn turn<D: Device>(
    engine: &mut Engine,
    device: &mut D,
    policy: &mut dyn MergePolicy,
    watch: &mut Listed,
) -> Option<bool>
    requires { Fits engine.old (D.seen device.old) }
    ensures { Fits engine.new (D.seen device.new) }
{
    let made = engine.idle_turn(device, policy, watch).ok();
    engine.turn_done();
    made
}

// Page 3 was edited twice, and page 4 waits for page 1.
fn goes_by_ages(alloc: Global, policy: &mut dyn MergePolicy) -> bool {
    let mut device = device(alloc, 0, false);
    let Some(mut engine) = rig::empty(alloc) else {
        return false;
    };
    let Ok(calls) = Vec::with_capacity(alloc, 1) else {
        return false;
    };
    let mut watch = Listed { calls };
    let steps = [Touch(1), Touch(3), Touch(3), Touch(4), Order(1, 4)];
    make_each(&mut engine, &mut device, &mut watch, &steps);
    let first = turn(&mut engine, &mut device, policy, &mut watch);
    let second = turn(&mut engine, &mut device, policy, &mut watch);
    let third = turn(&mut engine, &mut device, policy, &mut watch);
    first == Some(false)
        && second == Some(true)
        && third == Some(false)
        && is_log(device.log(), &[Write(3), Write(1), Barrier, Write(4)])
}

#[test]
fn asks_a_policy_in_a_box(rt: HostRuntime) -> Result<(), Fail> {
    let alloc = rt.alloc();
    let mut policy: Box<dyn MergePolicy> = Box::new(alloc, Aged)?;
    assert!(&rt; goes_by_ages(alloc, &mut *policy));
    Ok(())
}
