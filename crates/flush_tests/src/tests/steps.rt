// Steps that are made of an engine and of the plain program alike, and what both did.
ghost use Rattle.flush_engine.specs.View.{Fits};

use super::listed::{Listed, Told};
use super::plain::{Call, Plain};
use super::rig;
use flush_engine::{Device, Engine};
use merge_policy::Eager;
use page_device::{End, LogEntry, MemDevice};
use std::alloc::Global;

#[derive(Clone, Copy, Drop)]
pub enum Step {
    Touch(u32),
    Order(u32, u32),
    Settle(u32),
    Flush,
    // A turn of the policy that writes all that is ready and then makes a barrier.
    Idle,
}

/// What an engine did: its device, and what its watch was told.
#[derive(Drop)]
pub struct Ran {
    pub device: MemDevice,
    pub watch: Listed,
}

/// Makes a step. A failure is seen in the log.
pub fn make<D: Device>(engine: &mut Engine, device: &mut D, watch: &mut Listed, step: Step)
    requires { Fits engine.old (D.seen device.old) }
    ensures { Fits engine.new (D.seen device.new) }
{
    match step {
        Step::Touch(page) => {
            let _ = rig::touch(engine, device, page);
        }
        Step::Order(before, after) => rig::order(engine, device, before, after),
        Step::Settle(page) => {
            let _ = engine.settle(device, page, watch);
        }
        Step::Flush => {
            let _ = engine.flush_all(device, watch);
        }
        Step::Idle => {
            let _ = engine.idle_turn(device, &mut Eager::new(), watch);
        }
    }
}

/// Makes the steps.
pub fn make_each<D: Device>(engine: &mut Engine, device: &mut D, watch: &mut Listed, steps: &[Step])
    requires { Fits engine.old (D.seen device.old) }
    ensures { Fits engine.new (D.seen device.new) }
{
    for step in steps {
        make(engine, device, watch, *step);
    }
}

/// A device of eight pages of zeros, of which the call of a number fails.
pub fn device(alloc: Global, failing: u64, taken: bool) -> MemDevice {
    let mut device = MemDevice::holding(alloc, Vec::new(alloc));
    let _ = device.room(8);
    let _ = device.fail_call(failing, taken);
    device
}

/// Makes the steps over a new engine, where there is memory.
pub fn run(alloc: Global, steps: &[Step], failing: u64, taken: bool) -> Option<Ran> {
    let mut device = device(alloc, failing, taken);
    let mut engine = rig::empty(alloc)?;
    let Ok(calls) = Vec::with_capacity(alloc, 256) else {
        return None;
    };
    let mut watch = Listed { calls };
    make_each(&mut engine, &mut device, &mut watch, steps);
    Some(Ran { device, watch })
}

/// Makes a step of the plain program.
pub fn make_plainly(plain: &mut Plain, step: Step, calls: &mut Vec<Call>) {
    match step {
        Step::Touch(page) => plain.touch(page),
        Step::Order(before, after) => plain.order(before, after),
        Step::Settle(page) => {
            let _ = plain.waves(Some(page), calls);
        }
        Step::Flush => {
            let _ = plain.waves(None, calls);
        }
        Step::Idle => {
            let _ = plain.eager_turn(calls);
        }
    }
}

/// The calls of the plain program.
pub fn run_plainly(steps: &[Step], failing: u64, calls: &mut Vec<Call>) {
    let mut plain = Plain::new(failing);
    for step in steps {
        make_plainly(&mut plain, *step, calls);
    }
}

fn call_of(entry: &LogEntry) -> Call {
    match entry {
        LogEntry::Write {
            page,
            end: End::Done,
            ..
        } => Call::Write(*page),
        LogEntry::Write { page, .. } => Call::FailedWrite(*page),
        LogEntry::Flush { end: End::Done } => Call::Barrier,
        LogEntry::Flush { .. } => Call::FailedBarrier,
    }
}

/// Whether the device was called so.
pub fn is_log(log: &[LogEntry], calls: &[Call]) -> bool {
    if log.len() != calls.len() {
        return false;
    }
    for (entry, call) in log.iter().zip(calls) {
        if call_of(entry) != *call {
            return false;
        }
    }
    true
}

/// Whether a watch was told of these calls, and of nothing else: of each write that is tried, of each that succeeded, and of each
/// barrier that did.
pub fn is_told(told: &[Told], calls: &[Call]) -> bool {
    let mut rest = told.iter();
    for call in calls {
        let heard = match *call {
            Call::Write(page) => {
                rest.next() == Some(&Told::Tried(page)) && rest.next() == Some(&Told::Written(page))
            }
            Call::FailedWrite(page) => rest.next() == Some(&Told::Tried(page)),
            Call::Barrier => rest.next() == Some(&Told::Fixed),
            Call::FailedBarrier => true,
        };
        if !heard {
            return false;
        }
    }
    rest.next().is_none()
}
