// A policy of a caller's own.
ghost use Rattle.std.specs.Prelude.{[]};
ghost use Rattle.merge_policy.specs.declared.labels.TheConstants.{FIRST_OWN};

use super::kinds::{Call, follow};
use merge_policy::labels::FIRST_OWN;
use merge_policy::{MergePolicy, Offer};

/// Writes the pages that others wait for, and makes a barrier once enough pages are hung.
#[derive(Drop)]
pub struct Unblock {
    least_hung: u32,
}

impl Unblock {
    pub fn new() -> Unblock {
        Unblock { least_hung: 2 }
    }
}

impl MergePolicy for Unblock {
    // Behind a label of one's own contracts say nothing of the state.
    ghost seen = { λ policy. record { label = FIRST_OWN; state = [] } };

    fn label(&self) -> u32 {
        FIRST_OWN
    }

    fn tune(&mut self, n: u32) {
        self.least_hung = n;
    }

    fn pick(&mut self, offers: &[Offer]) -> Option<usize> {
        offers.iter().position(|offer| offer.waiters > 0)
    }

    fn wrote(&mut self, _edits: u32) {}

    fn barrier(&mut self, hung: u32) -> bool {
        hung >= self.least_hung
    }
}

// A page for which so many others wait.
fn offer(page: u32, waiters: u32) -> Offer {
    Offer {
        page,
        age: 0,
        edits: 1,
        waiters,
    }
}

#[test]
fn asks_a_policy_of_its_own(rt: HostRuntime) {
    let mut policy = Unblock::new();
    let calls = [
        Call::Pick(&[offer(2, 0), offer(3, 4), offer(7, 1)], Some(1)),
        Call::Wrote(1),
        Call::Barrier(1, false),
        Call::Pick(&[offer(2, 0), offer(7, 1)], Some(1)),
        Call::Wrote(1),
        Call::Pick(&[offer(2, 0)], None),
        Call::Barrier(2, true),
        Call::Tune(3),
        Call::Barrier(2, false),
    ];
    follow(&rt, &mut policy, &calls);
}
