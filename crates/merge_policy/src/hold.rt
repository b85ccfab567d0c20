// The policy that waits.
ghost use Rattle.std.specs.Prelude.{◌≡◌, []};
ghost use Rattle.merge_policy.specs.declared.labels.TheConstants.{HOLD};

use crate::labels::HOLD;
use crate::{MergePolicy, Offer};

/// Writes no page by itself: each waits for a flush, or until its place is needed.
#[derive(Drop)]
pub struct Hold;

impl Hold {
    /// The policy, with label 0. It has no number to set. Each call takes constant time.
    pub fn new() -> Hold
        ensures { ⟦<Hold as MergePolicy>⟧.seen result ≡ record { label = 0; state = [] } }
    {
        Hold
    }
}

impl MergePolicy for Hold {
    ghost seen = { λ policy. record { label = HOLD; state = [] } };

    fn label(&self) -> u32 {
        HOLD
    }

    fn tune(&mut self, _n: u32) {}

    fn pick(&mut self, _offers: &[Offer]) -> Option<usize> {
        None
    }

    fn wrote(&mut self, _edits: u32) {}

    fn barrier(&mut self, _hung: u32) -> bool {
        false
    }
}
