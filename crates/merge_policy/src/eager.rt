// The policy that never waits.
ghost use Rattle.std.specs.Prelude.{◌≡◌, []};
ghost use Rattle.merge_policy.specs.declared.labels.TheConstants.{EAGER};

use crate::labels::EAGER;
use crate::{MergePolicy, Offer};

/// Writes each page as soon as its order allows, the lowest first, and makes a barrier once none is left to write.
#[derive(Drop)]
pub struct Eager;

impl Eager {
    /// The policy, with label 1. It has no number to set. Each call takes constant time.
    pub fn new() -> Eager
        ensures { ⟦<Eager as MergePolicy>⟧.seen result ≡ record { label = 1; state = [] } }
    {
        Eager
    }
}

impl MergePolicy for Eager {
    ghost seen = { λ policy. record { label = EAGER; state = [] } };

    fn label(&self) -> u32 {
        EAGER
    }

    fn tune(&mut self, _n: u32) {}

    fn pick(&mut self, offers: &[Offer]) -> Option<usize> {
        (!offers.is_empty()).then_some(0)
    }

    fn wrote(&mut self, _edits: u32) {}

    fn barrier(&mut self, _hung: u32) -> bool {
        true
    }
}
