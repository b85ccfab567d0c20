// The policy by number.
ghost use Rattle.std.specs.Prelude.{◌≡◌, [], ◌∷◌};
ghost use Rattle.merge_policy.specs.Kinds.{batch_state};
ghost use Rattle.merge_policy.specs.declared.labels.TheConstants.{BATCH};

use crate::labels::BATCH;
use crate::{MergePolicy, Offer};

/// Waits until many pages may be written, and then writes them all.
#[derive(Drop)]
pub struct Batch {
    least_offers: u32,
    going: bool,
}

impl Batch {
    /// The policy, with label 3. Its number is how many offers begin a batch, and how many hung pages are worth a barrier: 16 at
    /// first; `tune` sets it, to 1 for 0. A batch that has begun goes on until nothing is offered. Each call takes constant
    /// time.
    pub fn new() -> Batch
        ensures { ⟦<Batch as MergePolicy>⟧.seen result ≡ record { label = 3; state = 16 ∷ 0 ∷ [] } }
    {
        Batch {
            least_offers: 16,
            going: false,
        }
    }
}

impl MergePolicy for Batch {
    ghost seen = { λ policy. record { label = BATCH; state = batch_state policy.least_offers policy.going } };

    fn label(&self) -> u32 {
        BATCH
    }

    fn tune(&mut self, n: u32) {
        self.least_offers = n.max(1);
    }

    fn pick(&mut self, offers: &[Offer]) -> Option<usize> {
        let begins = offers.len() >= self.least_offers as usize;
        self.going = !offers.is_empty() && (self.going || begins);
        self.going.then_some(0)
    }

    fn wrote(&mut self, _edits: u32) {}

    fn barrier(&mut self, hung: u32) -> bool {
        hung >= self.least_offers
    }
}
