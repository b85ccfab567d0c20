// The policy by age.
ghost use Rattle.std.specs.Prelude.{◌≡◌, ◌<◌, [], ◌∷◌, length, position, IfSome};
ghost use Rattle.merge_policy.specs.Kinds.{is_old};
ghost use Rattle.merge_policy.specs.declared.labels.TheConstants.{DELAY};

use crate::labels::DELAY;
use crate::{MergePolicy, Offer};

/// Writes a page once it has waited for a number of idle steps, the lowest such page first.
#[derive(Drop)]
pub struct Delay {
    least_age: u32,
}

// The first position of at least this age.
fn first_old(offers: &[Offer], least_age: u64) -> Option<usize>
    ensures first { result ≡ position (is_old least_age) offers.now }
    ensures in_range { IfSome result (λ place. place < length offers.now) }
{
    offers.iter().position(|offer| least_age <= offer.age)
}

impl Delay {
    /// The policy, with label 2. Its number is the least age of a page that is written, 8 at first; `tune` sets it.
    ///
    /// `pick` looks at each offer up to the one that it picks; every other call takes constant time.
    pub fn new() -> Delay
        ensures { ⟦<Delay as MergePolicy>⟧.seen result ≡ record { label = 2; state = 8 ∷ [] } }
    {
        Delay { least_age: 8 }
    }
}

impl MergePolicy for Delay {
    ghost seen = { λ policy. record { label = DELAY; state = policy.least_age ∷ [] } };

    fn label(&self) -> u32 {
        DELAY
    }

    fn tune(&mut self, n: u32) {
        self.least_age = n;
    }

    fn pick(&mut self, offers: &[Offer]) -> Option<usize> {
        first_old(offers, self.least_age as u64)
    }

    fn wrote(&mut self, _edits: u32) {}

    fn barrier(&mut self, _hung: u32) -> bool {
        true
    }
}
