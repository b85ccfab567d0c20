// The policy that learns from what it wrote.
ghost use Rattle.std.specs.Prelude.{◌≡◌, ◌<◌, ◌≤◌, [], ◌∷◌, length, position, IfSome};
ghost use Rattle.merge_policy.specs.Kinds.{is_due};
ghost use Rattle.merge_policy.specs.declared.labels.TheConstants.{ADAPTIVE};

use crate::labels::ADAPTIVE;
use crate::{MergePolicy, Offer};

// The greatest limit.
const MOST: u32 = 1024;

/// Writes a page once it was changed often, and waits longer the more changes come.
#[derive(Drop)]
pub struct Adaptive {
    limit: u32,
    ghost at_least_one: { 1 ≤ limit },
    ghost at_most_1024: { limit ≤ 1024 },
}

// The first position of a page that was changed as often as the limit, or is old.
fn first_due(offers: &[Offer], limit: u32) -> Option<usize>
    ensures first { result ≡ position (is_due limit) offers.now }
    ensures in_range { IfSome result (λ place. place < length offers.now) }
{
    let least_age = 4 * limit as u64;
    offers
        .iter()
        .position(|offer| limit <= offer.edits || least_age <= offer.age)
}

impl Adaptive {
    /// The policy, with label 4. It writes a page with at least `limit` changes, or of an age of at least four times `limit`, the
    /// lowest such page first. The limit is 4 at first and stays within 1 to 1024: `tune` sets it, a written page with at least so
    /// many changes doubles it, and every other one halves it, rounded down.
    ///
    /// `pick` looks at each offer up to the one that it picks; every other call takes constant time.
    pub fn new() -> Adaptive
        ensures { ⟦<Adaptive as MergePolicy>⟧.seen result ≡ record { label = 4; state = 4 ∷ [] } }
    {
        Adaptive { limit: 4 }
    }
}

impl MergePolicy for Adaptive {
    ghost seen = { λ policy. record { label = ADAPTIVE; state = policy.limit ∷ [] } };

    fn label(&self) -> u32 {
        ADAPTIVE
    }

    fn tune(&mut self, n: u32) {
        self.limit = n.clamp(1, MOST);
    }

    fn pick(&mut self, offers: &[Offer]) -> Option<usize> {
        first_due(offers, self.limit)
    }

    fn wrote(&mut self, edits: u32) {
        self.limit = if edits >= self.limit {
            (2 * self.limit).min(MOST)
        } else {
            (self.limit / 2).max(1)
        };
    }

    fn barrier(&mut self, _hung: u32) -> bool {
        true
    }
}
