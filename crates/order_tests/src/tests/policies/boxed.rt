// What a caller learns through a box: the answers of the five kinds, and the labels of a list of boxes.
ghost use Rattle.std.specs.Prelude.{◌≡◌, ◌∷◌, [], map, position};
ghost use Rattle.std.specs.Bool.{OnFalse, OnTrue};
ghost use Rattle.merge_policy.specs.Boxes.{first_with};
ghost use Rattle.merge_policy.specs.Calls.{Bars, IsTold, IsTuned, Picks};
ghost use Rattle.merge_policy.specs.Kinds.{is_old};

use super::kinds::{Call, page};
use super::own::Unblock;
use merge_policy::labels::{ADAPTIVE, DELAY, FIRST_OWN, HOLD};
use merge_policy::{Adaptive, Batch, Delay, Eager, Hold, MergePolicy, Offer, take_first};
use std::process::Abort;
use std::test::Fail;

// A store with the policy at work.
#[derive(Drop)]
struct Store {
    policy: Box<dyn MergePolicy>,
}

// Lent a policy of whatever kind.
fn pick(policy: &mut dyn MergePolicy, offers: &[Offer]) -> Option<usize>
    ensures call { Picks offers.now result (seen policy.old) (seen policy.new) }
    ensures delay { seen policy.old ≡ record { label = 2; state = 8 ∷ [] } → result ≡ position (is_old 8) offers.now }
    ensures hold { (seen policy.old).label ≡ 0 → result ≡ None }
    ensures empty { offers.now ≡ [] → result ≡ None }
{
    policy.pick(offers)
}

impl Store {
    // The policy at work is dropped.
    fn swap(&mut self, policy: Box<dyn MergePolicy>)
        ensures { seen self.new.policy ≡ seen policy }
    {
        self.policy = policy;
    }

    fn pick(&mut self, offers: &[Offer]) -> Option<usize>
        ensures { Picks offers.now result (seen self.old.policy) (seen self.new.policy) }
    {
        pick(&mut *self.policy, offers)
    }

    fn tune(&mut self, n: u32)
        ensures { IsTuned n (seen self.old.policy) (seen self.new.policy) }
    {
        self.policy.tune(n);
    }

    fn wrote(&mut self, edits: u32)
        ensures { IsTold edits (seen self.old.policy) (seen self.new.policy) }
    {
        self.policy.wrote(edits);
    }

    fn barrier(&mut self, hung: u32) -> bool
        ensures { Bars hung result (seen self.old.policy) (seen self.new.policy) }
    {
        self.policy.barrier(hung)
    }

    // Puts the first box of a label to work.
    fn choose(&mut self, policies: &mut Vec<Box<dyn MergePolicy>>, label: u32) -> bool
        ensures chosen { OnTrue result (first_with label (map (λ policy. seen policy) policies.old.items) ≡ Some (seen self.new.policy)) }
        ensures none { OnFalse result (first_with label (map (λ policy. seen policy) policies.old.items) ≡ None) }
    {
        match take_first(policies, label) {
            None => false,
            Some(policy) => {
                self.swap(policy);
                true
            }
        }
    }
}

// Asks the policy at work.
fn follow(rt: &impl Abort, store: &mut Store, calls: &[Call]) {
    for (place, call) in calls.iter().enumerate() {
        match call {
            Call::Tune(n) => store.tune(*n),
            Call::Pick(offers, want) => {
                assert_eq!(rt; store.pick(offers), *want, "of call {place}");
            }
            Call::Wrote(edits) => store.wrote(*edits),
            Call::Barrier(hung, want) => {
                assert_eq!(rt; store.barrier(*hung), *want, "of call {place}");
            }
        }
    }
}

// The labels of a list of boxes of each kind and of a caller's own, each taken as often as it is asked for.
#[test]
fn takes_boxes_by_label(rt: HostRuntime) -> Result<(), Fail> {
    let alloc = rt.alloc();
    let mut policies: Vec<Box<dyn MergePolicy>> = Vec::new(alloc);
    policies.push(Box::new(alloc, Eager::new())?)?;
    policies.push(Box::new(alloc, Delay::new())?)?;
    policies.push(Box::new(alloc, Unblock::new())?)?;
    policies.push(Box::new(alloc, Adaptive::new())?)?;
    policies.push(Box::new(alloc, Delay::new())?)?;
    policies.push(Box::new(alloc, Batch::new())?)?;
    let mut store = Store {
        policy: Box::new(alloc, Hold::new())?,
    };
    for (label, want) in [
        (HOLD, false),
        (DELAY, true),
        (DELAY, true),
        (DELAY, false),
        (FIRST_OWN, true),
        (FIRST_OWN, false),
        (ADAPTIVE, true),
    ] {
        assert_eq!(rt; store.choose(&mut policies, label), want, "at {label}");
    }
    assert_eq!(rt; policies.len(), 2);
    Ok(())
}

// The policy at work is asked through its box, and what it was told stays with it.
#[test]
fn asks_through_a_box(rt: HostRuntime) -> Result<(), Fail> {
    let alloc = rt.alloc();
    let mut store = Store {
        policy: Box::new(alloc, Adaptive::new())?,
    };
    let offers = [page(0, 4)];
    let calls = [
        Call::Pick(&offers, Some(0)),
        Call::Wrote(4),
        Call::Pick(&offers, None),
        Call::Tune(4),
        Call::Pick(&offers, Some(0)),
        Call::Barrier(1, true),
    ];
    follow(&rt, &mut store, &calls);
    store.swap(Box::new(alloc, Hold::new())?);
    follow(&rt, &mut store, &[Call::Pick(&offers, None)]);
    Ok(())
}
