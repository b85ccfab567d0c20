// Idle turns: what a policy asks to be written.
ghost use Rattle.std.specs.Prelude.{◌≡◌, ℕ, ◌<◌, ◌≤◌, ◌++◌, ◌∷◌, [], true, length, vec_capacity, OnOk};
ghost use Rattle.page_device.specs.Meaning.{HasCause};
ghost use Rattle.dep_graph.specs.Lists.{dirty_in, node_count};
ghost use Rattle.flush_engine.specs.View.{Fits, IsWhole, Returned, at};
ghost use Rattle.flush_engine.specs.Idle.{AreOffers, BarrierEnds, PickEnds, PicksEnd, TurnEnds, offer_at};

use crate::tallies::find;
use crate::watch::Watch;
use crate::writer::Writer;
use merge_policy::{MergePolicy, Offer};
use page_device::{Device, Failed};

fn push(offers: &mut Vec<Offer>, offer: Offer)
    requires room { length offers.old.items < vec_capacity offers.old }
    ensures items { offers.new.items ≡ offers.old.items ++ offer ∷ [] }
    ensures room { vec_capacity offers.new ≡ vec_capacity offers.old }
{
    offers.push_reserved(offer);
}

impl Writer {
    // What is offered of a dirty page.
    fn offer(&self, page: u32) -> Offer
        requires whole { IsWhole self.now }
        requires there { dirty_in self.now.graph page ≡ true }
        ensures { result ≡ offer_at self.now page }
    {
        let tally = find(&self.tallies, page);
        Offer {
            page,
            age: tally.age,
            edits: tally.edits,
            waiters: self.graph.waiters(page),
        }
    }

    // Lists the ready pages in rising order. All dirty pages are below a number.
    fn list(&self, offers: &mut Vec<Offer>, pages: u32)
        requires whole { IsWhole self.now }
        requires within { (q : ℕ) → dirty_in self.now.graph q ≡ true → q < pages }
        requires room { self.now.room ≤ vec_capacity offers.old }
        ensures offers { AreOffers self.now offers.new.items }
        ensures room { vec_capacity offers.new ≡ vec_capacity offers.old }
    {
        offers.clear();
        let mut from = 0;
        while let Some(page) = self.first_ready(from) {
            push(offers, self.offer(page));
            from = page + 1;
        }
    }

    // Asks for one of the offered pages and writes it: it is offered no longer, and no other offer changes. `false` where the
    // policy picks none.
    fn pick<D: Device, W: Watch>(
        &mut self,
        device: &mut D,
        policy: &mut dyn MergePolicy,
        watch: &mut W,
        offers: &mut Vec<Offer>,
    ) -> Result<bool, Failed>
        requires fits { Fits self.old (D.seen device.old) }
        requires offers { AreOffers self.old offers.old.items }
        ensures pick { PickEnds W.told result ((MergePolicy-dyn policy.old).seen policy.old.1) (at (D.seen device.old) self.old watch.old) ((MergePolicy-dyn policy.new).seen policy.new.1) (at (D.seen device.new) self.new watch.new) }
        ensures cause { HasCause result (D.seen device.old) (D.seen device.new) }
        ensures offers { OnOk result (AreOffers self.new offers.new.items) }
        ensures room { vec_capacity offers.new ≡ vec_capacity offers.old }
    {
        let Some(place) = policy.pick(offers) else {
            return Ok(false);
        };
        let offer = offers[place];
        match self.write(device, offer.page, watch) {
            Ok(()) => {}
            Err(failed) => return Err(failed),
        }
        let _ = offers.remove(place);
        policy.wrote(offer.edits);
        Ok(true)
    }

    // Writes what the policy picks, until it picks nothing.
    fn picks<D: Device, W: Watch>(
        &mut self,
        device: &mut D,
        policy: &mut dyn MergePolicy,
        watch: &mut W,
        offers: &mut Vec<Offer>,
    ) -> Result<(), Failed>
        requires fits { Fits self.old (D.seen device.old) }
        requires offers { AreOffers self.old offers.old.items }
        ensures picks { PicksEnd W.told result ((MergePolicy-dyn policy.old).seen policy.old.1) (at (D.seen device.old) self.old watch.old) ((MergePolicy-dyn policy.new).seen policy.new.1) (at (D.seen device.new) self.new watch.new) }
        ensures returned { Returned result (at (D.seen device.old) self.old watch.old) (at (D.seen device.new) self.new watch.new) }
        ensures room { vec_capacity offers.new ≡ vec_capacity offers.old }
    {
        loop {
            match self.pick(device, policy, watch, offers) {
                Ok(true) => {}
                Ok(false) => return Ok(()),
                Err(failed) => return Err(failed),
            }
        }
    }

    // Asks for a barrier where some page is hung, and makes it.
    fn ask_barrier<D: Device, W: Watch>(
        &mut self,
        device: &mut D,
        policy: &mut dyn MergePolicy,
        watch: &mut W,
    ) -> Result<bool, Failed>
        ensures ends { BarrierEnds W.told result ((MergePolicy-dyn policy.old).seen policy.old.1) (at (D.seen device.old) self.old watch.old) ((MergePolicy-dyn policy.new).seen policy.new.1) (at (D.seen device.new) self.new watch.new) }
        ensures cause { HasCause result (D.seen device.old) (D.seen device.new) }
    {
        let hung = self.hung();
        if hung == 0 {
            return Ok(false);
        }
        if !policy.barrier(hung) {
            return Ok(false);
        }
        match self.barrier(device, watch) {
            Ok(()) => Ok(true),
            Err(failed) => Err(failed),
        }
    }

    fn hung(&self) -> u32
        ensures { result ≡ length self.now.graph.hung }
    {
        self.graph.hung()
    }

    // One round: what the policy picks, and then the barrier that it asks for.
    pub(crate) fn idle_turn<D: Device, W: Watch>(
        &mut self,
        device: &mut D,
        policy: &mut dyn MergePolicy,
        watch: &mut W,
        offers: &mut Vec<Offer>,
    ) -> Result<bool, Failed>
        requires fits { Fits self.old (D.seen device.old) }
        requires room { self.old.room ≤ vec_capacity offers.old }
        ensures turn { TurnEnds W.told result ((MergePolicy-dyn policy.old).seen policy.old.1) (at (D.seen device.old) self.old watch.old) ((MergePolicy-dyn policy.new).seen policy.new.1) (at (D.seen device.new) self.new watch.new) }
        ensures returned { Returned result (at (D.seen device.old) self.old watch.old) (at (D.seen device.new) self.new watch.new) }
        ensures room { vec_capacity offers.new ≡ vec_capacity offers.old }
    {
        self.list(offers, device.pages());
        match self.picks(device, policy, watch, offers) {
            Ok(()) => {}
            Err(failed) => return Err(failed),
        }
        self.ask_barrier(device, policy, watch)
    }
}
