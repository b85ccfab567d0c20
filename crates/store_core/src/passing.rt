// One pass over the queue.
ghost use Rattle.std.specs.Prelude.{◌≡◌, ◌↔◌, ◌≤◌, true, length};
ghost use Rattle.dep_graph.specs.Lists.{live_in};
ghost use Rattle.release_queue.specs.Needed.{IsBlocked};
ghost use Rattle.release_queue.specs.declared.TheConstants.{UNBORN};
ghost use Rattle.store_core.specs.Passing.{Forgets};
ghost use Rattle.store_core.specs.PassParts.{freed_pages};

use crate::Core;
use birth_marks::Slot;
use finger_table::Prints;
use flush_engine::Engine;
use release_queue::{Release, blocked};

/// What a pass did.
#[derive(Clone, Copy, Debug, PartialEq, Eq)]
pub struct Passed {
    /// How many releases left the queue.
    pub lowered: u32,
    /// Of how many data pages the count became 0.
    pub freed: u32,
}

// Whether a Live edge that a release needs would close a cycle.
fn blocked_in(engine: &mut Engine, release: &Release, last_print: bool) -> bool
    requires { release.now.stage ≤ UNBORN }
    ensures blocked { (result ≡ true) ↔ IsBlocked (live_in engine.old.graph) release.now last_print }
    ensures same { engine.new ≡ engine.old }
{
    blocked(engine.graph(), release, last_print)
}

// The index forgets a page of which the count became 0. How many pages it forgets.
fn forget(prints: &mut Prints, page: u32, freed: bool) -> u32
    ensures forgets { Forgets (freed_pages freed page) prints.old prints.new }
    ensures count { result ≡ length (freed_pages freed page) }
{
    if !freed {
        return 0;
    }
    prints.remove(page);
    1
}

impl Core {
    ghost use Rattle.std.specs.Prelude.{◌≡◌, ◌↔◌, ◌+◌, ◌<◌, ◌≤◌, ◌^◌, [], suc, Some, true, length, slice_get};
    ghost use Rattle.page_cache.specs.View.{is_there};
    ghost use Rattle.finger_table.specs.Index.{PrintsView};
    ghost use Rattle.release_queue.specs.declared.Release.{Release};
    ghost use Rattle.release_queue.specs.declared.TheConstants.{UNBORN};
    ghost use Rattle.store_core.specs.Applied.{is_last_print};
    ghost use Rattle.store_core.specs.Frames.{KeepsStands};
    ghost use Rattle.store_core.specs.Orderly.{HasToWait, IsOrderly};
    ghost use Rattle.store_core.specs.Owed.{IsProvided};
    ghost use Rattle.store_core.specs.Passing.{AllWait, LeftOf, PassAdds, PassFrame, PassFrees};
    ghost use Rattle.store_core.specs.PassParts.{IsPassing, LeavesQueue, LooksAt, PassPart, TakesOut};
    ghost use Rattle.store_core.specs.Whole.{IsPlaced};

    // Whether the count of its page is about to become 0, and the page has a print that a crash may leave: by the print page that
    // is held for it, and not by the index.
    fn has_last_print(&self, release: &Release) -> bool
        requires placed { IsPlaced self.now.shape release.now }
        requires count_there { is_there self.now.engine.cache release.now.count_at ≡ true }
        requires print_there { is_there self.now.engine.cache release.now.print_at ≡ true }
        ensures { result ≡ is_last_print self.now release.now }
    {
        self.count_of(release.page) == 1
            && self.print_of(release.page).is_some()
            && !self.ledger.births.unborn(Slot::Print(release.page), 1)
    }

    // Whether a queued release has to wait, since a Live edge that it needs would close a cycle. It costs two calls of the graph's
    // `closes` at most.
    fn is_blocked(&mut self, release: &Release) -> bool
        requires placed { IsPlaced self.old.shape release.now }
        requires stage { release.now.stage ≤ UNBORN }
        requires count_there { is_there self.old.engine.cache release.now.count_at ≡ true }
        requires print_there { is_there self.old.engine.cache release.now.print_at ≡ true }
        ensures blocked { (result ≡ true) ↔ HasToWait self.old release.now }
        ensures same { self.new ≡ self.old }
    {
        let last_print = self.has_last_print(release);
        blocked_in(&mut self.engine, release, last_print)
    }

    // A release that has to wait was looked at, and stays.
    fn stay(&mut self, i: u32)
        requires passing { IsPassing i self.old }
        requires queued { i < length self.old.ledger.queue.releases }
        requires waits { (r : Release) → slice_get self.old.ledger.queue.releases i ≡ Some r → HasToWait self.old r }
        ensures part { (x : PrintsView) → PassPart i (suc i) 0 [] self.old self.new x x }
        ensures adds { PassAdds self.old self.new }
        ensures passing { IsPassing (suc i) self.new }
        ensures length { length self.new.ledger.queue.releases ≡ length self.old.ledger.queue.releases }
    {
        self.ledger.queue.looked(i);
    }

    // A release that has not to wait leaves the queue: it is applied, or let go where its page is not counted. Whether the count of
    // its page became 0.
    fn lower_or_let_go(&mut self, i: u32, release: Release) -> bool
        requires provided { IsProvided self.old }
        requires queued { slice_get self.old.ledger.queue.releases i ≡ Some release }
        requires open { HasToWait self.old release → ⊥ }
        ensures leaves { LeavesQueue i release result self.old self.new }
        ensures adds { PassAdds self.old self.new }
    {
        let count = self.count_of(release.page);
        if count == 0 {
            self.let_go(i);
            return false;
        }
        self.apply(i, release);
        count == 1
    }

    // It leaves the queue, and what was held for it is given back. Whether the count of its page became 0.
    fn take_out(&mut self, i: u32, release: Release) -> bool
        requires passing { IsPassing i self.old }
        requires queued { slice_get self.old.ledger.queue.releases i ≡ Some release }
        requires open { HasToWait self.old release → ⊥ }
        ensures out { TakesOut i release result self.old self.new }
        ensures adds { PassAdds self.old self.new }
        ensures passing { IsPassing i self.new }
    {
        let freed = self.lower_or_let_go(i, release);
        self.unhold(release.count_at);
        self.unhold(release.print_at);
        freed
    }

    // Looks at the release at a place: it stays, or it leaves the queue. From which place the pass goes on.
    fn look_at(&mut self, i: u32, prints: &mut Prints, freed: &mut u32) -> u32
        requires passing { IsPassing i self.old }
        requires queued { i < length self.old.ledger.queue.releases }
        requires few { length self.old.ledger.queue.releases < 2 ^ 32 }
        requires room { freed.old + 1 < 2 ^ 32 }
        ensures looks { LooksAt i result freed.old freed.new self.old self.new prints.old prints.new }
        ensures adds { PassAdds self.old self.new }
        ensures passing { IsPassing result self.new }
    {
        let release = *self.ledger.queue.at(i);
        if self.is_blocked(&release) {
            self.stay(i);
            return i + 1;
        }
        let is_freed = self.take_out(i, release);
        *freed += forget(prints, release.page, is_freed);
        i
    }

    /// One pass over the queue, in the order of pushing. It looks at the releases that are marked, since each other one has to wait
    /// still: one that has to wait stays, and each other leaves the queue, applied, or let go where its page is not counted. What was
    /// held for it is given back, and where the count of its page became 0 the index forgets the page.
    ///
    /// So afterwards each queued release has to wait, on every device. The core stands for the same arrays. It takes no memory, and no
    /// more nodes, edges and changes than are kept for the releases that leave.
    ///
    /// It costs two calls of the graph's `closes` at most for each marked release, and for each that leaves what `apply` and `unhold`
    /// cost and what the index's `remove` does; else one look over the marks.
    pub fn pass(&mut self, prints: &mut Prints) -> Passed
        requires provided { IsProvided self.old }
        requires orderly { IsOrderly self.old }
        ensures stands { KeepsStands self.old self.new }
        ensures order { LeftOf self.old.ledger.queue.releases self.new.ledger.queue.releases }
        ensures wait { AllWait self.new }
        ensures frame { PassFrame result.lowered self.old self.new }
        ensures adds { PassAdds self.old self.new }
        ensures frees { PassFrees result.freed self.old self.new prints.old prints.new }
        ensures provided { IsProvided self.new }
        ensures orderly { IsOrderly self.new }
    {
        let before = self.ledger.queue.len();
        let mut freed = 0;
        let mut from = 0;
        while let Some(i) = self.ledger.queue.next_look(from) {
            from = self.look_at(i, prints, &mut freed);
        }
        let lowered = before - self.ledger.queue.len();
        Passed { lowered, freed }
    }
}
