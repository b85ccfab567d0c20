// What is dirty goes to the device, in waves.
use crate::Core;
use merge_policy::MergePolicy;
use page_device::{Device, Failed};

impl Core {
    ghost use Rattle.std.specs.Prelude.{◌≡◌, ◌≤◌, ℕ, Some, map};
    ghost use Rattle.page_device.specs.Meaning.{HasCause};
    ghost use Rattle.page_layout.specs.Shape.{total};
    ghost use Rattle.flush_engine.specs.Flush.{FlushEnds};
    ghost use Rattle.flush_engine.specs.Idle.{TurnEnds};
    ghost use Rattle.flush_engine.specs.Tallies.{older};
    ghost use Rattle.flush_engine.specs.Waves.{WavesEnd};
    ghost use Rattle.store_core.specs.Ledger.{ledger_told};
    ghost use Rattle.store_core.specs.Edits.{Makes};
    ghost use Rattle.store_core.specs.Frames.{KeepsStands};
    ghost use Rattle.store_core.specs.Orderly.{FewerEdges, IsOrderlyBut, KeepsOrderly};
    ghost use Rattle.store_core.specs.Owed.{IsProvided};
    ghost use Rattle.store_core.specs.Quiet.{Flows};
    ghost use Rattle.store_core.specs.Stopped.{FlowEnds};
    ghost use Rattle.store_core.specs.Views.{lent};

    /// Writes what a page waits for, and then the page, in waves: so after `Ok` it is neither dirty nor hung. The core stands for
    /// the same arrays, and a crash at any moment of the call leaves an image that is fit for each of them.
    ///
    /// `Failed` is a counted fault of the device, at the first write or barrier that fails: the page's content, its mark and its
    /// edges are as before, and a later call takes it up again. It takes no memory. It costs what the engine's `settle` does, and
    /// what the ledger is told: for each write its releases and slots, and for each barrier the queued releases.
    pub fn settle<D: Device>(&mut self, device: &mut D, page: u32) -> Result<(), Failed>
        requires room { total self.old.shape ≤ (D.seen device.old).pages }
        ensures settle { WavesEnd ledger_told (Some page) result (lent (D.seen device.old) self.old) (lent (D.seen device.new) self.new) }
        ensures flows { Flows (D.seen device.old) (D.seen device.new) self.old self.new }
        ensures orderly { KeepsOrderly self.old self.new }
        ensures fewer { FewerEdges self.old self.new }
        ensures cause { HasCause result (D.seen device.old) (D.seen device.new) }
    {
        self.engine.settle(device, page, &mut self.ledger)
    }

    /// Writes every dirty page, in waves: so after `Ok` no page is dirty or hung. Each page that was dirty was written once and no
    /// other, with the fewest barriers. The core stands for the same arrays, as in [`settle`](Core::settle), and so does it after
    /// `Failed`.
    ///
    /// It costs what the engine's `flush_all` does, and what the ledger is told.
    pub fn flush_all<D: Device>(&mut self, device: &mut D) -> Result<(), Failed>
        requires room { total self.old.shape ≤ (D.seen device.old).pages }
        ensures flush { FlushEnds ledger_told result (lent (D.seen device.old) self.old) (lent (D.seen device.new) self.new) }
        ensures flows { Flows (D.seen device.old) (D.seen device.new) self.old self.new }
        ensures orderly { KeepsOrderly self.old self.new }
        ensures fewer { FewerEdges self.old self.new }
        ensures stops { FlowEnds result (D.seen device.old) (D.seen device.new) self.old self.new }
        ensures cause { HasCause result (D.seen device.old) (D.seen device.new) }
    {
        self.engine.flush_all(device, &mut self.ledger)
    }

    /// One round of an idle step: what the policy picks is written, and a barrier made where it asks for one. `true` exactly where a
    /// barrier was made. The core stands for the same arrays, as in [`settle`](Core::settle), and so does it after `Failed`.
    ///
    /// It costs what the engine's `idle_turn` does, and what the ledger is told.
    pub fn idle_turn<D: Device>(
        &mut self,
        device: &mut D,
        policy: &mut dyn MergePolicy,
    ) -> Result<bool, Failed>
        requires room { total self.old.shape ≤ (D.seen device.old).pages }
        ensures turn { TurnEnds ledger_told result ((MergePolicy-dyn policy.old).seen policy.old.1) (lent (D.seen device.old) self.old) ((MergePolicy-dyn policy.new).seen policy.new.1) (lent (D.seen device.new) self.new) }
        ensures flows { Flows (D.seen device.old) (D.seen device.new) self.old self.new }
        ensures orderly { KeepsOrderly self.old self.new }
        ensures fewer { FewerEdges self.old self.new }
        ensures cause { HasCause result (D.seen device.old) (D.seen device.new) }
    {
        self.engine.idle_turn(device, policy, &mut self.ledger)
    }

    /// A turn ended: the age of each dirty page rises by one, and stands still at the end of its type. What the core stands for stays.
    /// It costs the dirty pages.
    pub fn turn_done(&mut self)
        ensures older { self.new.engine ≡ record self.old.engine { tallies = map older self.old.engine.tallies } }
        ensures shape { self.new.shape ≡ self.old.shape }
        ensures ledger { self.new.ledger ≡ self.old.ledger }
        ensures world { Makes (λ w. w) self.old self.new }
        ensures stands { KeepsStands self.old self.new }
        ensures orderly { (p : ℕ) → IsOrderlyBut p self.old → IsOrderlyBut p self.new }
        ensures provided { IsProvided self.old → IsProvided self.new }
    {
        self.engine.turn_done();
    }
}
