//! A drain is two rounds, each of waves of writes and then a pass.

ghost use Rattle.std.specs.Prelude.{◌≡◌, ◌≤◌, [], ℕ, Bool};
ghost use Rattle.engine_model.specs.Drain.{DoneDrain, DoneRound, Round, RoundLeaves};
ghost use Rattle.engine_model.specs.Entries.{Apart};
ghost use Rattle.engine_model.specs.Invariant.{EngineInvariant, Moment};
ghost use Rattle.engine_model.specs.Pass.{AllBlocked};
ghost use Rattle.engine_model.specs.Room.{room_taken};
ghost use Rattle.engine_model.specs.Schedule.{NoNode};
ghost use Rattle.order_model.specs.World.{Layout};

/// A round keeps the invariant, the names and the lists of blocks, takes no more room, and leaves exactly blocked
/// releases, whatever failed in it: that is all that a failed call leaves. Where none failed the first round leaves no
/// release, and the second one no node either.
pub fn a_drain()
    ensures kept { (lay : Layout) (top : ℕ) (sound : Bool) → Apart lay → (m n : Moment)
        → EngineInvariant lay top sound m → Round lay top m n → EngineInvariant lay top sound n }
    ensures blocked { (lay : Layout) (top : ℕ) (sound : Bool) → Apart lay → (m n : Moment)
        → EngineInvariant lay top sound m → Round lay top m n → AllBlocked lay n n.world.queue }
    ensures leaves { (lay : Layout) (top : ℕ) (sound : Bool) → Apart lay → (m n : Moment)
        → EngineInvariant lay top sound m → Round lay top m n → RoundLeaves lay m n }
    ensures room { (lay : Layout) (top total : ℕ) (m n : Moment) → Round lay top m n
        → room_taken total n.world ≤ room_taken total m.world }
    ensures first { (lay : Layout) (top : ℕ) (sound : Bool) → Apart lay → (m n : Moment)
        → EngineInvariant lay top sound m → DoneRound lay top m n → n.world.queue ≡ [] }
    ensures second { (lay : Layout) (top : ℕ) (sound : Bool) → Apart lay → (m n : Moment)
        → EngineInvariant lay top sound m → DoneDrain lay top m n → NoNode n × (n.world.queue ≡ []) }
{}
