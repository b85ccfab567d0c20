//! A pass goes through the queue. A release stays where it is blocked at its turn, and is applied otherwise.

ghost use Rattle.std.specs.Prelude.{◌≡◌, ◌≢◌, ◌⊎◌, ◌<◌, [], ℕ, List, Bool, false};
ghost use Rattle.engine_model.specs.Counts.{CountsInvariant};
ghost use Rattle.order_model.specs.World.{IsData, Layout, Queued, World};
ghost use Rattle.engine_model.specs.Entries.{Apart, IsTable};
ghost use Rattle.engine_model.specs.Invariant.{EngineInvariant, Moment};
ghost use Rattle.engine_model.specs.Pass.{AllBlocked, Pass};
ghost use Rattle.order_model.specs.Paths.{Closes};
ghost use Rattle.engine_model.specs.Schedule.{DeviceRun, NoNode, last_of};

/// After a pass exactly the blocked releases are queued; and none after one that follows a flush.
pub fn postponed_where_blocked()
    ensures blocked { (lay : Layout) (top : ℕ) (sound : Bool) → Apart lay → (m n : Moment)
        → EngineInvariant lay top sound m → Pass lay m [] m.world.queue n
        → EngineInvariant lay top sound n × AllBlocked lay n n.world.queue }
    ensures emptied { (lay : Layout) (top : ℕ) (sound : Bool) → Apart lay → (m n : Moment)
        → EngineInvariant lay top sound m → NoNode m → Pass lay m [] m.world.queue n → n.world.queue ≡ [] }
    ensures drained { (lay : Layout) (top : ℕ) (sound : Bool) → Apart lay → (m n : Moment) (ns : List Moment)
        → EngineInvariant lay top sound m → NoNode m → Pass lay m [] m.world.queue n → DeviceRun lay top n ns
        → (last_of n ns).world.queue ≡ [] }
    ensures stages { (lay : Layout) (top : ℕ) (w : World) → CountsInvariant lay top w → ((a : ℕ) → w.dirty a ≡ false)
        → ((a : ℕ) → w.hung a ≡ false) → (l p : ℕ) → l < lay.blocks → Queued w.queue l p 0 ⊎ Queued w.queue l p 1 → ⊥ }
{}

/// A flush leaves nodes only by its pass. A second flush after it leaves no node and no release.
pub fn second_flush()
    ensures nothing { (lay : Layout) (top : ℕ) (sound : Bool) → Apart lay → (m n o : Moment) (ns : List Moment)
        → EngineInvariant lay top sound m → NoNode m → Pass lay m [] m.world.queue n → DeviceRun lay top n ns
        → NoNode (last_of n ns) → Pass lay (last_of n ns) [] (last_of n ns).world.queue o
        → NoNode o × (o.world.queue ≡ []) }
{}

/// Ways that cannot be, so that an edge closes no cycle: none begins at a page that is not dirty, and none leads to
/// a data page.
pub fn no_way()
    ensures to_settled { (lay : Layout) (top : ℕ) (w : World) (a b : ℕ) → CountsInvariant lay top w
        → w.dirty b ≡ false → a ≢ b → Closes w.live a b → ⊥ }
    ensures from_data { (lay : Layout) (top : ℕ) (w : World) (p b : ℕ) → Apart lay → CountsInvariant lay top w
        → IsData lay p → IsTable lay b → Closes w.live (lay.data_page p) b → ⊥ }
{}
