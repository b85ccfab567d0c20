//! On every device: each step keeps the marks, edges and stages in order, and a drain leaves nothing.

ghost use Rattle.std.specs.Prelude.{◌≡◌, ◌≢◌, ◌<◌, ◌⊎◌, [], ℕ, List, true, false};
ghost use Rattle.engine_model.specs.DeviceSteps.{barrier_made, page_taken, page_written};
ghost use Rattle.engine_model.specs.Entries.{Apart, EdgeKind};
ghost use Rattle.order_model.specs.World.{IsData, Layout, Release, World};
ghost use Rattle.engine_model.specs.Invariant.{Moment};
ghost use Rattle.engine_model.specs.Known.{Known};
ghost use Rattle.engine_model.specs.Pass.{AllBlocked};
ghost use Rattle.engine_model.specs.SmallSteps.{given_up, lowered, named, ordered, ordered_by_barrier, placed, put, touched};
ghost use Rattle.engine_model.specs.AnyDevice.{AnyRun, FewerQueued, IsOrdered};
ghost use Rattle.engine_model.specs.Schedule.{NoNode, last_of};
ghost use Rattle.engine_model.specs.SmallPass.{InRange, KeepsOrder, SmallPass};

/// Each step keeps the order. What a content says is asked of none.
pub fn keeps_order()
    ensures touch { (lay : Layout) (w : World) (page : ℕ) → IsOrdered lay w → IsOrdered lay (touched page w) }
    ensures put { (lay : Layout) (w : World) (page : ℕ) (c : List ℕ) → IsOrdered lay w → IsOrdered lay (put page c w) }
    ensures order { (lay : Layout) (w : World) (a b : ℕ) → EdgeKind lay a b → w.dirty a ≡ true → IsOrdered lay w
        → IsOrdered lay (ordered a b w) }
    ensures order_by_barrier { (lay : Layout) (w : World) (a b : ℕ) → EdgeKind lay a b → IsOrdered lay w
        → IsOrdered lay (ordered_by_barrier a b w) }
    ensures name { (lay : Layout) (known : Known) (w : World) (l o : ℕ) (c : List ℕ) → l < lay.blocks
        → (o ≡ 0) ⊎ IsData lay o → w.dirty (lay.map_page l) ≡ true → IsOrdered lay w
        → IsOrdered lay (named known (lay.map_page l) c l o w) }
    ensures lower { (lay : Layout) (w : World) (page : ℕ) (c : List ℕ) (rs : List Release) → FewerQueued rs w.queue → IsOrdered lay w
        → IsOrdered lay (lowered page c rs w) }
    ensures give_up { (lay : Layout) → Apart lay → (w : World) (p : ℕ) → IsData lay p → IsOrdered lay w
        → IsOrdered lay (given_up (lay.data_page p) w) }
    ensures write { (lay : Layout) (w : World) (page : ℕ) → IsOrdered lay w → IsOrdered lay (page_written lay page w) }
    ensures take { (lay : Layout) (w : World) (page : ℕ) → IsOrdered lay w → IsOrdered lay (page_taken page w) }
    ensures barrier { (lay : Layout) (w : World) → IsOrdered lay w → IsOrdered lay (barrier_made w) }
{}

/// A pass keeps the order of marks and edges. After it each release that is queued is blocked in the graph as it is
/// then, and the queue is in the order of pushing. Where no page is dirty when it begins it leaves nothing: so a second
/// flush has nothing to apply. No edge leads to a data page.
pub fn pass_on_any_device()
    ensures kept { (lay : Layout) → Apart lay → (m n : Moment) → IsOrdered lay m.world
        → SmallPass lay m [] m.world.queue n → IsOrdered lay n.world }
    ensures blocked { (lay : Layout) → Apart lay → (m n : Moment) → InRange lay m.world.queue
        → SmallPass lay m [] m.world.queue n → AllBlocked lay n n.world.queue }
    ensures in_order { (lay : Layout) → Apart lay → (m n : Moment) → InRange lay m.world.queue
        → SmallPass lay m [] m.world.queue n → KeepsOrder m.world.queue n.world.queue }
    ensures emptied { (lay : Layout) → Apart lay → (m n : Moment) → IsOrdered lay m.world
        → ((a : ℕ) → m.world.dirty a ≡ false) → SmallPass lay m [] m.world.queue n → n.world.queue ≡ [] }
    ensures ranged { (lay : Layout) (w : World) → IsOrdered lay w → InRange lay w.queue }
    ensures none_to_data { (lay : Layout) → Apart lay → (w : World) (a p : ℕ) → IsOrdered lay w → IsData lay p
        → w.live a (lay.data_page p) ≡ false }
{}

/// So a drain ends on every device: steps of the device keep the order, whatever it does with what it is given, and where
/// every page is settled at the end of each of two rounds no node and no release is left.
pub fn drain_on_any_device()
    ensures kept { (lay : Layout) (m : Moment) (ns : List Moment) → IsOrdered lay m.world → AnyRun lay m ns
        → IsOrdered lay (last_of m ns).world }
    ensures drained { (lay : Layout) → Apart lay → (m n o : Moment) (ns : List Moment) → IsOrdered lay m.world
        → ((a : ℕ) → m.world.dirty a ≡ false) → SmallPass lay m [] m.world.queue n → AnyRun lay n ns
        → NoNode (last_of n ns) → SmallPass lay (last_of n ns) [] (last_of n ns).world.queue o
        → NoNode o × (o.world.queue ≡ []) }
{}
