//! What the edits of a command leave as it is, in one record over the kind of step, and that edits after others are
//! edits.

ghost use Rattle.std.specs.Prelude.{◌≡◌, ℕ, true};
ghost use Rattle.engine_model.specs.Edits.{CacheOnly};
ghost use Rattle.engine_model.specs.Entries.{Apart};
ghost use Rattle.engine_model.specs.Frames.{Frame, Grows, Reach, both, edge_reach, reach_of};
ghost use Rattle.engine_model.specs.Invariant.{Moment};
ghost use Rattle.engine_model.specs.Pool.{PoolExact};
ghost use Rattle.engine_model.specs.SmallRuns.{SmallStep, in_state};
ghost use Rattle.engine_model.specs.SmallSteps.{ordered_after};
ghost use Rattle.order_model.specs.World.{Layout};

/// Each small step but the giving up of a data page changes what it reaches and no more; so does an edge that is
/// added as the marks ask. No step reaches nothing, and steps after others reach what either does. No premise on
/// contents is asked, so this holds on every device. What the pool knows stays exact, as it is told nothing of the
/// device.
pub fn frames()
    ensures none { (lay : Layout) (x : Reach) (m : Moment) → Frame lay x m m }
    ensures then_more { (lay : Layout) (x y : Reach) (m j n : Moment) → Frame lay x m j → Frame lay y j n
        → Frame lay (both x y) m n }
    ensures step { (lay : Layout) (top : ℕ) → Apart lay → (m n : Moment) (s : SmallStep lay top m n) → Grows s
        → Frame lay (reach_of s) m n }
    ensures edge { (lay : Layout) → Apart lay → (m : Moment) (before after : ℕ) → m.world.dirty after ≡ true
        → Frame lay (edge_reach before after) m (in_state (ordered_after before after m.world) m) }
    ensures exact { (lay : Layout) (x : Reach) (m n : Moment) → Frame lay x m n → (p : ℕ)
        → PoolExact lay m.world (m.pool p) p → PoolExact lay n.world (n.pool p) p }
    ensures edits { (lay : Layout) (x : Reach) (m n : Moment) → Frame lay x m n → CacheOnly lay m.world n.world }
{}
