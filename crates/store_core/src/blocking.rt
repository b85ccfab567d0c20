// When a queued release has to wait, and what births answer.
ghost use Rattle.std.specs.Prelude.{◌≡◌, ◌<◌, ◌↔◌, ℕ, Bool, true};
ghost use Rattle.page_device.specs.Meaning.{Meaning};
ghost use Rattle.order_model.specs.World.{World};
ghost use Rattle.page_layout.specs.Shape.{ShapeView};
ghost use Rattle.page_cache.specs.View.{holds_in};
ghost use Rattle.order_model.specs.declared.Slot.TheVariants.{Name, Print};
ghost use Rattle.birth_marks.specs.Births.{is_unborn_in};
ghost use Rattle.dep_graph.specs.Lists.{live_in};
ghost use Rattle.release_queue.specs.Needed.{IsBlocked as IsBlockedInQueue};
ghost use Rattle.release_queue.specs.declared.Release.{Release};
ghost use Rattle.engine_model.specs.Invariant.{Moment, known_at};
ghost use Rattle.engine_model.specs.Known.{Known};
ghost use Rattle.engine_model.specs.Releases.{IsBlocked, IsLastPrint};
ghost use Rattle.store_core.specs.declared.Core.{Core};
ghost use Rattle.store_core.specs.Applied.{is_last_print};
ghost use Rattle.store_core.specs.Layout.{lay_of};
ghost use Rattle.store_core.specs.Moments.{IsMomentOf};
ghost use Rattle.store_core.specs.Views.{plain_release};
ghost use Rattle.store_core.specs.Whole.{IsPlaced};

/// A release of this image is blocked by the test of the queue exactly where it is blocked in the plain state, so that the laws of a
/// pass speak of what code tests. The test is told whether the last print goes.
pub fn blocked_alike()
    ensures { (shape : ShapeView) (known : Known) (w : World) (r : Release) (last : Bool) → IsPlaced shape r
        → ((last ≡ true) ↔ IsLastPrint (lay_of shape) known w r.page) → IsBlockedInQueue w.live r last ↔ IsBlocked (lay_of shape) known w (plain_release r) }
{}

/// At each moment that a core is, births answer what the moment knows; and a release whose count page and print page are held is
/// blocked by the test of the queue exactly where it is blocked at the moment.
pub fn known_at_moments()
    ensures name { (d : Meaning) (core : Core) (m : Moment) (l p : ℕ) → IsMomentOf d core m → is_unborn_in core.ledger.births (Name l) p ≡ (known_at (lay_of core.shape) m).unborn_name l p }
    ensures print { (d : Meaning) (core : Core) (m : Moment) (p : ℕ) → IsMomentOf d core m → is_unborn_in core.ledger.births (Print p) 1 ≡ (known_at (lay_of core.shape) m).unborn_print p }
    ensures blocked { (d : Meaning) (core : Core) (m : Moment) (r : Release) → IsMomentOf d core m → IsPlaced core.shape r → 0 < holds_in core.engine.cache r.count_at → 0 < holds_in core.engine.cache r.print_at
        → IsBlockedInQueue (live_in core.engine.graph) r (is_last_print core r) ↔ IsBlocked (lay_of core.shape) (known_at (lay_of core.shape) m) m.world (plain_release r) }
{}
