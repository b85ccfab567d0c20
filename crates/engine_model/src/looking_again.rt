//! Which blocked releases a pass has to look at again.

ghost use Rattle.std.specs.Prelude.{◌≡◌, ◌≢◌, ◌<◌, [], ℕ, List, false};
ghost use Rattle.engine_model.specs.DeviceSteps.{fixed_release, written_release};
ghost use Rattle.engine_model.specs.Entries.{Apart};
ghost use Rattle.order_model.specs.World.{IsData, Layout, Release};
ghost use Rattle.engine_model.specs.Invariant.{Moment, known_at};
ghost use Rattle.engine_model.specs.Pass.{Member};
ghost use Rattle.engine_model.specs.Releases.{IsBlocked};
ghost use Rattle.engine_model.specs.SmallRuns.{SmallStep, with_barrier, with_refused, with_taken, with_written};
ghost use Rattle.engine_model.specs.LookingAgain.{LeavesPage, QuietRun, SparingPass};
ghost use Rattle.engine_model.specs.SmallPass.{InRange, SmallPass};

/// A blocked release stays blocked over whatever the device does, but for a write of its count page that was done:
/// and after that no release of this count page is blocked. A page that is written has no edge that leads to it, so on
/// a way it can only stand first.
pub fn device_unblocks()
    ensures written { (lay : Layout) → Apart lay → (m : Moment) (page : ℕ) (r : Release) → r.block < lay.blocks
        → IsData lay r.page → ((a : ℕ) → m.world.live a page ≡ false) → lay.count_page r.page ≢ page
        → IsBlocked lay (known_at lay m) m.world r
        → IsBlocked lay (known_at lay (with_written lay page m)) (with_written lay page m).world (written_release lay page r) }
    ensures count_written { (lay : Layout) → Apart lay → (m : Moment) (r : Release) → r.block < lay.blocks → IsData lay r.page
        → IsBlocked lay (known_at lay (with_written lay (lay.count_page r.page) m)) (with_written lay (lay.count_page r.page) m).world r → ⊥ }
    ensures taken { (lay : Layout) (m : Moment) (page : ℕ) (r : Release) → IsBlocked lay (known_at lay m) m.world r
        → IsBlocked lay (known_at lay (with_taken lay page m)) (with_taken lay page m).world r }
    ensures refused { (lay : Layout) (m : Moment) (page : ℕ) (r : Release) → IsBlocked lay (known_at lay m) m.world r
        → IsBlocked lay (known_at lay (with_refused lay page m)) (with_refused lay page m).world r }
    ensures barrier { (lay : Layout) (m : Moment) (r : Release) → IsBlocked lay (known_at lay m) m.world r
        → IsBlocked lay (known_at lay (with_barrier m)) (with_barrier m).world (fixed_release r) }
{}

/// A blocked release stays blocked over each small step of a command that leaves the count and the print of its page.
pub fn edits_unblock()
    ensures stays { (lay : Layout) (top : ℕ) → Apart lay → (m n : Moment) (r : Release) → IsData lay r.page
        → (step : SmallStep lay top m n) → LeavesPage r.page step → IsBlocked lay (known_at lay m) m.world r
        → IsBlocked lay (known_at lay n) n.world r }
{}

/// So between two passes: what the last one left blocked is blocked when the next one begins, unless its count page was
/// written or its page's count or print changed.
pub fn between_passes()
    ensures stays { (lay : Layout) (top : ℕ) → Apart lay → (m n : Moment) (r s : Release) → r.block < lay.blocks
        → IsData lay r.page → QuietRun lay top s n r m → IsBlocked lay (known_at lay m) m.world r
        → IsBlocked lay (known_at lay n) n.world s }
{}

/// A pass need not look at a release that was blocked when it began: it is still blocked at its turn.
pub fn sparing_pass()
    ensures same { (lay : Layout) → Apart lay → (m n : Moment) → InRange lay m.world.queue
        → SparingPass lay m m [] m.world.queue n → SmallPass lay m [] m.world.queue n }
{}

/// Where no Live edge begins at a count page when a pass begins, as after a write of it, the pass leaves no release of it.
pub fn freed_count_page()
    ensures applied { (lay : Layout) → Apart lay → (m n : Moment) → InRange lay m.world.queue → (p : ℕ) → IsData lay p
        → ((c : ℕ) → m.world.live (lay.count_page p) c ≡ false) → SmallPass lay m [] m.world.queue n
        → (r : Release) → Member r n.world.queue → lay.count_page r.page ≢ lay.count_page p }
{}
