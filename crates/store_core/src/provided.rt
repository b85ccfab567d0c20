// What a core keeps ready for its queued releases, over what leaves it so.
ghost use Rattle.std.specs.Prelude.{◌≡◌, ◌≢◌, ◌<◌, ◌≤◌, ◌+◌, ℕ, List, Option, Some, length, map, remove, slice_get};
ghost use Rattle.page_device.specs.Meaning.{Meaning};
ghost use Rattle.page_cache.specs.View.{holds_in};
ghost use Rattle.dep_graph.specs.Lists.{entered, node_count};
ghost use Rattle.release_queue.specs.Queued.{after_change, unmarked};
ghost use Rattle.release_queue.specs.declared.Release.{Release};
ghost use Rattle.flush_engine.specs.Edits.{Ordered};
ghost use Rattle.store_core.specs.declared.Core.{Core};
ghost use Rattle.store_core.specs.Applied.{AppliesRelease};
ghost use Rattle.store_core.specs.Edits.{Barred, NamesBlock, RaisesCount, is_name_unborn, named_in, release_of};
ghost use Rattle.store_core.specs.Frames.{OnlyEngine, SameHolds};
ghost use Rattle.store_core.specs.Owed.{IsProvided, KeepsHolds, Spends, held_for, held_for_all};
ghost use Rattle.store_core.specs.Printed.{PrintsPage};
ghost use Rattle.store_core.specs.Quiet.{Flows, GivesBack, Quiet, none};
ghost use Rattle.store_core.specs.Room.{HasRoom};

/// A core stays provided over what is quiet and what flows, and over what is given back while what is owed is held still.
pub fn stays_provided()
    ensures quiet { (more : ℕ → ℕ) (d e : Meaning) (old new : Core) → IsProvided old → Quiet more d e old new → IsProvided new }
    ensures flows { (d e : Meaning) (old new : Core) → IsProvided old → Flows d e old new → IsProvided new }
    ensures back { (less : ℕ → ℕ) (old new : Core) → IsProvided old → GivesBack less old new
        → ((q : ℕ) → held_for_all new.ledger.queue.releases q ≤ holds_in new.engine.cache q) → IsProvided new }
{}

/// The count page and the print page of a queued release are held.
pub fn owed_pages_are_held()
    ensures count_page { (core : Core) (i : ℕ) (r : Release) → IsProvided core → slice_get core.ledger.queue.releases i ≡ Some r → 0 < holds_in core.engine.cache r.count_at }
    ensures print_page { (core : Core) (i : ℕ) (r : Release) → IsProvided core → slice_get core.ledger.queue.releases i ≡ Some r → 0 < holds_in core.engine.cache r.print_at }
{}

/// Holds that move with the queue: over quiet parts, over what flows, over an edit and over parts after one another. What is owed is
/// held still then, and where more holds were taken.
pub fn holds_move()
    ensures quiet { (d e : Meaning) (old new : Core) → Quiet none d e old new → KeepsHolds old new }
    ensures flows { (d e : Meaning) (old new : Core) → Flows d e old new → KeepsHolds old new }
    ensures edit { (old new : Core) → SameHolds old new → new.ledger.queue.releases ≡ old.ledger.queue.releases → KeepsHolds old new }
    ensures then { (a b c : Core) → KeepsHolds a b → KeepsHolds b c → KeepsHolds a c }
    ensures owed { (old new : Core) → KeepsHolds old new → ((q : ℕ) → held_for_all old.ledger.queue.releases q ≤ holds_in old.engine.cache q)
        → (q : ℕ) → held_for_all new.ledger.queue.releases q ≤ holds_in new.engine.cache q }
    ensures more { (more : ℕ → ℕ) (old new : Core) → ((q : ℕ) → holds_in new.engine.cache q ≡ holds_in old.engine.cache q + more q)
        → new.ledger.queue.releases ≡ old.ledger.queue.releases → ((q : ℕ) → held_for_all old.ledger.queue.releases q ≤ holds_in old.engine.cache q)
        → (q : ℕ) → held_for_all new.ledger.queue.releases q ≤ holds_in new.engine.cache q }
{}

/// A command that took no more than was reserved for it leaves the core provided, with one release more at most.
pub fn reserved_is_enough()
    ensures { (nodes edges changes : ℕ) (old new : Core) → HasRoom nodes edges changes old → Spends nodes edges changes old new
        → length new.ledger.queue.releases ≤ length old.ledger.queue.releases + 1
        → ((q : ℕ) → held_for_all new.ledger.queue.releases q ≤ holds_in new.engine.cache q) → IsProvided new }
{}

/// A release that was applied took what was there for it: the core is provided for the others, and the holds of this one are left, to
/// be given back.
pub fn applied_is_provided()
    ensures rest { (i : ℕ) (r : Release) (old new : Core) → IsProvided old → slice_get old.ledger.queue.releases i ≡ Some r → AppliesRelease i r old new → IsProvided new }
    ensures left { (i : ℕ) (r : Release) (old new : Core) → IsProvided old → slice_get old.ledger.queue.releases i ≡ Some r → AppliesRelease i r old new
        → (q : ℕ) → held_for_all new.ledger.queue.releases q + held_for r q ≤ holds_in new.engine.cache q }
{}

/// Marks of releases that are set or taken away leave the core provided, and so does a release that leaves the queue, whose holds are
/// left.
pub fn queue_is_provided()
    ensures again { (old new : Core) → new.engine ≡ old.engine → new.ledger.births ≡ old.ledger.births → (p : ℕ)
        → new.ledger.queue.releases ≡ map (after_change p) old.ledger.queue.releases → IsProvided old → IsProvided new }
    ensures look { (old new : Core) → new.engine ≡ old.engine → new.ledger.births ≡ old.ledger.births → (i : ℕ)
        → new.ledger.queue.releases ≡ unmarked i old.ledger.queue.releases → IsProvided old → IsProvided new }
    ensures out { (old new : Core) → new.engine ≡ old.engine → new.ledger.births ≡ old.ledger.births → (i : ℕ) (r : Release) → slice_get old.ledger.queue.releases i ≡ Some r
        → new.ledger.queue.releases ≡ remove old.ledger.queue.releases i → IsProvided old → IsProvided new }
    ensures left { (old new : Core) → new.engine ≡ old.engine → new.ledger.births ≡ old.ledger.births → (i : ℕ) (r : Release) → slice_get old.ledger.queue.releases i ≡ Some r
        → new.ledger.queue.releases ≡ remove old.ledger.queue.releases i → IsProvided old → (q : ℕ) → held_for_all new.ledger.queue.releases q + held_for r q ≤ holds_in new.engine.cache q }
{}

/// What is owed once a block has taken another name: as before where it had none, and the pages of the old name's release beside it
/// where it had one. The queue has one release more at most.
pub fn name_owes()
    ensures some { (block p : ℕ) (old new : Core) → NamesBlock block p old new → named_in old block ≢ 0 → (q : ℕ)
        → held_for_all new.ledger.queue.releases q ≡ held_for_all old.ledger.queue.releases q + held_for (release_of old.shape block (named_in old block) (is_name_unborn old block)) q }
    ensures none { (block p : ℕ) (old new : Core) → NamesBlock block p old new → named_in old block ≡ 0 → new.ledger.queue.releases ≡ old.ledger.queue.releases }
    ensures few { (block p : ℕ) (old new : Core) → NamesBlock block p old new → length new.ledger.queue.releases ≤ length old.ledger.queue.releases + 1 }
{}

/// What the parts of a command take of what was reserved for it, and that this adds up: a node for each mark at most, an edge for each
/// order, and a change for each name and each print.
pub fn steps_spend()
    ensures none { (a : Core) → Spends 0 0 0 a a }
    ensures then { (n e c m f k : ℕ) (x y z : Core) → Spends n e c x y → Spends m f k y z → Spends (n + m) (e + f) (c + k) x z }
    ensures more { (n e c m f k : ℕ) (x y : Core) → n ≤ m → e ≤ f → c ≤ k → Spends n e c x y → Spends m f k x y }
    ensures quiet { (more : ℕ → ℕ) (d e : Meaning) (old new : Core) → Quiet more d e old new → Spends 0 0 0 old new }
    ensures back { (less : ℕ → ℕ) (old new : Core) → GivesBack less old new → Spends 0 0 0 old new }
    ensures flows { (d e : Meaning) (old new : Core) → Flows d e old new → Spends 0 0 0 old new }
    ensures mark { (page : ℕ) (old new : Core) → new.engine.graph ≡ entered page old.engine.graph → node_count new.engine.graph ≤ node_count old.engine.graph + 1
        → OnlyEngine old new → Spends 1 0 0 old new }
    ensures order { (before after : ℕ) (old new : Core) → Ordered before after old.engine.graph new.engine.graph
        → node_count new.engine.graph ≡ node_count old.engine.graph → OnlyEngine old new → Spends 0 1 0 old new }
    ensures order_by_barrier { (before after : ℕ) (old new : Core) → Barred before after old.engine.graph new.engine.graph
        → node_count new.engine.graph ≡ node_count old.engine.graph → OnlyEngine old new → Spends 0 1 0 old new }
    ensures raise { (p : ℕ) (old new : Core) → RaisesCount p old new → Spends 0 0 0 old new }
    ensures name { (block p : ℕ) (old new : Core) → NamesBlock block p old new → Spends 0 0 1 old new }
    ensures print { (p : ℕ) (print : Option (List ℕ)) (old new : Core) → PrintsPage p print old new → Spends 0 0 1 old new }
{}
