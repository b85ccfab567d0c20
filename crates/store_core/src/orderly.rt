// Marks, edges, queue and tables, over what leaves them in order.
ghost use Rattle.std.specs.Prelude.{◌≡◌, ◌≢◌, ◌<◌, ◌≤◌, ℕ, List, Option, Some, false, true, cond, map, remove, slice_get};
ghost use Rattle.page_device.specs.Meaning.{Meaning};
ghost use Rattle.page_layout.specs.Formed.{is_formed};
ghost use Rattle.page_layout.specs.Shape.{count_page, data_page, map_page, print_page, print_place};
ghost use Rattle.page_layout.specs.Tables.{IsPrintEntry};
ghost use Rattle.page_cache.specs.View.{content_in, holds_in, is_there};
ghost use Rattle.order_model.specs.Paths.{Closes};
ghost use Rattle.dep_graph.specs.Lists.{dirty_in, entered, live_in};
ghost use Rattle.ref_counts.specs.Counts.{count_in};
ghost use Rattle.release_queue.specs.Queued.{after_change, unmarked};
ghost use Rattle.release_queue.specs.declared.Release.{Release};
ghost use Rattle.flush_engine.specs.Edits.{GivenUp, Ordered};
ghost use Rattle.engine_model.specs.Entries.{EdgeKind};
ghost use Rattle.engine_model.specs.SmallSteps.{given_up, ordered_after, ordered_by_barrier, touched};
ghost use Rattle.store_core.specs.declared.Core.{Core};
ghost use Rattle.store_core.specs.Applied.{AppliesRelease, CanApply};
ghost use Rattle.store_core.specs.Edits.{Barred, LowersCount, Makes, NamesBlock, RaisesCount, named_in};
ghost use Rattle.store_core.specs.Frames.{OnlyEngine, SameHolds};
ghost use Rattle.store_core.specs.Layout.{lay_of, top};
ghost use Rattle.store_core.specs.Orderly.{AreFormed, FewerEdges, HasToWait, IsOrderly, IsOrderlyBut, KeepsFormed, KeepsOrderBut, OnlyCame, Waits};
ghost use Rattle.store_core.specs.Owed.{IsProvided};
ghost use Rattle.store_core.specs.Printed.{PrintsPage};
ghost use Rattle.store_core.specs.Quiet.{GivesBack, Quiet};
ghost use Rattle.store_core.specs.Views.{page_in};
ghost use Rattle.store_core.specs.Whole.{IsPlaced};

/// A core that is in order is so but for the releases of any page. There is no page 0, so all that is kept but for its releases is
/// kept of each release: the laws below are said but for one page, and serve with 0 where no release is left out.
pub fn but_for_none()
    ensures any { (p : ℕ) (core : Core) → IsOrderly core → IsOrderlyBut p core }
    ensures all { (core : Core) → IsOrderlyBut 0 core → IsOrderly core }
{}

/// A core stays in order over what is quiet, and over what is given back, as long as what came in is well formed.
pub fn quiet_is_orderly()
    ensures quiet { (b : ℕ) (more : ℕ → ℕ) (d e : Meaning) (old new : Core) → IsProvided old → Quiet more d e old new → AreFormed new → IsOrderlyBut b old → IsOrderlyBut b new }
    ensures back { (b : ℕ) (less : ℕ → ℕ) (old new : Core) → IsProvided new → GivesBack less old new → AreFormed new → IsOrderlyBut b old → IsOrderlyBut b new }
{}

/// Table pages stay well formed where holds are given back, where the cache stays, and where one well-formed page came in.
pub fn tables_stay_formed()
    ensures back { (less : ℕ → ℕ) (old new : Core) → GivesBack less old new → KeepsFormed old new }
    ensures cache { (old new : Core) → new.shape ≡ old.shape → new.engine.cache ≡ old.engine.cache → KeepsFormed old new }
    ensures came { (page : ℕ) (old new : Core) → new.shape ≡ old.shape → is_formed old.shape page (page_in new page) ≡ true → OnlyCame page old new → KeepsFormed old new }
{}

/// And over a mark and an edge of an allowed kind.
pub fn marks_are_orderly()
    ensures touch { (b : ℕ) (old new : Core) (page : ℕ) → Makes (touched page) old new → new.engine.graph ≡ entered page old.engine.graph → OnlyEngine old new → SameHolds old new
        → ((q : ℕ) → page_in new q ≡ page_in old q) → IsOrderlyBut b old → IsOrderlyBut b new }
    ensures order { (b : ℕ) (old new : Core) (before after : ℕ) → Makes (ordered_after before after) old new → EdgeKind (lay_of old.shape) before after
        → Ordered before after old.engine.graph new.engine.graph → new.engine ≡ record old.engine { graph = new.engine.graph } → OnlyEngine old new
        → IsOrderlyBut b old → IsOrderlyBut b new }
    ensures order_by_barrier { (b : ℕ) (old new : Core) (before after : ℕ) → Makes (λ w. cond (w.hung before) (ordered_by_barrier before after w) w) old new
        → EdgeKind (lay_of old.shape) before after → Barred before after old.engine.graph new.engine.graph → new.engine ≡ record old.engine { graph = new.engine.graph }
        → OnlyEngine old new → IsOrderlyBut b old → IsOrderlyBut b new }
{}

/// And over a data page that gets its content, which takes at most pages that nobody holds, or is given up.
pub fn data_is_orderly()
    ensures place { (b p : ℕ) (old new : Core) → 1 ≤ p → p ≤ old.shape.pages → OnlyEngine old new → IsProvided old → new.engine.graph ≡ entered (data_page old.shape p) old.engine.graph
        → ((q : ℕ) → 0 < holds_in old.engine.cache q → content_in new.engine.cache q ≡ content_in old.engine.cache q) → OnlyCame (data_page old.shape p) old new
        → IsOrderlyBut b old → IsOrderlyBut b new }
    ensures give_up { (b p : ℕ) (old new : Core) → 1 ≤ p → p ≤ old.shape.pages → OnlyEngine old new → Makes (given_up (data_page old.shape p)) old new
        → GivenUp (data_page old.shape p) old.engine new.engine → IsOrderlyBut b old → IsOrderlyBut b new }
{}

/// Where the count or the print of a page changes, a release of it that had to wait may be free to go: the core is in order but for
/// its releases, until they are marked. A block that takes another name pushes a release that is marked.
pub fn entries_are_orderly()
    ensures raise { (p : ℕ) (old new : Core) → 1 ≤ p → p ≤ old.shape.pages → 0 < holds_in old.engine.cache (count_page old.shape p)
        → count_in (page_in old (count_page old.shape p)) p < top → RaisesCount p old new → IsOrderlyBut p old → IsOrderlyBut p new }
    ensures print { (p : ℕ) (old new : Core) → 1 ≤ p → p ≤ old.shape.pages → (print : Option (List ℕ)) → 0 < holds_in old.engine.cache (print_page old.shape p)
        → PrintsPage p print old new → IsOrderlyBut p old → IsOrderlyBut p new }
    ensures name { (b block p : ℕ) (old new : Core) → block < old.shape.blocks → 0 < holds_in old.engine.cache (map_page block)
        → dirty_in old.engine.graph (map_page block) ≡ true → named_in old block ≤ old.shape.pages → p ≤ old.shape.pages → NamesBlock block p old new
        → IsOrderlyBut b old → IsOrderlyBut b new }
    ensures again { (p : ℕ) (old new : Core)
        → new.ledger ≡ record old.ledger { queue = record old.ledger.queue { releases = map (after_change p) old.ledger.queue.releases } }
        → new.shape ≡ old.shape → new.engine ≡ old.engine → Makes (λ w. w) old new → IsOrderlyBut p old → IsOrderly new }
{}

/// A release that leaves the queue, lowered or not, and one that was looked at and has to wait leave the core in order. `but` is what
/// the steps of a release that is applied leave for the releases of other pages; those of its own page had to wait for their map
/// pages, or this one would have had to wait.
pub fn releases_are_orderly()
    ensures lower { (i : ℕ) (r : Release) (old new : Core) → slice_get old.ledger.queue.releases i ≡ Some r → IsPlaced old.shape r → 0 < holds_in old.engine.cache r.count_at
        → LowersCount i r old new → KeepsOrderBut r.page old new }
    ensures applied { (i : ℕ) (r : Release) (old new : Core) → CanApply i r old → IsPlaced old.shape r → AppliesRelease i r old new
        → IsOrderly old → IsOrderlyBut r.page new → IsOrderly new }
    ensures out { (old new : Core) → new.shape ≡ old.shape → new.engine ≡ old.engine → new.ledger.births ≡ old.ledger.births → (i : ℕ) (r : Release)
        → slice_get old.ledger.queue.releases i ≡ Some r → new.ledger.queue.releases ≡ remove old.ledger.queue.releases i → IsOrderly old → IsOrderly new }
    ensures look { (old new : Core) → new.shape ≡ old.shape → new.engine ≡ old.engine → new.ledger.births ≡ old.ledger.births → (i : ℕ)
        → new.ledger.queue.releases ≡ unmarked i old.ledger.queue.releases → ((r : Release) → slice_get old.ledger.queue.releases i ≡ Some r → HasToWait old r)
        → IsOrderly old → IsOrderly new }
{}

/// Edges that close no cycle, with no search: none leads to a data page, so none from a data page closes one; nor does one from or to a
/// page that is not dirty; and what closes none closes none where there are fewer edges.
pub fn edges_open()
    ensures none_to_data { (b : ℕ) (core : Core) → IsOrderlyBut b core → (a p : ℕ) → 1 ≤ p → p ≤ core.shape.pages → live_in core.engine.graph a (data_page core.shape p) ≡ false }
    ensures from_data { (b : ℕ) (core : Core) → IsOrderlyBut b core → (p after : ℕ) → 1 ≤ p → p ≤ core.shape.pages → after ≢ data_page core.shape p
        → Closes (live_in core.engine.graph) (data_page core.shape p) after → ⊥ }
    ensures clean_before { (core : Core) (before after : ℕ) → before ≢ after → dirty_in core.engine.graph before ≡ false → Closes (live_in core.engine.graph) before after → ⊥ }
    ensures clean_after { (core : Core) (before after : ℕ) → before ≢ after → dirty_in core.engine.graph after ≡ false → Closes (live_in core.engine.graph) before after → ⊥ }
    ensures fewer { (old new : Core) (before after : ℕ) → FewerEdges old new → (Closes (live_in old.engine.graph) before after → ⊥) → Closes (live_in new.engine.graph) before after → ⊥ }
{}

/// A queued release waits for its map page as its stage says.
pub fn releases_wait()
    ensures { (b : ℕ) (core : Core) (i : ℕ) (r : Release) → IsOrderlyBut b core → slice_get core.ledger.queue.releases i ≡ Some r → Waits core.engine.graph r }
{}

/// An entry of a page that is there is one of the format: a name is that of a data page or none, a count is not above the highest one,
/// and a print is well formed.
pub fn entries_fit()
    ensures name { (core : Core) (block : ℕ) → AreFormed core → block < core.shape.blocks → is_there core.engine.cache (map_page block) ≡ true → named_in core block ≤ core.shape.pages }
    ensures count { (core : Core) (p : ℕ) → AreFormed core → 1 ≤ p → p ≤ core.shape.pages → is_there core.engine.cache (count_page core.shape p) ≡ true
        → count_in (page_in core (count_page core.shape p)) p ≤ top }
    ensures print { (core : Core) (p : ℕ) → AreFormed core → 1 ≤ p → p ≤ core.shape.pages → is_there core.engine.cache (print_page core.shape p) ≡ true
        → IsPrintEntry (page_in core (print_page core.shape p)) (print_place p) }
{}
