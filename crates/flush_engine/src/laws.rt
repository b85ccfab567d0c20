// What holds of engines.
ghost use Rattle.std.specs.Prelude.{◌≡◌, ℕ, ◌<◌, Bool, true, false, Result, Ok, Err};
ghost use Rattle.page_device.specs.Block.{Block};
ghost use Rattle.page_device.specs.Meaning.{Meaning};
ghost use Rattle.page_cache.specs.View.{CacheView, holds_in};
ghost use Rattle.page_cache.specs.View.{dirty_in as cached_dirty};
ghost use Rattle.dep_graph.specs.Lists.{GraphLists, is_node, node_count};
ghost use Rattle.page_device.specs.declared.error.Failed.{Failed};
ghost use Rattle.merge_policy.specs.declared.labels.TheConstants.{HOLD};
ghost use Rattle.merge_policy.specs.Meaning.{PolicyMeaning};
ghost use Rattle.flush_engine.specs.View.{EngineView, Fits, IsWhole, Moment};
ghost use Rattle.flush_engine.specs.Idle.{IdleStep, TurnEnds, aged};
ghost use Rattle.flush_engine.specs.Edits.{touched};

use crate::watch::Watch;

/// An engine stays whole where a held page is touched for which there is room, whatever content is left in it; and it fits its
/// device still where the page is one of the device.
pub fn touched_is_whole()
    ensures whole { (e : EngineView) (page : ℕ) (block : Block) → 0 < holds_in e.cache page → (is_node e.graph page ≡ false → node_count e.graph < e.room) → IsWhole e → IsWhole (touched page block e) }
    ensures fits { (e : EngineView) (d : Meaning) (page : ℕ) (block : Block) → 0 < holds_in e.cache page → (is_node e.graph page ≡ false → node_count e.graph < e.room) → page < d.pages → Fits e d → Fits (touched page block e) d }
{}

/// An engine fits its device still where no mark and no edge of its graph changed while it was lent, and where no dirty mark of its
/// cache did.
pub fn lent_parts_fit()
    ensures graph { (e : EngineView) (d : Meaning) (g : GraphLists) → g.dirty ≡ e.graph.dirty → g.hung ≡ e.graph.hung → g.edges ≡ e.graph.edges → Fits e d → Fits (record e { graph = g }) d }
    ensures cache { (e : EngineView) (d : Meaning) (cache : CacheView) → ((q : ℕ) → cached_dirty cache q ≡ cached_dirty e.cache q) → Fits e d → Fits (record e { cache = cache }) d }
{}

/// Over the policy that leaves every page, an idle turn changes nothing and answers `false`.
pub fn hold_writes_nothing<W: Watch>()
    ensures { (result : Result Bool Failed) (old new : PolicyMeaning) (a b : Moment W) → old.label ≡ HOLD → TurnEnds W.told result old a new b → (result ≡ Ok false) × (a ≡ b) × (new.label ≡ HOLD) }
{}

/// An idle step is made turn by turn. Where nothing is passed on between them, as here, it ends with the turn that answers `false` or
/// fails, and a turn that answers `true` comes before a step.
pub fn turns_make_a_step<W: Watch>()
    ensures last { (old new : PolicyMeaning) (a b : Moment W) → TurnEnds W.told (Ok false) old a new b → IdleStep W.told (λ x y. x ≡ y) (Ok tt) old a new (aged b) }
    ensures failed { (failed : Failed) (old new : PolicyMeaning) (a b : Moment W) → TurnEnds W.told (Err failed) old a new b → IdleStep W.told (λ x y. x ≡ y) (Err failed) old a new (aged b) }
    ensures more { (result : Result Unit Failed) (old mid new : PolicyMeaning) (a m b : Moment W) → TurnEnds W.told (Ok true) old a mid m → IdleStep W.told (λ x y. x ≡ y) result mid m new b → IdleStep W.told (λ x y. x ≡ y) result old a new b }
{}
