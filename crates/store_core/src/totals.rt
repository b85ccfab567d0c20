// The numbers that a store tells of itself, kept from command to command, so that nobody counts anew.
ghost use Rattle.std.specs.Prelude.{◌≡◌, ◌≢◌, ◌+◌, ◌<◌, ◌≤◌, ℕ, List, Bool, true, cond, eqb, length};
ghost use Rattle.page_device.specs.Block.{Block};
ghost use Rattle.page_device.specs.Meaning.{Meaning};
ghost use Rattle.page_layout.specs.Shape.{count_page, map_page};
ghost use Rattle.page_cache.specs.View.{is_there};
ghost use Rattle.order_model.specs.World.{IsData, Layout, World};
ghost use Rattle.release_queue.specs.declared.Release.{Release};
ghost use Rattle.engine_model.specs.Entries.{cached_count, cached_name};
ghost use Rattle.engine_model.specs.Tight.{IsTight, named_pages};
ghost use Rattle.store_core.specs.declared.Core.{Core};
ghost use Rattle.store_core.specs.declared.totals.Totals.{Totals};
ghost use Rattle.store_core.specs.Edits.{LowersCount, NamesBlock, RaisesCount};
ghost use Rattle.store_core.specs.Layout.{lay_of};
ghost use Rattle.store_core.specs.Stands.{StandsFor};
ghost use Rattle.store_core.specs.Totals.{AreFew, AreTotals, Recounts, Renames, waste_of, with_lowered, with_raised, with_renamed};
ghost use Rattle.store_core.specs.Views.{world_of};
ghost use Rattle.store_core.specs.Whole.{IsPlaced};

/// How many data pages are counted, the sum of their counts, and how many blocks have a name. Each number stands still at 0 and at
/// the end of its type, which it meets over a device alone that contradicts itself.
#[derive(Clone, Copy, Debug, PartialEq, Eq, Drop)]
pub struct Totals {
    pub live: u32,
    pub sum: u64,
    pub mapped: u32,
}

impl Totals {
    /// A data page is counted once more, or for the first time. Constant.
    pub fn raised(&mut self, first: bool)
        ensures { self.new ≡ with_raised first self.old }
    {
        self.sum = self.sum.saturating_add(1);
        if first {
            self.live = self.live.saturating_add(1);
        }
    }

    /// So many counts are taken away, and so many data pages are counted no longer. Constant.
    pub fn lowered(&mut self, counts: u32, pages: u32)
        ensures { self.new ≡ with_lowered counts pages self.old }
    {
        self.sum = self.sum.saturating_sub(u64::from(counts));
        self.live = self.live.saturating_sub(pages);
    }

    /// A block that named the data page `was` names `now`; 0 is none. Constant.
    pub fn renamed(&mut self, was: u32, now: u32)
        ensures { self.new ≡ with_renamed was now self.old }
    {
        if was == 0 {
            if now != 0 {
                self.mapped = self.mapped.saturating_add(1);
            }
        } else if now == 0 {
            self.mapped = self.mapped.saturating_sub(1);
        }
    }

    /// By how much the counts are above the names and the releases that are postponed. Constant.
    pub fn waste(&self, postponed: u32) -> u64
        ensures { result ≡ waste_of postponed self.now }
    {
        self.sum
            .saturating_sub(u64::from(self.mapped))
            .saturating_sub(u64::from(postponed))
    }
}

/// The totals follow the counts and the names of the tables in memory, one change after another.
pub fn totals_follow()
    ensures raise { (lay : Layout) (v w : World) (p : ℕ) (t : Totals) → IsData lay p → Recounts lay p v w → cached_count lay w p ≡ cached_count lay v p + 1 → AreFew t
        → AreTotals lay v t → AreTotals lay w (with_raised (eqb (cached_count lay v p) 0) t) }
    ensures lower { (lay : Layout) (v w : World) (p : ℕ) (t : Totals) → IsData lay p → Recounts lay p v w → cached_count lay v p ≡ cached_count lay w p + 1
        → AreTotals lay v t → AreTotals lay w (with_lowered 1 (cond (eqb (cached_count lay w p) 0) 1 0) t) }
    ensures rename { (lay : Layout) (v w : World) (l : ℕ) (t : Totals) → l < lay.blocks → Renames lay l v w → AreFew t
        → AreTotals lay v t → AreTotals lay w (with_renamed (cached_name lay v l) (cached_name lay w l) t) }
    ensures same { (lay : Layout) (v w : World) (t : Totals) → ((q : ℕ) → IsData lay q → cached_count lay w q ≡ cached_count lay v q)
        → ((l : ℕ) → l < lay.blocks → cached_name lay w l ≡ cached_name lay v l) → AreTotals lay v t → AreTotals lay w t }
    ensures few { (sound : Bool) (d : Meaning) (core : Core) (array : ℕ → List Block) (t : Totals) → StandsFor sound d core array → AreTotals (lay_of core.shape) (world_of d core) t → AreFew t }
{}

/// What each step that changes a count or a name makes of the counts and names in memory.
pub fn steps_recount()
    ensures raise { (d : Meaning) (old new : Core) (p : ℕ) → 1 ≤ p → p ≤ old.shape.pages → is_there old.engine.cache (count_page old.shape p) ≡ true → RaisesCount p old new
        → Recounts (lay_of old.shape) p (world_of d old) (world_of d new) × (cached_count (lay_of old.shape) (world_of d new) p ≡ cached_count (lay_of old.shape) (world_of d old) p + 1) }
    ensures lower { (d : Meaning) (old new : Core) (i : ℕ) (r : Release) → IsPlaced old.shape r → is_there old.engine.cache r.count_at ≡ true → 0 < cached_count (lay_of old.shape) (world_of d old) r.page → LowersCount i r old new
        → Recounts (lay_of old.shape) r.page (world_of d old) (world_of d new) × (cached_count (lay_of old.shape) (world_of d old) r.page ≡ cached_count (lay_of old.shape) (world_of d new) r.page + 1) }
    ensures name { (d : Meaning) (old new : Core) (l p : ℕ) → l < old.shape.blocks → is_there old.engine.cache (map_page l) ≡ true → NamesBlock l p old new
        → Renames (lay_of old.shape) l (world_of d old) (world_of d new) × (cached_name (lay_of old.shape) (world_of d new) l ≡ p) }
{}

/// Where nothing is wasted the waste is 0, and the pages that are counted are at least those that are named, and at most one more
/// for each release that is postponed.
pub fn stat_where_tight()
    ensures waste { (version : ℕ) (d : Meaning) (core : Core) (t : Totals) → IsTight (lay_of core.shape) version (world_of d core)
        → AreTotals (lay_of core.shape) (world_of d core) t → waste_of (length core.ledger.queue.releases) t ≡ 0 }
    ensures at_least { (version : ℕ) (d : Meaning) (core : Core) (t : Totals) → IsTight (lay_of core.shape) version (world_of d core)
        → AreTotals (lay_of core.shape) (world_of d core) t → named_pages (lay_of core.shape) (world_of d core) ≤ t.live }
    ensures at_most { (version : ℕ) (d : Meaning) (core : Core) (t : Totals) → IsTight (lay_of core.shape) version (world_of d core)
        → AreTotals (lay_of core.shape) (world_of d core) t → t.live ≤ named_pages (lay_of core.shape) (world_of d core) + length core.ledger.queue.releases }
{}
