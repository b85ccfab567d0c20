// The counts of data pages.
use crate::Core;
use page_cache::edits_one_page;
use release_queue::Release;

impl Core {
    ghost use Rattle.std.specs.Prelude.{◌≡◌, ◌<◌, ◌≤◌, ℕ, List, Bool, true, Some, map, slice_get};
    ghost use Rattle.page_layout.specs.Shape.{count_page};
    ghost use Rattle.page_cache.specs.View.{holds_in, is_there};
    ghost use Rattle.dep_graph.specs.Lists.{dirty_in};
    ghost use Rattle.ref_counts.specs.Counts.{count_in};
    ghost use Rattle.release_queue.specs.Queued.{after_change};
    ghost use Rattle.store_core.specs.Counted.{LowerStands, RaiseStands};
    ghost use Rattle.store_core.specs.Edits.{LowersCount, Makes, RaisesCount};
    ghost use Rattle.store_core.specs.Frames.{KeepsStands};
    ghost use Rattle.store_core.specs.Layout.{top};
    ghost use Rattle.store_core.specs.Moments.{KeepsMoments};
    ghost use Rattle.store_core.specs.Views.{page_in};

    /// How often a data page is counted, by a count page that is in memory. Constant.
    pub fn count_of(&self, p: u32) -> u32
        requires first { 1 ≤ p }
        requires last { p ≤ self.now.shape.pages }
        requires there { is_there self.now.engine.cache (count_page self.now.shape p) ≡ true }
        ensures { result ≡ count_in (page_in self.now (count_page self.now.shape p)) p }
    {
        let (at, _) = self.shape.count_place(p);
        match self.engine.cache_seen().look(at) {
            Some(page) => ref_counts::count(&self.shape, page, p),
            None => 0,
        }
    }

    /// A data page is counted once more, and the pool is told that it is taken. Its count page is held and dirty. Constant.
    pub fn raise_count(&mut self, p: u32)
        requires first { 1 ≤ p }
        requires last { p ≤ self.old.shape.pages }
        requires held { 0 < holds_in self.old.engine.cache (count_page self.old.shape p) }
        requires dirty { dirty_in self.old.engine.graph (count_page self.old.shape p) ≡ true }
        requires below { count_in (page_in self.old (count_page self.old.shape p)) p < top }
        ensures raised { RaisesCount p self.old self.new }
        ensures stands { RaiseStands p self.old self.new }
    {
        edits_one_page();
        let shape = self.shape;
        let (at, _) = shape.count_place(p);
        ref_counts::raise(&shape, self.engine.cache().edit(at), p);
        self.ledger.pool.take(p);
    }

    /// A data page is counted once less, and the release that was owed to it leaves the queue. The pool is told where no count is
    /// left. The count page is held and dirty. It moves the releases that come after.
    pub fn lower_count(&mut self, i: u32, release: Release)
        requires queued { slice_get self.old.ledger.queue.releases i ≡ Some release }
        requires held { 0 < holds_in self.old.engine.cache release.count_at }
        requires dirty { dirty_in self.old.engine.graph release.count_at ≡ true }
        requires above { 0 < count_in (page_in self.old release.count_at) release.page }
        ensures lowered { LowersCount i release self.old self.new }
        ensures stands { LowerStands release self.old self.new }
    {
        edits_one_page();
        let shape = self.shape;
        let _ = self.ledger.queue.remove(i);
        let page = self.engine.cache().edit(release.count_at);
        ref_counts::lower(&shape, page, release.page);
        let left = ref_counts::count(&shape, page, release.page);
        if left == 0 {
            self.ledger.pool.zeroed(release.page);
        }
    }

    /// The count or the print of a data page changed, so that a pass has to look at its releases again: one that had to wait may be
    /// free to go. What the core stands for stays. Once over the queue.
    pub fn look_again(&mut self, p: u32)
        ensures ledger { self.new.ledger ≡ record self.old.ledger { queue = record self.old.ledger.queue { releases = map (after_change p) self.old.ledger.queue.releases } } }
        ensures shape { self.new.shape ≡ self.old.shape }
        ensures engine { self.new.engine ≡ self.old.engine }
        ensures world { Makes (λ w. w) self.old self.new }
        ensures moments { KeepsMoments self.old self.new }
        ensures stands { KeepsStands self.old self.new }
    {
        self.ledger.queue.page_changed(p);
    }
}
