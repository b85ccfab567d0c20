// The engine: its calls.
ghost use Rattle.std.specs.Prelude.{◌≡◌, ◌<◌, true, false, nat_le, map, None, Some, IfOk};
ghost use Rattle.std.specs.Borrow.{sem};
ghost use Rattle.order_model.specs.Paths.{Closes};
ghost use Rattle.page_cache.specs.View.{content_in, holds_in};
ghost use Rattle.dep_graph.specs.Lists.{dirty_in, is_node, live_in, node_count, waits_in};
ghost use Rattle.flush_engine.specs.Tallies.{older};
ghost use Rattle.flush_engine.specs.View.{Fits, IsWhole, Returned, at};
ghost use Rattle.flush_engine.specs.Steps.{Steps};
ghost use Rattle.flush_engine.specs.Waves.{WavesEnd};
ghost use Rattle.flush_engine.specs.Flush.{FlushEnds};
ghost use Rattle.flush_engine.specs.Idle.{TurnEnds};
ghost use Rattle.flush_engine.specs.Edits.{GivenUp, IsNew, LendsCache, LendsGraph, LendsPage, Ordered};

use crate::watch::Watch;
use crate::writer::Writer;
use dep_graph::Graph;
use merge_policy::{MergePolicy, Offer};
use page_cache::Cache;
use page_device::{Device, Failed, NoMemory, Page};
use std::alloc::Global;
use std::marker::Model;

/// Pages in memory, which of them must be written before which, and what writes them.
///
/// An engine is *whole* (`IsWhole` of `specs/View.antt`) where the dirty pages of its cache are those of its graph, and each has an
/// age and edits. `touch`, `order` and the calls with a device need that and keep it. `cache` and `graph` lend a part, so a caller
/// can break it, and has to mend it before the next of those calls.
///
/// The calls with a device need each dirty page to be one of the device, too. They end at the first write or barrier that fails:
/// then the page's content, its mark and the edges are as before, and a later call takes it up again. `Failed` is a counted fault
/// of the device. No call but `new` takes memory.
#[derive(Drop)]
pub struct Engine {
    writer: Writer,
    // The offers of an idle turn, and the pages of a wave. There is room for each page that may be dirty.
    offers: Vec<Offer>,
    due: Vec<u32>,
}

impl Model for Engine {
    ghost use Rattle.std.specs.Prelude.{◌≤◌, vec_capacity};
    ghost use Rattle.flush_engine.specs.View.{EngineView};

    ghost Value = { EngineView };

    ghost view = { λ e. e.writer };

    ghost invariant = { λ e. (e.writer.room ≤ vec_capacity e.offers) × (e.writer.room ≤ vec_capacity e.due) };
}

impl Engine {
    /// An engine with this cache, and a graph of no node. There is room for the ages and edits of a quarter more pages than the
    /// cache's list is for. It is whole where no page of the cache is dirty.
    ///
    /// `NoMemory` where no memory is found. Linear in the size of the cache.
    pub fn new(alloc: Global, cache: Cache) -> Result<Engine, NoMemory>
        ensures { IfOk result (IsNew cache) }
    {
        let size = cache.size();
        let room = (size + size / 4) as usize;
        let Ok(tallies) = Vec::with_capacity(alloc, room) else {
            return Err(NoMemory);
        };
        let Ok(offers) = Vec::with_capacity(alloc, tallies.capacity()) else {
            return Err(NoMemory);
        };
        let Ok(due) = Vec::with_capacity(alloc, tallies.capacity()) else {
            return Err(NoMemory);
        };
        let writer = Writer {
            cache,
            graph: Graph::new(alloc),
            tallies,
        };
        Ok(Engine {
            writer,
            offers,
            due,
        })
    }

    /// Lends the cache: afterwards the engine is as before, with the cache as it was left. Constant.
    pub fn cache(&mut self) -> &mut Cache
        ensures* writes_back { sem 𝓛 (LendsCache self.entry result) }
        ensures now { result.now ≡ self.old.cache }
    {
        &mut self.writer.cache
    }

    /// Lends the graph: afterwards the engine is as before, with the graph as it was left. Constant.
    pub fn graph(&mut self) -> &mut Graph
        ensures* writes_back { sem 𝓛 (LendsGraph self.entry result) }
        ensures now { result.now ≡ self.old.graph }
    {
        &mut self.writer.graph
    }

    /// Shows the cache. Constant.
    pub fn cache_seen(&self) -> &Cache
        ensures { result.now ≡ self.now.cache }
    {
        &self.writer.cache
    }

    /// Shows the graph. Constant.
    pub fn graph_seen(&self) -> &Graph
        ensures { result.now ≡ self.now.graph }
    {
        &self.writer.graph
    }

    /// How many pages may be dirty or hung at a time. Constant.
    pub fn room(&self) -> usize
        ensures { result ≡ self.now.room }
    {
        self.writer.room()
    }

    /// Whether as many pages are dirty or hung as there is room for. Then only such a page may be touched. Constant.
    pub fn is_full(&self) -> bool
        ensures { result ≡ nat_le self.now.room (node_count self.now.graph) }
    {
        self.writer.is_full()
    }

    /// Lends a held page to be edited: it is dirty from now on, and one edit of it is counted. A page that is not dirty begins with
    /// age 0 and that edit; the number of edits stands still at the end of its type. A page that is neither dirty nor hung takes
    /// a spare node.
    ///
    /// What the engine is once the page was edited is `touched` of `specs/Edits.antt`, which
    /// [`touched_is_whole`](crate::touched_is_whole) says to be whole. Logarithmic, beside moving small elements of sorted vectors.
    pub fn touch(&mut self, page: u32) -> &mut Page
        requires held { 0 < holds_in self.old.cache page }
        requires spare { is_node self.old.graph page ≡ false → 0 < self.old.graph.spare_nodes }
        requires room { is_node self.old.graph page ≡ false → node_count self.old.graph < self.old.room }
        requires whole { IsWhole self.old }
        ensures* writes_back { sem 𝓛 (LendsPage self.entry page result) }
        ensures value { content_in self.old.cache page ≡ Some result.now }
    {
        self.writer.mark(page);
        self.writer.cache.edit(page)
    }

    /// Orders one page before another: `before` must be on the device ahead of the next write of `after`. That is a Live edge where
    /// `before` is dirty, a Barrier edge where it is hung alone, and nothing where it is neither. A new edge takes a spare one.
    ///
    /// A Live edge must close no cycle; [`Graph::closes`] is the test. Logarithmic, beside moving small elements of sorted vectors.
    pub fn order(&mut self, before: u32, after: u32)
        requires after { dirty_in self.old.graph after ≡ true }
        requires spare { 0 < self.old.graph.spare_edges }
        requires opens { Closes (live_in self.old.graph) before after → ⊥ }
        requires whole { IsWhole self.old }
        ensures order { Ordered before after self.old.graph self.new.graph }
        ensures others { self.new ≡ record self.old { graph = self.new.graph } }
        ensures whole { IsWhole self.new }
    {
        self.writer.order(before, after);
    }

    /// Takes out a dirty page that nobody holds and that waits for no other: it is not dirty any more, its content is lost, and no
    /// page waits for it. Where it is hung it is a node still. Logarithmic, beside its edges and moving small elements of sorted
    /// vectors.
    pub fn give_up(&mut self, page: u32)
        requires dirty { dirty_in self.old.graph page ≡ true }
        requires alone { waits_in self.old.graph page ≡ false }
        requires free { holds_in self.old.cache page ≡ 0 }
        requires whole { IsWhole self.old }
        ensures given_up { GivenUp page self.old self.new }
        ensures whole { IsWhole self.new }
    {
        self.writer.give_up(page);
    }

    /// Writes what a page waits for, and then the page, in waves: while it is dirty or hung, each ready page that is this one or has
    /// a way of Live edges to it, in rising page number, and then a barrier. So after `Ok` the page is neither.
    ///
    /// Once in each wave it searches from the page backwards along Live edges, and costs the pages from which a way of Live edges
    /// leads to it, and their edges; beside it the edges of the pages that are written, and moving small elements of sorted
    /// vectors. Of other pages it looks at none, ready or not.
    pub fn settle<D: Device, W: Watch>(
        &mut self,
        device: &mut D,
        page: u32,
        watch: &mut W,
    ) -> Result<(), Failed>
        requires fits { Fits self.old (D.seen device.old) }
        ensures settle { WavesEnd W.told (Some page) result (at (D.seen device.old) self.old watch.old) (at (D.seen device.new) self.new watch.new) }
        ensures steps { Steps W.told result (at (D.seen device.old) self.old watch.old) (at (D.seen device.new) self.new watch.new) }
        ensures returned { Returned result (at (D.seen device.old) self.old watch.old) (at (D.seen device.new) self.new watch.new) }
    {
        self.writer.waves(device, Some(page), &mut self.due, watch)
    }

    /// Writes every dirty page, in waves: while some page is dirty or hung, each ready page in rising page number, and then a
    /// barrier. So after `Ok` none is. Each page that was dirty was written once and no other, and no order of writes and barriers
    /// has fewer barriers: there were as many as the graph has levels.
    ///
    /// A wave costs its pages and their edges, never all pages, beside moving small elements of sorted vectors.
    pub fn flush_all<D: Device, W: Watch>(
        &mut self,
        device: &mut D,
        watch: &mut W,
    ) -> Result<(), Failed>
        requires fits { Fits self.old (D.seen device.old) }
        ensures flush { FlushEnds W.told result (at (D.seen device.old) self.old watch.old) (at (D.seen device.new) self.new watch.new) }
        ensures steps { Steps W.told result (at (D.seen device.old) self.old watch.old) (at (D.seen device.new) self.new watch.new) }
        ensures returned { Returned result (at (D.seen device.old) self.old watch.old) (at (D.seen device.new) self.new watch.new) }
    {
        self.writer.waves(device, None, &mut self.due, watch)
    }

    /// One round of an idle step: offers the ready pages to a policy, in rising page number with their ages, edits and waiters,
    /// writes the one that it picks, and offers the others again, until it picks none. Then, where some page is hung, it asks the
    /// policy for a barrier, and makes it. `true` exactly where a barrier was made.
    ///
    /// After a failed write the policy is told nothing of it. The ready pages are listed once; each pick moves the offers behind it.
    /// Of a policy with a label of its own no clause says that it is asked, since nothing is known of what it remembers.
    pub fn idle_turn<D: Device, W: Watch>(
        &mut self,
        device: &mut D,
        policy: &mut dyn MergePolicy,
        watch: &mut W,
    ) -> Result<bool, Failed>
        requires fits { Fits self.old (D.seen device.old) }
        ensures turn { TurnEnds W.told result ((MergePolicy-dyn policy.old).seen policy.old.1) (at (D.seen device.old) self.old watch.old) ((MergePolicy-dyn policy.new).seen policy.new.1) (at (D.seen device.new) self.new watch.new) }
        ensures steps { Steps W.told result (at (D.seen device.old) self.old watch.old) (at (D.seen device.new) self.new watch.new) }
        ensures returned { Returned result (at (D.seen device.old) self.old watch.old) (at (D.seen device.new) self.new watch.new) }
    {
        self.writer
            .idle_turn(device, policy, watch, &mut self.offers)
    }

    /// A turn ended: the age of each dirty page rises by one, and stands still at the end of its type. It costs the dirty pages.
    pub fn turn_done(&mut self)
        ensures older { self.new ≡ record self.old { tallies = map older self.old.tallies } }
        ensures whole { IsWhole self.old → IsWhole self.new }
    {
        self.writer.turn_done();
    }
}
