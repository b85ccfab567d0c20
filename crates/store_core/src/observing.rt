// What can be asked of a core at any time.
use crate::Core;
use page_layout::Shape;
use release_queue::Release;

impl Core {
    ghost use Rattle.std.specs.Prelude.{◌≡◌, ◌<◌, eqb, length, Some, slice_get};
    ghost use Rattle.dep_graph.specs.Lists.{dirty_in, node_count};

    /// The shape of the image. Constant.
    pub fn shape(&self) -> Shape
        ensures { result ≡ self.now.shape }
    {
        self.shape
    }

    /// How many releases are owed: decrements of counts that have to wait. Constant.
    pub fn postponed(&self) -> u32
        ensures { result ≡ length self.now.ledger.queue.releases }
    {
        self.ledger.queue.len()
    }

    /// The release at place `i` of those that are owed, counted from 0, in the order in which they were pushed. Constant.
    pub fn release_at(&self, i: u32) -> Release
        requires { i < length self.now.ledger.queue.releases }
        ensures { slice_get self.now.ledger.queue.releases i ≡ Some result }
    {
        *self.ledger.queue.at(i)
    }

    /// How many pages are dirty. Constant.
    pub fn dirty(&self) -> u32
        ensures { result ≡ length self.now.engine.graph.dirty }
    {
        self.engine.graph_seen().dirty()
    }

    /// Whether a page is dirty. Logarithmic.
    pub fn is_dirty(&self, page: u32) -> bool
        ensures { result ≡ dirty_in self.now.engine.graph page }
    {
        self.engine.graph_seen().is_dirty(page)
    }

    /// How many pages are dirty or hung. Constant.
    pub fn nodes(&self) -> u32
        ensures { result ≡ node_count self.now.engine.graph }
    {
        self.engine.graph_seen().nodes()
    }

    /// Whether there is no place in the queue for one more release. Constant.
    pub fn is_full(&self) -> bool
        ensures { result ≡ eqb (length self.now.ledger.queue.releases) self.now.ledger.queue.limit }
    {
        self.ledger.queue.full()
    }

    /// Device writes and barriers so far, failed ones too. It stands still at its end.
    pub fn calls(&self) -> u64
        ensures { result ≡ self.now.engine.cache.calls }
    {
        self.engine.cache_seen().calls()
    }
}
