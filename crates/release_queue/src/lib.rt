//! Decrements that are owed to data pages, and when one can be made.
//!
//! A block that drops the name of a data page owes it a decrement of its count: a release. The count may be lowered on the
//! device only after the map page without the name is fixed there, and it may become 0 only after the print page without the
//! page's print is. A release waits in a queue until edges of the graph can say so without closing a cycle. A pass over the queue
//! has to look at few of those that wait: each has a mark that says whether something changed for it since the last look.
//! `specs/Queued.antt` has the queue as a list, `specs/Needed.antt` the edges that a release needs, and when it is blocked.
#![tactic(auto)]

mod blocking;
mod queue;

pub use blocking::{blocked, needs};
pub use page_device::NoMemory;
pub use queue::Queue;

/// The stage of a release whose map page was not written since the name was dropped.
pub const NOT_WRITTEN: u8 = 0;

/// The stage of a release whose map page was written since, with no barrier after that.
pub const WRITTEN: u8 = 1;

/// The stage of a release whose map page was written, and fixed by a barrier.
pub const FIXED: u8 = 2;

/// The stage of a release whose name was unborn when it was dropped: no content that a crash may leave had it. It is the last
/// stage, and no write or barrier changes it.
pub const UNBORN: u8 = 3;

/// A decrement that is owed to a data page, because a block dropped its name.
#[derive(Clone, Copy, Debug, PartialEq, Eq)]
pub struct Release {
    /// The block that dropped the name.
    pub block: u32,
    /// The data page, from 1 on, whose count is to be lowered.
    pub page: u32,
    /// The device page with the map entry of the block.
    pub map_at: u32,
    /// The device page with the count of the data page.
    pub count_at: u32,
    /// The device page with the print of the data page.
    pub print_at: u32,
    /// [`NOT_WRITTEN`], [`WRITTEN`], [`FIXED`] or [`UNBORN`].
    pub stage: u8,
    /// Whether the next pass has to look at it: since the last look its count page was written, or its data page's count or print
    /// changed. Without that a release that had to wait has to wait still.
    pub look: bool,
}

/// What has to stand between two pages before a release is applied.
#[derive(Clone, Copy, Debug, PartialEq, Eq)]
pub enum Need {
    /// No edge.
    Nothing,
    /// An edge that waits for the write of the page before, and then for a barrier.
    Live,
    /// An edge that waits for a barrier alone.
    Barrier,
}

/// The edges that a release needs, both into its count page.
#[derive(Clone, Copy, Debug, PartialEq, Eq)]
pub struct Wanted {
    /// From the map page.
    pub from_map: Need,
    /// From the print page.
    pub from_print: Need,
}
