//! Which dirty page must be on the device before which other.
//!
//! A page is dirty where it was edited since its last write, and hung where it was written and no barrier came since. An edge
//! leads from a page that must be written and covered by a barrier to one whose next write waits for that. No cycle ever
//! stands, so after a barrier some dirty page, if there is one, can be written next; a flush goes in waves, and has as many
//! barriers as the graph has levels, which no order of writes and barriers can undercut.
#![tactic(auto)]

mod graph;
mod laws;
mod levels;
mod live;
mod moves;
mod pages;
mod pairs;
mod room;
mod search;
mod waiting;

pub use graph::{Graph, NODE_LIMIT};
pub use laws::{
    barriers_are_fewest, edges_are_waited_for, edges_into_one_page, nodes_are_counted,
    some_page_is_ready,
};
pub use order_model::Kind;
pub use page_device::NoMemory;
