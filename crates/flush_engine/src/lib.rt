//! The crate that writes: dirty pages go to the device in the order of their graph, with the fewest barriers.
//!
//! An [`Engine`] has the pages in memory, the graph of those that are dirty or hung, and for each dirty page for how many turns it
//! was dirty and how often it was edited. It writes in waves: a wave writes the pages that are due, in rising page number, and
//! then makes a barrier. `flush_all` makes waves until no page is dirty or hung, `settle` until one page is neither, and
//! `idle_turn` writes what a policy asks for. It knows nothing of what is in the pages.
//!
//! Each call is a list of steps (`specs/Steps.antt`): a write of a page that was ready, or a barrier. What each step keeps, each
//! call keeps (`specs/Along.antt`).
#![tactic(auto)]

mod edits;
mod engine;
mod idle;
mod laws;
mod tallies;
mod watch;
mod waves;
mod writer;

pub use engine::Engine;
pub use laws::{hold_writes_nothing, lent_parts_fit, touched_is_whole, turns_make_a_step};
pub use page_device::{Device, Failed, NoMemory, Page};
pub use tallies::Tally;
pub use watch::Watch;
