//! Pages of a device in memory: those that are held, dirty or newly written, and the last used of all others.
//!
//! Held pages, dirty pages, and pages that were written since the last barrier stand in a table, whatever their number. All
//! others stand in a list of a fixed length, the last used first; a page that comes into a full list drops the last one.
//! `specs/View.antt` is what is known of a cache, and `specs/Calls.antt` what each call makes of it.
#![tactic(auto)]

mod cache;
mod entries;
mod laws;
mod moves;
mod recent;

pub use cache::{Cache, FetchError, LEAST_SIZE, MOST_SIZE};
pub use laws::{absent_is_unmarked, edits_one_page};
pub use page_device::{Device, Failed, NoMemory, Page};
