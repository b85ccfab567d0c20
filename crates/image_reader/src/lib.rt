//! How an image is read: the shape that its superblock tells, one page, the first malformed entry of a
//! table page, and tallies of the blocks that name each data page. Nothing here writes to a device.
//!
//! `specs/Looked.antt` says what it is that a device was only looked at.
#![tactic(auto)]

mod entries;
mod reading;
mod tallies;

pub use entries::malformed_entry;
pub use reading::{find_shape, read_into, read_page};
pub use tallies::{tally_page, zeros};
