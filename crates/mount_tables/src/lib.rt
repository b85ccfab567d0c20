//! The tables of an image are read once and looked over, and what a store keeps of them in memory is made: the
//! pool of data pages, the index of prints, and the totals. No table page is kept, nothing is written and
//! nothing is repaired.
//!
//! `specs/Describes.antt` says what they say of the image, `specs/Mount.antt` why an image does not mount.
#![tactic(auto)]

mod counts;
mod error;
mod maps;
mod opening;
mod places;
mod pool;
mod prints;
mod tables;
mod totals;

pub use error::MountError;
pub use opening::read_tables;
pub use tables::Tables;
