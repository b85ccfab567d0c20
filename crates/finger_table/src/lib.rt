//! The fingerprints of data pages, and which pages have a given one.
//!
//! A data page may have one print. `Prints` keeps them all in memory, and finds the pages of a print;
//! `specs/Index.antt` says how they are kept, `specs/Order.antt` in which order, and `specs/Filled.antt` how the
//! lists of a whole table are filled before each is sorted.
#![tactic(auto)]

mod bulk;
mod digest;
mod lists;
mod order;
mod prints;

pub use digest::fingerprint;
pub use prints::Prints;
