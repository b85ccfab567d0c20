//! The check of an image: the first thing that is wrong with it, or that it is sound.
//!
//! `specs/Verdicts.antt` says what each verdict means. Nothing is written and nothing is repaired.
#![tactic(auto)]

mod checking;
mod counts;
mod hashes;
mod maps;
mod prints;
mod tables;
mod verdict;

pub use checking::check;
pub use verdict::{CheckError, Verdict};
