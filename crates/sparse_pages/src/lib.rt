//! A list of pages of which those of zeros take no memory of their own: what an image's tables are in memory, most of
//! whose pages hold no entry that is used.
#![tactic(auto)]

mod pages;

pub use pages::SparsePages;
