//! Tests of images made by hand: what a check finds in them, which of them mount, and what a store over one does.
//!
//! There are tests here, and nothing else.
#![tactic(auto)]

#[cfg(test)]
mod tests;
