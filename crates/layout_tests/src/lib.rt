//! Tests of the tables of an image: its layout, its fingerprints, and the slots and counts of its pages.
//!
//! There are tests here, and nothing else.
#![tactic(auto)]

#[cfg(test)]
mod tests;
