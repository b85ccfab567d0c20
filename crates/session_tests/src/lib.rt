//! Tests of whole sessions: which texts each puts over which image, and how it ends.
//!
//! There are tests here, and nothing else.
#![tactic(auto)]

#[cfg(test)]
mod tests;
