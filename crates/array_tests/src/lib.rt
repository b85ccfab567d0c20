//! Tests of the plain program beside the definitions: images made by hand, and worked sessions.
//!
//! There are tests here, and nothing else.
#![tactic(auto)]

#[cfg(test)]
mod tests;
