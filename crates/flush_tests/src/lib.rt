//! Tests of the engine: its device calls, one by one, beside a plain program.
//!
//! There are tests here, and nothing else.
#![tactic(auto)]

#[cfg(test)]
mod tests;
