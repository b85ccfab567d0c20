//! Tests of texts and messages: the trace language, the load, the words of a command line, and NBD.
//!
//! There are tests here, and nothing else.
#![tactic(auto)]

#[cfg(test)]
mod tests;
