//! Tests of what keeps the order of writes: the graph, the releases, the births, the pool and the policies.
//!
//! There are tests here, and nothing else.
#![tactic(auto)]

#[cfg(test)]
mod tests;
