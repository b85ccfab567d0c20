//! Tests of what stands right over a device: the ports, the sparse list of pages, and the cache.
//!
//! There are tests here, and nothing else.
#![tactic(auto)]

#[cfg(test)]
mod tests;
