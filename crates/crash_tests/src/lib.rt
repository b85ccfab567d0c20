//! Whole sessions over a device in memory, and every image that a crash may leave of them.
//!
//! The images are compared with tables made by hand from the definitions, and with the plain program
//! beside the definitions (`plain_array`). There are tests here, and nothing else.
#![tactic(auto)]

#[cfg(test)]
mod tests;
