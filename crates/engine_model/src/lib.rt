//! The engine invariant and its laws, as plain data: why the order of page writes alone keeps every image fit,
//! whatever the schedule and the faults.
//!
//! Each law is the contract of a public function with an empty body: nothing is computed here, and a caller cites
//! what it needs. `docs/RULES.md` tells the argument in prose; README.md says where each law stands and which lemma needs
//! which fact.
#![tactic(auto)]

pub mod any_device;
pub mod barriers;
pub mod births_known;
pub mod bridges;
pub mod clean_pages;
pub mod commands;
pub mod crash_images;
pub mod draining;
pub mod editing;
pub mod framing;
pub mod free_pages;
pub mod giving_up;
pub mod looking_again;
pub mod needed;
pub mod no_waste;
pub mod possible;
pub mod postponed;
pub mod releases;
pub mod resting;
pub mod scanning;
pub mod schedules;
pub mod small_commands;
pub mod small_passes;
pub mod small_steps;
pub mod version;
pub mod writes;
