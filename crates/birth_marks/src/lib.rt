//! Which names and prints no crash can bring back, because they were made and unmade before a write met them.
//!
//! A slot is the map entry of a block, or the print of a data page. A value of it is unborn where it was not its value when its
//! page was last settled, nor at any try to write the page since: then no content that a crash may leave has it.
//! `order_model` says this over the list of calls (`specs/Calls.antt` there), `specs/Births.antt` what is kept instead of the list.
#![tactic(auto)]

mod births;
mod laws;
mod pages;

pub use births::Births;
pub use laws::calls_are_remembered;
pub use order_model::Slot;
pub use page_device::NoMemory;
