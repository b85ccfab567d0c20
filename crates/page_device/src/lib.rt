//! A disk of 4096-byte pages: what a read gives, what a barrier fixes, and what a crash may leave.
//!
//! `specs/Disk.antt` is the disk as plain data, `specs/Meaning.antt` what one call does to it, and
//! `specs/Moments.antt` what a crash at any moment leaves. `Device` is the interface that everything
//! above is written against; `MemDevice` tells all of that, and `FileDevice` is a real file or disk.
#![tactic(auto)]

mod block;
mod device;
mod error;
mod file;
mod image;
mod log;
mod memory;
mod page_file;
#[cfg(test)]
mod tests;

pub use block::Page;
pub use device::{Device, End, LogEntry};
pub use error::{Damage, Failed, NoMemory};
pub use file::FileDevice;
pub use memory::{Lie, MemDevice, Plan};
pub use page_file::PageFile;
