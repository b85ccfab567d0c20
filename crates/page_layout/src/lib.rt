//! Where everything stands in an image: the superblock, the tables and the data pages.
//!
//! `specs/Shape.antt` has the shape and the places, `specs/Tables.antt` reads the tables off an image.
//! `docs/FORMAT.md` is the format in prose.
#![tactic(auto)]

mod entries;
mod faults;
mod formed;
mod numbers;
mod prints;
mod shape;
mod superblock;
mod zeros;

pub use entries::{count_entry, map_entry, set_count_entry, set_map_entry, used_entries};
pub use faults::{MAX_COUNT, table_fault};
pub use formed::pages_are_tested;
pub use prints::{print_entry, set_print_entry};
pub use shape::{BadShape, Shape, Table};
pub use superblock::{NotFormatted, read_super, super_page};
