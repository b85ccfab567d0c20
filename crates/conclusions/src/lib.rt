//! What a user may conclude of the program, from the contracts of its public calls alone.
#![tactic(auto)]

mod again;
mod crash;
mod forming;
mod fresh;
mod lines;
mod serving;
mod single;
mod words;

pub use again::{Read, flushed_is_read_after_a_crash, read_first, written_is_read_again};
pub use crash::{blocks_after_two_crashes, crash_after_a_crash, crash_leaves_a_fit_image};
pub use forming::{check_after_a_crash, crash_within_format};
pub use fresh::{new_image_is_sound, new_image_reads_zeros, written_block_is_read};
pub use lines::{cut_texts, one_text_a_line};
pub use serving::{one_text_a_line_of_a_store, turn_of_a_flush, two_sessions_of_a_store};
pub use single::{flush_without_fault, range_whatever_the_device, read_past_the_end};
