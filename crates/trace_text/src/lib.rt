//! The trace language: commands, one a line, and the replies to them.
//!
//! `specs/Grammar.antt` says which lines are commands, apart from any parser, and `specs/Texts.antt`
//! what each reply reads. `docs/FORMAT.md` is the language in prose.
#![tactic(auto)]

mod actions;
mod command;
mod contents;
mod digits;
mod fields;
mod kinds;
mod laws;
mod line_buf;
mod lines;
mod number;
mod parsing;
mod replies;
mod reply;

pub use actions::{
    formatted_text, low_count_text, print_on_zero_text, sound_text, wrong_print_text,
};
pub use command::Command;
pub use laws::one_line_is_one_command;
pub use line_buf::LineBuf;
pub use lines::command_text;
pub use number::read_number;
pub use parsing::{Bad, parse};
pub use replies::{damage_text, reply_text};
pub use reply::{Halt, Reply, ScanReport, Stat};
