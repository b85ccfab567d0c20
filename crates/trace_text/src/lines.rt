// The lines of commands.
#![tactic(auto, unfolding(crate::specs::Grammar::IsCommand, crate::specs::Texts::line_of))]

ghost use Rattle.std.specs.Prelude.{◌≡◌, ◌≤◌, ◌++◌, length};
ghost use Rattle.trace_text.specs.Grammar.{HasLine, IsCommand};
ghost use Rattle.trace_text.specs.Texts.{line_feed, line_of};

use crate::contents::put_hex_of_some;
use crate::{Command, LineBuf};
use page_device::Page;

// Appends the line of a fill.
fn put_fill(block: u32, page: &Page, into: &mut LineBuf)
    requires { length into.old ≤ 21 }
    ensures text { into.new ≡ into.old ++ line_of (Command.Fill block page.now) }
    ensures length { length into.new ≤ 8239 }
    ensures read { IsCommand (line_of (Command.Fill block page.now)) (Command.Fill block page.now) }
{
    into.put_with(b"x ", block as u64);
    into.put(b" ");
    put_hex_of_some(page.bytes(), into);
}

// Appends the line of a copy.
fn put_copy(from: u32, to: u32, n: u32, into: &mut LineBuf)
    requires room { length into.old ≤ 21 }
    requires some { 1 ≤ n }
    ensures text { into.new ≡ into.old ++ line_of (Command.Copy from to n) }
    ensures length { length into.new ≤ 200 }
    ensures read { IsCommand (line_of (Command.Copy from to n)) (Command.Copy from to n) }
{
    into.put_with_two(b"c ", from as u64, to as u64);
    into.put_with(b" ", n as u64);
}

// Appends the line of a command.
fn put_command(command: &Command, into: &mut LineBuf)
    requires room { length into.old ≤ 21 }
    requires line { HasLine command.now }
    ensures text { into.new ≡ into.old ++ line_of command.now }
    ensures length { length into.new ≤ 8239 }
    ensures read { IsCommand (line_of command.now) command.now }
{
    match command {
        Command::Write { block, number } => into.put_with_two(b"w ", *block as u64, *number),
        Command::Fill { block, page } => put_fill(*block, page, into),
        Command::Read { block } => into.put_with(b"r ", *block as u64),
        Command::Discard { block } => into.put_with(b"d ", *block as u64),
        Command::Copy { from, to, n } => put_copy(*from, *to, *n, into),
        Command::Flush => into.put(b"f"),
        Command::Scan => into.put(b"s"),
        Command::Stat => into.put(b"t"),
        Command::Policy { label } => into.put_with(b"p ", *label as u64),
        Command::Tune { n } => into.put_with(b"n ", *n as u64),
        Command::Tick => into.put(b"."),
    }
}

/// Puts the line of a command, with its LF, in place of what a buffer held. `parse` reads the line
/// without its LF as the same command. A copy must be of at least one block. Takes no memory. Linear
/// in the line.
pub fn command_text(command: &Command, into: &mut LineBuf)
    requires { HasLine command.now }
    ensures text { into.new ≡ line_of command.now ++ line_feed }
    ensures read { IsCommand (line_of command.now) command.now }
{
    into.clear();
    put_command(command, into);
    into.put(b"\n");
}
