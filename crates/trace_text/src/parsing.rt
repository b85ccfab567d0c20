// Lines as commands.
ghost use Rattle.std.specs.Prelude.{◌≡◌, ◌≤◌, ◌↔◌, IsTrue, IfOk, IfSome, Ok, OnErr, OnOk, Some, length, slice_index};
ghost use Rattle.trace_text.specs.Grammar.{IsBadLine, IsCommand};
ghost use Rattle.trace_text.specs.declared.command.Command.{Command};

use crate::Command;
use crate::kinds::{bare_command, command_of};

/// The line is no command.
#[derive(Clone, Copy, Debug, PartialEq, Eq, Drop)]
pub struct Bad;

// A space follows the first byte.
fn has_fields(line: &[u8]) -> bool
    ensures { IsTrue result ↔ ((2 ≤ length line.now) × (slice_index line.now 1 ≡ 32)) }
{
    line.len() >= 2 && line[1] == b' '
}

// The command of a line.
fn line_command(line: &[u8]) -> Option<Command>
    ensures read { IfSome result (λ command. IsCommand line.now command) }
    ensures only { (command : Command) → IsCommand line.now command → result ≡ Some command }
{
    if line.len() == 1 {
        bare_command(line[0])
    } else if has_fields(line) {
        command_of(line[0], &line[2..])
    } else {
        None
    }
}

/// Reads a line, without its LF. Answers `Bad` exactly where the line is no command of the trace
/// language (`docs/FORMAT.md`), as is each line of more than 8205 bytes. Whether a block is in range is
/// not asked here. Takes no memory. Linear in the line.
#[tactic(auto, using(crate::proofs::Lengths::line_short))]
pub fn parse(line: &[u8]) -> Result<Command, Bad>
    ensures read { IfOk result (λ command. IsCommand line.now command) }
    ensures only { (command : Command) → IsCommand line.now command → result ≡ Ok command }
    ensures bad { OnErr result (IsBadLine line.now) }
    ensures short { OnOk result (length line.now ≤ 8205) }
{
    line_command(line).ok_or(Bad)
}
