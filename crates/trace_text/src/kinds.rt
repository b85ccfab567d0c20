// Commands with fields, by kind, over the text past their first space.
#![tactic(auto, unfolding(crate::specs::Grammar::IsCommand, crate::specs::Texts::line_of))]

ghost use Rattle.std.specs.Prelude.{◌≡◌, ℕ, ◌<◌, ◌≤◌, ◌^◌, [], ◌∷◌, ◌++◌, List, codes, decimal, Some, IfSome};
ghost use Rattle.page_device.specs.Block.{Block};
ghost use Rattle.trace_text.specs.Fields.{before_rest};
ghost use Rattle.trace_text.specs.Grammar.{Fills, IsCommand};
ghost use Rattle.trace_text.specs.declared.command.Command.{Command};

use crate::Command;
use crate::contents::read_page;
use crate::fields::{read_small, split_small};
use crate::number::read_number;

// What follows `w `.
fn write(text: &[u8]) -> Option<Command>
    ensures read { IfSome result (λ command. IsCommand (codes "w " ++ text.now) command) }
    ensures only { (block number : ℕ) → block < 2 ^ 32 → number < 2 ^ 64
        → text.now ≡ before_rest block (decimal number)
        → result ≡ Some (Command.Write block number) }
{
    let (block, rest) = split_small(text)?;
    let number = read_number(rest, u64::MAX)?;
    Some(Command::Write { block, number })
}

// What follows `x `.
fn fill(text: &[u8]) -> Option<Command>
    ensures read { IfSome result (λ command. IsCommand (codes "x " ++ text.now) command) }
    ensures only { (block : ℕ) (digits : List ℕ) (page : Block) → block < 2 ^ 32
        → text.now ≡ before_rest block digits → Fills digits page
        → result ≡ Some (Command.Fill block page) }
{
    let (block, digits) = split_small(text)?;
    let page = read_page(digits)?;
    Some(Command::Fill { block, page })
}

// What follows `r `.
fn read(text: &[u8]) -> Option<Command>
    ensures read { IfSome result (λ command. IsCommand (codes "r " ++ text.now) command) }
    ensures only { (block : ℕ) → block < 2 ^ 32 → text.now ≡ decimal block
        → result ≡ Some (Command.Read block) }
{
    let block = read_small(text)?;
    Some(Command::Read { block })
}

// What follows `d `.
fn discard(text: &[u8]) -> Option<Command>
    ensures read { IfSome result (λ command. IsCommand (codes "d " ++ text.now) command) }
    ensures only { (block : ℕ) → block < 2 ^ 32 → text.now ≡ decimal block
        → result ≡ Some (Command.Discard block) }
{
    let block = read_small(text)?;
    Some(Command::Discard { block })
}

// What follows `p `.
fn policy(text: &[u8]) -> Option<Command>
    ensures read { IfSome result (λ command. IsCommand (codes "p " ++ text.now) command) }
    ensures only { (label : ℕ) → label < 2 ^ 32 → text.now ≡ decimal label
        → result ≡ Some (Command.Policy label) }
{
    let label = read_small(text)?;
    Some(Command::Policy { label })
}

// What follows `n `.
fn tune(text: &[u8]) -> Option<Command>
    ensures read { IfSome result (λ command. IsCommand (codes "n " ++ text.now) command) }
    ensures only { (n : ℕ) → n < 2 ^ 32 → text.now ≡ decimal n
        → result ≡ Some (Command.Tune n) }
{
    let n = read_small(text)?;
    Some(Command::Tune { n })
}

// What follows `c `.
fn copy(text: &[u8]) -> Option<Command>
    ensures read { IfSome result (λ command. IsCommand (codes "c " ++ text.now) command) }
    ensures only { (from to n : ℕ) → from < 2 ^ 32 → to < 2 ^ 32 → 1 ≤ n → n < 2 ^ 32
        → text.now ≡ before_rest from (before_rest to (decimal n))
        → result ≡ Some (Command.Copy from to n) }
{
    let (from, rest) = split_small(text)?;
    let (to, rest) = split_small(rest)?;
    let n = read_small(rest)?;
    if n == 0 {
        None
    } else {
        Some(Command::Copy { from, to, n })
    }
}

/// The command of a line of a kind, a space and a text.
pub fn command_of(kind: u8, text: &[u8]) -> Option<Command>
    ensures read { IfSome result (λ command. IsCommand (kind ∷ 32 ∷ text.now) command) }
    ensures only { (command : Command) → IsCommand (kind ∷ 32 ∷ text.now) command → result ≡ Some command }
{
    match kind {
        b'w' => write(text),
        b'x' => fill(text),
        b'r' => read(text),
        b'd' => discard(text),
        b'c' => copy(text),
        b'p' => policy(text),
        b'n' => tune(text),
        _ => None,
    }
}

/// The command of a line of one byte.
pub fn bare_command(kind: u8) -> Option<Command>
    ensures read { IfSome result (λ command. IsCommand (kind ∷ []) command) }
    ensures only { (command : Command) → IsCommand (kind ∷ []) command → result ≡ Some command }
{
    match kind {
        b'f' => Some(Command::Flush),
        b's' => Some(Command::Scan),
        b't' => Some(Command::Stat),
        b'.' => Some(Command::Tick),
        _ => None,
    }
}
