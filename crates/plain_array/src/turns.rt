// Whether turns are a run.
ghost use Rattle.std.specs.Prelude.{◌≡◌, ◌↔◌, ℕ, List, length, IsTrue, IfOk};
ghost use Rattle.page_device.specs.Counts.{raised};
ghost use Rattle.array_model.specs.Array.{BlockArray};
ghost use Rattle.array_model.specs.Turns as run;
ghost use Rattle.plain_array.specs.Built.{asked_of, letter_of, is_built, rules_of, IsPlace};
ghost use Rattle.plain_array.specs.Rows.{Shows};

use crate::commands::is_same_command;
use crate::replies::fits_reply;
use crate::rows::Row;
use crate::steps::{StepError, array_after};
use page_device::{LogEntry, NoMemory};
use std::alloc::Global;
use std::marker::Model;
use trace_text::{Command, Reply, parse};

/// What a line asks for.
#[derive(Drop)]
pub enum Asked {
    Bad,
    Known(Command),
}

/// One turn of a session: a line, what it asks for, the reply, the number of device calls then, and the
/// device calls of the turn.
#[derive(Drop)]
pub struct Turn {
    pub line: Vec<u8>,
    pub asked: Asked,
    pub answer: Reply,
    pub at: u64,
    pub calls: Vec<LogEntry>,
}

impl Model for Turn {
    ghost use Rattle.array_model.specs.Turns as run;

    ghost Value = { run.Turn };

    ghost use Rattle.plain_array.specs.Built.{asked_of};

    ghost view = { λ t. record { line = t.line.items; asked = asked_of t.asked; answer = t.answer; at = t.at; calls = t.calls.items } };
}

// The letter with which the line of a command begins.
fn letter(command: &Command) -> u8
    ensures { result ≡ letter_of command.now }
{
    match command {
        Command::Write { .. } => b'w',
        Command::Fill { .. } => b'x',
        Command::Read { .. } => b'r',
        Command::Discard { .. } => b'd',
        Command::Copy { .. } => b'c',
        Command::Flush => b'f',
        Command::Scan => b's',
        Command::Stat => b't',
        Command::Policy { .. } => b'p',
        Command::Tune { .. } => b'n',
        Command::Tick => b'.',
    }
}

// The command of this letter is built.
fn is_among_built(letters: &[u8], command: &Command) -> bool
    ensures { result ≡ is_built letters.now command.now }
{
    let own = letter(command);
    letters.iter().any(|k| *k == own)
}

// The line asks for this.
fn asks(blocks: usize, version: u32, letters: &[u8], line: &[u8], asked: &Asked) -> bool
    ensures { IsTrue result ↔ run.Asks (rules_of blocks version letters.now) line.now (asked_of asked.now) }
{
    match parse(line) {
        Ok(own) => match asked {
            Asked::Bad => !is_among_built(letters, &own),
            Asked::Known(command) => {
                is_same_command(&own, command) && is_among_built(letters, command)
            }
        },
        Err(_) => match asked {
            Asked::Bad => true,
            Asked::Known(_) => false,
        },
    }
}

// The reply fits what was asked for.
fn fits_asked(rows: &[Row], unused: &[u32], asked: &Asked, reply: &Reply) -> bool
    ensures { (a : BlockArray) (version : ℕ) (letters : List ℕ) → Shows rows.now a
        → (IsTrue result ↔ run.FitsAsked (rules_of (length rows.now) version letters) (record { array = a; unused = unused.now }) (asked_of asked.now) reply.now) }
{
    match asked {
        Asked::Bad => is_bad(reply),
        Asked::Known(command) => fits_reply(rows, unused, command, reply),
    }
}

fn is_bad(reply: &Reply) -> bool
    ensures { IsTrue result ↔ (reply.now ≡ Reply.Bad) }
{
    match reply {
        Reply::Bad => true,
        _ => false,
    }
}

// The rows after it was answered so.
#[tactic(auto, unfolding(array_model::specs::Array::array_after))]
fn rows_after(
    alloc: Global,
    version: u32,
    rows: &[Row],
    asked: &Asked,
    reply: &Reply,
) -> Result<Vec<Row>, StepError>
    ensures length { IfOk result (λ new. length new.items ≡ length rows.now) }
    ensures shows { IfOk result (λ new. (a : BlockArray) (blocks : ℕ) (letters : List ℕ) → Shows rows.now a
        → Shows new.items (run.array_after_asked (rules_of blocks version letters) a (asked_of asked.now) reply.now)) }
{
    match asked {
        Asked::Bad => array_after(alloc, version, rows, &Command::Tick, reply),
        Asked::Known(command) => array_after(alloc, version, rows, command, reply),
    }
}

// The labels without the first that is this one.
#[tactic(auto, using(crate::proofs::Labels::label_absent, crate::proofs::Labels::label_gone))]
fn without_label(alloc: Global, unused: &[u32], label: u32) -> Result<Vec<u32>, NoMemory>
    ensures { IfOk result (λ labels. labels.items ≡ run.without_label unused.now label) }
{
    let Ok(mut labels) = Vec::from_slice(alloc, unused) else {
        return Err(NoMemory);
    };
    let at = place_of(unused, label);
    if at >= labels.len() {
        return Ok(labels);
    }
    let _label = labels.remove(at);
    Ok(labels)
}

// The place of the first label that is this one, or the number of labels.
fn place_of(unused: &[u32], label: u32) -> usize
    ensures { IsPlace result unused.now label }
{
    for (i, k) in unused.iter().enumerate() {
        if *k == label {
            return i;
        }
    }
    unused.len()
}

// The unused labels after it was answered so.
fn unused_after(
    alloc: Global,
    unused: &[u32],
    asked: &Asked,
    reply: &Reply,
) -> Result<Vec<u32>, NoMemory>
    ensures { IfOk result (λ labels. labels.items ≡ run.unused_after unused.now (asked_of asked.now) reply.now) }
{
    match asked {
        Asked::Known(command) => match command {
            Command::Policy { label } => match reply {
                Reply::Done => without_label(alloc, unused, *label),
                _ => same_labels(alloc, unused),
            },
            _ => same_labels(alloc, unused),
        },
        Asked::Bad => same_labels(alloc, unused),
    }
}

fn same_labels(alloc: Global, unused: &[u32]) -> Result<Vec<u32>, NoMemory>
    ensures { IfOk result (λ labels. labels.items ≡ unused.now) }
{
    match Vec::from_slice(alloc, unused) {
        Ok(labels) => Ok(labels),
        Err(_) => Err(NoMemory),
    }
}

// The turn is the next one of a run.
fn fits_turn(
    rows: &[Row],
    version: u32,
    letters: &[u8],
    unused: &[u32],
    at: u64,
    turn: &Turn,
) -> bool
    ensures { (a : BlockArray) → Shows rows.now a → (IsTrue result
        ↔ (run.Asks (rules_of (length rows.now) version letters.now) turn.now.line turn.now.asked
        × run.FitsAsked (rules_of (length rows.now) version letters.now) (record { array = a; unused = unused.now }) turn.now.asked turn.now.answer
        × (turn.now.at ≡ raised at (length turn.now.calls)))) }
{
    let count = turn.calls.len() as u64;
    asks(rows.len(), version, letters, &turn.line, &turn.asked)
        && fits_asked(rows, unused, &turn.asked, &turn.answer)
        && turn.at == at.saturating_add(count)
}

/// Whether turns are a run over a block array of these rows, which has as many blocks as there are rows,
/// where an image has this version, the commands of these letters are built, these labels of policies
/// are unused, and so many device calls were made before. A letter is the one with which the line of a
/// command begins. An error is want of memory. Copies each content of each block for each turn.
#[tactic(auto, unfolding(array_model::specs::Turns::IsRun))]
pub fn is_run(
    alloc: Global,
    version: u32,
    letters: &[u8],
    rows: &[Row],
    unused: &[u32],
    at: u64,
    turns: &[Turn],
) -> Result<bool, NoMemory>
    ensures { IfOk result (λ is. (a : BlockArray) → Shows rows.now a
        → (IsTrue is ↔ run.IsRun (rules_of (length rows.now) version letters.now) (record { array = a; unused = unused.now }) at turns.now)) }
{
    let Some((turn, rest)) = turns.split_first() else {
        return Ok(true);
    };
    if !fits_turn(rows, version, letters, unused, at, turn) {
        return Ok(false);
    }
    let Ok(next) = rows_after(alloc, version, rows, &turn.asked, &turn.answer) else {
        return Err(NoMemory);
    };
    let Ok(labels) = unused_after(alloc, unused, &turn.asked, &turn.answer) else {
        return Err(NoMemory);
    };
    is_run(alloc, version, letters, &next, &labels, turn.at, rest)
}
