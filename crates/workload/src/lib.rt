//! The commands of a load: a fixed list for each seed, so that a run can be made again.
//!
//! `specs/Generated.antt` says which command comes at each place.
#![tactic(auto)]

ghost use Rattle.std.specs.Prelude.{◌≡◌, ◌≤◌};
ghost use Rattle.workload.specs.Generated.{IsGenerated, command_of, generated, mixed};

use trace_text::Command;

// The number from which a command is made.
fn mix(seed: u32, i: u64) -> u32
    ensures { result ≡ mixed seed i }
{
    let sum = i.wrapping_add(seed as u64);
    (sum.wrapping_mul(2_654_435_761) % (1 << 32)) as u32
}

// The command of a kind, which is 0 to 15.
fn of_kind(kind: u32, block: u32, number: u64) -> Command
    ensures { result ≡ command_of kind block number }
{
    match kind {
        0..=8 => Command::Write { block, number },
        9 | 10 => Command::Discard { block },
        11..=14 => Command::Read { block },
        _ => Command::Flush,
    }
}

/// Command `i`, counted from 0, of the load of a seed over so many blocks, of which there is at least
/// one. Nine in sixteen are writes of a numbered block below 256, two discards, four reads and one a
/// flush, over all blocks. Takes no memory. Constant time.
pub fn line(seed: u32, i: u64, blocks: u32) -> Command
    requires { 1 ≤ blocks }
    ensures generated { result ≡ generated seed i blocks }
    ensures inside { IsGenerated blocks result }
{
    let mixed = mix(seed, i);
    of_kind(
        mixed >> 28,
        (mixed >> 8) % blocks,
        ((mixed >> 16) % 256) as u64,
    )
}
