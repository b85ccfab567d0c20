//! The words of a command line `omd_tool IMAGE ACTION [OPTION..]`, those after the image's path, and the job that they mean.
//!
//! One word is the action. The options come before or after it, in any order, each as the two words
//! `--name VALUE` or as the one word `--name=VALUE`, and none comes twice. A value is a number: `0`, or a digit from
//! 1 to 9 followed by any digits, within the option's range. The empty word, `--`, and every other word that begins with
//! a hyphen are refused, `--help` and `--version` among them.
//!
//! | Option | Range | Default |
//! |---|---|---|
//! | `--blocks` | 1 to 4194304 | none |
//! | `--pages` | 1 to 1048576 | none |
//! | `--cache` | 64 to 4096 | 512 |
//! | `--policy` | 0 to 4294967295 | 0 |
//! | `--seed` | 0 to 4294967295 | none |
//! | `--count` | 0 to 10000000 | none |
//!
//! | Action | Needs | May take |
//! |---|---|---|
//! | `trace`, `serve`, `vtrace` | none | `--cache`, `--policy` |
//! | `format` | `--blocks`, `--pages` | none |
//! | `load` | `--seed`, `--count` | `--cache`, `--policy` |
//! | `check`, `upgrade`, `merge` | none | none |
//!
//! An option that an action neither needs nor may take is refused with it.
#![tactic(auto)]

ghost use Rattle.std.specs.Prelude.{◌≡◌, IfOk, IsErrOf, map};
ghost use Rattle.std.specs.String.{string_bytes};
ghost use Rattle.cli_words.specs.Grammar.{IsInRange, Means};
ghost use Rattle.cli_words.specs.Scan.{AreTidy};
ghost use Rattle.cli_words.specs.declared.jobs.Job.{Job};

mod clap_command;
mod jobs;
mod laws;
mod names;
mod number;
mod scan;
mod settings;

use clap_command::find_values;
pub use jobs::{Job, WordsError};
pub use laws::words_are_one_job;
use scan::is_tidy;
use settings::job_of_values;

/// How the tool is called, in one line without its end.
pub const USAGE: &str =
    "usage: omd_tool IMAGE ACTION [--blocks N] [--pages N] [--cache N] [--policy N] [--seed N] [--count N]";

/// A call of the tool from the top of the repository, in one line without its end.
pub const EXAMPLE: &str = "example: ./omd disk.img format --blocks 4 --pages 4";

/// The page of the manual, in one line without its end.
pub const MANUAL: &str = "manual: man -l docs/omd.1";

/// The job that the words after the image's path mean, by the grammar at the head of this crate.
///
/// It answers `Usage` exactly where the words are not in the grammar, unless memory runs out first. `NoMemory` comes only
/// where names and values take turns and nothing comes twice: other words are refused before anything is allocated.
/// What it allocates comes from the allocator of the first word, and is freed. The cost grows with the length of the words.
pub fn words(list: &[String]) -> Result<Job, WordsError>
    ensures ok { IfOk result (Means (map string_bytes list.now)) }
    ensures ranges { IfOk result IsInRange }
    ensures only { (job : Job) → Means (map string_bytes list.now) job → IfOk result (λ made. made ≡ job) }

    ensures usage { IsErrOf result WordsError.Usage → (job : Job) → ¬ Means (map string_bytes list.now) job }
    ensures memory { IsErrOf result WordsError.NoMemory → AreTidy (map string_bytes list.now) }
{
    let Some(first) = list.first() else {
        return Err(WordsError::Usage);
    };
    if !is_tidy(list) {
        return Err(WordsError::Usage);
    }
    match find_values(*first.allocator(), list) {
        Ok(matches) => job_of_values(&matches),
        Err(error) => Err(error),
    }
}
