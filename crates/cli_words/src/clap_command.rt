//! The `clap` command that finds the values: one word, and six options with a value each.

ghost use Rattle.clap.specs.Words.{FailsBy, app_of, fault_of, found_of, kind_of, matches_of, new_rule, rows_of, with_rule};
ghost use Rattle.clap.specs.declared.error.kind.ErrorKind.TheVariants.{OutOfMemory};
ghost use Rattle.std.specs.Prelude.{◌≡◌, IfErr, IfOk, List, codes, map};
ghost use Rattle.std.specs.String.{string_bytes};
ghost use Rattle.cli_words.specs.Command.{bare, option_rule, tool};
ghost use Rattle.cli_words.specs.Found.{FindsValues};
ghost use Rattle.cli_words.specs.Scan.{AreTidy};

use crate::jobs::WordsError;
use crate::names::OptionName;
use clap::{Arg, ArgMatches, Command, Error};
use std::alloc::{AllocError, Global};

/// The command without arguments, help or version.
fn bare<'a>(alloc: Global) -> Command<'a>
    ensures { app_of result ≡ bare }
{
    Command::new(alloc, "omd_tool")
        .no_binary_name(true)
        .disable_help_flag(true)
        .disable_version_flag(true)
}

/// Adds the word without a name.
fn with_action<'a>(alloc: Global, command: Command<'a>) -> Result<Command<'a>, AllocError>
    ensures { IfOk result (λ c. app_of c ≡ with_rule (app_of command.entry) (new_rule (codes "action"))) }
{
    command.arg(Arg::new(alloc, "action"))
}

/// Adds an option with one value.
fn with_option<'a>(
    alloc: Global,
    command: Command<'a>,
    name: &'a str,
) -> Result<Command<'a>, AllocError>
    ensures { IfOk result (λ c. app_of c ≡ with_rule (app_of command.entry) (option_rule name.entry.now)) }
{
    command.arg(Arg::new(alloc, name).long(name))
}

/// The whole command: the action, and the six options.
fn command<'a>(alloc: Global) -> Result<Command<'a>, AllocError>
    ensures { IfOk result (λ c. app_of c ≡ tool) }
{
    let command = with_action(alloc, bare(alloc))?;
    let command = with_option(alloc, command, OptionName::Blocks.text())?;
    let command = with_option(alloc, command, OptionName::Pages.text())?;
    let command = with_option(alloc, command, OptionName::Cache.text())?;
    let command = with_option(alloc, command, OptionName::Policy.text())?;
    let command = with_option(alloc, command, OptionName::Seed.text())?;
    with_option(alloc, command, OptionName::Count.text())
}

/// What `clap` makes of any words, but for want of memory.
fn parse<'a>(alloc: Global, words: &'a [String]) -> Result<ArgMatches<'a>, Error>
    ensures kinds { FailsBy (fault_of tool (map string_bytes words.entry.now)) result }
    ensures rows { IfOk result (λ m. rows_of (found_of m) ≡ matches_of tool (map string_bytes words.entry.now)) }
{
    command(alloc)?.try_get_matches_from(words)
}

/// Tidy words are refused only for want of memory, and the values found are those of their tokens.
fn parse_tidy<'a>(alloc: Global, words: &'a [String]) -> Result<ArgMatches<'a>, Error>
    requires { AreTidy (map string_bytes words.now) }
    ensures memory { IfErr result (λ e. kind_of e ≡ OutOfMemory) }
    ensures found { IfOk result (FindsValues (map string_bytes words.entry.now)) }
{
    parse(alloc, words)
}

/// An error of `clap` that says that memory ran out, as ours.
fn no_memory(_error: Error) -> WordsError
    requires { kind_of _error ≡ OutOfMemory }
    ensures { result ≡ WordsError.NoMemory }
{
    WordsError::NoMemory
}

/// The values that tidy words give the arguments.
///
/// It fails only for want of memory. The cost is the length of the words.
pub fn find_values<'a>(alloc: Global, words: &'a [String]) -> Result<ArgMatches<'a>, WordsError>
    requires { AreTidy (map string_bytes words.now) }
    ensures memory { IfErr result (λ e. e ≡ WordsError.NoMemory) }
    ensures found { IfOk result (FindsValues (map string_bytes words.entry.now)) }
{
    match parse_tidy(alloc, words) {
        Ok(matches) => Ok(matches),
        Err(error) => Err(no_memory(error)),
    }
}
