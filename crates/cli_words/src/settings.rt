//! The numbers that were given for the options, and the job that they make of an action.

ghost use Rattle.std.specs.Prelude.{◌≡◌, ◌≤◌, ◌∷◌, [], IfErr, IfNone, IfOk, IfSome, ℕ};
ghost use Rattle.cli_words.specs.Found.{values_found};
ghost use Rattle.cli_words.specs.Grammar.{Says, Settles};
ghost use Rattle.cli_words.specs.Names.{action_text, least_of, most_of};
ghost use Rattle.cli_words.specs.Number.{IsNumber};
ghost use Rattle.cli_words.specs.Settings.{SaysNone, given_of, job_of};
ghost use Rattle.cli_words.specs.declared.jobs.Job.{Job};
ghost use Rattle.cli_words.specs.declared.names.Action.{Action};
ghost use Rattle.cli_words.specs.declared.names.Argument.TheVariants.{Named, Positional};
ghost use Rattle.cli_words.specs.declared.names.OptionName.{OptionName};

use crate::jobs::{Job, WordsError};
use crate::names::{Action, OptionName};
use crate::number::number;
use clap::ArgMatches;

/// The numbers that were given for the options, each in the range of its option.
#[derive(Clone, Copy, Debug, PartialEq, Eq)]
pub struct Settings {
    pub blocks: Option<u32>,
    pub pages: Option<u32>,
    pub cache: Option<u32>,
    pub policy: Option<u32>,
    pub seed: Option<u32>,
    pub count: Option<u32>,
}

/// The cache of a session that is given none, in pages.
const DEFAULT_CACHE: u32 = 512;

/// The policy of a session that is given none.
const DEFAULT_POLICY: u32 = 0;

impl Settings {
    /// Reads the values that were found for the options.
    ///
    /// It fails where one is no number in the range of its option.
    pub fn read(matches: &ArgMatches) -> Result<Settings, WordsError>
        ensures ok { IfOk result (λ s. (o : OptionName) → Says o (values_found matches.now (Named o)) (given_of s o)) }
        ensures err { IfErr result (λ e. (e ≡ WordsError.Usage) × SaysNone (values_found matches.now)) }
    {
        Ok(Settings {
            blocks: setting(matches, OptionName::Blocks)?,
            pages: setting(matches, OptionName::Pages)?,
            cache: setting(matches, OptionName::Cache)?,
            policy: setting(matches, OptionName::Policy)?,
            seed: setting(matches, OptionName::Seed)?,
            count: setting(matches, OptionName::Count)?,
        })
    }

    /// The job of an action, where it has all the options that it needs and none that it does not take.
    pub fn job(self, action: Action) -> Option<Job>
        ensures { result ≡ job_of action self.blocks self.pages self.cache self.policy self.seed self.count }
    {
        let cache = self.cache.unwrap_or(DEFAULT_CACHE);
        let policy = self.policy.unwrap_or(DEFAULT_POLICY);
        match (
            action,
            self.blocks,
            self.pages,
            self.cache,
            self.policy,
            self.seed,
            self.count,
        ) {
            (Action::Trace, None, None, _, _, None, None) => Some(Job::Trace { cache, policy }),
            (Action::Format, Some(blocks), Some(pages), None, None, None, None) => {
                Some(Job::Format { blocks, pages })
            }
            (Action::Load, None, None, _, _, Some(seed), Some(count)) => {
                Some(Job::Load {
                    seed,
                    count: u64::from(count),
                    cache,
                    policy,
                })
            }
            (Action::Check, None, None, None, None, None, None) => Some(Job::Check),
            (Action::Upgrade, None, None, None, None, None, None) => Some(Job::Upgrade),
            (Action::Merge, None, None, None, None, None, None) => Some(Job::Merge),
            (Action::Serve, None, None, _, _, None, None) => Some(Job::Serve { cache, policy }),
            (Action::Vtrace, None, None, _, _, None, None) => Some(Job::Vtrace { cache, policy }),
            _ => None,
        }
    }
}

/// The number that was given for an option, if any.
fn setting(matches: &ArgMatches, option: OptionName) -> Result<Option<u32>, WordsError>
    ensures ok { IfOk result (Says option (values_found matches.now (Named option))) }
    ensures err { IfErr result (λ e. (e ≡ WordsError.Usage) × SaysNone (values_found matches.now)) }
{
    match matches.get_str(option.text()) {
        None => Ok(None),
        Some(text) => match number_in(text, option) {
            Some(number) => Ok(Some(number)),
            None => Err(WordsError::Usage),
        },
    }
}

/// The number that a text says, where it is in the range of an option.
fn number_in(text: &str, option: OptionName) -> Option<u32>
    ensures some { IfSome result (λ n. IsNumber (most_of option) text.now n × (least_of option ≤ n)) }
    ensures none { IfNone result ((n : ℕ) → IsNumber (most_of option) text.now n → ¬ (least_of option ≤ n)) }
{
    let number = number(text.as_bytes(), u64::from(option.most()))?;
    if number < u64::from(option.least()) {
        return None;
    }
    Some(number as u32)
}

/// The action, where a word is given that is one.
fn action(matches: &ArgMatches) -> Option<Action>
    ensures some { IfSome result (λ a. values_found matches.now Positional ≡ action_text a ∷ []) }
    ensures none { IfNone result ((a : Action) → ¬ (values_found matches.now Positional ≡ action_text a ∷ [])) }
{
    match matches.get_str("action") {
        Some(text) => Action::with_text(text.as_bytes()),
        None => None,
    }
}

/// The job that the values that were found make.
pub fn job_of_values(matches: &ArgMatches) -> Result<Job, WordsError>
    ensures ok { IfOk result (Settles (values_found matches.now)) }
    ensures only { (job : Job) → Settles (values_found matches.now) job → result ≡ Ok job }
    ensures err { IfErr result (λ e. e ≡ WordsError.Usage) }
{
    let Some(action) = action(matches) else {
        return Err(WordsError::Usage);
    };
    match Settings::read(matches) {
        Ok(settings) => match settings.job(action) {
            Some(job) => Ok(job),
            None => Err(WordsError::Usage),
        },
        Err(error) => Err(error),
    }
}
