//! The names of actions and options.

ghost use Rattle.std.specs.Prelude.{◌≡◌};
ghost use Rattle.cli_words.specs.Names.{action_with_text, least_of, most_of, option_text, option_with_text};

/// What the tool does with an image.
#[derive(Clone, Copy, Debug, PartialEq, Eq)]
pub enum Action {
    Trace,
    Format,
    Load,
    Check,
    Upgrade,
    Merge,
    Serve,
    Vtrace,
}

/// An option, which has a number as its value.
#[derive(Clone, Copy, Debug, PartialEq, Eq)]
pub enum OptionName {
    Blocks,
    Pages,
    Cache,
    Policy,
    Seed,
    Count,
}

/// What a value may be given to: the one word without a name, or an option.
#[derive(Clone, Copy, Debug, PartialEq, Eq)]
pub enum Argument {
    Positional,
    Named(OptionName),
}

impl Action {
    /// The action of a name.
    pub fn with_text(text: &[u8]) -> Option<Action>
        ensures { result ≡ action_with_text text.now }
    {
        match text {
            b"trace" => Some(Action::Trace),
            b"format" => Some(Action::Format),
            b"load" => Some(Action::Load),
            b"check" => Some(Action::Check),
            b"upgrade" => Some(Action::Upgrade),
            b"merge" => Some(Action::Merge),
            b"serve" => Some(Action::Serve),
            b"vtrace" => Some(Action::Vtrace),
            _ => None,
        }
    }
}

impl OptionName {
    /// The option's name without its two hyphens.
    pub fn text(self) -> &'static str
        ensures { result.now ≡ option_text self }
    {
        match self {
            OptionName::Blocks => "blocks",
            OptionName::Pages => "pages",
            OptionName::Cache => "cache",
            OptionName::Policy => "policy",
            OptionName::Seed => "seed",
            OptionName::Count => "count",
        }
    }

    /// The smallest number that the option takes.
    pub fn least(self) -> u32
        ensures { result ≡ least_of self }
    {
        match self {
            OptionName::Blocks | OptionName::Pages => 1,
            OptionName::Cache => 64,
            OptionName::Policy | OptionName::Seed | OptionName::Count => 0,
        }
    }

    /// The largest number that the option takes.
    pub fn most(self) -> u32
        ensures { result ≡ most_of self }
    {
        match self {
            OptionName::Blocks => 4_194_304,
            OptionName::Pages => 1_048_576,
            OptionName::Cache => 4096,
            OptionName::Policy | OptionName::Seed => u32::MAX,
            OptionName::Count => 10_000_000,
        }
    }

    /// The option of a name.
    pub fn with_text(text: &[u8]) -> Option<OptionName>
        ensures { result ≡ option_with_text text.now }
    {
        match text {
            b"blocks" => Some(OptionName::Blocks),
            b"pages" => Some(OptionName::Pages),
            b"cache" => Some(OptionName::Cache),
            b"policy" => Some(OptionName::Policy),
            b"seed" => Some(OptionName::Seed),
            b"count" => Some(OptionName::Count),
            _ => None,
        }
    }
}
