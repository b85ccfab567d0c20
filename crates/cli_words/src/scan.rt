//! Words by their first characters, and the refusal of what comes twice.

ghost use Rattle.std.specs.List.{before_first, position};
ghost use Rattle.std.specs.Prelude.{◌≡◌, IsTrue, List, is_some, map};
ghost use Rattle.std.specs.String.{string_bytes};
ghost use Rattle.cli_words.specs.Scan.{AreTidy, IsTidy, after, after_argument, after_value, body_kind, ends_well};
ghost use Rattle.cli_words.specs.Scan.{has_come, is_equals, kind_of, marked, named_kind, none_came};
ghost use Rattle.cli_words.specs.Tokens.{Token, spelling};

use crate::names::{Argument, OptionName};

/// What a word is by its first characters.
#[derive(Clone, Copy, Debug, PartialEq, Eq)]
pub enum WordKind {
    /// A word that begins with no hyphen.
    Plain,
    /// `--name`, so that the next word is its value.
    Name(OptionName),
    /// `--name=VALUE`.
    NameAndValue(OptionName),
    /// The empty word, and any other word that begins with a hyphen.
    Strange,
}

/// Which arguments came so far.
#[derive(Clone, Copy, Debug, PartialEq, Eq)]
pub struct Came {
    pub action: bool,
    pub blocks: bool,
    pub pages: bool,
    pub cache: bool,
    pub policy: bool,
    pub seed: bool,
    pub count: bool,
}

/// Where the reading of words stands.
#[derive(Clone, Copy, Debug, PartialEq, Eq)]
pub struct Scan {
    pub came: Came,
    /// The last word was a name, and its value is the next.
    pub waits: bool,
}

impl Came {
    /// Nothing came yet.
    pub const NONE: Came = Came {
        action: false,
        blocks: false,
        pages: false,
        cache: false,
        policy: false,
        seed: false,
        count: false,
    };

    /// Whether an argument came.
    fn has(self, argument: Argument) -> bool
        ensures { result ≡ has_come self argument }
    {
        match argument {
            Argument::Positional => self.action,
            Argument::Named(OptionName::Blocks) => self.blocks,
            Argument::Named(OptionName::Pages) => self.pages,
            Argument::Named(OptionName::Cache) => self.cache,
            Argument::Named(OptionName::Policy) => self.policy,
            Argument::Named(OptionName::Seed) => self.seed,
            Argument::Named(OptionName::Count) => self.count,
        }
    }

    /// What came, with one more argument.
    fn marked(mut self, argument: Argument) -> Came
        ensures { result ≡ marked self argument }
    {
        match argument {
            Argument::Positional => self.action = true,
            Argument::Named(OptionName::Blocks) => self.blocks = true,
            Argument::Named(OptionName::Pages) => self.pages = true,
            Argument::Named(OptionName::Cache) => self.cache = true,
            Argument::Named(OptionName::Policy) => self.policy = true,
            Argument::Named(OptionName::Seed) => self.seed = true,
            Argument::Named(OptionName::Count) => self.count = true,
        }
        self
    }
}

impl Scan {
    /// Before the first word.
    const START: Scan = Scan {
        came: Came::NONE,
        waits: false,
    };

    /// After one more word, where it may stand here.
    fn after(self, word: &[u8]) -> Option<Scan>
        ensures { result ≡ after self word.now }
    {
        let kind = kind_of(word);
        if self.waits {
            return self.after_value(kind);
        }
        match kind {
            WordKind::Plain => self.after_argument(Argument::Positional, false),
            WordKind::Name(option) => self.after_argument(Argument::Named(option), true),
            WordKind::NameAndValue(option) => self.after_argument(Argument::Named(option), false),
            WordKind::Strange => None,
        }
    }

    /// After the value of the option that came last.
    fn after_value(self, kind: WordKind) -> Option<Scan>
        ensures { result ≡ after_value self kind }
    {
        match kind {
            WordKind::Plain => Some(Scan {
                waits: false,
                ..self
            }),
            _ => None,
        }
    }

    /// After an argument that did not come before.
    fn after_argument(self, argument: Argument, waits: bool) -> Option<Scan>
        ensures { result ≡ after_argument self argument waits }
    {
        if self.came.has(argument) {
            return None;
        }
        Some(Scan {
            came: self.came.marked(argument),
            waits,
        })
    }
}

/// Whether names and the words of their values take turns, and no argument comes twice.
///
/// The cost is the length of the words.
pub fn is_tidy(words: &[String]) -> bool
    ensures tokens { IsTrue result → AreTidy (map string_bytes words.now) }
    ensures taken { (ts : List Token) → map string_bytes words.now ≡ spelling ts → IsTidy none_came ts → IsTrue result }
{
    ends_well(Scan::START, words)
}

/// Whether the words may come after what was read, and end the line.
fn ends_well(start: Scan, words: &[String]) -> bool
    ensures { result ≡ ends_well start (map string_bytes words.now) }
{
    let mut scan = start;
    for word in words {
        match scan.after(word.as_bytes()) {
            Some(next) => scan = next,
            None => return false,
        }
    }
    !scan.waits
}

/// What a word is by its first characters.
fn kind_of(word: &[u8]) -> WordKind
    ensures { result ≡ kind_of word.now }
{
    match word {
        [b'-', b'-', body @ ..] => body_kind(body),
        [] | [b'-', ..] => WordKind::Strange,
        _ => WordKind::Plain,
    }
}

/// What a word is that begins with two hyphens and goes on with `body`.
fn body_kind(body: &[u8]) -> WordKind
    ensures { result ≡ body_kind body.now }
{
    let (name, has_value) = split_name(body);
    match OptionName::with_text(name) {
        Some(option) => named_kind(option, has_value),
        None => WordKind::Strange,
    }
}

/// What a word is that names an option.
fn named_kind(option: OptionName, has_value: bool) -> WordKind
    ensures { result ≡ named_kind (Some option) has_value }
{
    if has_value {
        WordKind::NameAndValue(option)
    } else {
        WordKind::Name(option)
    }
}

/// What comes before the first `=`, and whether there is one.
fn split_name(body: &[u8]) -> (&[u8], bool)
    ensures name { result.0.now ≡ before_first is_equals body.now }
    ensures value { result.1 ≡ is_some (position is_equals body.now) }
{
    match equals_at(body) {
        Some(end) => (&body[..end], true),
        None => (body, false),
    }
}

/// Where the first `=` is.
fn equals_at(body: &[u8]) -> Option<usize>
    ensures { result ≡ position is_equals body.now }
{
    body.iter().position(|byte| *byte == b'=')
}
