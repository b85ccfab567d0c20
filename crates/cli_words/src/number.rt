//! A number in a word.

ghost use Rattle.std.specs.Option.{SomeIff};
ghost use Rattle.std.specs.Prelude.{◌≡◌, ◌≤◌, ◌+◌, ◌-◌, ◌*◌, ℕ, IfSome, IfNone};
ghost use Rattle.cli_words.specs.Number.{IsDigit, IsNumber};
ghost use Rattle.cli_words.specs.Digits.{EndsAt};

/// The number that a text says, where it says one that is at most `limit`.
///
/// A number is `0`, or a digit from 1 to 9 followed by any digits. The cost is the text's length.
pub fn number(text: &[u8], limit: u64) -> Option<u64>
    ensures some { IfSome result (IsNumber limit text.now) }
    ensures none { IfNone result ((n : ℕ) → ¬ IsNumber limit text.now n) }
{
    match text {
        [] | [b'0', _, ..] => None,
        _ => value_of(text, limit),
    }
}

/// The value of digits, where it is at most `limit`.
fn value_of(digits: &[u8], limit: u64) -> Option<u64>
    ensures some { IfSome result (EndsAt limit 0 digits.now) }
    ensures none { IfNone result ((n : ℕ) → ¬ EndsAt limit 0 digits.now n) }
{
    let mut value = 0;
    for digit in digits {
        value = with_digit(value, *digit, limit)?;
    }
    Some(value)
}

/// The value of digits whose last one is `digit`, and of which the others have the value `value`.
fn with_digit(value: u64, digit: u8, limit: u64) -> Option<u64>
    ensures { SomeIff result (IsDigit digit × (10 * value + (digit - 48) ≤ limit)) (10 * value + (digit - 48)) }
{
    if !digit.is_ascii_digit() {
        return None;
    }
    let value = value.checked_mul(10)?.checked_add(u64::from(digit - b'0'))?;
    if value <= limit { Some(value) } else { None }
}
