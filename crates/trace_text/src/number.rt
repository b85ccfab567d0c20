// Decimal numbers.
ghost use Rattle.std.specs.Prelude.{◌≡◌, ℕ, ◌+◌, ◌*◌, ◌^◌, ◌<◌, ◌≤◌, ◌↔◌, IsTrue, IfSome, Some, decimal};
ghost use Rattle.std.specs.Option.{SomeIff};
ghost use Rattle.std.specs.Str.Parse.{AllDigits, digits_value};
ghost use Rattle.trace_text.specs.Fields.{BeginsPlain};

// The number that comes where a digit follows the digits of another.
fn with_digit(number: u64, digit: u32) -> Option<u64>
    requires { digit < 10 }
    ensures { SomeIff result (number * 10 + digit < 2 ^ 64) (number * 10 + digit) }
{
    number.checked_mul(10)?.checked_add(digit as u64)
}

// The number that decimal digits write, zeros in front included.
fn digits_number(text: &[u8]) -> Option<u64>
    ensures { let value = digits_value 10 text.now
        in SomeIff result (AllDigits 10 text.now × (value < 2 ^ 64)) value }
{
    let mut number = 0;
    for &byte in text {
        let Some(digit) = (byte as char).to_digit(10) else {
            return None;
        };
        let Some(longer) = with_digit(number, digit) else {
            return None;
        };
        number = longer;
    }
    Some(number)
}

/// Reads a text as a number of at most `limit`: `0`, or a digit from 1 to 9 and then any digits, with
/// no sign and no other byte. Answers `None` exactly where the text is no such number. Linear in the
/// text.
pub fn read_number(text: &[u8], limit: u64) -> Option<u64>
    ensures read { IfSome result (λ number. (text.now ≡ decimal number) × (number ≤ limit)) }
    ensures only { (number : ℕ) → number ≤ limit → text.now ≡ decimal number → result ≡ Some number }
{
    let Some(number) = plain_number(text) else {
        return None;
    };
    if number <= limit { Some(number) } else { None }
}

// The text begins as a number does: with some byte, and with a zero only where the zero is all of it.
fn begins_plain(text: &[u8]) -> bool
    ensures { IsTrue result ↔ BeginsPlain text.now }
{
    !text.is_empty() && (text.len() == 1 || text[0] != b'0')
}

// The number of a text with no sign and no zero in front.
fn plain_number(text: &[u8]) -> Option<u64>
    ensures read { IfSome result (λ number. text.now ≡ decimal number) }
    ensures only { (number : ℕ) → number < 2 ^ 64 → text.now ≡ decimal number → result ≡ Some number }
{
    if begins_plain(text) {
        digits_number(text)
    } else {
        None
    }
}
