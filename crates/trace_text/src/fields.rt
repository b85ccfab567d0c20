// The fields of a line, which a space ends.
ghost use Rattle.std.specs.Prelude.{◌≡◌, ℕ, ◌<◌, ◌^◌, List, decimal, Some, IfSome, MatchOption, position, ◌==◌};
ghost use Rattle.trace_text.specs.Fields.{before_rest};

use crate::number::read_number;

// The place of the first space.
fn find_space(text: &[u8]) -> Option<usize>
    ensures { result ≡ position (λ byte. byte == 32) text.now }
{
    text.iter().position(|byte| *byte == b' ')
}

// A number below 2 ^ 32.
pub fn read_small(text: &[u8]) -> Option<u32>
    ensures read { IfSome result (λ number. text.now ≡ decimal number) }
    ensures only { (number : ℕ) → number < 2 ^ 32 → text.now ≡ decimal number → result ≡ Some number }
{
    let Some(number) = read_number(text, u32::MAX as u64) else {
        return None;
    };
    Some(number as u32)
}

// The number below 2 ^ 32 with which a text begins, and what follows after a space.
pub fn split_small(text: &[u8]) -> Option<(u32, &[u8])>
    ensures read { IfSome result (λ parts. text.now ≡ before_rest parts.0 parts.1.now) }
    ensures only { (number : ℕ) (rest : List ℕ) → number < 2 ^ 32 → text.now ≡ before_rest number rest
        → MatchOption result ⊥ (λ parts. (parts.0 ≡ number) × (parts.1.now ≡ rest)) }
{
    let Some(end) = find_space(text) else {
        return None;
    };
    let Some(number) = read_small(&text[..end]) else {
        return None;
    };
    Some((number, &text[end + 1..]))
}
