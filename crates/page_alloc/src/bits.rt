// The bits of a word.
ghost use Rattle.std.specs.Prelude.{◌≡◌, ℕ, ◌<◌, ◌≤◌, ◌&&◌, ◌||◌, not, eqb, true, false, bit_and, IfSome, IfNone};
ghost use Rattle.std.specs.Int.{bit_not, w64};
ghost use Rattle.page_alloc.specs.Bits.{is_one, IsLowestBit};

// The word with one bit set.
pub fn with_bit(word: u64, bit: u32) -> u64
    requires { bit < 64 }
    ensures { (i : ℕ) → i < 64 → is_one result i ≡ (eqb bit i || is_one word i) }
{
    word | 1 << bit
}

// The word with one bit cleared.
pub fn without_bit(word: u64, bit: u32) -> u64
    requires { bit < 64 }
    ensures bits { (i : ℕ) → i < 64 → is_one result i ≡ (not (eqb bit i) && is_one word i) }
    ensures at_most { result ≤ word }
    ensures less { is_one word bit ≡ true → result < word }
{
    word & !(1 << bit)
}

// Whether a bit is set.
#[tactic(auto, unfolding(crate::specs::Bits::is_one))]
pub fn has_bit(word: u64, bit: u32) -> bool
    requires { bit < 64 }
    ensures { result ≡ is_one word bit }
{
    (word >> bit) % 2 == 1
}

// The lowest bit that is set.
pub fn lowest_bit(word: u64) -> Option<u32>
    ensures lowest { IfSome result (IsLowestBit word) }
    ensures none { IfNone result (word ≡ 0) }
{
    if word == 0 {
        return None;
    }
    Some(word.trailing_zeros())
}

// The word with so many bits set, from the lowest on.
pub fn low_bits(count: u32) -> u64
    requires some { 1 ≤ count }
    requires fits { count ≤ 64 }
    ensures inside { (i : ℕ) → i < count → is_one result i ≡ true }
    ensures behind { (i : ℕ) → count ≤ i → is_one result i ≡ false }
{
    u64::MAX >> (64 - count)
}

// The bits that are not set in the word.
pub fn other_bits(word: u64) -> u64
    ensures { (i : ℕ) → i < 64 → is_one result i ≡ not (is_one word i) }
{
    !word
}

// The bits that are set in one word, or not set in the other.
pub fn with_other_bits(word: u64, other: u64) -> u64
    ensures { (i : ℕ) → i < 64 → is_one result i ≡ (is_one word i || not (is_one other i)) }
{
    word | !other
}

// The bits that are set in one word, and not in the other.
pub fn without_bits(word: u64, other: u64) -> u64
    ensures word { result ≡ bit_and word (bit_not w64 other) }
    ensures bits { (i : ℕ) → i < 64 → is_one result i ≡ (is_one word i && not (is_one other i)) }
{
    word & !other
}
