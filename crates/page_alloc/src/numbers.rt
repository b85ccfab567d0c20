// A set of small numbers, and the least of them.
ghost use Rattle.std.specs.Prelude.{◌≡◌, ◌≢◌, ℕ, ◌*◌, ◌/◌, ◌^◌, ◌<◌, ◌≤◌, ◌&&◌, ◌||◌, not, eqb, true, length, slice_index, sum, IfOk, IfSome, IfNone};
ghost use Rattle.page_alloc.specs.Numbers.{holds, IsLeast, HoldsNone};

use crate::bits::{lowest_bit, with_bit, without_bit};
use page_device::NoMemory;
use std::alloc::Global;
use std::marker::Model;

// The least number of a set, by a bit for each. Linear in the words.
fn least_of(words: &[u64]) -> Option<usize>
    requires { length words.now < 2 ^ 32 }
    ensures least { IfSome result (IsLeast words.now) }
    ensures none { IfNone result (HoldsNone words.now) }
{
    for i in 0..words.len() {
        if let Some(bit) = lowest_bit(words[i]) {
            return Some(64 * i + bit as usize);
        }
    }
    None
}

// Puts a number into a set.
fn set(words: &mut [u64], n: usize)
    requires { n < 64 * length words.old }
    ensures held { (k : ℕ) → holds words.new k ≡ (eqb n k || holds words.old k) }
    ensures others { (w : ℕ) → w ≢ n / 64 → slice_index words.new w ≡ slice_index words.old w }
{
    words[n / 64] = with_bit(words[n / 64], (n % 64) as u32);
}

// Takes a number out of a set. Whether its word then holds none.
fn clear(words: &mut [u64], n: usize) -> bool
    requires { n < 64 * length words.old }
    ensures held { (k : ℕ) → holds words.new k ≡ (not (eqb n k) && holds words.old k) }
    ensures others { (w : ℕ) → w ≢ n / 64 → slice_index words.new w ≡ slice_index words.old w }
    ensures at_most { slice_index words.new (n / 64) ≤ slice_index words.old (n / 64) }
    ensures less { holds words.old n ≡ true → sum words.new < sum words.old }
    ensures emptied { result ≡ eqb (slice_index words.new (n / 64)) 0 }
{
    let left = without_bit(words[n / 64], (n % 64) as u32);
    words[n / 64] = left;
    left == 0
}

// A set of numbers. A bit for each says if it is in the set, and a bit for each 64 of these if one of them is: so a look at one
// word for each 4096 numbers, and at one more, finds the least.
#[derive(Drop)]
pub struct Numbers {
    words: Vec<u64>,
    tops: Vec<u64>,
}

impl Model for Numbers {
    ghost use Rattle.std.specs.Prelude.{ℕ, List};
    ghost use Rattle.page_alloc.specs.Numbers.{IsSummary};

    ghost Value = { List ℕ };

    ghost view = { λ s. s.words.items };

    ghost invariant = { λ s. IsSummary s.words.items s.tops.items };
}

impl Numbers {
    // A set with room for the numbers below a limit, and none in it. Linear in the limit.
    pub fn new(alloc: Global, limit: usize) -> Result<Numbers, NoMemory>
        requires { limit < 2 ^ 32 }
        ensures room { IfOk result (λ set. limit ≤ 64 * length set) }
        ensures none { IfOk result HoldsNone }
    {
        let Ok(words) = vec![in alloc; 0u64; limit.div_ceil(64)] else {
            return Err(NoMemory);
        };
        let Ok(tops) = vec![in alloc; 0u64; limit.div_ceil(4096)] else {
            return Err(NoMemory);
        };
        Ok(Numbers { words, tops })
    }

    // The least number of the set. Linear in the words of the upper bits.
    pub fn least(&self) -> Option<usize>
        ensures least { IfSome result (IsLeast self.now) }
        ensures none { IfNone result (HoldsNone self.now) }
    {
        match least_of(&self.tops) {
            Some(word) => match lowest_bit(self.words[word]) {
                Some(bit) => Some(64 * word + bit as usize),
                None => None,
            },
            None => None,
        }
    }

    // Puts a number in. Constant time.
    pub fn insert(&mut self, n: usize)
        requires { n < 64 * length self.old }
        ensures held { (k : ℕ) → holds self.new k ≡ (eqb n k || holds self.old k) }
        ensures room { length self.new ≡ length self.old }
    {
        set(&mut self.words, n);
        set(&mut self.tops, n / 64);
    }

    // Takes a number out. Constant time.
    pub fn remove(&mut self, n: usize)
        requires { n < 64 * length self.old }
        ensures held { (k : ℕ) → holds self.new k ≡ (not (eqb n k) && holds self.old k) }
        ensures room { length self.new ≡ length self.old }
        ensures less { holds self.old n ≡ true → sum self.new < sum self.old }
    {
        if clear(&mut self.words, n) {
            clear(&mut self.tops, n / 64);
        }
    }
}
