// What is told of the counts of 64 data pages.
ghost use Rattle.std.specs.Prelude.{◌≡◌, ℕ, ◌<◌, ◌≤◌};
ghost use Rattle.order_model.specs.Pool.{after_take, after_zeroed, is_free, new_pool};
ghost use Rattle.page_alloc.specs.Bits.{is_one};
ghost use Rattle.page_alloc.specs.Marks.{told_in, told_after, no_told, free_word};

use crate::bits::{low_bits, other_bits, with_bit, with_other_bits, without_bit, without_bits};

// What happens to a count page.
#[derive(Clone, Copy)]
pub enum Step {
    // A write of it is about to be made.
    Tried,
    // It was written.
    Written,
    // A barrier came.
    Fixed,
}

// One bit for each of 64 data pages: its cached count is 0; a count that the device may have is above 0;
// the newest of them is.
#[derive(Clone, Copy)]
pub struct Marks {
    pub zero: u64,
    pub tried: u64,
    pub newest: u64,
}

impl Marks {
    // Of no page.
    pub const NONE: Marks = Marks {
        zero: 0,
        tried: 0,
        newest: 0,
    };

    // Of so many pages that have no count anywhere.
    pub fn fresh(pages: u32) -> Marks
        requires some { 1 ≤ pages }
        requires fits { pages ≤ 64 }
        ensures inside { (i : ℕ) → i < pages → told_in result i ≡ new_pool i }
        ensures behind { (i : ℕ) → pages ≤ i → told_in result i ≡ no_told }
    {
        Marks {
            zero: low_bits(pages),
            tried: 0,
            newest: 0,
        }
    }

    // After one of the pages was counted.
    pub fn taken(self, bit: u32) -> Marks
        requires { bit < 64 }
        ensures { (i : ℕ) → i < 64 → told_in result i ≡ after_take bit (told_in self) i }
    {
        Marks {
            zero: without_bit(self.zero, bit),
            tried: self.tried,
            newest: self.newest,
        }
    }

    // After the count of one of the pages became 0.
    pub fn zeroed(self, bit: u32) -> Marks
        requires { bit < 64 }
        ensures { (i : ℕ) → i < 64 → told_in result i ≡ after_zeroed bit (told_in self) i }
    {
        Marks {
            zero: with_bit(self.zero, bit),
            tried: self.tried,
            newest: self.newest,
        }
    }

    // After a step of their count page.
    pub fn after(self, step: Step) -> Marks
        ensures { (i : ℕ) → i < 64 → told_in result i ≡ told_after step (told_in self i) }
    {
        let (zero, tried, newest) = (self.zero, self.tried, self.newest);
        let (tried, newest) = match step {
            Step::Tried => (with_other_bits(tried, zero), with_other_bits(newest, zero)),
            Step::Written => (tried, other_bits(zero)),
            Step::Fixed => (newest, newest),
        };
        Marks {
            zero,
            tried,
            newest,
        }
    }

    // The free pages: the cached count is 0, and no count that the device may have is above 0.
    pub fn free(self) -> u64
        ensures word { result ≡ free_word self }
        ensures bits { (i : ℕ) → i < 64 → is_one result i ≡ is_free (told_in self i) }
    {
        without_bits(self.zero, self.tried)
    }
}
