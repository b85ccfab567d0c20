// A page of the disk, and the named contents.
ghost use Rattle.std.specs.Prelude.{◌≡◌, ℕ, ◌<◌, length, slice_index};

use std::marker::Model;

/// The 4096 bytes of one page. Contracts see the list of the bytes.
#[derive(Drop)]
pub struct Page(pub [u8; 4096]);

impl Model for Page {
    ghost use Rattle.std.specs.Prelude.{List, ℕ, ◌≡◌, length};

    ghost Value = { List ℕ };

    ghost view = { λ p. p.0 };

    ghost invariant = { λ p. length p.0 ≡ 4096 };

    ghost inverse = { λ bytes. record { 0 = bytes } };
}

// The bits that some byte has. Has no early end, so that many bytes are looked at at a time.
fn some_bits(bytes: &[u8]) -> u8
    ensures none { result ≡ 0 → (i : ℕ) → i < length bytes.now → slice_index bytes.now i ≡ 0 }
    ensures all { ((i : ℕ) → i < length bytes.now → slice_index bytes.now i ≡ 0) → result ≡ 0 }
{
    let mut some = 0;
    for byte in bytes {
        some |= *byte;
    }
    some
}

impl Page {
    ghost use Rattle.std.specs.Prelude.{◌≡◌, ◌↔◌, IsTrue, length};
    ghost use Rattle.page_device.specs.Block.{zero_block, numbered_block};

    /// The zero block: 4096 zero bytes. An unmapped block reads as it. The contract leaves out what it costs: a page.
    pub fn zero() -> Page
        ensures { result ≡ zero_block }
    {
        Page([0; 4096])
    }

    /// The block of a number: its eight bytes, highest first, and then zeros. The contract leaves out what it costs: a page.
    pub fn numbered(number: u64) -> Page
        ensures { result ≡ numbered_block number }
    {
        let mut bytes = [0; 4096];
        bytes[..8].copy_from_slice(&number.to_be_bytes());
        Page(bytes)
    }

    /// The same bytes once more. The contract leaves out what it costs: a page.
    pub fn copy(&self) -> Page
        ensures { result ≡ self.now }
    {
        Page(self.0)
    }

    /// Whether each byte is zero: what an unmapped block reads, and what a table page holds of which no entry is
    /// used. Constant where one of the first 64 bytes is not zero, and else linear in the page, many bytes at a time; no
    /// clause says so.
    pub fn is_zero(&self) -> bool
        ensures zero { IsTrue result ↔ (self.now ≡ zero_block) }
        ensures whole { length self.now ≡ 4096 }
    {
        let front = some_bits(&self.0[..64]);
        if front != 0 {
            return false;
        }
        some_bits(&self.0) == 0
    }

    /// The bytes. The contract leaves out what it costs: nothing.
    pub fn bytes(&self) -> &[u8]
        ensures bytes { result.now ≡ self.now }
        ensures whole { length result.now ≡ 4096 }
    {
        &self.0
    }
}
