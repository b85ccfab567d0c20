// Bytes that are zero.
ghost use Rattle.std.specs.Prelude.{◌≡◌, ℕ, ◌≤◌, ◌↔◌, length, slice_index, IsTrue};
ghost use Rattle.page_layout.specs.Tables.{AreZero};

// Each byte is zero.
pub fn is_zero(bytes: &[u8]) -> bool
    ensures { IsTrue result ↔ ((k : ℕ) → slice_index bytes.now k ≡ 0) }
{
    for byte in bytes {
        if *byte != 0 {
            return false;
        }
    }
    true
}

// Each byte from one place up to another is zero.
pub fn are_zero(bytes: &[u8], from: usize, to: usize) -> bool
    requires order { from ≤ to }
    requires within { to ≤ length bytes.now }
    ensures { IsTrue result ↔ AreZero bytes.now from to }
{
    is_zero(&bytes[from..to])
}
