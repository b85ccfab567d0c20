// Numbers in a page: four bytes, lowest first.
ghost use Rattle.std.specs.Prelude.{◌≡◌, ◌+◌, ◌≤◌, length};
ghost use Rattle.page_layout.specs.Numbers.{number_at, SetsNumber};

use byteorder::{ByteOrder, LittleEndian};

/// The number from a byte on. Constant time.
pub fn number(bytes: &[u8], at: usize) -> u32
    requires { at + 4 ≤ length bytes.now }
    ensures { result ≡ number_at bytes.now at }
{
    LittleEndian::read_u32(&bytes[at..])
}

/// Writes a number from a byte on, and no other byte. Constant time.
pub fn set_number(bytes: &mut [u8], at: usize, value: u32)
    requires { at + 4 ≤ length bytes.old }
    ensures { SetsNumber bytes.old at value bytes.new }
{
    LittleEndian::write_u32(&mut bytes[at..], value);
}
