// Options of the handshake.
ghost use Rattle.std.specs.Prelude.{◌≡◌, ◌↔◌, IsOk, IfOk, slice_range};
ghost use Rattle.nbd_wire.specs.Options.{IsOptionHead, option_magic, option_message};

use crate::BadMagic;
use crate::big_endian::{u32_at, u64_at};

/// The letters `IHAVEOPT`.
pub const OPTION_MAGIC: u64 = 0x4948_4156_454f_5054;

/// An option, without its data.
#[derive(Clone, Copy, Debug, PartialEq, Eq, Drop)]
pub struct OptionHead {
    /// The number of the option's kind.
    pub number: u32,
    /// The number of bytes of its data.
    pub length: u32,
}

/// Reads the head of an option. `BadMagic` where it does not begin with the letters `IHAVEOPT`.
pub fn read_option(bytes: &[u8; 16]) -> Result<OptionHead, BadMagic>
    ensures magic { IsOk result ↔ (slice_range bytes.now 0 8 ≡ option_magic) }
    ensures read { IfOk result (λ head. option_message head ≡ bytes.now) }
    ensures exact { (head : OptionHead) → IsOptionHead head → option_message head ≡ bytes.now → result ≡ Ok head }
{
    if u64_at(bytes, 0) != OPTION_MAGIC {
        return Err(BadMagic);
    }
    Ok(OptionHead {
        number: u32_at(bytes, 8),
        length: u32_at(bytes, 12),
    })
}
