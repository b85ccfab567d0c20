// What the server sends first.
ghost use Rattle.std.specs.Prelude.{◌≡◌};
ghost use Rattle.nbd_wire.specs.Options.{greeting};

use crate::big_endian::{put_u16, put_u64};
use crate::option_head::OPTION_MAGIC;

// The letters `NBDMAGIC`.
const INIT_MAGIC: u64 = 0x4e42_444d_4147_4943;

/// `NBD_FLAG_FIXED_NEWSTYLE` of the server's flags, and the client's bit of that name in its own, which have 32 bits.
pub const FIXED_NEWSTYLE: u16 = 1 << 0;

/// `NBD_FLAG_NO_ZEROES` of the server's flags, and the client's bit of that name in its own, which have 32 bits.
pub const NO_ZEROES: u16 = 1 << 1;

/// What the server sends first: two magic numbers, and both of its flags.
pub fn greeting_bytes() -> [u8; 18]
    ensures { result ≡ greeting }
{
    let mut bytes = [0; 18];
    put_u64(&mut bytes, 0, INIT_MAGIC);
    put_u64(&mut bytes, 8, OPTION_MAGIC);
    put_u16(&mut bytes, 16, FIXED_NEWSTYLE | NO_ZEROES);
    bytes
}
