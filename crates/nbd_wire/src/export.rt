// What the client is told of the export.
ghost use Rattle.std.specs.Prelude.{◌≡◌};
ghost use Rattle.nbd_wire.specs.Exports.{export_message, info_message};

use crate::big_endian::{put_u16, put_u64};

/// `NBD_FLAG_HAS_FLAGS`: the transmission flags mean something.
pub const HAS_FLAGS: u16 = 1 << 0;

/// `NBD_FLAG_SEND_FLUSH`: the server knows flushes.
pub const SEND_FLUSH: u16 = 1 << 2;

/// `NBD_FLAG_SEND_FUA`: the server knows the command flag [`FUA`](crate::FUA).
pub const SEND_FUA: u16 = 1 << 3;

/// `NBD_FLAG_SEND_TRIM`: the server knows trims.
pub const SEND_TRIM: u16 = 1 << 5;

// What this server knows.
const TRANSMISSION_FLAGS: u16 = HAS_FLAGS | SEND_FLUSH | SEND_FUA | SEND_TRIM;

// `NBD_INFO_EXPORT`.
const INFO_EXPORT: u16 = 0;

/// So many zeros follow [`export_bytes`], unless both sides set [`NO_ZEROES`](crate::NO_ZEROES).
pub const EXPORT_NAME_ZEROES: usize = 124;

/// The answer to the option `ExportName`, up to its zeros: the size of the export in bytes, and the transmission flags.
pub fn export_bytes(size: u64) -> [u8; 10]
    ensures { result ≡ export_message size }
{
    let mut bytes = [0; 10];
    put_u64(&mut bytes, 0, size);
    put_u16(&mut bytes, 8, TRANSMISSION_FLAGS);
    bytes
}

/// The data of the reply `Information`: that it tells of an export, its size in bytes, and the transmission flags.
pub fn info_bytes(size: u64) -> [u8; 12]
    ensures { result ≡ info_message size }
{
    let mut bytes = [0; 12];
    put_u16(&mut bytes, 0, INFO_EXPORT);
    put_u64(&mut bytes, 2, size);
    put_u16(&mut bytes, 10, TRANSMISSION_FLAGS);
    bytes
}
