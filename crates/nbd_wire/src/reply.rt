// Replies of the transmission phase.
ghost use Rattle.std.specs.Prelude.{◌≡◌};
ghost use Rattle.nbd_wire.specs.Replies.{error_number, reply_message};

use crate::big_endian::{put_u32, put_u64};

// What each simple reply begins with, `NBD_SIMPLE_REPLY_MAGIC`.
const REPLY_MAGIC: u32 = 0x6744_6698;

/// Why a request was not done. Where it was, a reply has 0 in the place of the number.
#[derive(Clone, Copy, Debug, PartialEq, Eq, Drop)]
pub enum ErrorNumber {
    /// `NBD_EPERM`.
    NotPermitted,
    /// `NBD_EIO`.
    Io,
    /// `NBD_ENOMEM`.
    NoMemory,
    /// `NBD_EINVAL`.
    Invalid,
    /// `NBD_ENOSPC`.
    NoSpace,
}

impl ErrorNumber {
    /// The number that stands in a reply.
    pub fn number(self) -> u32
        ensures { result ≡ error_number self }
    {
        match self {
            ErrorNumber::NotPermitted => 1,
            ErrorNumber::Io => 5,
            ErrorNumber::NoMemory => 12,
            ErrorNumber::Invalid => 22,
            ErrorNumber::NoSpace => 28,
        }
    }
}

/// A simple reply to the request with this cookie, with the number of an error or 0. After a read that was done its bytes follow.
pub fn reply_bytes(error: u32, cookie: u64) -> [u8; 16]
    ensures { result ≡ reply_message error cookie }
{
    let mut bytes = [0; 16];
    put_u32(&mut bytes, 0, REPLY_MAGIC);
    put_u32(&mut bytes, 4, error);
    put_u64(&mut bytes, 8, cookie);
    bytes
}
