// Replies to options.
ghost use Rattle.std.specs.Prelude.{◌≡◌};
ghost use Rattle.nbd_wire.specs.Kinds.{option_reply_number};
ghost use Rattle.nbd_wire.specs.Options.{option_reply_message};

use crate::big_endian::{put_u32, put_u64};

// What each reply to an option begins with.
const OPTION_REPLY_MAGIC: u64 = 0x0003_e889_0455_65a9;

// The bit of an error.
const ERROR: u32 = 1 << 31;

/// What a server answers to an option.
#[derive(Clone, Copy, Debug, PartialEq, Eq, Drop)]
pub enum OptionReply {
    /// `NBD_REP_ACK`: it is done.
    Acknowledged,
    /// `NBD_REP_SERVER`: one export.
    Server,
    /// `NBD_REP_INFO`: an information on the export.
    Information,
    /// `NBD_REP_ERR_UNSUP`: the server does not know the option.
    Unsupported,
    /// `NBD_REP_ERR_INVALID`: the data are not what the option has.
    Invalid,
    /// `NBD_REP_ERR_UNKNOWN`: there is no such export.
    Unknown,
}

impl OptionReply {
    /// The number that stands in a reply.
    pub fn number(self) -> u32
        ensures { result ≡ option_reply_number self }
    {
        match self {
            OptionReply::Acknowledged => 1,
            OptionReply::Server => 2,
            OptionReply::Information => 3,
            OptionReply::Unsupported => ERROR + 1,
            OptionReply::Invalid => ERROR + 3,
            OptionReply::Unknown => ERROR + 6,
        }
    }
}

/// A reply to the option of this number, up to its data, which are so many bytes.
pub fn option_reply_head(number: u32, reply: u32, length: u32) -> [u8; 20]
    ensures { result ≡ option_reply_message number reply length }
{
    let mut bytes = [0; 20];
    put_u64(&mut bytes, 0, OPTION_REPLY_MAGIC);
    put_u32(&mut bytes, 8, number);
    put_u32(&mut bytes, 12, reply);
    put_u32(&mut bytes, 16, length);
    bytes
}
