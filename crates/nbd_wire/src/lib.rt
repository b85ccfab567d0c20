//! The messages of the NBD protocol that a server of one export needs, as bytes.
//!
//! Terms and numbers are those of the protocol's own document, `doc/proto.md` of the NBD project: the fixed newstyle handshake, and
//! the transmission phase with simple replies. `docs/FORMAT.md` lists what is taken of it. Numbers go highest byte first. No call takes
//! memory, and each takes constant time.
#![tactic(auto)]

mod big_endian;
mod export;
mod greeting;
mod option_head;
mod option_kind;
mod option_reply;
mod reply;
mod request;
mod request_kind;

pub use export::{
    EXPORT_NAME_ZEROES, HAS_FLAGS, SEND_FLUSH, SEND_FUA, SEND_TRIM, export_bytes, info_bytes,
};
pub use greeting::{FIXED_NEWSTYLE, NO_ZEROES, greeting_bytes};
pub use option_head::{OptionHead, read_option};
pub use option_kind::OptionKind;
pub use option_reply::{OptionReply, option_reply_head};
pub use reply::{ErrorNumber, reply_bytes};
pub use request::{BadMagic, FUA, Request, read_request, request_bytes};
pub use request_kind::RequestKind;
