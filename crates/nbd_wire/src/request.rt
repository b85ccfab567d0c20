// Requests of the transmission phase.
ghost use Rattle.std.specs.Prelude.{◌≡◌, ◌↔◌, IsOk, IfOk, slice_range};
ghost use Rattle.nbd_wire.specs.Requests.{IsRequest, request_magic, request_message};

use crate::big_endian::{put_u16, put_u32, put_u64, u16_at, u32_at, u64_at};

// What each request begins with, `NBD_REQUEST_MAGIC`.
const REQUEST_MAGIC: u32 = 0x2560_9513;

/// `NBD_CMD_FLAG_FUA` of a request: its own effect is to be on stable storage before it is answered.
pub const FUA: u16 = 1 << 0;

/// A request, without the bytes that follow a write.
#[derive(Clone, Copy, Debug, PartialEq, Eq, Drop)]
pub struct Request {
    /// The command flags.
    pub flags: u16,
    /// The number of the request's type.
    pub kind: u16,
    /// What the reply carries, so that the client knows it.
    pub cookie: u64,
    /// The first byte, from the start of the export.
    pub offset: u64,
    /// The number of bytes.
    pub length: u32,
}

/// The message does not begin with its magic number.
#[derive(Clone, Copy, Debug, PartialEq, Eq, Drop)]
pub struct BadMagic;

/// Reads a request. `BadMagic` where it does not begin with the magic number of requests; its other numbers may be any.
pub fn read_request(bytes: &[u8; 28]) -> Result<Request, BadMagic>
    ensures magic { IsOk result ↔ (slice_range bytes.now 0 4 ≡ request_magic) }
    ensures read { IfOk result (λ request. request_message request ≡ bytes.now) }
    ensures exact { (request : Request) → IsRequest request → request_message request ≡ bytes.now → result ≡ Ok request }
{
    if u32_at(bytes, 0) != REQUEST_MAGIC {
        return Err(BadMagic);
    }
    Ok(Request {
        flags: u16_at(bytes, 4),
        kind: u16_at(bytes, 6),
        cookie: u64_at(bytes, 8),
        offset: u64_at(bytes, 16),
        length: u32_at(bytes, 24),
    })
}

/// The bytes of a request, without those that follow a write.
pub fn request_bytes(request: &Request) -> [u8; 28]
    ensures { result ≡ request_message request.now }
{
    let mut bytes = [0; 28];
    put_u32(&mut bytes, 0, REQUEST_MAGIC);
    put_u16(&mut bytes, 4, request.flags);
    put_u16(&mut bytes, 6, request.kind);
    put_u64(&mut bytes, 8, request.cookie);
    put_u64(&mut bytes, 16, request.offset);
    put_u32(&mut bytes, 24, request.length);
    bytes
}
