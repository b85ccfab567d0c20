// Numbers in a message, the highest byte first.
ghost use Rattle.std.specs.Prelude.{◌≡◌, ◌+◌, ◌≤◌, ◌++◌, length, slice_range, take};
ghost use Rattle.nbd_wire.specs.BigEndian.{eight_bytes, four_bytes, two_bytes};

// The bytes from a place on, as many as are asked for.
fn piece<const N: usize>(message: &[u8], at: usize) -> [u8; N]
    requires { at + N ≤ length message.now }
    ensures { result ≡ slice_range message.now at (at + N) }
{
    let mut piece = [0; N];
    piece.copy_from_slice(&message[at..at + N]);
    piece
}

/// The number in two bytes.
pub fn u16_at(message: &[u8], at: usize) -> u16
    requires { at + 2 ≤ length message.now }
    ensures { two_bytes result ≡ slice_range message.now at (at + 2) }
{
    u16::from_be_bytes(piece(message, at))
}

/// The number in four bytes.
pub fn u32_at(message: &[u8], at: usize) -> u32
    requires { at + 4 ≤ length message.now }
    ensures { four_bytes result ≡ slice_range message.now at (at + 4) }
{
    u32::from_be_bytes(piece(message, at))
}

/// The number in eight bytes.
pub fn u64_at(message: &[u8], at: usize) -> u64
    requires { at + 8 ≤ length message.now }
    ensures { eight_bytes result ≡ slice_range message.now at (at + 8) }
{
    u64::from_be_bytes(piece(message, at))
}

// Writes bytes from a place on.
fn put(message: &mut [u8], at: usize, piece: &[u8])
    requires { at + length piece.now ≤ length message.old }
    ensures { take (at + length piece.now) message.new ≡ take at message.old ++ piece.now }
{
    message[at..at + piece.len()].copy_from_slice(piece);
}

/// Writes a number into two bytes; the ones before stay.
#[tactic(auto, unfolding(crate::specs::BigEndian::two_bytes))]
pub fn put_u16(message: &mut [u8], at: usize, number: u16)
    requires { at + 2 ≤ length message.old }
    ensures { take (at + 2) message.new ≡ take at message.old ++ two_bytes number }
{
    put(message, at, &number.to_be_bytes());
}

/// Writes a number into four bytes; the ones before stay.
#[tactic(auto, unfolding(crate::specs::BigEndian::four_bytes))]
pub fn put_u32(message: &mut [u8], at: usize, number: u32)
    requires { at + 4 ≤ length message.old }
    ensures { take (at + 4) message.new ≡ take at message.old ++ four_bytes number }
{
    put(message, at, &number.to_be_bytes());
}

/// Writes a number into eight bytes; the ones before stay.
#[tactic(auto, unfolding(crate::specs::BigEndian::eight_bytes))]
pub fn put_u64(message: &mut [u8], at: usize, number: u64)
    requires { at + 8 ≤ length message.old }
    ensures { take (at + 8) message.new ≡ take at message.old ++ eight_bytes number }
{
    put(message, at, &number.to_be_bytes());
}
