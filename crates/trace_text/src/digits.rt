// Hexadecimal digits as bytes, as `hex` says what they mean. The loop stands here, over a table, since
// the branches that `hex` takes for each digit follow the contents, which no processor can foresee: a
// full page takes four times as long (docs/PERFORMANCE.md).
ghost use Rattle.std.specs.Prelude.{◌≡◌, ◌*◌, length, true, false, unwrap_or, Ok, IsErr};
ghost use Rattle.hex.specs.Hex.{decode_of, hex_digit_value};

// What the bytes from `0` to `f` are worth as digits; 255 is none.
static VALUES: [u8; 55] = [
    0, 1, 2, 3, 4, 5, 6, 7, 8, 9, 255, 255, 255, 255, 255, 255, 255, 10, 11, 12, 13, 14, 15, 255,
    255, 255, 255, 255, 255, 255, 255, 255, 255, 255, 255, 255, 255, 255, 255, 255, 255, 255, 255,
    255, 255, 255, 255, 255, 255, 10, 11, 12, 13, 14, 15,
];

// What a byte is worth as a digit of either case, or 255 where it is none.
fn digit_value(byte: u8) -> u8
    ensures { result ≡ unwrap_or (hex_digit_value byte) 255 }
{
    let place = byte.wrapping_sub(b'0') as usize;
    if place < VALUES.len() {
        VALUES[place]
    } else {
        255
    }
}

// Puts the bytes that digits write, and tells whether each was a digit. Where one was not the bytes are
// unspecified.
pub fn decode_into(digits: &[u8], bytes: &mut [u8]) -> bool
    requires { length digits.now ≡ 2 * length bytes.old }
    ensures some { result ≡ true → decode_of digits.now ≡ Ok bytes.new }
    ensures none { result ≡ false → IsErr (decode_of digits.now) }
{
    for i in 0..bytes.len() {
        let high = digit_value(digits[2 * i]);
        let low = digit_value(digits[2 * i + 1]);
        if high > 15 || low > 15 {
            return false;
        }
        bytes[i] = high * 16 + low;
    }
    true
}
