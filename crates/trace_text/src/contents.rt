// The bytes of a page in hexadecimal.
ghost use Rattle.std.specs.Prelude.{◌≡◌, ℕ, ◌+◌, ◌*◌, ◌/◌, ◌≤◌, ◌++◌, List, length, drop, true, false, Some, IfSome, Ok, IsErr};
ghost use Rattle.std.specs.Option.{SomeIff};
ghost use Rattle.hex.specs.Hex.{decode_of, encode_lower};
ghost use Rattle.page_device.specs.Block.{Block};
ghost use Rattle.trace_text.specs.Fields.{FitsPage};
ghost use Rattle.trace_text.specs.Grammar.{Fills};
ghost use Rattle.trace_text.specs.Texts.{hex_of_some, hex_or_dash, trimmed};

use crate::LineBuf;
use crate::digits::decode_into;
use hex::encode_to_slice;
use page_device::Page;

// The bytes without the zeros at their end.
fn without_zeros(bytes: &[u8]) -> &[u8]
    ensures bytes { result.now ≡ trimmed bytes.now }
    ensures length { length result.now ≤ length bytes.now }
{
    let mut end = bytes.len();
    while end > 0 && bytes[end - 1] == 0 {
        end -= 1;
    }
    &bytes[..end]
}

// Appends bytes in lower case.
fn put_hex(bytes: &[u8], into: &mut LineBuf)
    requires few { length bytes.now ≤ 4096 }
    requires room { length into.old + 2 * length bytes.now ≤ 8240 }
    ensures text { into.new ≡ into.old ++ encode_lower bytes.now }
    ensures length { length into.new ≡ length into.old + 2 * length bytes.now }
{
    let mut digits = [0; 8192];
    let digits = &mut digits[..2 * bytes.len()];
    let _fits = encode_to_slice(bytes, digits);
    into.put(digits);
}

// Appends the bytes of a page without the zeros at its end, or `-` where none are left.
pub fn put_hex_or_dash(page: &Page, into: &mut LineBuf)
    requires { length into.old + 8192 ≤ 8240 }
    ensures text { into.new ≡ into.old ++ hex_or_dash (trimmed page.now) }
    ensures length { length into.new ≤ length into.old + 8192 }
{
    let bytes = without_zeros(page.bytes());
    if bytes.is_empty() {
        into.put(b"-");
    } else {
        put_hex(bytes, into);
    }
}

// Appends the bytes of a page without the zeros at its end, but at least one. The digits fill the page.
pub fn put_hex_of_some(page: &[u8], into: &mut LineBuf)
    requires page { length page.now ≡ 4096 }
    requires room { length into.old + 8192 ≤ 8240 }
    ensures text { into.new ≡ into.old ++ hex_of_some (trimmed page.now) }
    ensures length { length into.new ≤ length into.old + 8192 }
    ensures fills { Fills (hex_of_some (trimmed page.now)) page.now }
{
    let front = without_zeros(page);
    if front.is_empty() {
        into.put(b"00");
    } else {
        put_hex(front, into);
    }
}

// Puts the bytes that digits write at the front of others. Where a byte is no digit the front is
// unspecified.
fn decode_front(digits: &[u8], bytes: &mut [u8], count: usize) -> bool
    requires digits { length digits.now ≡ 2 * count }
    requires room { count ≤ length bytes.old }
    ensures some { result ≡ true → (front : List ℕ) × (decode_of digits.now ≡ Ok front)
        × (length front ≡ count) × (bytes.new ≡ front ++ drop count bytes.old) }
    ensures none { result ≡ false → IsErr (decode_of digits.now) }
{
    decode_into(digits, &mut bytes[..count])
}

// How many bytes digits write, where they are 1 to 4096.
fn bytes_of(digits: &[u8]) -> Option<usize>
    ensures { SomeIff result (FitsPage (length digits.now)) (length digits.now / 2) }
{
    let count = digits.len() / 2;
    if digits.len() == 2 * count && (1..=4096).contains(&count) {
        Some(count)
    } else {
        None
    }
}

// The page that digits of both cases fill, of 1 to 4096 bytes.
pub fn read_page(digits: &[u8]) -> Option<Page>
    ensures read { IfSome result (λ page. Fills digits.now page) }
    ensures only { (page : Block) → Fills digits.now page → result ≡ Some page }
{
    let Some(count) = bytes_of(digits) else {
        return None;
    };
    let mut page = Page::zero();
    if decode_front(digits, &mut page.0, count) {
        Some(page)
    } else {
        None
    }
}
