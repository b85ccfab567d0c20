// Images that are freshly formatted but for some bytes and fingerprints.
use page_device::{MemDevice, Page};
use page_layout::{Shape, set_print_entry, super_page};
use std::alloc::Global;
use std::test::Fail;

// SHA-1 of 4096 zero bytes, by another program.
pub const ZEROS: [u8; 20] = [
    0x1c, 0xea, 0xf7, 0x3d, 0xf4, 0x0e, 0x53, 0x1d, 0xf3, 0xbf, 0xb2, 0x6b, 0x4f, 0xb7, 0xcd, 0x95,
    0xfb, 0x7b, 0xff, 0x1d,
];

// SHA-1 of the numbered block 5, by another program.
pub const FIVE: [u8; 20] = [
    0x75, 0x55, 0x3f, 0xa2, 0x3f, 0x9b, 0x42, 0x3c, 0xd5, 0x35, 0xab, 0x33, 0xe6, 0x27, 0xff, 0x27,
    0xaa, 0xb3, 0x1b, 0x19,
];

// SHA-1 of the numbered block 6, by another program.
pub const SIX: [u8; 20] = [
    0xcd, 0x7a, 0xcc, 0x86, 0x78, 0xda, 0x58, 0xa6, 0xc4, 0x3d, 0x8e, 0xc9, 0x36, 0x70, 0xae, 0xe0,
    0xbf, 0x9a, 0xb3, 0xdc,
];

// The first 20 bytes of the SHA-256 of the numbered block 5, by another program.
pub const FIVE_OF_2: [u8; 20] = [
    0x35, 0xb5, 0xc9, 0x02, 0x0d, 0x56, 0xb7, 0x43, 0xdc, 0xc7, 0x49, 0xd4, 0xeb, 0x5a, 0x91, 0xbe,
    0xf1, 0xc0, 0xf6, 0x99,
];

// A byte of an image: its page, its place in the page, and its value.
pub type Byte = (usize, usize, u8);

// A fingerprint in an image: its page, its entry and the 20 bytes.
pub type Print = (usize, u32, [u8; 20]);

// The pages of a freshly formatted image, cut or filled up with zeros to so many.
fn fresh(alloc: Global, shape: &Shape, count: u32) -> Result<Vec<Page>, Fail> {
    let mut pages = Vec::new(alloc);
    pages.push(super_page(shape))?;
    for _ in 1..count {
        pages.push(Page::zero())?;
    }
    Ok(pages)
}

fn set_byte(pages: &mut [Page], byte: &Byte) {
    let (number, at, value) = *byte;
    if number < pages.len() && at < 4096 {
        let page = &mut pages[number];
        page.0[at] = value;
    }
}

fn set_print(pages: &mut [Page], print: &Print) {
    let (number, entry, bytes) = *print;
    if number < pages.len() && entry < 170 {
        set_print_entry(&mut pages[number], entry, Some(bytes));
    }
}

// A device with these pages, which has made no call.
fn device(alloc: Global, pages: Vec<Page>) -> Result<MemDevice, Fail> {
    let _count = u32::try_from(pages.len())?;
    Ok(MemDevice::holding(alloc, pages))
}

// A freshly formatted image of so many pages. Of 4 blocks and 4 data pages the map page is page 1, the
// count page is page 2, the print page is page 3, and the data pages are pages 4 to 7.
pub fn formatted(alloc: Global, shape: &Shape, pages: u32) -> Result<MemDevice, Fail> {
    device(alloc, fresh(alloc, shape, pages)?)
}

// The image of this shape, freshly formatted but for these bytes and fingerprints.
pub fn image(
    alloc: Global,
    shape: &Shape,
    bytes: &[Byte],
    prints: &[Print],
) -> Result<MemDevice, Fail> {
    let mut pages = fresh(alloc, shape, shape.total())?;
    for byte in bytes {
        set_byte(&mut pages, byte);
    }
    for print in prints {
        set_print(&mut pages, print);
    }
    device(alloc, pages)
}
