// All images that a crash may leave at a moment, of a device of 8 pages.
use page_device::{Device, End, Failed, LogEntry, MemDevice, Page};
use std::alloc::Global;
use std::test::Fail;

// For each page how many contents were written to it since the last barrier, after one entry more.
fn follow(counts: &mut [u32; 8], entry: &LogEntry) {
    match entry {
        LogEntry::Write { page, from: _, end } => {
            let at = *page as usize;
            if *end != End::Refused && at < 8 {
                counts[at] = counts[at].saturating_add(1);
            }
        }
        LogEntry::Flush { end } => {
            if *end == End::Done {
                *counts = [0; 8];
            }
        }
    }
}

// The same, after so many calls.
fn written_since(device: &MemDevice, at: u64) -> [u32; 8] {
    let mut counts = [0; 8];
    for (call, entry) in device.log().iter().enumerate() {
        if (call as u64) < at {
            follow(&mut counts, entry);
        }
    }
    counts
}

// The next choice: the first page that can take one more does, and those before it begin anew.
fn next(mut choice: [u32; 8], most: &[u32; 8]) -> [u32; 8] {
    for page in 0..8 {
        if choice[page] < most[page] {
            choice[page] += 1;
            return choice;
        }
        choice[page] = 0;
    }
    choice
}

// How many choices there are.
fn choices(most: &[u32; 8]) -> u32 {
    let mut product: u32 = 1;
    for end in most {
        product = product.saturating_mul(end.saturating_add(1));
    }
    product
}

// One page of a device.
fn page(device: &mut MemDevice, k: u32) -> Result<Page, Failed> {
    let mut page = Page::zero();
    if k >= device.pages() {
        return Err(Failed);
    }
    device.read(k, &mut page)?;
    Ok(page)
}

// The pages of a device.
pub fn pages_of(alloc: Global, device: &mut MemDevice) -> Result<Vec<Page>, Fail> {
    let mut pages = Vec::new(alloc);
    for k in 0..8 {
        pages.push(page(device, k)?)?;
    }
    Ok(pages)
}

// A device with each image that a crash after so many calls may leave.
pub fn left_at(alloc: Global, device: &MemDevice, at: u64) -> Result<Vec<MemDevice>, Fail> {
    let most = written_since(device, at);
    let mut images = Vec::new(alloc);
    let mut choice = [0; 8];
    for _ in 0..choices(&most) {
        images.push(device.image(at, &choice)?)?;
        choice = next(choice, &most);
    }
    Ok(images)
}

// The pages of each of them.
pub fn images_at(alloc: Global, device: &MemDevice, at: u64) -> Result<Vec<Vec<Page>>, Fail> {
    let mut images = Vec::new(alloc);
    for image in left_at(alloc, device, at)? {
        let mut image = image;
        images.push(pages_of(alloc, &mut image)?)?;
    }
    Ok(images)
}

// The page is the block of this number.
pub fn holds(page: &Page, number: u64) -> bool {
    page.bytes() == Page::numbered(number).bytes()
}
