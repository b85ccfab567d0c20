// Each call once, beside what a plain list of pages holds.
use page_device::Page;
use sparse_pages::SparsePages;
use std::test::Fail;

// Appends the block of a number, where there is room.
fn put(pages: &mut SparsePages, number: u64) -> bool {
    if pages.is_full() {
        return false;
    }
    pages.push(&Page::numbered(number));
    true
}

// Makes a page the block of a number, where there is such a page.
fn set(pages: &mut SparsePages, j: u32, number: u64) -> bool {
    if j >= pages.len() {
        return false;
    }
    *pages.edit(j) = Page::numbered(number);
    true
}

// The last byte of the number of the block that a page is.
fn at(pages: &SparsePages, j: u32) -> Option<u8> {
    if j >= pages.len() {
        return None;
    }
    Some(pages.page(j).bytes()[7])
}

// Zeros, 7, zeros and 8, and no fifth page. Pages of zeros that are edited change nothing of each other.
#[test]
fn pages_are_edited_apart(rt: HostRuntime) -> Result<(), Fail> {
    let mut pages = SparsePages::with_capacity(rt.alloc(), 4)?;
    for (number, there) in [(0, true), (7, true), (0, true), (8, true), (9, false)] {
        assert_eq!(rt; put(&mut pages, number), there, "number {number}");
    }
    for (j, content) in [
        (0, Some(0)),
        (1, Some(7)),
        (2, Some(0)),
        (3, Some(8)),
        (4, None),
    ] {
        assert_eq!(rt; at(&pages, j), content, "page {j}");
    }
    for (j, number) in [(2, 5), (0, 6), (2, 9), (1, 0)] {
        assert!(rt; set(&mut pages, j, number));
    }
    for (j, content) in [(0, Some(6)), (1, Some(0)), (2, Some(9)), (3, Some(8))] {
        assert_eq!(rt; at(&pages, j), content, "page {j}, edited");
    }
    Ok(())
}
