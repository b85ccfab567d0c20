// Worked places, the bytes of a superblock, and each kind of malformed entry.
use page_device::{Damage, Page};
use page_layout::{
    NotFormatted, Shape, Table, print_entry, read_super, set_print_entry, super_page, table_fault,
};
use std::test::Fail;

// Blocks, data pages, and where then the counts, the prints and the data begin and the image ends.
const PLACES: [[u32; 6]; 5] = [
    [4, 4, 2, 3, 4, 8],
    [2, 1, 2, 3, 4, 5],
    [2048, 2048, 3, 5, 18, 2066],
    [131072, 4, 129, 130, 131, 135],
    [4194304, 1048576, 4097, 5121, 11290, 1059866],
];

// A page of an image of 4 blocks and 4 data pages that is zero but for one byte, its place and value,
// and the first malformed entry.
const MALFORMED: [(u32, usize, u8, u32); 10] = [
    (1, 0, 5, 0),
    (1, 16, 1, 4),
    (2, 15, 128, 3),
    (2, 16, 1, 4),
    (3, 0, 2, 0),
    (3, 25, 1, 1),
    (3, 28, 1, 1),
    (3, 96, 1, 4),
    (3, 4080, 1, 170),
    (3, 4095, 1, 170),
];

#[test]
fn has_places(rt: HostRuntime) -> Result<(), Fail> {
    for [blocks, pages, counts, prints, data, total] in PLACES {
        let shape = Shape::new(blocks, pages)?;
        assert_eq!(rt; shape.first_count_page(), counts);
        assert_eq!(rt; shape.first_print_page(), prints);
        assert_eq!(rt; shape.first_data_page(), data);
        assert_eq!(rt; shape.total(), total);
    }
    Ok(())
}

#[test]
fn finds_entries(rt: HostRuntime) -> Result<(), Fail> {
    let shape = Shape::new(2048, 2048)?;
    assert_eq!(rt; shape.map_place(1024), (2, 0));
    assert_eq!(rt; shape.count_place(1024), (3, 1023));
    assert_eq!(rt; shape.print_place(171), (6, 0));
    assert_eq!(rt; shape.data_place(2048), 2065);
    Ok(())
}

#[test]
fn knows_tables(rt: HostRuntime) -> Result<(), Fail> {
    let shape = Shape::new(4, 4)?;
    let tables = [
        None,
        Some(Table::Map),
        Some(Table::Count),
        Some(Table::Print),
        None,
    ];
    for (page, table) in (0..5).zip(tables) {
        assert_eq!(rt; shape.table_of(page), table);
    }
    Ok(())
}

#[test]
fn has_bytes(rt: HostRuntime) -> Result<(), Fail> {
    let page = super_page(&Shape::new(4, 4)?);
    let start = *b"OMDEDUP1\x01\0\0\0\x04\0\0\0\x04\0\0\0";
    assert_eq!(rt; page.bytes()[..20], start[..]);
    let shape = read_super(&page)?;
    assert_eq!(rt; (shape.blocks, shape.pages, shape.version), (4, 4, 1));
    Ok(())
}

// The page with another byte at a place.
fn with_byte(mut page: Page, at: usize, byte: u8) -> Page {
    if at < 4096 {
        page.0[at] = byte;
    }
    page
}

// What is read where one byte of a superblock is another.
fn version_with(at: usize, byte: u8) -> Result<u32, NotFormatted> {
    let shape = Shape::new(4, 4).map_err(|_| NotFormatted)?;
    let page = with_byte(super_page(&shape), at, byte);
    read_super(&page).map(|shape| shape.version)
}

#[test]
fn reads_known_versions(rt: HostRuntime) {
    assert_eq!(rt; version_with(8, 2), Ok(2));
    assert_eq!(rt; version_with(8, 3), Err(NotFormatted));
    assert_eq!(rt; version_with(12, 0), Err(NotFormatted));
    assert_eq!(rt; version_with(4095, 1), Err(NotFormatted));
}

// The first malformed entry of a page that is zero but for one byte.
fn fault_with(page_no: u32, at: usize, byte: u8) -> Option<Damage> {
    let shape = Shape::new(4, 4).ok()?;
    let _ = shape.table_of(page_no)?;
    table_fault(page_no, &with_byte(Page::zero(), at, byte), &shape)
}

#[test]
fn finds_malformed_entries(rt: HostRuntime) {
    for (page, at, byte, entry) in MALFORMED {
        assert_eq!(rt; fault_with(page, at, byte), Some(Damage { page, entry }));
    }
}

#[test]
fn sets_prints(rt: HostRuntime) {
    let mut page = Page::zero();
    set_print_entry(&mut page, 169, Some([7; 20]));
    assert_eq!(rt; print_entry(&page, 169), Some([7; 20]));
    assert_eq!(rt; print_entry(&page, 168), None);
    set_print_entry(&mut page, 169, None);
    assert_eq!(rt; print_entry(&page, 169), None);
}
