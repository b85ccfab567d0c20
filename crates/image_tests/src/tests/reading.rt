// What is read of the image of 4 blocks and 4 data pages.
use crate::tests::images::{formatted, image};
use image_reader::{find_shape, malformed_entry, read_page};
use page_device::{Device, MemDevice};
use page_layout::Shape;
use std::test::Fail;

#[test]
fn finds_the_shape(rt: HostRuntime) -> Result<(), Fail> {
    let shape = Shape::new(4, 4)?;
    let mut whole = formatted(rt.alloc(), &shape, 8)?;
    let found = find_shape(&mut whole)?.map(|shape| (shape.blocks, shape.pages, shape.version));
    assert_eq!(rt; found, Some((4, 4, 1)));
    assert_eq!(rt; whole.calls(), 0);
    let mut short = formatted(rt.alloc(), &shape, 7)?;
    assert!(rt; find_shape(&mut short)?.is_none());
    let mut empty = MemDevice::holding(rt.alloc(), Vec::new(rt.alloc()));
    assert!(rt; find_shape(&mut empty)?.is_none());
    Ok(())
}

// The first entry of page 1 names data page 5, which there is not.
#[test]
fn reads_a_page(rt: HostRuntime) -> Result<(), Fail> {
    let shape = Shape::new(4, 4)?;
    let mut device = image(rt.alloc(), &shape, &[(1, 0, 5)], &[])?;
    if device.pages() > 1 {
        let page = read_page(&mut device, 1)?;
        assert_eq!(rt; malformed_entry(1, &page, &shape), Some(0));
        assert_eq!(rt; malformed_entry(3, &page, &shape), Some(0));
        assert_eq!(rt; malformed_entry(2, &page, &shape), None);
    }
    Ok(())
}
