// Slots at both ends of a page, read and set.
use logical_map::{set_slot, slot};
use page_device::Page;
use page_layout::Shape;
use std::test::Fail;

#[test]
fn sets_slots(rt: HostRuntime) -> Result<(), Fail> {
    let shape = Shape::new(2048, 4)?;
    let mut page = Page::zero();
    set_slot(&shape, &mut page, 1024, 3);
    set_slot(&shape, &mut page, 2047, 4);
    assert_eq!(rt; slot(&shape, &page, 1024), 3);
    assert_eq!(rt; slot(&shape, &page, 1025), 0);
    assert_eq!(rt; slot(&shape, &page, 2047), 4);
    assert_eq!(rt; page.bytes()[..8], [3, 0, 0, 0, 0, 0, 0, 0][..]);
    assert_eq!(rt; page.bytes()[4092..], [4, 0, 0, 0][..]);
    Ok(())
}
