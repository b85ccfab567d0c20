// Counts at both ends of a page, raised and lowered.
ghost use Rattle.std.specs.Prelude.{◌≤◌};

use page_device::Page;
use page_layout::{Shape, set_count_entry};
use ref_counts::{MAX_COUNT, count, lower, raise};
use std::test::Fail;

// Raises a count, where it may be raised.
fn raise_once(shape: &Shape, page: &mut Page, p: u32) -> bool
    requires first { 1 ≤ p }
    requires last { p ≤ shape.now.pages }
{
    let may = count(shape, page, p) < MAX_COUNT;
    if may {
        raise(shape, page, p);
    }
    may
}

// Lowers a count, where it may be lowered.
fn lower_once(shape: &Shape, page: &mut Page, p: u32) -> bool
    requires first { 1 ≤ p }
    requires last { p ≤ shape.now.pages }
{
    let may = count(shape, page, p) > 0;
    if may {
        lower(shape, page, p);
    }
    may
}

#[test]
fn counts_pages(rt: HostRuntime) -> Result<(), Fail> {
    let shape = Shape::new(4, 2048)?;
    let mut page = Page::zero();
    assert!(rt; raise_once(&shape, &mut page, 1025));
    assert!(rt; raise_once(&shape, &mut page, 1025));
    assert!(rt; raise_once(&shape, &mut page, 2048));
    assert!(rt; lower_once(&shape, &mut page, 1025));
    assert_eq!(rt; count(&shape, &page, 1025), 1);
    assert_eq!(rt; count(&shape, &page, 1026), 0);
    assert_eq!(rt; page.bytes()[..8], [1, 0, 0, 0, 0, 0, 0, 0][..]);
    assert_eq!(rt; page.bytes()[4092..], [1, 0, 0, 0][..]);
    Ok(())
}

#[test]
fn ends_where_counts_end(rt: HostRuntime) -> Result<(), Fail> {
    let shape = Shape::new(4, 4)?;
    let mut page = Page::zero();
    assert!(rt; !lower_once(&shape, &mut page, 1));
    set_count_entry(&mut page, 0, MAX_COUNT);
    assert!(rt; !raise_once(&shape, &mut page, 1));
    assert!(rt; lower_once(&shape, &mut page, 1));
    assert_eq!(rt; count(&shape, &page, 1), 2_147_483_646);
    Ok(())
}
