// The session without a fault, against a table made by hand: a write puts the data page, the count page and
// the map page, each with a barrier behind it, and takes a data page that no write took before.
use crate::tests::bench::{ends, formatted};
use crate::tests::images::{holds, images_at};
use page_device::{MemDevice, Page};
use plain_array::{block_of, count_of, data_of, is_fit, map_of, names};
use session::Status;
use std::alloc::Global;
use std::process::Abort;
use std::test::Fail;

// One image of a moment: what the map names at block 0, the counts of the first two data pages, the numbers
// of the blocks that they hold, and the number of the block that block 0 reads.
type Seen = (u32, (u32, u32), (u64, u64), u64);

// The images with their moments, in the order of the moments; at each of them first the image that has nothing
// of the call before it.
const TABLE: [(u64, Seen); 19] = [
    (0, (0, (0, 0), (0, 0), 0)),
    // the data page is written and fixed
    (1, (0, (0, 0), (0, 0), 0)),
    (1, (0, (0, 0), (5, 0), 0)),
    (2, (0, (0, 0), (5, 0), 0)),
    // the count page
    (3, (0, (0, 0), (5, 0), 0)),
    (3, (0, (1, 0), (5, 0), 0)),
    (4, (0, (1, 0), (5, 0), 0)),
    // the map page
    (5, (0, (1, 0), (5, 0), 0)),
    (5, (1, (1, 0), (5, 0), 5)),
    (6, (1, (1, 0), (5, 0), 5)),
    // nothing is pending, so the flush makes no call; the second write takes the next data page
    (7, (1, (1, 0), (5, 0), 5)),
    (7, (1, (1, 0), (5, 6), 5)),
    (8, (1, (1, 0), (5, 6), 5)),
    (9, (1, (1, 0), (5, 6), 5)),
    (9, (1, (1, 1), (5, 6), 5)),
    (10, (1, (1, 1), (5, 6), 5)),
    (11, (1, (1, 1), (5, 6), 5)),
    (11, (2, (1, 1), (5, 6), 6)),
    (12, (2, (1, 1), (5, 6), 6)),
];

// The image has this in its tables and data pages.
fn has(pages: &[Page], seen: Seen) -> bool {
    let (name, counts, held, _) = seen;
    map_of(pages, 0) == name
        && (count_of(pages, 1), count_of(pages, 2)) == counts
        && holds(&data_of(pages, 1), held.0)
        && holds(&data_of(pages, 2), held.1)
}

// It is fit, its pages have the names that the map says, and its blocks read so.
fn reads(pages: &[Page], seen: Seen) -> bool {
    let (name, _, _, number) = seen;
    is_fit(pages)
        && names(pages, 1) == u32::from(name == 1)
        && names(pages, 2) == u32::from(name == 2)
        && holds(&block_of(pages, 0), number)
        && holds(&block_of(pages, 1), 0)
        && holds(&block_of(pages, 3), 0)
}

// Every image of every moment, each with its moment.
fn all_images(alloc: Global, device: &MemDevice) -> Result<Vec<(u64, Vec<Page>)>, Fail> {
    let mut all = Vec::new(alloc);
    for at in 0..13 {
        for pages in images_at(alloc, device, at)? {
            all.push((at, pages))?;
        }
    }
    Ok(all)
}

// An image of the session, beside its row of the table.
fn is_seen(rt: &impl Abort, row: &(u64, Seen), image: &(u64, Vec<Page>)) {
    let (at, pages) = image;
    assert!(rt;
        *at == row.0 && has(pages, row.1) && reads(pages, row.1),
        "after {at} calls"
    );
}

#[test]
fn leaves_each_image_of_the_table(rt: HostRuntime) -> Result<(), Fail> {
    let mut device = formatted(rt.alloc())?;
    let end = ends(rt.alloc(), &mut device, "6 ok\n6 ok\n12 ok\n")?;
    assert_eq!(rt; (end, device.calls()), ((Status::Done, true), 12));
    let images = all_images(rt.alloc(), &device)?;
    assert_eq!(rt; images.len(), TABLE.len());
    for (row, image) in TABLE.iter().zip(images.iter()) {
        is_seen(&rt, row, image);
    }
    Ok(())
}
