//! The map of an image, one page at a time: for each logical block the data page that it names.
//!
//! An image has its map pages in front, 1024 slots each. A call is given the page in which the block's
//! slot stands, wherever that page is kept. `specs/Slots.antt` says what a slot is, and what it is to
//! set one.
#![tactic(auto)]

ghost use Rattle.std.specs.Prelude.{◌≡◌, ◌<◌};
ghost use Rattle.logical_map.specs.Slots.{slot_of, SetsSlot};

use page_device::Page;
use page_layout::{Shape, map_entry, set_map_entry};

/// The data page that a block names, from 1 on, or 0 where it names none. `page` is the block's map page.
/// Constant time.
pub fn slot(shape: &Shape, page: &Page, block: u32) -> u32
    requires { block < shape.now.blocks }
    ensures { result ≡ slot_of page.now block }
{
    let (_, entry) = shape.map_place(block);
    map_entry(page, entry)
}

/// Has a block name the data page `p`, or none where `p` is 0, in `page`, its map page. No other slot
/// changes, nor any other byte of the page. Constant time.
pub fn set_slot(shape: &Shape, page: &mut Page, block: u32, p: u32)
    requires { block < shape.now.blocks }
    ensures { SetsSlot shape.now page.old block p page.new }
{
    let (_, entry) = shape.map_place(block);
    set_map_entry(page, entry, p);
}
