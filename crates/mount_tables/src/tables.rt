// What a store keeps of the tables of an image.
ghost use Rattle.std.specs.Prelude.{◌≡◌, ◌+◌, length, IfOk};
ghost use Rattle.mount_tables.specs.Made.{AreFew, IsMadeOf};

use crate::pool::pool_of;
use crate::totals::totals_of;
use finger_table::Prints;
use page_alloc::Pool;
use page_device::NoMemory;
use page_layout::Shape;
use std::alloc::Global;
use store_core::Totals;

/// What a store keeps of the tables of an image: its shape, which data pages are free, the print of each data
/// page and the pages of each print, and the totals of the counts and names.
#[derive(Drop)]
pub struct Tables {
    pub shape: Shape,
    pub pool: Pool,
    pub prints: Prints,
    pub totals: Totals,
}

// The tables of an image of this shape, of which so many blocks have a name, with these counts, and prints by the
// number of the page. The counts are let go before the index of the prints is made.
pub fn tables_of(
    alloc: Global,
    shape: Shape,
    mapped: u32,
    counts: Vec<u32>,
    table: Vec<Option<[u8; 20]>>,
) -> Result<Tables, NoMemory>
    requires counts { length counts.items ≡ shape.pages }
    requires few { AreFew shape.pages counts.items }
    requires table { length table.items ≡ shape.pages + 1 }
    ensures { IfOk result (IsMadeOf shape mapped counts.items table.items) }
{
    let pool = match pool_of(alloc, &shape, &counts) {
        Ok(pool) => pool,
        Err(error) => return Err(error),
    };
    let totals = totals_of(&counts, mapped);
    drop(counts);
    match Prints::from_table(alloc, table) {
        Ok(prints) => Ok(Tables {
            shape,
            pool,
            prints,
            totals,
        }),
        Err(error) => Err(error),
    }
}
