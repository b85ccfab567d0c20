// The entries of a table page.
ghost use Rattle.std.specs.Prelude.{◌≡◌, Some, IsSome};
ghost use Rattle.page_layout.specs.declared.shape.Table.{Table};
ghost use Rattle.page_layout.specs.Entries.{table_at, entries_of, IsEntry, IsFirstFault};

use page_device::Page;
use page_layout::{Shape, table_fault};

/// The number of the first malformed entry of a table page in rising order; none exactly where each is
/// well formed, as in a page of zeros, which is passed at once. Linear in the page. It does not say in what way the
/// entry is malformed.
pub fn malformed_entry(k: u32, page: &Page, shape: &Shape) -> Option<u32>
    requires { IsSome (table_at shape.now k) }
    ensures { (t : Table) → table_at shape.now k ≡ Some t → IsFirstFault (IsEntry t shape.now k page.now) (entries_of t) result }
{
    if page.is_zero() {
        return None;
    }
    match table_fault(k, page, shape) {
        Some(damage) => Some(damage.entry),
        None => None,
    }
}
