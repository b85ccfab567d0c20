// The totals of counts.
ghost use Rattle.std.specs.Prelude.{◌≤◌, length};
ghost use Rattle.mount_tables.specs.Made.{AreFew, AreTotalsOf};

use store_core::Totals;

// The totals of data pages that are counted so, and of so many blocks with a name. Linear in the data pages.
pub fn totals_of(counts: &[u32], mapped: u32) -> Totals
    requires short { length counts.now ≤ 1048576 }
    requires few { AreFew (length counts.now) counts.now }
    ensures { AreTotalsOf (length counts.now) counts.now mapped result }
{
    let mut live = 0_u32;
    let mut sum = 0_u64;
    for i in 0..counts.len() {
        let count = counts[i];
        sum = sum.saturating_add(u64::from(count));
        if count != 0 {
            live = live.saturating_add(1);
        }
    }
    Totals { live, sum, mapped }
}
