// A pool is told what is counted.
ghost use Rattle.std.specs.Prelude.{◌≡◌, ◌≤◌, ◌<◌, ℕ, length, IfOk};
ghost use Rattle.order_model.specs.Pool.{new_pool};
ghost use Rattle.page_alloc.specs.Pool.{told_of};
ghost use Rattle.image_reader.specs.Tallies.{tally_of};
ghost use Rattle.store_core.specs.Opened.{counted_so};
ghost use Rattle.mount_tables.specs.Made.{IsToldOf, taken_so};

use page_alloc::Pool;
use page_device::NoMemory;
use page_layout::Shape;
use std::alloc::Global;

// Takes each data page with a count above 0 out of a pool that was told nothing.
fn take_counted(pool: &mut Pool, shape: &Shape, counts: &[u32])
    requires shape { pool.old.shape ≡ shape.now }
    requires length { length counts.now ≡ shape.now.pages }
    requires fresh { (p : ℕ) → 1 ≤ p → p ≤ shape.now.pages → told_of pool.old p ≡ new_pool p }
    ensures shape { pool.new.shape ≡ shape.now }
    ensures taken { (p : ℕ) → 1 ≤ p → p ≤ shape.now.pages → told_of pool.new p ≡ taken_so (tally_of counts.now p) }
{
    for i in 0..shape.pages {
        if counts[i as usize] != 0 {
            pool.take(i + 1);
        }
    }
}

// Tells each count page as written, where the data pages with a count above 0 are taken.
fn tell_pages(pool: &mut Pool, shape: &Shape, counts: &[u32])
    requires shape { pool.old.shape ≡ shape.now }
    requires taken { (p : ℕ) → 1 ≤ p → p ≤ shape.now.pages → told_of pool.old p ≡ taken_so (tally_of counts.now p) }
    ensures shape { pool.new.shape ≡ shape.now }
    ensures told { (p : ℕ) → 1 ≤ p → p ≤ shape.now.pages → told_of pool.new p ≡ counted_so (tally_of counts.now p) }
{
    for page in shape.first_count_page()..shape.first_print_page() {
        pool.count_tried(page);
        pool.count_written(page);
    }
}

// The pool of an image whose data pages are counted so. Linear in the data pages.
pub fn pool_of(alloc: Global, shape: &Shape, counts: &[u32]) -> Result<Pool, NoMemory>
    requires length { length counts.now ≡ shape.now.pages }
    ensures { IfOk result (IsToldOf shape.now counts.now) }
{
    let mut pool = match Pool::new(alloc, shape) {
        Ok(pool) => pool,
        Err(error) => return Err(error),
    };
    take_counted(&mut pool, shape, counts);
    tell_pages(&mut pool, shape, counts);
    pool.fixed();
    Ok(pool)
}
