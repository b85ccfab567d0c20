// What is owed, and what may be on the device.
ghost use Rattle.store_core.specs.Ledger.{ledger_told};

use birth_marks::Births;
use flush_engine::Watch;
use page_alloc::Pool;
use release_queue::Queue;

/// The decrements that are owed, which data pages are free, and which names and prints were never on the device. It is told of
/// each write and barrier by the engine.
#[derive(Drop)]
pub struct Ledger {
    pub(crate) queue: Queue,
    pub(crate) pool: Pool,
    pub(crate) births: Births,
}

impl Watch for Ledger {
    ghost told = { ledger_told };

    // Costs the slots of the page, and for a count page its 1024 data pages in 16 steps.
    fn tried(&mut self, page: u32) {
        self.pool.count_tried(page);
        self.births.tried(page);
    }

    // Costs the queued releases of a map page, and for a count page its 1024 data pages in 16 steps.
    fn written(&mut self, page: u32) {
        self.queue.map_written(page);
        self.queue.count_written(page);
        self.pool.count_written(page);
        self.births.written(page);
    }

    // Costs the queued releases, and the pages that were written since the last barrier.
    fn fixed(&mut self) {
        self.queue.fixed();
        self.pool.fixed();
        self.births.fixed();
    }
}
