// A store over a device in memory.
ghost use Rattle.std.specs.Prelude.{◌≤◌};
ghost use Rattle.page_device.specs.MemorySeen.{memory_seen};
ghost use Rattle.page_layout.specs.Shape.{total};

use crate::tests::images::formatted;
use dedup_writer::{Refusal, Store};
use mount_reader::mount;
use page_device::{Failed, LogEntry, MemDevice, Page};
use page_layout::Shape;
use std::alloc::Global;
use std::test::Fail;

// What is asked of a store. The block of the number 0 is the zero block.
#[derive(Clone, Copy, Drop)]
pub enum Step {
    // The block gets the block of a number.
    Write(u32, u64),
    Discard(u32),
    Flush,
}

// A step, its answer, and the device calls after it.
pub type Row = (Step, Result<(), Refusal>, u64);

#[derive(Drop)]
pub struct Bench {
    device: MemDevice,
    store: Store,
    ghost fits: { total store.tables.shape ≤ (memory_seen device).pages },
}

// The page that a device call wrote.
fn page_of(entry: &LogEntry) -> Option<u32> {
    match entry {
        LogEntry::Write { page, .. } => Some(*page),
        LogEntry::Flush { .. } => None,
    }
}

impl Bench {
    // A store over a freshly formatted image.
    pub fn formatted(alloc: Global, blocks: u32, pages: u32) -> Result<Bench, Fail> {
        let shape = Shape::new(blocks, pages)?;
        Bench::over(alloc, formatted(alloc, &shape, shape.total())?)
    }

    // A store over the image of a device.
    pub fn over(alloc: Global, device: MemDevice) -> Result<Bench, Fail> {
        let mut device = device;
        let store = mount(alloc, &mut device)?;
        Ok(Bench { device, store })
    }

    // The same image mounted once more.
    pub fn again(self, alloc: Global) -> Result<Bench, Fail> {
        Bench::over(alloc, self.device)
    }

    // The writes and barriers of the device so far.
    pub fn calls(&self) -> u64 {
        self.device.calls()
    }

    // The reads of the device so far.
    pub fn reads(&self) -> u64 {
        self.device.reads()
    }

    // Whether the device calls from this one on, counted from 0, wrote these pages: none at a barrier.
    pub fn wrote(&self, from: usize, pages: &[Option<u32>]) -> bool {
        let log = self.device.log();
        for (entry, page) in log.iter().skip(from).zip(pages) {
            if page_of(entry) != *page {
                return false;
            }
        }
        log.len().saturating_sub(from) >= pages.len()
    }

    // Makes device calls fail, counted from 1.
    pub fn fail_calls(&mut self, calls: &[u64], taken: bool) -> Result<(), Fail> {
        for call in calls {
            self.device.fail_call(*call, taken)?;
        }
        Ok(())
    }

    fn write(&mut self, block: u32, page: &Page) -> Result<(), Refusal> {
        self.store.write(&mut self.device, block, page)
    }

    fn discard(&mut self, block: u32) -> Result<(), Refusal> {
        self.store.discard(&mut self.device, block)
    }

    fn flush(&mut self) -> Result<(), Refusal> {
        match self.store.flush(&mut self.device) {
            Ok(()) => Ok(()),
            Err(Failed) => Err(Refusal::Device),
        }
    }

    fn does(&mut self, step: Step) -> Result<(), Refusal> {
        match step {
            Step::Write(block, number) => self.write(block, &Page::numbered(number)),
            Step::Discard(block) => self.discard(block),
            Step::Flush => self.flush(),
        }
    }

    // The first row that says something else than what comes.
    pub fn first_wrong(&mut self, rows: &[Row]) -> Option<usize> {
        for (at, row) in rows.iter().enumerate() {
            let (step, answer, calls) = *row;
            if self.does(step) != answer || self.calls() != calls {
                return Some(at);
            }
        }
        None
    }

    // Whether a block reads as the block of a number.
    fn holds(&mut self, block: u32, number: u64) -> bool {
        let mut page = Page::zero();
        match self.store.read(&mut self.device, block, &mut page) {
            Ok(()) => page.bytes() == Page::numbered(number).bytes(),
            Err(_) => false,
        }
    }

    // Whether each of these blocks reads as the block of its number.
    pub fn hold(&mut self, blocks: &[(u32, u64)]) -> bool {
        for (block, number) in blocks {
            if !self.holds(*block, *number) {
                return false;
            }
        }
        true
    }
}
