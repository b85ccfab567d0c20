// What a check answers.
use page_device::Damage;

/// What a check finds: the first in this order, and of one kind the first in rising pages and entries.
#[derive(Clone, Copy, Debug, PartialEq, Eq, Drop)]
pub enum Verdict {
    /// The image is sound; its data pages are counted so much more often than blocks name them.
    Sound { waste: u64 },
    /// This entry is malformed. Its page is a page of the device.
    Damaged(Damage),
    /// The stored count of this data page, counted from 1, is below the number of blocks that name it.
    LowCount { page: u32, stored: u32, named: u32 },
    /// The fingerprint of this data page, counted from 1, is not that of its content.
    WrongPrint { page: u32 },
    /// This data page, counted from 1, has a fingerprint, and its count is 0.
    PrintOnZero { page: u32 },
}

/// Why there is no verdict.
#[derive(Clone, Copy, Debug, PartialEq, Eq, Drop)]
pub enum CheckError {
    /// The device counted a fault.
    Device,
    /// The device has no page, page 0 is no superblock, or the device has fewer pages than it tells of.
    NotFormatted,
    NoMemory,
}

// Why looking over an image ends early.
#[derive(Clone, Copy, Drop)]
pub enum Stop {
    Device,
    Told(Verdict),
}
