// What a command is answered.
use page_device::{Damage, Page};

/// The numbers of a store.
#[derive(Clone, Copy, Debug, PartialEq, Eq, Drop)]
pub struct Stat {
    /// Data pages whose count is above 0.
    pub live: u32,
    /// By how much the counts are above the names and the postponed releases.
    pub waste: u64,
    /// Releases that wait.
    pub postponed: u32,
    /// Pages that wait to be written.
    pub dirty: u32,
}

/// What a scan changed.
#[derive(Clone, Copy, Debug, PartialEq, Eq, Drop)]
pub struct ScanReport {
    /// Data pages whose count became 0.
    pub freed: u32,
    /// Data pages whose count became lower and stayed above 0.
    pub lowered: u32,
    /// Data pages that got a fingerprint.
    pub printed: u32,
}

/// Why a copy stopped.
#[derive(Clone, Copy, Debug, PartialEq, Eq, Drop)]
pub enum Halt {
    Fault,
    Damaged(Damage),
    Full { live: u32, waste: u64 },
    NoMemory,
}

/// The reply to a command or to a line that is none.
#[derive(Drop)]
pub enum Reply {
    Done,
    Bytes(Page),
    /// A block is not below the number of blocks.
    Range,
    /// The device counted a fault.
    Fault,
    /// A table page that was read holds this malformed entry.
    Damaged(Damage),
    /// No data page is free.
    Full { live: u32, waste: u64 },
    NoMemory,
    Stat(Stat),
    Scan(ScanReport),
    /// No unused policy has the label.
    NoPolicy,
    /// The line is no command.
    Bad,
    /// The two ranges of a copy overlap.
    Overlap,
    /// A copy ended after `done` blocks.
    Stopped { done: u32, why: Halt },
}
