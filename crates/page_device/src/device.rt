// A device as everything above sees it.
ghost use Rattle.std.specs.Prelude.{◌≡◌, ◌<◌, ◌≤◌, true, length, slice_get, OnOk, OnErr};
ghost use Rattle.page_device.specs.Disk.{newest};
ghost use Rattle.page_device.specs.Counts.{OneFault};
ghost use Rattle.page_device.specs.Meaning.{Meaning, OneCall, OneRead, WriteEntry, FlushEntry, Grows, IsUntouched};

use crate::{Failed, Page};

/// How a write or a barrier ended.
#[derive(Clone, Copy, Debug, PartialEq, Eq, Drop)]
pub enum End {
    /// It succeeded.
    Done,
    /// It failed and changed nothing.
    Refused,
    /// It failed, and the content may be on the disk nevertheless.
    Taken,
}

/// One write or barrier, as the log of a device has it.
#[derive(Drop)]
pub enum LogEntry {
    Write { page: u32, from: Page, end: End },
    Flush { end: End },
}

/// A device of 4096-byte pages, numbered from 0.
///
/// The disk model: a device keeps for each page the content that is fixed, and the contents written
/// since the last successful barrier. A read gives the newest one. A crash leaves, for each page by
/// itself, the fixed content or any one of those written since. `docs/DEFINITIONS.md` reads this aloud.
///
/// Each call that answers `Failed` raises the device's count of faults by one, and no other call changes it; each write
/// and each barrier, failed or not, raises its count of calls by one. What a device tells of itself (its pages, its log,
/// its reads) is a meaning that no call changes. A count stands still at its end.
pub trait Device {
    /// What it tells of itself.
    ghost seen: { Self → Meaning };

    /// The number of pages. Constant time. It does not say that another process leaves the number.
    fn pages(&self) -> u32
        ensures { result ≡ (seen self.now).pages };

    /// Makes the device at least so many pages large. New pages are zeros and are fixed at once.
    /// `room(0)` asks for no page and lets a device be opened. A failed call changes nothing but the
    /// count of faults. It does not say how many more pages there are than asked for, where the device had fewer.
    fn room(&mut self, pages: u32) -> Result<(), Failed>
        ensures cause { OneFault result (seen self.old).faults (seen self.new).faults }
        ensures grown { OnOk result (Grows pages (seen self.old) (seen self.new)) }
        ensures untouched { OnErr result (IsUntouched (seen self.old) (seen self.new)) };

    /// Reads a page. After `Failed` nothing is known of `into`. It does not say that a read ever succeeds, nor what a device
    /// gives that is not honest or tells no pages.
    fn read(&mut self, page: u32, into: &mut Page) -> Result<(), Failed>
        requires { page < (seen self.old).pages }
        ensures cause { OneFault result (seen self.old).faults (seen self.new).faults }
        ensures kept { OneRead (seen self.old) (seen self.new) }
        ensures newest { OnOk result ((seen self.old).honest ≡ true → (seen self.old).tells_pages ≡ true
            → slice_get (newest (seen self.old).state) page ≡ Some into.new) };

    /// Writes a whole page. After `Failed` the content may be on the disk or not. It does not say that a write ever
    /// succeeds, nor what of it is fixed before the next barrier.
    fn write(&mut self, page: u32, from: &Page) -> Result<(), Failed>
        requires { page < (seen self.old).pages }
        ensures cause { OneFault result (seen self.old).faults (seen self.new).faults }
        ensures call { OneCall (WriteEntry page from.now result) (seen self.old) (seen self.new) };

    /// The barrier: fixes the newest content of every page. A failed one changes nothing. It does not say that a barrier
    /// ever succeeds.
    fn flush(&mut self) -> Result<(), Failed>
        ensures cause { OneFault result (seen self.old).faults (seen self.new).faults }
        ensures call { OneCall (FlushEntry result) (seen self.old) (seen self.new) };

    /// Where it tells its pages, there are so many of them.
    ghost counts: { (d : Self) → (seen d).tells_pages ≡ true → length (seen d).state.fixed ≡ (seen d).pages };
}
