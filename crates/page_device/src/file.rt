// A file or a block device node as a device. It tells no content: this is the trusted edge.
ghost use Rattle.std.specs.Prelude.{◌≡◌, ◌<◌, ◌≤◌, ◌+◌, ◌^◌, Some, true, false, slice_get, IsSome, IsOk, IsErr, OnOk, OnErr, IfOk};
ghost use Rattle.page_device.specs.Disk.{newest};
ghost use Rattle.page_device.specs.Counts.{OneFault, Rises};
ghost use Rattle.page_device.specs.Meaning.{OneCall, OneRead, WriteEntry, FlushEntry, Grows, IsUntouched};
ghost use Rattle.page_device.specs.FileSeen.{file_seen, no_pages};

use crate::page_file::{Opened, PageFile, lock, make_new, open_there, sync_folder};
use crate::{Device, Failed, Page};
use std::fs::OpenFile;
use std::io;
use std::io::{ErrorKind, Seek, SeekFrom};
use std::rt::Files;

#[cfg(test)]
mod tests;

const PAGE_BYTES: u64 = 4096;

/// A file, or a block device node such as a disk, a partition or a network block device, by its path.
///
/// It is opened at the first `room`. `room(0)` opens what is there, and where nothing is there it has no page; a
/// `room` of more pages makes the file then, and syncs its folder. A file is locked before anything is read, as long
/// as it is open: of one that another process has open each call fails. It is synced once, so that nothing of an
/// earlier process is pending. Until then it has no page, and a barrier fails. A page is read and written as a whole at
/// its place, 4096 bytes from `4096 * page` on; a barrier is `sync_all`. Each error of the system is one fault and is
/// counted, and the reason of the first is kept.
///
/// A `room` that adds pages makes the file longer by zeros, and syncs it, so that they are fixed at once.
/// What a file has behind its whole pages is cut off then. A block device node can't be made longer: there
/// such a `room` fails. Of a file that may only be read each write fails, and each `room` that adds pages.
///
/// After a sync failed, at the opening, of new pages or of a barrier, every later call of this object
/// answers `Failed`: a system reports a write that it lost once, and may drop it then, so that a later
/// success would be a lie. Open the image anew: it is one that a crash may have left.
///
/// No clause says what the file gives or takes: that is the system's.
#[derive(Drop)]
pub struct FileDevice<'r, R: Files> {
    rt: &'r R,
    path: String,
    file: Option<R::File>,
    // Why it can't be written, where it can only be read.
    unwritable: Option<io::Error>,
    // Why it is not locked, where its system has no locks.
    unlocked: Option<io::Error>,
    // A sync failed.
    lost: bool,
    pages: u32,
    faults: u64,
    // The writes and barriers that were asked for.
    calls: u64,
    // Why the first call failed that did, and why nothing was found at the path.
    reason: Option<io::Error>,
    absent: Option<io::Error>,
}

// The device was not opened.
fn not_open() -> io::Error {
    io::Error::new(ErrorKind::Other, "it is not open")
}

// An earlier sync failed.
fn closed() -> io::Error {
    io::Error::new(ErrorKind::Other, "an earlier sync failed")
}

// Where a page begins.
fn place_of(page: u32) -> u64 {
    u64::from(page) * PAGE_BYTES
}

// Reads a whole page.
fn read_whole<F: PageFile>(file: &Option<F>, page: u32, into: &mut [u8]) -> io::Result<()> {
    let Some(file) = file else {
        return Err(not_open());
    };
    file.read_page_at(into, place_of(page))
}

// Writes a whole page.
fn write_whole<F: PageFile>(file: &Option<F>, page: u32, from: &[u8]) -> io::Result<()> {
    let Some(file) = file else {
        return Err(not_open());
    };
    file.write_page_at(from, place_of(page))
}

// Syncs the file.
fn sync_whole<F: OpenFile>(file: &Option<F>) -> io::Result<()>
    ensures { OnOk result (IsSome file.now) }
{
    let Some(file) = file else {
        return Err(not_open());
    };
    file.sync_all()
}

// The whole pages of the file, by seeking to its end: a block device node has no length of its own. A
// file of fewer pages than it had is a fault.
fn whole_pages<F: Seek>(file: &mut Option<F>, had: u32) -> io::Result<u32>
    ensures never_fewer { IfOk result (λ pages. had ≤ pages) }
    ensures open { OnOk result (IsSome file.new) }
{
    let Some(file) = file else {
        return Err(not_open());
    };
    let bytes = match file.seek(SeekFrom::End(0)) {
        Ok(bytes) => bytes,
        Err(why) => return Err(why),
    };
    let pages = (bytes / PAGE_BYTES).min(u64::from(u32::MAX)) as u32;
    if pages < had {
        return Err(io::Error::new(ErrorKind::Other, "it became shorter"));
    }
    Ok(pages)
}

// Makes the file of so many whole pages longer. What it has behind them is cut off first: it would stay
// at the beginning of the first new page, which is to be zeros.
fn lengthen<F: OpenFile>(file: &Option<F>, whole: u32, asked: u32) -> io::Result<()> {
    let Some(file) = file else {
        return Err(not_open());
    };
    for pages in [whole, asked] {
        file.set_len(place_of(pages))?;
    }
    Ok(())
}

impl<'r, R: Files> FileDevice<'r, R>
where
    R::File: PageFile,
{
    /// The device of a path. Only keeps the path. It does not say that anything is there.
    pub fn named(rt: &'r R, path: String) -> FileDevice<'r, R>
        ensures pages { result.pages ≡ 0 }
        ensures faults { result.faults ≡ 0 }
        ensures calls { result.calls ≡ 0 }
    {
        FileDevice {
            rt,
            path,
            file: None,
            unwritable: None,
            unlocked: None,
            lost: false,
            pages: 0,
            faults: 0,
            calls: 0,
            reason: None,
            absent: None,
        }
    }

    /// The path. No clause says which.
    pub fn path(&self) -> &str {
        self.path.as_str()
    }

    /// Why the first call failed that did, or else why nothing was found at the path. None where neither was. What the
    /// reason is no clause says: it is the system's.
    pub fn reason(&self) -> Option<io::Error> {
        match self.reason {
            Some(why) => Some(why),
            None => self.absent,
        }
    }

    /// Why the file is open without a lock, where it is. No clause says when.
    pub fn unlocked(&self) -> Option<io::Error> {
        self.unlocked
    }

    // Opens the file where it is not open: what is there, or a new one where that is asked. Tells whether it is open.
    fn open(&mut self, makes: bool) -> io::Result<bool>
        ensures pages { self.new.pages ≡ self.old.pages }
        ensures faults { self.new.faults ≡ self.old.faults }
        ensures calls { self.new.calls ≡ self.old.calls }
        ensures there { IfOk result (λ there. there ≡ true → IsSome self.new.file) }
        ensures makes { IfOk result (λ there. makes ≡ true → there ≡ true) }
        ensures lost { OnOk result (self.new.lost ≡ false) }
        ensures closed { self.old.lost ≡ true → (IsErr result) × (self.new.lost ≡ true) }
    {
        if self.lost {
            return Err(closed());
        }
        if self.file.is_some() {
            return Ok(true);
        }
        let why = match open_there(self.rt, self.path.as_str()) {
            Ok(opened) => {
                self.take(opened)?;
                return Ok(true);
            }
            Err(why) => why,
        };
        if why.kind() != ErrorKind::NotFound {
            return Err(why);
        }
        if !makes {
            self.absent = Some(why);
            return Ok(false);
        }
        self.make()?;
        Ok(true)
    }

    // Makes the file, and fixes its name.
    fn make(&mut self) -> io::Result<()>
        ensures pages { self.new.pages ≡ self.old.pages }
        ensures faults { self.new.faults ≡ self.old.faults }
        ensures calls { self.new.calls ≡ self.old.calls }
        ensures open { OnOk result (IsSome self.new.file) }
        ensures lost { OnOk result (self.new.lost ≡ false) }
        ensures closed { self.old.lost ≡ true → (IsErr result) × (self.new.lost ≡ true) }
    {
        let opened = match make_new(self.rt, self.path.as_str()) {
            Ok(opened) => opened,
            Err(why) => return Err(why),
        };
        if let Err(why) = sync_folder(self.rt, self.path.as_str()) {
            self.lost = true;
            return Err(why);
        }
        self.absent = None;
        self.take(opened)
    }

    // Locks a file that was opened, and syncs it.
    fn take(&mut self, opened: Opened<R::File>) -> io::Result<()>
        ensures pages { self.new.pages ≡ self.old.pages }
        ensures faults { self.new.faults ≡ self.old.faults }
        ensures calls { self.new.calls ≡ self.old.calls }
        ensures open { OnOk result (IsSome self.new.file) }
        ensures lost { OnOk result (self.new.lost ≡ false) }
        ensures closed { self.old.lost ≡ true → (IsErr result) × (self.new.lost ≡ true) }
    {
        self.unlocked = lock(&opened.file)?;
        self.unwritable = opened.unwritable;
        self.file = Some(opened.file);
        self.sync()
    }

    // Opens the file where it is not open, makes room, and fixes the pages that it adds.
    fn grow(&mut self, asked: u32) -> io::Result<u32>
        ensures pages { self.new.pages ≡ self.old.pages }
        ensures faults { self.new.faults ≡ self.old.faults }
        ensures calls { self.new.calls ≡ self.old.calls }
        ensures enough { IfOk result (λ pages. asked ≤ pages) }
        ensures never_fewer { IfOk result (λ pages. self.old.pages ≤ pages) }
        ensures open { OnOk result (0 < asked → IsSome self.new.file) }
        ensures lost { OnOk result (self.new.lost ≡ false) }
        ensures closed { self.old.lost ≡ true → (IsErr result) × (self.new.lost ≡ true) }
    {
        if !self.open(asked > 0)? {
            return Ok(self.pages);
        }
        let whole = whole_pages(&mut self.file, self.pages)?;
        if whole >= asked {
            return Ok(whole);
        }
        if let Some(why) = self.unwritable {
            return Err(why);
        }
        lengthen(&self.file, whole, asked)?;
        self.sync()?;
        Ok(asked)
    }

    // Syncs the file, and closes it for good where that fails.
    fn sync(&mut self) -> io::Result<()>
        ensures pages { self.new.pages ≡ self.old.pages }
        ensures faults { self.new.faults ≡ self.old.faults }
        ensures calls { self.new.calls ≡ self.old.calls }
        ensures unopened { OnOk result (IsSome self.old.file) }
        ensures open { OnOk result (IsSome self.new.file) }
        ensures lost { OnOk result (self.new.lost ≡ false) }
        ensures closed { self.old.lost ≡ true → (IsErr result) × (self.new.lost ≡ true) }
        ensures loses { IsErr result → IsSome self.old.file → self.new.lost ≡ true }
    {
        if self.lost {
            return Err(closed());
        }
        let done = sync_whole(&self.file);
        if done.is_err() && self.file.is_some() {
            self.lost = true;
            self.file = None;
        }
        done
    }

    // Counts a write or a barrier.
    fn count_call(&mut self)
        ensures counted { Rises 1 self.old.calls self.new.calls }
        ensures pages { self.new.pages ≡ self.old.pages }
        ensures alone { self.new ≡ record self.old { calls = self.new.calls } }
    {
        self.calls = self.calls.saturating_add(1);
    }

    // Counts a fault, where there is one, and keeps the reason of the first.
    fn counted(&mut self, done: io::Result<()>) -> Result<(), Failed>
        ensures ok { OnOk result (IsOk done) }
        ensures err { IsErr done → IsErr result }
        ensures fails { IsErr result → IsErr done }
        ensures cause { OneFault result self.old.faults self.new.faults }
        ensures pages { self.new.pages ≡ self.old.pages }
        ensures calls { self.new.calls ≡ self.old.calls }
        ensures lost { self.new.lost ≡ self.old.lost }
        ensures file { self.new.file ≡ self.old.file }
    {
        let why = match done {
            Ok(()) => return Ok(()),
            Err(why) => why,
        };
        if self.reason.is_none() {
            self.reason = Some(why);
        }
        self.faults = self.faults.saturating_add(1);
        Err(Failed)
    }
}

impl<'r, R: Files> Device for FileDevice<'r, R>
where
    R::File: PageFile,
{
    ghost seen = { λ d. file_seen d.pages d.faults d.calls };

    ghost counts = { λ d h. no_pages d.pages h };

    fn pages(&self) -> u32 {
        self.pages
    }

    fn room(&mut self, pages: u32) -> Result<(), Failed>
        ensures cause { OneFault result self.old.faults self.new.faults }
        ensures grown { OnOk result (Grows pages (file_seen self.old.pages self.old.faults self.old.calls) (file_seen self.new.pages self.new.faults self.new.calls)) }
        ensures untouched { OnErr result (IsUntouched (file_seen self.old.pages self.old.faults self.old.calls) (file_seen self.new.pages self.new.faults self.new.calls)) }
        ensures open { OnOk result (0 < pages → IsSome self.new.file) }
        ensures closed { self.old.lost ≡ true → (IsErr result) × (self.new.lost ≡ true) }
    {
        match self.grow(pages) {
            Ok(there) => {
                self.pages = there;
                Ok(())
            }
            Err(why) => self.counted(Err(why)),
        }
    }

    fn read(&mut self, page: u32, into: &mut Page) -> Result<(), Failed>
        requires { page < self.old.pages }
        ensures cause { OneFault result self.old.faults self.new.faults }
        ensures kept { OneRead (file_seen self.old.pages self.old.faults self.old.calls) (file_seen self.new.pages self.new.faults self.new.calls) }
        ensures newest { OnOk result (false ≡ true → false ≡ true → slice_get (newest (file_seen self.old.pages self.old.faults self.old.calls).state) page ≡ Some into.new) }
        ensures closed { self.old.lost ≡ true → (IsErr result) × (self.new.lost ≡ true) }
    {
        if self.lost {
            return self.counted(Err(closed()));
        }
        let done = read_whole(&self.file, page, &mut into.0);
        self.counted(done)
    }

    fn write(&mut self, page: u32, from: &Page) -> Result<(), Failed>
        requires { page < self.old.pages }
        ensures cause { OneFault result self.old.faults self.new.faults }
        ensures call { OneCall (WriteEntry page from.now result) (file_seen self.old.pages self.old.faults self.old.calls) (file_seen self.new.pages self.new.faults self.new.calls) }
        ensures closed { self.old.lost ≡ true → (IsErr result) × (self.new.lost ≡ true) }
        ensures read_only { IsSome self.old.unwritable → IsErr result }
    {
        self.count_call();
        if self.lost {
            return self.counted(Err(closed()));
        }
        if let Some(why) = self.unwritable {
            return self.counted(Err(why));
        }
        let done = write_whole(&self.file, page, &from.0);
        self.counted(done)
    }

    fn flush(&mut self) -> Result<(), Failed>
        ensures cause { OneFault result self.old.faults self.new.faults }
        ensures call { OneCall (FlushEntry result) (file_seen self.old.pages self.old.faults self.old.calls) (file_seen self.new.pages self.new.faults self.new.calls) }
        ensures unopened { OnOk result (IsSome self.old.file) }
        ensures closed { self.old.lost ≡ true → (IsErr result) × (self.new.lost ≡ true) }
        ensures loses { IsErr result → IsSome self.old.file → self.new.lost ≡ true }
    {
        self.count_call();
        let done = self.sync();
        self.counted(done)
    }
}
