// A device in memory, which tells everything and fails where it is told to.
ghost use Rattle.std.specs.Prelude.{◌≡◌, ◌+◌, ◌<◌, ◌≤◌, ◌^◌, ◌++◌, ◌∷◌, [], ◌-◌, ◌≢◌, ℕ, max, min, replicate, None, Some, true, false, length, take, slice_get, IsOk, IsErr, IsTrue, OnOk, OnErr, IfOk, IfSome, vec_len, vec_capacity};
ghost use Rattle.std.specs.Bool.{OnTrue, OnFalse};
ghost use Rattle.page_device.specs.Block.{zero_block};
ghost use Rattle.page_device.specs.Chosen.{IsChosen};
ghost use Rattle.page_device.specs.Disk.{at_rest, newest, state_after, with_room, LeftAt};
ghost use Rattle.page_device.specs.Memory.{plan_for, fails_at, lie_for};
ghost use Rattle.page_device.specs.Counts.{OneFault, raised};
ghost use Rattle.page_device.specs.Meaning.{OneCall, OneRead, IsRefused, WriteEntry, FlushEntry, Grows, IsUntouched};

use crate::image::{Rebuilt, copy_all, undo};
use crate::log::Log;
use crate::{Device, End, Failed, LogEntry, NoMemory, Page};
use std::alloc::Global;
use std::marker::Model;
use std::mem;

/// A write or barrier that is to fail: its number, counted from 1.
#[derive(Clone, Copy, Drop)]
pub struct Plan {
    pub call: u64,
    pub taken: bool,
}

/// A read that is to give another page than the one it asks for: its number, counted from 1.
#[derive(Drop)]
pub struct Lie {
    pub read: u64,
    pub page: Page,
}

/// A device in memory. It tells its pages, its log and its reads. It is honest as long as no lie is
/// planned, and tells that too.
///
/// Tests and models stand on it: faults can be planned, the log shows each call, and `image` gives what
/// a crash at any moment left. A call of `Device` costs the copy of a page, beside the number of planned
/// faults and what memory for the log costs; `room` costs the pages that it adds.
#[derive(Drop)]
pub struct MemDevice {
    // The newest contents.
    pages: Vec<Page>,
    // What each taken write replaced, in order.
    replaced: Vec<Page>,
    log: Log,
    // For how many further entries there is room, in `log` and in `replaced`.
    spare: usize,
    plans: Vec<Plan>,
    failing_reads: Vec<u64>,
    failing_rooms: Vec<u64>,
    lies: Vec<Lie>,
    calls: u64,
    faults: u64,
    reads: u64,
    rooms: u64,
}

impl Model for MemDevice {
    ghost use Rattle.std.specs.Prelude.{◌+◌, ◌≤◌, vec_len, vec_capacity};
    ghost use Rattle.page_device.specs.Memory.{MemoryView, IsConsistent, HasSpare, undone, taken_pages};

    ghost Value = { MemoryView };

    ghost view = { λ m. record {
      start = undone m.pages.items (taken_pages m.log.kept) m.replaced.items;
      all = m.log.all;
      kept = m.log.kept;
      spare = m.spare;
      plans = m.plans.items;
      failing_reads = m.failing_reads.items;
      failing_rooms = m.failing_rooms.items;
      lies = m.lies.items;
      calls = m.calls;
      faults = m.faults;
      reads = m.reads;
      rooms = m.rooms;
    } };

    ghost invariant = { λ m. IsConsistent m.pages.items m.replaced.items m.log.kept m.log.all
        × HasSpare m.spare m.log.spare (vec_len m.replaced) (vec_capacity m.replaced) };
}

// What is planned for the call: the latest plan counts.
fn planned(plans: &[Plan], call: u64) -> Option<bool>
    ensures { result ≡ plan_for plans.now call }
{
    plans
        .iter()
        .rev()
        .find(|plan| plan.call == call)
        .map(|plan| plan.taken)
}

// Whether it is planned that the call fails.
fn fails(plans: &[u64], call: u64) -> bool
    ensures { result ≡ fails_at plans.now call }
{
    plans.iter().any(|plan| *plan == call)
}

// The page that is planned for the read in place of its own: the latest plan counts.
fn planned_lie(lies: &[Lie], read: u64) -> Option<Page>
    ensures { result ≡ lie_for lies.now read }
{
    let latest = lies.iter().rev().find(|lie| lie.read == read);
    latest.map(|lie| lie.page.copy())
}

// Adds so many pages of zeros, for which there is room.
fn push_zeros(pages: &mut Vec<Page>, more: usize)
    requires { vec_len pages.old + more ≤ vec_capacity pages.old }
    ensures { pages.new.items ≡ pages.old.items ++ replicate more zero_block }
{
    for _ in 0..more {
        pages.push_reserved(Page::zero());
    }
}

impl MemDevice {
    ghost use Rattle.page_device.specs.MemorySeen.{telling, memory_seen};
    ghost use Rattle.page_device.specs.Memory.{with_entry, lost_call, beginning, taken_pages, AllBelow, IsQuiet, ShowsCall};

    /// A device that begins with these pages fixed, nothing pending, an empty log and no planned
    /// failure. Takes no memory, which no clause says.
    pub fn holding(alloc: Global, pages: Vec<Page>) -> MemDevice
        requires { length pages.items < 2 ^ 32 }
        ensures told { memory_seen result ≡ telling (length pages.items) 0 0 (at_rest pages.items) [] }
        ensures kept { result.kept ≡ [] }
        ensures plans { result.plans ≡ [] }
        ensures calls { result.calls ≡ 0 }
        ensures whole { result ≡ beginning pages.items }
    {
        MemDevice {
            pages,
            replaced: Vec::new(alloc),
            log: Log::new(alloc),
            spare: 0,
            plans: Vec::new(alloc),
            failing_reads: Vec::new(alloc),
            failing_rooms: Vec::new(alloc),
            lies: Vec::new(alloc),
            calls: 0,
            faults: 0,
            reads: 0,
            rooms: 0,
        }
    }

    /// Makes the write or barrier of this number fail, counted from 1 as `calls` counts. A failing
    /// write is taken where `taken` is true; a failing barrier changes nothing. Of two plans for one
    /// call the later one counts. After an error nothing is changed. It does not say that there is memory for the plan.
    pub fn fail_call(&mut self, call: u64, taken: bool) -> Result<(), NoMemory>
        ensures ok { OnOk result (self.new ≡ record self.old { plans = self.old.plans ++ record { call = call; taken = taken } ∷ [] }) }
        ensures err { OnErr result (self.new ≡ self.old) }
    {
        match self.plans.push(Plan { call, taken }) {
            Ok(()) => Ok(()),
            Err(_) => Err(NoMemory),
        }
    }

    /// Makes the read of this number fail, counted from 1 as `reads` counts. After an error nothing is
    /// changed. It does not say that there is memory for the plan.
    pub fn fail_read(&mut self, read: u64) -> Result<(), NoMemory>
        ensures ok { OnOk result (self.new ≡ record self.old { failing_reads = self.old.failing_reads ++ read ∷ [] }) }
        ensures err { OnErr result (self.new ≡ self.old) }
    {
        match self.failing_reads.push(read) {
            Ok(()) => Ok(()),
            Err(_) => Err(NoMemory),
        }
    }

    /// Makes the `room` of this number fail, counted from 1 over all calls of it. After an error nothing
    /// is changed. It does not say that there is memory for the plan.
    pub fn fail_room(&mut self, room: u64) -> Result<(), NoMemory>
        ensures ok { OnOk result (self.new ≡ record self.old { failing_rooms = self.old.failing_rooms ++ room ∷ [] }) }
        ensures err { OnErr result (self.new ≡ self.old) }
    {
        match self.failing_rooms.push(room) {
            Ok(()) => Ok(()),
            Err(_) => Err(NoMemory),
        }
    }

    /// Makes the read of this number give this page, counted from 1 as `reads` counts. From then on the
    /// device is not honest, and tells so. Of two lies for one read the later one counts, and a read that
    /// is also planned to fail fails. After an error nothing is changed. It does not say that there is memory for the lie.
    pub fn lie(&mut self, read: u64, page: &Page) -> Result<(), NoMemory>
        ensures ok { OnOk result (self.new ≡ record self.old { lies = self.old.lies ++ record { read = read; page = page.now } ∷ [] }) }
        ensures told { OnOk result ((memory_seen self.new).honest ≡ false) }
        ensures err { OnErr result (self.new ≡ self.old) }
    {
        let page = page.copy();
        match self.lies.push(Lie { read, page }) {
            Ok(()) => Ok(()),
            Err(_) => Err(NoMemory),
        }
    }

    /// Makes room in the log for at least so many further writes and barriers, which then fail only
    /// where it is planned. After an error nothing is changed. It does not say that there is memory for them.
    pub fn reserve(&mut self, calls: u64) -> Result<(), NoMemory>
        ensures ok { OnOk result (self.new ≡ record self.old { spare = max self.old.spare calls }) }
        ensures err { OnErr result (self.new ≡ self.old) }
    {
        let calls = calls as usize;
        self.log.reserve(calls)?;
        if self.replaced.reserve(calls).is_err() {
            return Err(NoMemory);
        }
        self.spare = self.spare.max(calls);
        Ok(())
    }

    /// The write and barrier calls so far, in order, without those for whose entry no memory was found. Each page that
    /// was written is one of the device. It does not say which calls are left out; `calls` counts them too.
    pub fn log(&self) -> &[LogEntry]
        ensures kept { result.now ≡ self.now.kept }
        ensures within { AllBelow (taken_pages self.now.all) (length self.now.start) }
    {
        self.log.kept()
    }

    /// The number of write and barrier calls so far, failed ones too. It stands still at its end. It does not say which.
    pub fn calls(&self) -> u64
        ensures { result ≡ self.now.calls }
    {
        self.calls
    }

    /// The number of reads so far, failed ones too. It stands still at its end. It does not say which.
    pub fn reads(&self) -> u64
        ensures { result ≡ self.now.reads }
    {
        self.reads
    }

    /// A new device that holds what a crash after the first `at` calls may have left, and nothing pending:
    /// of page `j` the fixed content where `choice[j]` is 0, and where it is `i` the `i`-th content written
    /// since the last barrier, or the last one where there are fewer. A page past the end of `choice` takes
    /// 0. A moment past the last call is the one after all calls. The device has as many pages as this one
    /// has now. Each image that a crash may leave at that moment is given by some choice, as long as there
    /// were fewer than 2^32 calls (`left_is_chosen`). Goes over the pages and the whole log. It does not say that there is
    /// memory for the image.
    pub fn image(&self, at: u64, choice: &[u32]) -> Result<MemDevice, NoMemory>
        ensures chosen { IfOk result (λ image. IsChosen (state_after (at_rest self.now.start) (take at self.now.all)) choice.now image.start) }
        ensures left { IfOk result (λ image. LeftAt (at_rest self.now.start) self.now.all at image.start) }
        ensures told { IfOk result (λ image. memory_seen image ≡ telling (length self.now.start) 0 0 (at_rest image.start) []) }
        ensures whole { IfOk result (λ image. image ≡ beginning image.start) }
    {
        let pages = self.chosen_pages(at, choice)?;
        Ok(MemDevice::holding(*self.plans.allocator(), pages))
    }

    // The pages of an image: back to the start, forward to the moment, and what is chosen there.
    fn chosen_pages(&self, at: u64, choice: &[u32]) -> Result<Vec<Page>, NoMemory>
        ensures { IfOk result (λ image. IsChosen (state_after (at_rest self.now.start) (take at self.now.all)) choice.now image.items) }
    {
        let alloc = *self.plans.allocator();
        let mut start = copy_all(alloc, &self.pages)?;
        undo(&mut start, self.log.kept(), &self.replaced);
        let entries = &self.log.kept()[..self.log.kept_by(at)];
        let state = Rebuilt::after(alloc, start, entries)?;
        let Ok(choice) = Vec::from_slice(alloc, choice) else {
            return Err(NoMemory);
        };
        Ok(state.choose(choice))
    }

    // A write that is taken, where there is memory for its entry.
    fn take_write(&mut self, page: u32, from: &Page, end: End) -> bool
        requires page { page < (memory_seen self.old).pages }
        requires taken { end ≢ End.Refused }
        ensures kept { OnTrue result (self.new ≡ with_entry self.old (LogEntry.Write page from.now end)) }
        ensures same { OnFalse result (self.new ≡ self.old) }
        ensures room { OnFalse result (self.old.spare ≡ 0) }
    {
        if self.log.reserve(1).is_err() || self.replaced.reserve(1).is_err() {
            return false;
        }
        let before = mem::replace(&mut self.pages[page as usize], from.copy());
        self.replaced.push_reserved(before);
        self.log.keep(LogEntry::Write {
            page,
            from: from.copy(),
            end,
        });
        self.spare = self.spare.saturating_sub(1);
        true
    }

    // Keeps an entry that leaves the contents, where there is memory for it.
    fn keep_quiet(&mut self, entry: LogEntry) -> bool
        requires { IsQuiet entry }
        ensures kept { OnTrue result (self.new ≡ with_entry self.old entry) }
        ensures same { OnFalse result (self.new ≡ self.old) }
        ensures room { OnFalse result (self.old.spare ≡ 0) }
    {
        if self.log.reserve(1).is_err() {
            return false;
        }
        self.log.keep(entry);
        self.spare = self.spare.saturating_sub(1);
        true
    }

    // Counts a call for whose entry no memory was found.
    fn lose(&mut self)
        ensures counted { length self.new.all + 1 < 2 ^ 64 → self.new.all ≡ self.old.all ++ lost_call ∷ [] }
        ensures some { (n : ℕ) × (self.new ≡ record self.old { all = self.old.all ++ replicate n lost_call }) }
        ensures one { length self.new.all ≤ length self.old.all + 1 }
    {
        self.log.lose();
    }

    // Counts a write or barrier, and gives what is planned for it.
    fn next_plan(&mut self) -> Option<bool>
        ensures counted { self.new ≡ record self.old { calls = self.new.calls } }
        ensures calls { self.new.calls ≡ raised self.old.calls 1 }
        ensures plan { result ≡ plan_for self.old.plans self.new.calls }
    {
        self.calls = self.calls.saturating_add(1);
        planned(&self.plans, self.calls)
    }

    // Counts a read, and tells whether it is planned to fail.
    fn next_read_fails(&mut self) -> bool
        ensures counted { self.new ≡ record self.old { reads = raised self.old.reads 1 } }
        ensures planned { result ≡ fails_at self.old.failing_reads self.new.reads }
    {
        self.reads = self.reads.saturating_add(1);
        fails(&self.failing_reads, self.reads)
    }

    // Counts a `room`, and tells whether it is planned to fail.
    fn next_room_fails(&mut self) -> bool
        ensures counted { self.new ≡ record self.old { rooms = raised self.old.rooms 1 } }
        ensures planned { result ≡ fails_at self.old.failing_rooms self.new.rooms }
    {
        self.rooms = self.rooms.saturating_add(1);
        fails(&self.failing_rooms, self.rooms)
    }

    // What the read that was counted last gives.
    fn read_page(&self, page: u32) -> Page
        requires { page < (memory_seen self.now).pages }
        ensures lied { IfSome (lie_for self.now.lies self.now.reads) (λ told. result ≡ told) }
        ensures told { lie_for self.now.lies self.now.reads ≡ None
            → slice_get (newest (memory_seen self.now).state) page ≡ Some result }
    {
        match planned_lie(&self.lies, self.reads) {
            Some(told) => told,
            None => self.pages[page as usize].copy(),
        }
    }

    // Adds pages of zeros up to so many pages, where there is memory for them.
    fn add_zeros(&mut self, pages: u32) -> bool
        ensures added { OnTrue result (self.new ≡ record self.old { start = self.old.start ++ replicate (pages - length self.old.start) zero_block }) }
        ensures state { OnTrue result ((memory_seen self.new).state ≡ with_room (memory_seen self.old).state (replicate (pages - length self.old.start) zero_block)) }
        ensures same { OnFalse result (self.new ≡ self.old) }
        ensures no_more { pages ≤ length self.old.start → IsTrue result }
    {
        let have = self.pages.len();
        let asked = pages as usize;
        if asked <= have {
            return true;
        }
        if self.pages.reserve(asked - have).is_err() {
            return false;
        }
        push_zeros(&mut self.pages, asked - have);
        true
    }

    // The log gains a refused call.
    fn note_refused(&mut self, entry: LogEntry)
        requires { IsRefused entry }
        ensures call { OneCall IsRefused (memory_seen self.old) (memory_seen self.new) }
        ensures shows { ShowsCall IsRefused self.old self.new }
        ensures faults { self.new.faults ≡ self.old.faults }
        ensures calls { self.new.calls ≡ self.old.calls }
        ensures plans { self.new.plans ≡ self.old.plans }
        ensures spare { self.old.spare ≤ self.new.spare + 1 }
    {
        if self.keep_quiet(entry) {
            return;
        }
        self.lose();
    }

    // Counts a fault.
    fn count_fault(&mut self)
        ensures alone { self.new ≡ record self.old { faults = raised self.old.faults 1 } }
        ensures count { self.new.faults ≡ raised self.old.faults 1 }
        ensures never_falls { self.old.faults ≤ self.new.faults }
    {
        self.faults = self.faults.saturating_add(1);
    }

    // A call that ends refused.
    fn refuse(&mut self, entry: LogEntry) -> Result<(), Failed>
        requires { IsRefused entry }
        ensures err { IsErr result }
        ensures cause { OneFault result self.old.faults self.new.faults }
        ensures call { OneCall IsRefused (memory_seen self.old) (memory_seen self.new) }
        ensures shows { ShowsCall IsRefused self.old self.new }
        ensures state { (memory_seen self.new).state ≡ (memory_seen self.old).state }
        ensures calls { self.new.calls ≡ self.old.calls }
        ensures plans { self.new.plans ≡ self.old.plans }
        ensures spare { self.old.spare ≤ self.new.spare + 1 }
    {
        self.note_refused(entry);
        self.count_fault();
        Err(Failed)
    }

    // A write that is not planned to fail.
    fn write_done(&mut self, page: u32, from: &Page) -> Result<(), Failed>
        requires { page < (memory_seen self.old).pages }
        ensures cause { OneFault result self.old.faults self.new.faults }
        ensures call { OneCall (WriteEntry page from.now result) (memory_seen self.old) (memory_seen self.new) }
        ensures shows { ShowsCall (WriteEntry page from.now result) self.old self.new }
        ensures calls { self.new.calls ≡ self.old.calls }
        ensures plans { self.new.plans ≡ self.old.plans }
        ensures spare { self.old.spare ≤ self.new.spare + 1 }
        ensures succeeds { 0 < self.old.spare → IsOk result }
    {
        if self.take_write(page, from, End::Done) {
            return Ok(());
        }
        self.refuse(LogEntry::Flush { end: End::Refused })
    }

    // A write that fails and is taken all the same.
    fn write_taken(&mut self, page: u32, from: &Page) -> Result<(), Failed>
        requires { page < (memory_seen self.old).pages }
        ensures cause { OneFault result self.old.faults self.new.faults }
        ensures call { OneCall (WriteEntry page from.now result) (memory_seen self.old) (memory_seen self.new) }
        ensures shows { ShowsCall (WriteEntry page from.now result) self.old self.new }
        ensures calls { self.new.calls ≡ self.old.calls }
        ensures plans { self.new.plans ≡ self.old.plans }
        ensures spare { self.old.spare ≤ self.new.spare + 1 }
        ensures fails { IsErr result }
        ensures taken { 0 < self.old.spare → self.new.all ≡ self.old.all ++ LogEntry.Write page from.now End.Taken ∷ [] }
    {
        if self.take_write(page, from, End::Taken) {
            self.count_fault();
            return Err(Failed);
        }
        self.refuse(LogEntry::Flush { end: End::Refused })
    }
}

impl Device for MemDevice {
    ghost use Rattle.page_device.specs.MemorySeen.{memory_seen};
    ghost use Rattle.page_device.specs.Memory.{FollowsPlan, ShowsCall, with_entry, pages_stay};

    ghost seen = { memory_seen };

    ghost counts = { λ m _. pages_stay m };

    fn pages(&self) -> u32 {
        self.pages.len() as u32
    }

    fn room(&mut self, pages: u32) -> Result<(), Failed>
        ensures cause { OneFault result self.old.faults self.new.faults }
        ensures grown { OnOk result (Grows pages (memory_seen self.old) (memory_seen self.new)) }
        ensures untouched { OnErr result (IsUntouched (memory_seen self.old) (memory_seen self.new)) }
        ensures exact { OnOk result (self.new ≡ record self.old { start = self.old.start ++ replicate (pages - length self.old.start) zero_block; rooms = self.new.rooms }) }
        ensures failed { OnErr result (self.new ≡ record self.old { faults = self.new.faults; rooms = self.new.rooms }) }
        ensures rooms { self.new.rooms ≡ raised self.old.rooms 1 }
        ensures planned { fails_at self.old.failing_rooms self.new.rooms ≡ true → IsErr result }
        ensures no_more { fails_at self.old.failing_rooms self.new.rooms ≡ false → pages ≤ length self.old.start → IsOk result }
    {
        if self.next_room_fails() || !self.add_zeros(pages) {
            self.count_fault();
            return Err(Failed);
        }
        Ok(())
    }

    fn read(&mut self, page: u32, into: &mut Page) -> Result<(), Failed>
        requires { page < (memory_seen self.old).pages }
        ensures cause { OneFault result self.old.faults self.new.faults }
        ensures kept { OneRead (memory_seen self.old) (memory_seen self.new) }
        ensures newest { OnOk result ((memory_seen self.old).honest ≡ true → (memory_seen self.old).tells_pages ≡ true
            → slice_get (newest (memory_seen self.old).state) page ≡ Some into.new) }
        ensures exact { self.new ≡ record self.old { faults = self.new.faults; reads = raised self.old.reads 1 } }
        ensures planned { fails_at self.old.failing_reads self.new.reads ≡ true → IsErr result }
        ensures unplanned { fails_at self.old.failing_reads self.new.reads ≡ false → IsOk result }
        ensures lied { OnOk result (IfSome (lie_for self.old.lies self.new.reads) (λ told. into.new ≡ told)) }
        ensures told { OnOk result (lie_for self.old.lies self.new.reads ≡ None
            → slice_get (newest (memory_seen self.old).state) page ≡ Some into.new) }
    {
        if self.next_read_fails() {
            self.count_fault();
            return Err(Failed);
        }
        *into = self.read_page(page);
        Ok(())
    }

    fn write(&mut self, page: u32, from: &Page) -> Result<(), Failed>
        requires { page < (memory_seen self.old).pages }
        ensures cause { OneFault result self.old.faults self.new.faults }
        ensures call { OneCall (WriteEntry page from.now result) (memory_seen self.old) (memory_seen self.new) }
        ensures shows { ShowsCall (WriteEntry page from.now result) self.old self.new }
        ensures plan { FollowsPlan result self.old self.new }
        ensures taken { plan_for self.old.plans self.new.calls ≡ Some true → 0 < self.old.spare
            → self.new.all ≡ self.old.all ++ LogEntry.Write page from.now End.Taken ∷ [] }
        ensures refused { plan_for self.old.plans self.new.calls ≡ Some false → (memory_seen self.new).state ≡ (memory_seen self.old).state }
    {
        match self.next_plan() {
            None => self.write_done(page, from),
            Some(true) => self.write_taken(page, from),
            Some(false) => self.refuse(LogEntry::Write {
                page,
                from: from.copy(),
                end: End::Refused,
            }),
        }
    }

    fn flush(&mut self) -> Result<(), Failed>
        ensures cause { OneFault result self.old.faults self.new.faults }
        ensures call { OneCall (FlushEntry result) (memory_seen self.old) (memory_seen self.new) }
        ensures shows { ShowsCall (FlushEntry result) self.old self.new }
        ensures plan { FollowsPlan result self.old self.new }
    {
        if self.next_plan().is_some() {
            return self.refuse(LogEntry::Flush { end: End::Refused });
        }
        if self.keep_quiet(LogEntry::Flush { end: End::Done }) {
            return Ok(());
        }
        self.refuse(LogEntry::Flush { end: End::Refused })
    }
}
