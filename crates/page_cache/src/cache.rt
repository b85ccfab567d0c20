// The cache: its calls.
ghost use Rattle.std.specs.Prelude.{[], ◌≡◌, ◌⊎◌, ℕ, ◌<◌, ◌≤◌, ◌+◌, ◌^◌, ◌||◌, true, false, not, eqb, length, Some, None, Ok, Err, slice_get, IsOk, IsErr, IsSome, IfOk, IfErr, OnOk, OnErr, MatchOption};
ghost use Rattle.std.specs.Borrow.{sem};
ghost use Rattle.std.specs.HashMap.{spare};
ghost use Rattle.std.specs.HashSet.{spare as spare_keys};
ghost use Rattle.page_device.specs.Disk.{newest};
ghost use Rattle.page_device.specs.Meaning.{HasCause, OneCall, OneRead, FlushEntry};
ghost use Rattle.page_cache.specs.Entries.{content_at, entry_at};
ghost use Rattle.page_cache.specs.Recent.{IsSize, has};
ghost use Rattle.page_cache.specs.View.{IsWhole, content_in, dirty_in, holds_in, is_there};
ghost use Rattle.page_cache.specs.Calls.{Brought, FetchCall, Fixed, HasFetchCause, Held, IsFresh, Replaced, Same, TakenOut, Tried, Unheld, Used, WritesPage, WrittenOut};
ghost use Rattle.page_cache.specs.Lending.{LendsPage};

use crate::entries::{Entry, clean, content, holds, is_used, put, replace, set_holds, take_out};
use crate::moves::{bring, settle, settle_all};
use crate::recent::Recent;
use indexmap::{IndexMap, IndexSet};
use page_device::{Device, Failed, NoMemory, Page};
use std::alloc::Global;
use std::marker::Model;

/// The fewest pages that a cache may be made for.
pub const LEAST_SIZE: u32 = 64;

/// The most pages that a cache may be made for.
pub const MOST_SIZE: u32 = 4096;

/// Why a page could not be fetched.
#[derive(Clone, Copy, Debug, PartialEq, Eq, Drop)]
pub enum FetchError {
    /// The device failed, and counted it.
    Device,
    NoMemory,
}

/// Pages of a device in memory.
///
/// Held pages, dirty pages, and pages that were written since the last successful barrier and not taken out since stand in a
/// table, whatever their number. All other pages that are there stand in a list of at most `size` pages, the last used first.
/// A page that comes into a full list drops the last one.
///
/// A cache keeps no device: each call that needs one is lent it. Contracts see the record `CacheView` of `specs/View.antt`,
/// which is looked up page by page: `content_in` (wherever the page stands), `holds_in`, `dirty_in` and `written_in`, with
/// the list `recent`. What a call makes of it is a record of `specs/Calls.antt`.
///
/// Look-ups go through hash tables, so "constant" is what a call costs on the whole. A page is copied where a call says so.
#[derive(Drop)]
pub struct Cache {
    // Each page that is there, wherever it stands.
    pages: IndexMap<u32, Entry>,
    // The pages that were written since the last barrier. There is room for each page that is there.
    written: IndexSet<u32>,
    recent: Recent,
    calls: u64,
    alloc: Global,
}

impl Model for Cache {
    ghost use Rattle.std.specs.HashSet.{spare};
    ghost use Rattle.page_cache.specs.View.{CacheView};
    ghost use Rattle.page_cache.specs.Kept.{IsKept};

    ghost Value = { CacheView };

    ghost view = { λ c. record { pages = c.pages.entries; written = c.written.keys; recent = c.recent.pages; limit = c.recent.limit; calls = c.calls } };

    ghost invariant = { λ c. IsKept (record { pages = c.pages.entries; written = c.written.keys; recent = c.recent.pages; limit = c.recent.limit; calls = c.calls }) (spare c.written) };
}

// Room for one more page, and to note it as written.
fn make_room(pages: &mut IndexMap<u32, Entry>, written: &mut IndexSet<u32>) -> Result<(), NoMemory>
    ensures pages { pages.new.entries ≡ pages.old.entries }
    ensures written { written.new.keys ≡ written.old.keys }
    ensures room { OnOk result (0 < spare pages.new) }
    ensures notes { OnOk result (length pages.old.entries + 1 ≤ length written.old.keys + spare_keys written.new) }
    ensures kept { spare_keys written.old ≤ spare_keys written.new }
{
    let more = (pages.len() + 1).saturating_sub(written.len());
    match written.reserve(more) {
        Ok(()) => {}
        Err(_) => return Err(NoMemory),
    }
    match pages.reserve(1) {
        Ok(()) => Ok(()),
        Err(_) => Err(NoMemory),
    }
}

// Notes a page that is there as written.
fn note_written(pages: &IndexMap<u32, Entry>, written: &mut IndexSet<u32>, page: u32)
    requires room { length pages.now.entries ≤ length written.old.keys + spare_keys written.old }
    requires known { (q : ℕ) → has written.old.keys q ≡ true → IsSome (entry_at pages.now.entries q) }
    requires there { IsSome (entry_at pages.now.entries page) }
    ensures written { (q : ℕ) → has written.new.keys q ≡ (has written.old.keys q || eqb q page) }
    ensures room { length pages.now.entries ≤ length written.new.keys + spare_keys written.new }
{
    // Its contract says that no page is noted twice.
    let _ = written.len();
    if written.contains(&page) {
        return;
    }
    let _ = written.insert(page);
}

// Notes no page as written. Where some were, the set's index is cleared: a byte for each page that it has room for.
fn forget_written(written: &mut IndexSet<u32>)
    ensures empty { written.new.keys ≡ [] }
    ensures room { length written.old.keys + spare_keys written.old ≤ spare_keys written.new }
{
    if written.is_empty() {
        return;
    }
    written.clear();
}

// Writes a page that is there, as it is.
fn write_page<D: Device>(
    pages: &IndexMap<u32, Entry>,
    device: &mut D,
    page: u32,
) -> Result<(), Failed>
    requires there { IsSome (entry_at pages.now.entries page) }
    requires within { page < (D.seen device.old).pages }
    ensures cause { HasCause result (D.seen device.old) (D.seen device.new) }
    ensures call { WritesPage (content_at pages.now.entries page) page result (D.seen device.old) (D.seen device.new) }
{
    let entry = pages.get(&page).unwrap();
    device.write(page, &entry.content)
}

impl Cache {
    /// An empty cache whose list is for so many pages, from `LEAST_SIZE` to `MOST_SIZE`.
    ///
    /// `NoMemory` where no memory is found for the list's index. Linear in `size`.
    pub fn new(alloc: Global, size: u32) -> Result<Cache, NoMemory>
        requires { IsSize size }
        ensures { IfOk result (IsFresh size) }
    {
        match Recent::new(alloc, size) {
            Ok(recent) => Ok(Cache {
                pages: IndexMap::new(alloc),
                written: IndexSet::new(alloc),
                recent,
                calls: 0,
                alloc,
            }),
            Err(_) => Err(NoMemory),
        }
    }

    /// For how many pages the list is. Its contract also says what holds of every cache, as that no page stands in the table
    /// and in the list. Constant.
    pub fn size(&self) -> u32
        ensures size { result ≡ self.now.limit }
        ensures whole { IsWhole self.now }
    {
        // What every cache keeps is known where a field is read.
        let _ = &self.pages;
        self.recent.limit()
    }

    // Brings in a page that is not there.
    fn bring_in(&mut self, page: u32, content: Box<Page>) -> Result<(), NoMemory>
        requires { content_in self.old page ≡ None }
        ensures ok { OnOk result (Brought self.old self.new page (Some content.value)) }
        ensures err { OnErr result (Same self.old self.new) }
    {
        match make_room(&mut self.pages, &mut self.written) {
            Ok(()) => {}
            Err(_) => return Err(NoMemory),
        }
        match bring(&mut self.pages, &mut self.recent, page) {
            Ok(()) => {}
            Err(_) => return Err(NoMemory),
        }
        let entry = Entry {
            content,
            holds: 0,
            dirty: false,
        };
        put(&mut self.pages, page, entry);
        Ok(())
    }

    /// Brings in a page of the device, and answers whether the device was read for it. A page that is there is not read again:
    /// it comes to the front where it stands in the list. One that was read is at the front.
    ///
    /// `Device` where the read failed and `NoMemory` where no memory is found; a page that is there meets neither. The cache is
    /// as before then. Constant, beside one read and the memory of one page.
    pub fn fetch<D: Device>(&mut self, device: &mut D, page: u32) -> Result<bool, FetchError>
        requires { page < (D.seen device.old).pages }
        ensures cause { HasFetchCause result (D.seen device.old) (D.seen device.new) }
        ensures call { FetchCall result (D.seen device.old) (D.seen device.new) }
        ensures answer { IfOk result (λ read. read ≡ not (is_there self.old page)) }
        ensures there { is_there self.old page ≡ true → IsOk result × Used self.old self.new page }
        ensures read { is_there self.old page ≡ false → OnOk result (Brought self.old self.new page (content_in self.new page)) }
        ensures now { OnOk result (is_there self.new page ≡ true) }
        ensures newest { result ≡ Ok true → (D.seen device.old).honest ≡ true → (D.seen device.old).tells_pages ≡ true → content_in self.new page ≡ slice_get (newest (D.seen device.old).state) page }
        ensures err { OnErr result (Same self.old self.new) }
    {
        if self.pages.contains_key(&page) {
            self.recent.use_again(page);
            return Ok(false);
        }
        let mut content = match Box::new(self.alloc, Page::zero()) {
            Ok(content) => content,
            Err(_) => return Err(FetchError::NoMemory),
        };
        match device.read(page, &mut content) {
            Ok(()) => {}
            Err(_) => return Err(FetchError::Device),
        }
        match self.bring_in(page, content) {
            Ok(()) => Ok(true),
            Err(_) => Err(FetchError::NoMemory),
        }
    }

    // Takes out a page that nobody holds.
    fn let_go(&mut self, page: u32)
        requires { holds_in self.old page ≡ 0 }
        ensures { TakenOut self.old self.new page }
    {
        take_out(&mut self.pages, page);
        let _ = self.written.swap_remove(&page);
        self.recent.remove(page);
    }

    /// Takes out a clean page that nobody holds. Constant.
    pub fn forget(&mut self, page: u32)
        requires there { is_there self.old page ≡ true }
        requires clean { dirty_in self.old page ≡ false }
        requires free { holds_in self.old page ≡ 0 }
        ensures { TakenOut self.old self.new page }
    {
        self.let_go(page);
    }

    /// Takes out a dirty page that nobody holds. Its content is lost. Constant.
    pub fn give_up(&mut self, page: u32)
        requires dirty { dirty_in self.old page ≡ true }
        requires free { holds_in self.old page ≡ 0 }
        ensures { TakenOut self.old self.new page }
    {
        self.let_go(page);
    }

    /// Brings in a page that is not dirty with this content, and without a read. A clean copy that is there is replaced. The page
    /// is at the front of the list, or stays in the table.
    ///
    /// `NoMemory` where no memory is found for a page that is not there; the cache is as before then. Constant, beside copying
    /// one page.
    pub fn place(&mut self, page: u32, from: &Page) -> Result<(), NoMemory>
        requires { dirty_in self.old page ≡ false }
        ensures there { is_there self.old page ≡ true → IsOk result × Replaced self.old self.new page from.now }
        ensures ok { is_there self.old page ≡ false → OnOk result (Brought self.old self.new page (Some from.now)) }
        ensures err { OnErr result (Same self.old self.new) }
    {
        if self.pages.contains_key(&page) {
            replace(&mut self.pages, page, from);
            self.recent.use_again(page);
            return Ok(());
        }
        match Box::new(self.alloc, from.copy()) {
            Ok(content) => self.bring_in(page, content),
            Err(_) => Err(NoMemory),
        }
    }

    /// Holds a page that is there once more. A held page stays, in the table.
    ///
    /// `NoMemory` where it is held 2^32 - 1 times, and only there; the cache is as before then. Constant.
    pub fn hold(&mut self, page: u32) -> Result<(), NoMemory>
        requires { is_there self.old page ≡ true }
        ensures ok { OnOk result (Held self.old self.new page) }
        ensures err { OnErr result (Same self.old self.new) }
        ensures full { OnErr result (holds_in self.old page + 1 ≡ 2 ^ 32) }
    {
        let Some(times) = holds(&self.pages, page).checked_add(1) else {
            return Err(NoMemory);
        };
        set_holds(&mut self.pages, page, times);
        self.recent.remove(page);
        Ok(())
    }

    /// Holds a held page once less. Where nothing else keeps it in the table it comes to the front of the list, or is let go where
    /// no memory is found for that. Constant.
    pub fn unhold(&mut self, page: u32)
        requires { 0 < holds_in self.old page }
        ensures { Unheld self.old self.new page }
    {
        let times = holds(&self.pages, page) - 1;
        set_holds(&mut self.pages, page, times);
        if is_used(&self.pages, page) {
            return;
        }
        if self.written.contains(&page) {
            return;
        }
        settle(&mut self.pages, &mut self.recent, page, true);
    }

    /// How often a page is held; 0 where it is not there. The order of the list stays. Constant.
    pub fn holds(&self, page: u32) -> u32
        ensures { result ≡ holds_in self.now page }
    {
        holds(&self.pages, page)
    }

    /// The content of a page, if it is there. The order of the list stays. Constant.
    pub fn look(&self, page: u32) -> Option<&Page>
        ensures { MatchOption result (content_in self.now page ≡ None) (λ found. content_in self.now page ≡ Some found.now) }
    {
        content(&self.pages, page)
    }

    /// Lends a held page to be edited. It is dirty from now on. What the cache is once the page was edited is said by
    /// [`edits_one_page`](crate::edits_one_page). Constant.
    pub fn edit(&mut self, page: u32) -> &mut Page
        requires held { 0 < holds_in self.old page }
        ensures* writes_back { sem 𝓛 (LendsPage self.entry page result) }
        ensures value { content_in self.old page ≡ Some result.now }
    {
        let at = self.pages.get_index_of(&page).unwrap();
        let entry = &mut self.pages[at];
        entry.dirty = true;
        &mut entry.content
    }

    /// Copies a page. One that is there comes to the front where it stands in the list, and no device call is made. Any other is
    /// read straight into `into`, and the cache keeps nothing of it.
    ///
    /// `Failed` where that read failed: then nothing is known of `into`. Constant, beside copying or reading one page.
    pub fn read_into<D: Device>(
        &mut self,
        device: &mut D,
        page: u32,
        into: &mut Page,
    ) -> Result<(), Failed>
        requires { page < (D.seen device.old).pages }
        ensures cause { HasCause result (D.seen device.old) (D.seen device.new) }
        ensures there { is_there self.old page ≡ true → IsOk result × (D.seen device.new ≡ D.seen device.old) × Used self.old self.new page × (content_in self.old page ≡ Some into.new) }
        ensures absent { is_there self.old page ≡ false → OneRead (D.seen device.old) (D.seen device.new) × Same self.old self.new }
        ensures newest { is_there self.old page ≡ false → OnOk result ((D.seen device.old).honest ≡ true → (D.seen device.old).tells_pages ≡ true → slice_get (newest (D.seen device.old).state) page ≡ Some into.new) }
    {
        if let Some(found) = content(&self.pages, page) {
            into.0 = found.0;
            self.recent.use_again(page);
            return Ok(());
        }
        device.read(page, into)
    }

    /// Writes the whole content of a page that is there, as it is. The page is clean then, and stands in the table until the next
    /// barrier.
    ///
    /// After `Failed` the page is as before, dirty where it was. Constant, beside one write. It takes no memory.
    pub fn write_out<D: Device>(&mut self, device: &mut D, page: u32) -> Result<(), Failed>
        requires there { is_there self.old page ≡ true }
        requires within { page < (D.seen device.old).pages }
        ensures cause { HasCause result (D.seen device.old) (D.seen device.new) }
        ensures call { WritesPage (content_in self.old page) page result (D.seen device.old) (D.seen device.new) }
        ensures ok { OnOk result (WrittenOut self.old self.new page) }
        ensures err { OnErr result (Tried self.old self.new) }
    {
        self.calls = self.calls.saturating_add(1);
        match write_page(&self.pages, device, page) {
            Ok(()) => {}
            Err(failed) => return Err(failed),
        }
        clean(&mut self.pages, page);
        note_written(&self.pages, &mut self.written, page);
        self.recent.remove(page);
        Ok(())
    }

    /// Makes a barrier of the device. No page counts as written then, so those that nobody holds and that are clean move to the
    /// front of the list one after another, the lower numbers first. One for which no memory is found is let go.
    ///
    /// After `Failed` every page is as before. Sorts the pages that were written since the last barrier, and costs a constant for
    /// each; where there is one it also clears a byte for each page that there was ever room for.
    pub fn barrier<D: Device>(&mut self, device: &mut D) -> Result<(), Failed>
        ensures cause { HasCause result (D.seen device.old) (D.seen device.new) }
        ensures call { OneCall (FlushEntry result) (D.seen device.old) (D.seen device.new) }
        ensures ok { OnOk result (Fixed self.old self.new) }
        ensures err { OnErr result (Tried self.old self.new) }
    {
        self.calls = self.calls.saturating_add(1);
        match device.flush() {
            Ok(()) => {}
            Err(failed) => return Err(failed),
        }
        let sorted = self.written.sort_unstable().is_ok();
        settle_all(
            &mut self.pages,
            &mut self.recent,
            self.written.as_slice(),
            sorted,
        );
        forget_written(&mut self.written);
        Ok(())
    }

    /// How many calls of `write_out` and `barrier` were made, failed ones too. It stays at `u64::MAX` once it is there. Constant.
    pub fn calls(&self) -> u64
        ensures { result ≡ self.now.calls }
    {
        self.calls
    }
}
