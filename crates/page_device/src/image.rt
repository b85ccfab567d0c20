// What a device held at an earlier moment, from what it holds now and from its log.
ghost use Rattle.std.specs.Prelude.{◌≡◌, ℕ, ◌+◌, ◌-◌, ◌<◌, ◌≤◌, ◌∷◌, [], length, slice_set, slice_index, IfOk, OnOk};
ghost use Rattle.std.specs.Bool.{OnTrue, OnFalse};
ghost use Rattle.std.specs.Option.{option_to_list};
ghost use Rattle.page_device.specs.Disk.{DeviceState, at_rest, after, overlay, settled, state_after, written};
ghost use Rattle.page_device.specs.Chosen.{IsChosen};
ghost use Rattle.page_device.specs.Memory.{taken_pages, undone};
ghost use Rattle.page_device.specs.Rebuilt.{state_of};

use crate::{End, LogEntry, NoMemory, Page};
use std::alloc::Global;

// The state of a device: its fixed pages, and the contents written since the last barrier.
#[derive(Drop)]
pub struct Rebuilt {
    fixed: Vec<Page>,
    since: Vec<(u32, Page)>,
}

// The page that the entry wrote, where its content was taken.
fn taken_page(entry: &LogEntry) -> Option<u32>
    ensures { taken_pages (entry.now ∷ []) ≡ option_to_list result }
{
    match entry {
        LogEntry::Write { page, from: _, end } => match end {
            End::Done | End::Taken => Some(*page),
            End::Refused => None,
        },
        LogEntry::Flush { .. } => None,
    }
}

// Sets a page that is there.
fn set_page(pages: &mut Vec<Page>, page: u32, from: &Page)
    ensures { pages.new.items ≡ slice_set pages.old.items page from.now }
{
    let at = page as usize;
    if at < pages.len() {
        pages[at] = from.copy();
    }
}

// Sets the pages of these writes, in order.
fn set_all(pages: &mut Vec<Page>, writes: &[(u32, Page)])
    ensures { pages.new.items ≡ overlay pages.old.items writes.now }
{
    for write in writes {
        set_page(pages, write.0, &write.1);
    }
}

// Sets the pages of these writes, in order, each only as often as `left` says.
fn set_some(pages: &mut Vec<Page>, writes: &[(u32, Page)], left: &mut Vec<u32>)
    ensures { IsChosen (record { fixed = pages.old.items; since = writes.now }) left.old.items pages.new.items }
{
    for write in writes {
        if take_one(left, write.0) {
            set_page(pages, write.0, &write.1);
        }
    }
}

// Lowers the number of the page by one, where it is above zero, and tells whether it was.
fn take_one(left: &mut Vec<u32>, page: u32) -> bool
    ensures some { OnTrue result (0 < slice_index left.old.items page) }
    ensures lowered { OnTrue result (left.new.items ≡ slice_set left.old.items page (slice_index left.old.items page - 1)) }
    ensures none { OnFalse result (slice_index left.old.items page ≡ 0) }
    ensures same { OnFalse result (left.new.items ≡ left.old.items) }
{
    let at = page as usize;
    if at < left.len() && left[at] > 0 {
        left[at] -= 1;
        return true;
    }
    false
}

// The same pages once more.
pub fn copy_all(alloc: Global, pages: &[Page]) -> Result<Vec<Page>, NoMemory>
    ensures { IfOk result (λ copy. copy.items ≡ pages.now) }
{
    let mut copy = Vec::new(alloc);
    for page in pages {
        if copy.push(page.copy()).is_err() {
            return Err(NoMemory);
        }
    }
    Ok(copy)
}

// Takes the writes of these entries back, the last one first: each replaced the content beside it.
pub fn undo(pages: &mut Vec<Page>, entries: &[LogEntry], replaced: &[Page])
    requires { length replaced.now ≡ length (taken_pages entries.now) }
    ensures { pages.new.items ≡ undone pages.old.items (taken_pages entries.now) replaced.now }
{
    let mut left = replaced.len();
    for i in (0..entries.len()).rev() {
        if let Some(page) = taken_page(&entries[i]) {
            left -= 1;
            set_page(pages, page, &replaced[left]);
        }
    }
}

impl Rebuilt {
    // These pages fixed, and nothing pending.
    fn at_rest(alloc: Global, pages: Vec<Page>) -> Rebuilt
        ensures { state_of result ≡ at_rest pages.items }
    {
        Rebuilt {
            fixed: pages,
            since: Vec::new(alloc),
        }
    }

    // Fixes the newest contents.
    fn settle(&mut self)
        ensures { state_of self.new ≡ settled (state_of self.old) }
    {
        set_all(&mut self.fixed, &self.since);
        self.since.clear();
    }

    // Takes a content.
    fn write(&mut self, page: u32, from: &Page) -> Result<(), NoMemory>
        ensures { OnOk result (state_of self.new ≡ written (state_of self.old) page from.now) }
    {
        match self.since.push((page, from.copy())) {
            Ok(()) => Ok(()),
            Err(_) => Err(NoMemory),
        }
    }

    // Goes on by one entry.
    fn follow(&mut self, entry: &LogEntry) -> Result<(), NoMemory>
        ensures { OnOk result (state_of self.new ≡ after (state_of self.old) entry.now) }
    {
        match entry {
            LogEntry::Write { page, from, end } => match end {
                End::Done | End::Taken => self.write(*page, from),
                End::Refused => Ok(()),
            },
            LogEntry::Flush { end } => {
                if let End::Done = end {
                    self.settle();
                }
                Ok(())
            }
        }
    }

    // The state after these entries.
    pub fn after(alloc: Global, start: Vec<Page>, entries: &[LogEntry]) -> Result<Rebuilt, NoMemory>
        ensures { IfOk result (λ state. state_of state ≡ state_after (at_rest start.items) entries.now) }
    {
        let mut state = Rebuilt::at_rest(alloc, start);
        for entry in entries {
            if state.follow(entry).is_err() {
                return Err(NoMemory);
            }
        }
        Ok(state)
    }

    // The image with the contents that are chosen.
    pub fn choose(self, mut choice: Vec<u32>) -> Vec<Page>
        ensures { IsChosen (state_of self) choice.items result.items }
    {
        let Rebuilt {
            fixed: mut image,
            since,
        } = self;
        set_some(&mut image, &since, &mut choice);
        image
    }
}
