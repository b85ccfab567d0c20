// The pages that are there.
ghost use Rattle.std.specs.Prelude.{◌≡◌, ℕ, ◌<◌, ◌≤◌, ◌+◌, ◌-◌, ◌^◌, ◌||◌, cond, eqb, nat_lt, true, false, length, Option, Some, None, is_some, IsSome, MatchOption, OnOk, OnErr};
ghost use Rattle.std.specs.Map.{lookup};
ghost use Rattle.std.specs.HashMap.{spare};
ghost use Rattle.page_cache.specs.Entries.{SetsEntry, content_at, entry_at, is_used_at, holds_at, dirty_at, with_content, with_dirty, with_holds};

use indexmap::IndexMap;
use page_device::{NoMemory, Page};

// A page that is there: its content, how often it is held, and whether it was edited since its last write.
#[derive(Drop)]
pub struct Entry {
    pub content: Box<Page>,
    pub holds: u32,
    pub dirty: bool,
}

// The content of a page.
pub fn content(pages: &IndexMap<u32, Entry>, page: u32) -> Option<&Page>
    ensures { MatchOption result (content_at pages.now.entries page ≡ None) (λ p. content_at pages.now.entries page ≡ Some p.now) }
{
    match pages.get(&page) {
        Some(entry) => Some(&entry.content),
        None => None,
    }
}

// Whether the page is held or dirty.
pub fn is_used(pages: &IndexMap<u32, Entry>, page: u32) -> bool
    ensures { result ≡ is_used_at pages.now.entries page }
{
    match pages.get(&page) {
        Some(entry) => entry.holds > 0 || entry.dirty,
        None => false,
    }
}

// Puts a page in.
pub fn put(pages: &mut IndexMap<u32, Entry>, page: u32, entry: Entry)
    requires room { 0 < spare pages.old }
    ensures entries { SetsEntry pages.old.entries page (Some entry) pages.new.entries }
    ensures len { length pages.new.entries ≤ length pages.old.entries + 1 }
{
    let _ = pages.insert(page, entry);
}

// Takes a page out, if it is there.
pub fn take_out(pages: &mut IndexMap<u32, Entry>, page: u32)
    ensures entries { SetsEntry pages.old.entries page None pages.new.entries }
    ensures len { length pages.new.entries + cond (is_some (entry_at pages.old.entries page)) 1 0 ≡ length pages.old.entries }
    ensures room { spare pages.old ≤ spare pages.new }
{
    let _ = pages.swap_remove(&page);
}

// Puts another content in place of that of a page that is there.
pub fn replace(pages: &mut IndexMap<u32, Entry>, page: u32, from: &Page)
    requires { IsSome (entry_at pages.old.entries page) }
    ensures entries { SetsEntry pages.old.entries page (with_content from.now (entry_at pages.old.entries page)) pages.new.entries }
    ensures len { length pages.new.entries ≡ length pages.old.entries }
{
    if let Some(entry) = pages.get_mut(&page) {
        entry.content.0 = from.0;
    }
}

// A page that is there was written.
pub fn clean(pages: &mut IndexMap<u32, Entry>, page: u32)
    requires { IsSome (entry_at pages.old.entries page) }
    ensures entries { SetsEntry pages.old.entries page (with_dirty false (entry_at pages.old.entries page)) pages.new.entries }
    ensures len { length pages.new.entries ≡ length pages.old.entries }
{
    if let Some(entry) = pages.get_mut(&page) {
        entry.dirty = false;
    }
}

// How often a page is held.
pub fn holds(pages: &IndexMap<u32, Entry>, page: u32) -> u32
    ensures { result ≡ holds_at pages.now.entries page }
{
    match pages.get(&page) {
        Some(entry) => entry.holds,
        None => 0,
    }
}

// A page that is there is held so often now.
pub fn set_holds(pages: &mut IndexMap<u32, Entry>, page: u32, holds: u32)
    requires { IsSome (entry_at pages.old.entries page) }
    ensures entries { SetsEntry pages.old.entries page (with_holds holds (entry_at pages.old.entries page)) pages.new.entries }
    ensures len { length pages.new.entries ≡ length pages.old.entries }
{
    if let Some(entry) = pages.get_mut(&page) {
        entry.holds = holds;
    }
}
