// The pages that stand in no table, the last used first.
ghost use Rattle.std.specs.Prelude.{◌≡◌, ℕ, ◌<◌, ◌≤◌, ◌∷◌, ◌&&◌, ◌||◌, [], not, eqb, true, false, take, IfOk, OnOk, OnErr};
ghost use Rattle.page_cache.specs.Recent.{IsRecent, IsSize, has, is_it, used, without};

use crate::cache::{LEAST_SIZE, MOST_SIZE};
use lru::LruCache;
use page_device::NoMemory;
use std::alloc::Global;
use std::marker::Model;
use std::num::NonZeroUsize;

// At most so many pages, each once. That this holds of `pages` is what the contract of its `len` says, so the calls below that need
// to know it ask for the length.
#[derive(Drop)]
pub struct Recent {
    pages: LruCache<u32, ()>,
}

impl Model for Recent {
    ghost use Rattle.std.specs.Map.{keys_of};
    ghost use Rattle.page_cache.specs.Recent.{IsSize, RecentView};

    ghost Value = { RecentView };

    ghost view = { λ r. record { pages = keys_of r.pages.entries; limit = r.pages.cap } };

    ghost invariant = { λ r. IsSize r.pages.cap };
}

impl Recent {
    // An empty list for so many pages. Linear in them.
    pub fn new(alloc: Global, limit: u32) -> Result<Recent, NoMemory>
        requires { IsSize limit }
        ensures pages { IfOk result (λ recent. recent.pages ≡ []) }
        ensures limit { IfOk result (λ recent. recent.limit ≡ limit) }
    {
        let limit = NonZeroUsize::new(limit as usize).unwrap();
        match LruCache::new(alloc, limit) {
            Ok(pages) => Ok(Recent { pages }),
            Err(_) => Err(NoMemory),
        }
    }

    // How many there may be.
    pub fn limit(&self) -> u32
        ensures limit { result ≡ self.now.limit }
        ensures whole { IsRecent self.now }
    {
        let _ = self.pages.len();
        self.pages.cap().get() as u32
    }

    // Brings a page to the front, if it is one of them.
    pub fn use_again(&mut self, page: u32)
        ensures pages { self.new.pages ≡ used page self.old.pages }
        ensures same { (q : ℕ) → has self.new.pages q ≡ has self.old.pages q }
        ensures limit { self.new.limit ≡ self.old.limit }
    {
        let _ = self.pages.len();
        let _ = self.pages.promote(&page);
    }

    // Takes a page out, if it is one of them.
    pub fn remove(&mut self, page: u32)
        ensures pages { self.new.pages ≡ without page self.old.pages }
        ensures others { (q : ℕ) → has self.new.pages q ≡ (has self.old.pages q && not (eqb q page)) }
        ensures limit { self.new.limit ≡ self.old.limit }
    {
        let _ = self.pages.len();
        let _ = self.pages.pop(&page);
    }

    // Puts a page that is none of them in front, and answers the last one, which a full list drops for it.
    pub fn bring(&mut self, page: u32) -> Result<Option<u32>, NoMemory>
        requires { has self.old.pages page ≡ false }
        ensures pages { OnOk result (self.new.pages ≡ take self.old.limit (page ∷ self.old.pages)) }
        ensures front { OnOk result (has self.new.pages page ≡ true) }
        ensures others { OnOk result ((q : ℕ) → has self.new.pages q ≡ true → (eqb q page || has self.old.pages q) ≡ true) }
        ensures dropped { IfOk result (λ dropped. (q : ℕ) → is_it dropped q ≡ (has self.old.pages q && not (has self.new.pages q))) }
        ensures limit { self.new.limit ≡ self.old.limit }
        ensures err { OnErr result (self.new.pages ≡ self.old.pages) }
    {
        let _ = self.pages.len();
        match self.pages.push(page, ()) {
            Ok(Some((dropped, ()))) => Ok(Some(dropped)),
            Ok(None) => Ok(None),
            Err(_) => Err(NoMemory),
        }
    }
}
