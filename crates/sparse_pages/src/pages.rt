// A list of pages, and how it is kept.
ghost use Rattle.std.specs.Prelude.{◌≡◌, ◌↔◌, ◌<◌, ◌≤◌, ◌+◌, ◌++◌, ◌∷◌, [], IsTrue, length, slice_index_or, IfOk, vec_capacity};
ghost use Rattle.std.specs.Borrow.{sem};
ghost use Rattle.page_device.specs.Block.{zero_block};
ghost use Rattle.sparse_pages.specs.View.{AreKept, pages_at};
ghost use Rattle.sparse_pages.specs.Lending.{LendsPage};

use page_device::{NoMemory, Page};
use std::alloc::Global;
use std::marker::Model;

/// Pages in order. A page of zeros takes 4 bytes until it is edited, and every other page 4 bytes more than its own.
///
/// Memory for all pages is asked for when the list is made, so that no later call can lack it; a system hands such
/// memory out where it is first written. Contracts see the pages as the list `items`, of at most `limit` pages.
#[derive(Drop)]
pub struct SparsePages {
    // Where each page stands among those that are kept. All pages at place 0 share it, and no others share one.
    places: Vec<u32>,
    // The page of zeros, and then those that have a place of their own.
    kept: Vec<Page>,
    limit: u32,
}

impl Model for SparsePages {
    ghost use Rattle.std.specs.Prelude.{vec_capacity};
    ghost use Rattle.sparse_pages.specs.View.{PagesView, IsWhole, pages_at};

    ghost Value = { PagesView };

    ghost view = { λ s. record { items = pages_at s.places.items s.kept.items; limit = s.limit } };

    ghost invariant = { λ s. IsWhole s.places.items s.kept.items s.limit (vec_capacity s.places) (vec_capacity s.kept) };
}

// The place of a page, which gets one of its own where it shares the page of zeros.
fn own_place(places: &mut Vec<u32>, kept: &mut Vec<Page>, j: u32) -> u32
    requires kept { AreKept places.old.items kept.old.items }
    requires page { j < length places.old.items }
    requires room { length places.old.items + 1 ≤ vec_capacity kept.old }
    requires few { length places.old.items + 1 < 4294967296 }
    ensures kept { AreKept places.new.items kept.new.items }
    ensures length { length places.new.items ≡ length places.old.items }
    ensures pages { pages_at places.new.items kept.new.items ≡ pages_at places.old.items kept.old.items }
    ensures place { result ≡ slice_index_or places.new.items j 0 }
    ensures own { 1 ≤ result }
    ensures places { vec_capacity places.new ≡ vec_capacity places.old }
    ensures room { vec_capacity kept.new ≡ vec_capacity kept.old }
{
    let place = places[j as usize];
    if place != 0 {
        return place;
    }
    let own = kept.len() as u32;
    places[j as usize] = own;
    kept.push_reserved(Page::zero());
    own
}

impl SparsePages {
    /// An empty list for at most so many pages.
    ///
    /// `NoMemory` where no memory is found for all of them, 4100 bytes each. Constant, beside asking for it.
    pub fn with_capacity(alloc: Global, limit: u32) -> Result<SparsePages, NoMemory>
        requires { limit < 4294967295 }
        ensures { IfOk result (λ pages. (pages.items ≡ []) × (pages.limit ≡ limit)) }
    {
        let Ok(places) = Vec::with_capacity(alloc, limit as usize) else {
            return Err(NoMemory);
        };
        let Ok(mut kept) = Vec::with_capacity(alloc, limit as usize + 1) else {
            return Err(NoMemory);
        };
        kept.push_reserved(Page::zero());
        Ok(SparsePages {
            places,
            kept,
            limit,
        })
    }

    /// How many pages there are. Constant.
    pub fn len(&self) -> u32
        ensures { result ≡ length self.now.items }
    {
        self.places.len() as u32
    }

    /// Whether there are as many pages as there may be. Constant.
    pub fn is_full(&self) -> bool
        ensures full { IsTrue result ↔ (length self.now.items ≡ self.now.limit) }
        ensures most { length self.now.items ≤ self.now.limit }
    {
        self.len() == self.limit
    }

    /// Appends a page. Looks whether it is zeros, and copies it where not: linear in the page.
    pub fn push(&mut self, page: &Page)
        requires room { length self.old.items < self.old.limit }
        ensures items { self.new.items ≡ self.old.items ++ page.now ∷ [] }
        ensures limit { self.new.limit ≡ self.old.limit }
    {
        if page.is_zero() {
            self.places.push_reserved(0);
            return;
        }
        self.places.push_reserved(self.kept.len() as u32);
        self.kept.push_reserved(page.copy());
    }

    /// The page `j`, counted from 0. Constant.
    pub fn page(&self, j: u32) -> &Page
        requires { j < length self.now.items }
        ensures { result.now ≡ slice_index_or self.now.items j zero_block }
    {
        let place = self.places[j as usize];
        &self.kept[place as usize]
    }

    /// Lends the page `j`, counted from 0, to be edited. Constant, beside writing a page of zeros where `j` shared one.
    pub fn edit(&mut self, j: u32) -> &mut Page
        requires { j < length self.old.items }
        ensures* writes_back { sem 𝓛 (LendsPage self.entry j result) }
        ensures value { result.now ≡ slice_index_or self.old.items j zero_block }
    {
        let place = own_place(&mut self.places, &mut self.kept, j);
        &mut self.kept[place as usize]
    }
}
