// What is known of the counts of the data pages.
ghost use Rattle.std.specs.Prelude.{◌≡◌, ◌≢◌, ℕ, ◌+◌, ◌-◌, ◌*◌, ◌/◌, ◌%◌, ◌<◌, ◌≤◌, true, false, length, replicate, IfOk, IfSome, IfNone};
ghost use Rattle.order_model.specs.Pool.{IsLowest, after_fixed, after_take, after_tried, after_written, after_zeroed, is_free, new_pool};
ghost use Rattle.order_model.specs.World.{Layout};
ghost use Rattle.page_layout.specs.Shape.{count_page, count_pages, first_count_page};
ghost use Rattle.page_alloc.specs.Kept.{told_at, marks_at, IsIndexed};
ghost use Rattle.page_alloc.specs.Marks.{no_told};
ghost use Rattle.page_alloc.specs.Pool.{IsLaidOut, IsTold, told_of};

use crate::bits::{has_bit, lowest_bit};
use crate::groups::{GROUPS, put, settle, tell};
use crate::marks::{Marks, Step};
use crate::numbers::Numbers;
use page_device::NoMemory;
use page_layout::Shape;
use std::alloc::Global;
use std::marker::Model;

/// What is known of the counts of all data pages, and which of these are free.
///
/// Three bits are kept for each data page: whether its cached count is 0, whether some count that the
/// device may have is above 0, and whether the newest of these is. Free is a page whose cached count is 0
/// while no count that the device may have is above 0. This is safe whatever fails, and exact as long as
/// no write of a count page failed: a failed one may have been taken, so its pages count as tried.
///
/// Contracts see the shape and a list of what was told of each data page (`PoolView` in
/// `specs/Pool.antt`). What a call makes of it is said by the functions on what a pool was told in
/// `order_model` (`specs/Pool.antt` there), for any layout whose count pages stand where the shape's do.
#[derive(Drop)]
pub struct Pool {
    shape: Shape,
    // Sixteen for each count page.
    groups: Vec<Marks>,
    // The groups that have a free page.
    free: Numbers,
    // The count pages, from 0 on, that were written since the last barrier.
    written: Numbers,
}

impl Model for Pool {
    ghost use Rattle.page_alloc.specs.Pool.{PoolView, pool_told};
    ghost use Rattle.page_alloc.specs.Kept.{told_at, IsPool};

    ghost Value = { PoolView };

    ghost view = { λ s. pool_told s.shape (told_at s.groups.items) };

    ghost invariant = { λ s. IsPool s.shape s.groups.items s.free s.written };
}

// So many groups of no page.
fn no_groups(alloc: Global, count: usize) -> Result<Vec<Marks>, NoMemory>
    ensures { IfOk result (λ groups. groups.items ≡ replicate count (record { zero = 0; tried = 0; newest = 0 })) }
{
    let Ok(mut groups) = Vec::with_capacity(alloc, count) else {
        return Err(NoMemory);
    };
    for _ in 0..count {
        groups.push_reserved(Marks::NONE);
    }
    Ok(groups)
}

// Makes so many pages free.
fn fill(groups: &mut [Marks], free: &mut Numbers, pages: u32)
    requires within { pages ≤ 64 * length groups.old }
    requires none { (g : ℕ) → marks_at groups.old g ≡ record { zero = 0; tried = 0; newest = 0 } }
    requires indexed { IsIndexed groups.old free.old }
    ensures inside { (p : ℕ) → 1 ≤ p → p ≤ pages → told_at groups.new p ≡ new_pool p }
    ensures behind { (p : ℕ) → pages < p → told_at groups.new p ≡ no_told }
    ensures indexed { IsIndexed groups.new free.new }
{
    for group in 0..pages.div_ceil(64) {
        let here = (pages - 64 * group).min(64);
        put(groups, free, group as usize, Marks::fresh(here));
    }
}

// The group of a data page, and the bit in it.
fn place_of(p: u32) -> (usize, u32)
    requires { 1 ≤ p }
    ensures group { result.0 ≡ (p - 1) / 64 }
    ensures bit { result.1 ≡ (p - 1) % 64 }
{
    ((p - 1) as usize / 64, (p - 1) % 64)
}

// Which count page, counted from 0, a page of the device is.
fn count_page_index(shape: &Shape, page: u32) -> Option<usize>
    ensures within { IfSome result (λ c. c < count_pages shape.now) }
    ensures place { IfSome result (λ c. page ≡ first_count_page shape.now + c) }
    ensures none { IfNone result ((p : ℕ) → 1 ≤ p → p ≤ shape.now.pages → count_page shape.now p ≢ page) }
{
    let first = shape.first_count_page();
    if page < first || page >= shape.first_print_page() {
        return None;
    }
    Some((page - first) as usize)
}

impl Pool {
    /// A pool that was told nothing: every data page of this shape is free.
    ///
    /// Who opens an image tells it what stands there: each data page with a count by
    /// [`take`](Pool::take), then each count page by [`count_tried`](Pool::count_tried) and
    /// [`count_written`](Pool::count_written), and then [`fixed`](Pool::fixed).
    ///
    /// The only call that takes memory: 24 bytes for 64 data pages, and a bit for each 64 of them.
    /// Linear in the data pages.
    pub fn new(alloc: Global, shape: &Shape) -> Result<Pool, NoMemory>
        ensures { IfOk result (IsTold shape.now new_pool) }
    {
        let pages = shape.pages;
        let count_pages = shape.count_pages() as usize;
        let mut groups = no_groups(alloc, GROUPS * count_pages)?;
        let mut free = Numbers::new(alloc, GROUPS * count_pages)?;
        let written = Numbers::new(alloc, count_pages)?;
        fill(&mut groups, &mut free, pages);
        Ok(Pool {
            shape: *shape,
            groups,
            free,
            written,
        })
    }

    /// The lowest free data page, numbered from 1; none exactly where no data page is free. Constant
    /// time: it looks at seven words at most.
    pub fn lowest(&self) -> Option<u32>
        ensures first { IfSome result (λ p. 1 ≤ p) }
        ensures last { IfSome result (λ p. p ≤ self.now.shape.pages) }
        ensures lowest { (lay : Layout) → IsLaidOut self.now.shape lay → IfSome result (IsLowest lay (told_of self.now)) }
        ensures none { IfNone result ((p : ℕ) → 1 ≤ p → p ≤ self.now.shape.pages → is_free (told_of self.now p) ≡ false) }
    {
        match self.free.least() {
            Some(group) => match lowest_bit(self.groups[group].free()) {
                Some(bit) => Some(64 * group as u32 + bit + 1),
                None => None,
            },
            None => None,
        }
    }

    /// Whether a data page is free. Constant time.
    pub fn is_free(&self, p: u32) -> bool
        requires first { 1 ≤ p }
        requires last { p ≤ self.now.shape.pages }
        ensures { result ≡ is_free (told_of self.now p) }
    {
        let (group, bit) = place_of(p);
        has_bit(self.groups[group].free(), bit)
    }

    /// Says that the cached count of a data page is above 0 now. It is not free then. A page that is taken
    /// already stays so. Constant time.
    pub fn take(&mut self, p: u32)
        requires first { 1 ≤ p }
        requires last { p ≤ self.old.shape.pages }
        ensures told { IsTold self.old.shape (after_take p (told_of self.old)) self.new }
        ensures again { (told_of self.old p).zero ≡ false → self.new ≡ self.old }
    {
        let (group, bit) = place_of(p);
        let marks = self.groups[group].taken(bit);
        put(&mut self.groups, &mut self.free, group, marks);
    }

    /// Says that the cached count of a data page became 0. It is free from now on where no count that the
    /// device may have is above 0, and else once that is so. Told of a page that is free, or of one of
    /// which it was told already, it changes nothing. Constant time.
    pub fn zeroed(&mut self, p: u32)
        requires first { 1 ≤ p }
        requires last { p ≤ self.old.shape.pages }
        ensures told { IsTold self.old.shape (after_zeroed p (told_of self.old)) self.new }
        ensures again { (told_of self.old p).zero ≡ true → self.new ≡ self.old }
    {
        let (group, bit) = place_of(p);
        let marks = self.groups[group].zeroed(bit);
        put(&mut self.groups, &mut self.free, group, marks);
    }

    /// Says that a write of a count page, by its number on the device, is about to be made. From now on
    /// the device may have its cached counts, also where the write fails, so no page with one above 0 is
    /// free until a barrier after a later write. A page that is no count page changes nothing.
    ///
    /// Costs the 1024 data pages of the count page, in 16 steps.
    pub fn count_tried(&mut self, page: u32)
        ensures shape { self.new.shape ≡ self.old.shape }
        ensures told { (lay : Layout) → IsLaidOut self.old.shape lay → IsTold self.old.shape (after_tried lay page (told_of self.old)) self.new }
        ensures other { ((q : ℕ) → 1 ≤ q → q ≤ self.old.shape.pages → count_page self.old.shape q ≢ page) → self.new ≡ self.old }
    {
        if let Some(index) = count_page_index(&self.shape, page) {
            tell(&mut self.groups, &mut self.free, index, Step::Tried);
        }
    }

    /// Says that the write of a count page, by its number on the device, was done: the newest counts are
    /// its cached ones. A page that is no count page changes nothing.
    ///
    /// Costs the 1024 data pages of the count page, in 16 steps.
    pub fn count_written(&mut self, page: u32)
        ensures shape { self.new.shape ≡ self.old.shape }
        ensures told { (lay : Layout) → IsLaidOut self.old.shape lay → IsTold self.old.shape (after_written lay page (told_of self.old)) self.new }
        ensures other { ((q : ℕ) → 1 ≤ q → q ≤ self.old.shape.pages → count_page self.old.shape q ≢ page) → self.new ≡ self.old }
    {
        if let Some(index) = count_page_index(&self.shape, page) {
            tell(&mut self.groups, &mut self.free, index, Step::Written);
            self.written.insert(index);
        }
    }

    /// Says that a barrier was made: the newest counts are the only ones that the device may have.
    ///
    /// Costs 16 steps for each count page that was written since the last barrier, and nothing for the
    /// others.
    pub fn fixed(&mut self)
        ensures { IsTold self.old.shape (after_fixed (told_of self.old)) self.new }
    {
        settle(&mut self.groups, &mut self.free, &mut self.written);
    }
}
