// What is kept of each page with a map or with prints.
ghost use Rattle.std.specs.Prelude.{◌≡◌, ℕ, ◌<◌, ◌≤◌, ◌+◌, ◌++◌, ◌∷◌, [], ◌&&◌, ◌||◌, eqb, nat_lt, cond, false, true, is_some, length, OnOk, Some, vec_capacity};
ghost use Rattle.birth_marks.specs.Pages.{AreListed, fresh as fresh_mark, is_known, listed_last, mark_of, noted_last, place_of, settled};

use crate::NoMemory;
use crate::births::Pair;
use std::alloc::Global;
use std::collections::HashMap;
use std::marker::Model;

// The moment of the last try to write the page, that when it was last settled, whether it was written with no change since, and whether it
// stands on the list of those that the next barrier looks at. Then the pair that was noted last for the page since it was settled.
#[derive(Clone, Copy, Drop)]
pub struct Mark {
    pub page: u32,
    pub tried_at: u64,
    pub settled_at: u64,
    pub written: bool,
    pub listed: bool,
    pub last: Option<Pair>,
}

// The marks of a page that no change was on.
fn fresh(page: u32) -> Mark
    ensures { result ≡ fresh_mark page }
{
    Mark {
        page,
        tried_at: 0,
        settled_at: 0,
        written: false,
        listed: false,
        last: None,
    }
}

// The marks of the pages that a change was on.
#[derive(Drop)]
pub struct Pages {
    places: HashMap<u32, usize>,
    marks: Vec<Mark>,
    // Those that the next barrier looks at, each once: they were written since the last one, with something noted for them. There is
    // room for all that are known, so that a write takes no memory.
    listed: Vec<u32>,
}

impl Model for Pages {
    ghost use Rattle.std.specs.Prelude.{min, vec_capacity, length, ◌-◌, ◌≤◌};
    ghost use Rattle.std.specs.HashMap.{spare};
    ghost use Rattle.birth_marks.specs.Pages.{AreListed, ArePlaced, PagesView};

    ghost Value = { PagesView };

    ghost view = { λ s. record {
      places = s.places.entries;
      marks = s.marks.items;
      listed = s.listed.items;
      spare = min (spare s.places) (min (vec_capacity s.marks) (vec_capacity s.listed) - length s.marks.items);
    } };

    ghost invariant = { λ s. ArePlaced s.places.entries s.marks.items
        × AreListed (record { places = s.places.entries; marks = s.marks.items; listed = s.listed.items; spare = 0 })
        × (length s.marks.items ≤ vec_capacity s.listed) };
}

impl Mark {
    // A barrier was made. It gives the pair that was noted last, where the page is settled.
    fn settle(&mut self, moment: u64) -> Option<Pair>
        ensures mark { self.new ≡ settled moment self.old }
        ensures noted { result ≡ noted_last self.old }
    {
        self.listed = false;
        if self.written {
            self.settled_at = moment;
            self.written = false;
            self.last.take()
        } else {
            None
        }
    }
}

// Puts a page at the end of the list, where it does not stand there.
fn list(listed: &mut Vec<u32>, page: u32, stands: bool)
    requires { stands ≡ false → length listed.old.items < vec_capacity listed.old }
    ensures items { listed.new.items ≡ cond stands listed.old.items (listed.old.items ++ page ∷ []) }
    ensures capacity { vec_capacity listed.new ≡ vec_capacity listed.old }
{
    if !stands {
        listed.push_reserved(page);
    }
}

impl Pages {
    pub fn new(alloc: Global) -> Pages
        ensures mark { (p : ℕ) → mark_of result p ≡ fresh_mark p }
        ensures known { (p : ℕ) → is_known result p ≡ false }
    {
        Pages {
            places: HashMap::new(alloc),
            marks: Vec::new(alloc),
            listed: Vec::new(alloc),
        }
    }

    // Makes room for so many further pages.
    pub fn reserve(&mut self, more: usize) -> Result<(), NoMemory>
        ensures mark { (p : ℕ) → mark_of self.new p ≡ mark_of self.old p }
        ensures known { (p : ℕ) → is_known self.new p ≡ is_known self.old p }
        ensures ok { OnOk result (more ≤ self.new.spare) }
        ensures spare { self.old.spare ≤ self.new.spare }
    {
        match self.places.try_reserve(more) {
            Ok(()) => {}
            Err(_) => return Err(NoMemory),
        }
        match self.marks.try_reserve(more) {
            Ok(()) => {}
            Err(_) => return Err(NoMemory),
        }
        match self
            .listed
            .try_reserve(self.marks.len() - self.listed.len() + more)
        {
            Ok(()) => Ok(()),
            Err(_) => Err(NoMemory),
        }
    }

    pub fn mark(&self, page: u32) -> Mark
        ensures { result ≡ mark_of self.now page }
    {
        match self.places.get(&page) {
            Some(&place) => self.marks[place],
            None => fresh(page),
        }
    }

    // Puts the marks of a page in place of those that stand there.
    fn put(&mut self, place: usize, mark: Mark)
        requires place { place_of self.old mark.page ≡ Some place }
        requires listed { mark.listed ≡ (mark_of self.old mark.page).listed }
        requires written { mark.written ≡ true → mark.listed ≡ true }
        ensures mark { (p : ℕ) → mark_of self.new p ≡ cond (eqb mark.page p) mark (mark_of self.old p) }
        ensures places { self.new.places ≡ self.old.places }
        ensures spare { self.new.spare ≡ self.old.spare }
    {
        self.marks[place] = mark;
    }

    // A change was on the page, and this is the pair that was noted last.
    pub fn change(&mut self, page: u32, last: Option<Pair>)
        requires { 0 < self.old.spare }
        ensures mark { (p : ℕ) → mark_of self.new p ≡ record (mark_of self.old p) { written = cond (eqb page p) false (mark_of self.old p).written; last = cond (eqb page p) last (mark_of self.old p).last } }
        ensures known { (p : ℕ) → is_known self.new p ≡ (eqb page p || is_known self.old p) }
        ensures spare { self.old.spare ≤ self.new.spare + 1 }
    {
        match self.places.get(&page) {
            Some(&place) => {
                let mut mark = self.marks[place];
                mark.written = false;
                mark.last = last;
                self.put(place, mark);
            }
            None => {
                let _ = self.places.insert(page, self.marks.len());
                let mut mark = fresh(page);
                mark.last = last;
                let _ = self.marks.push(mark);
            }
        }
    }

    pub fn tried(&mut self, page: u32, moment: u64)
        ensures mark { (p : ℕ) → mark_of self.new p ≡ record (mark_of self.old p) { tried_at = cond (eqb page p && is_known self.old p) moment (mark_of self.old p).tried_at } }
        ensures known { (p : ℕ) → is_known self.new p ≡ is_known self.old p }
        ensures spare { self.new.spare ≡ self.old.spare }
    {
        if let Some(&place) = self.places.get(&page) {
            let mut mark = self.marks[place];
            mark.tried_at = moment;
            self.put(place, mark);
        }
    }

    // The page was written. It has to stand on the list where something was noted for it since it was settled.
    pub fn written(&mut self, page: u32)
        ensures mark { (p : ℕ) → mark_of self.new p ≡ record (mark_of self.old p) { written = (eqb page p && is_some (mark_of self.old p).last) || (mark_of self.old p).written; listed = (eqb page p && is_some (mark_of self.old p).last) || (mark_of self.old p).listed } }
        ensures known { (p : ℕ) → is_known self.new p ≡ is_known self.old p }
        ensures spare { self.new.spare ≡ self.old.spare }
    {
        let Some(&place) = self.places.get(&page) else {
            return;
        };
        let mut mark = self.marks[place];
        if mark.last.is_none() {
            return;
        }
        list(&mut self.listed, page, mark.listed);
        mark.written = true;
        mark.listed = true;
        self.marks[place] = mark;
    }

    // Whether a page stands on the list.
    pub fn has_listed(&self) -> bool
        ensures listed { result ≡ nat_lt 0 (length self.now.listed) }
        ensures pages { AreListed self.now }
    {
        !self.listed.is_empty()
    }

    // A barrier was made. It takes the last page off the list, and gives the pair that was noted last for it, where it is settled.
    pub fn settle(&mut self, moment: u64) -> Option<Pair>
        requires { 0 < length self.old.listed }
        ensures mark { (p : ℕ) → mark_of self.new p ≡ cond (eqb (listed_last self.old) p) (settled moment (mark_of self.old p)) (mark_of self.old p) }
        ensures known { (p : ℕ) → is_known self.new p ≡ is_known self.old p }
        ensures spare { self.new.spare ≡ self.old.spare }
        ensures listed { length self.new.listed + 1 ≡ length self.old.listed }
        ensures noted { result ≡ noted_last (mark_of self.old (listed_last self.old)) }
    {
        let Some(page) = self.listed.pop() else {
            return None;
        };
        let Some(&place) = self.places.get(&page) else {
            return None;
        };
        let mut mark = self.marks[place];
        let last = mark.settle(moment);
        self.marks[place] = mark;
        last
    }
}
