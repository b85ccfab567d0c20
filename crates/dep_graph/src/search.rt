// A search along Live edges by marks and a queue. It takes no memory.
ghost use Rattle.std.specs.Prelude.{◌≡◌, ◌⊎◌, ◌↔◌, ℕ, ◌+◌, ◌<◌, ◌≤◌, ◌^◌, ◌||◌, ◌&&◌, Bool, true, false, eqb, slice_index_or, [], ◌∷◌, ◌++◌, length, slice_index, vec_capacity, OnOk, if◌then◌else◌};
ghost use Rattle.std.specs.List.{list_any};
ghost use Rattle.dep_graph.specs.Pages.{holds, IsRising};
ghost use Rattle.dep_graph.specs.Pairs.{AreRising, has_pair};
ghost use Rattle.order_model.specs.Paths.{Closes};
ghost use Rattle.dep_graph.specs.Trails.{seen, AreWithin, IsClosed};
ghost use Rattle.dep_graph.specs.Waits.{waits_for};

use crate::pages;
use crate::pairs::{self, Pair};
use crate::room::room_for;
use crate::waiting::Waiting;
use std::alloc::{AllocError, Global};
use std::marker::Model;

// The places that a search has reached.
#[derive(Drop)]
pub struct Search {
    marks: Vec<bool>,
    queue: Vec<u32>,
}

impl Model for Search {
    ghost use Rattle.std.specs.Prelude.{◌≤◌, ◌<◌, ◌^◌, length, vec_capacity};
    ghost use Rattle.dep_graph.specs.Trails.{IsMarked, Trail};

    ghost Value = { Trail };

    ghost view = { λ s. record { reached = s.queue.items; room = length s.marks.items } };

    ghost invariant = { λ s. IsMarked s.marks.items s.queue.items × (length s.marks.items ≤ vec_capacity s.queue) × (length s.marks.items < 2 ^ 31) };
}

impl Search {
    pub fn new(alloc: Global) -> Search
        ensures reached { result.reached ≡ [] }
        ensures room { result.room ≡ 0 }
    {
        Search {
            marks: Vec::new(alloc),
            queue: Vec::new(alloc),
        }
    }

    // Makes room for so many places.
    pub fn reserve(&mut self, places: u32) -> Result<(), AllocError>
        requires none { self.old.reached ≡ [] }
        requires few { places < 2 ^ 31 }
        ensures reached { self.new.reached ≡ [] }
        ensures few { self.new.room < 2 ^ 31 }
        ensures ok { OnOk result (places ≤ self.new.room) }
        ensures room { self.old.room ≤ self.new.room }
    {
        let _ = &self.marks;
        let places = places as usize;
        if places <= self.marks.len() {
            return Ok(());
        }
        room_for(&mut self.queue, places)?;
        self.marks.resize(places, false)?;
        Ok(())
    }

    // How many places were reached.
    pub fn len(&self) -> usize
        ensures len { result ≡ length self.now.reached }
        ensures few { result ≤ self.now.room }
    {
        let _ = &self.marks;
        self.queue.len()
    }

    // A place that was reached.
    pub fn place(&self, i: usize) -> usize
        requires { i < length self.now.reached }
        ensures { result ≡ slice_index self.now.reached i }
    {
        self.queue[i] as usize
    }

    // The places that were reached, in their order.
    pub fn places(&self) -> &[u32]
        ensures { result.now ≡ self.now.reached }
    {
        let _ = &self.marks;
        &self.queue
    }

    pub fn is_reached(&self, place: usize) -> bool
        requires { place < self.now.room }
        ensures { result ≡ holds self.now.reached place }
    {
        self.marks[place]
    }

    pub fn visit(&mut self, place: usize)
        requires { place < self.old.room }
        ensures reached { self.new.reached ≡ (if holds self.old.reached place then self.old.reached else self.old.reached ++ place ∷ []) }
        ensures room { self.new.room ≡ self.old.room }
    {
        if self.marks[place] {
            return;
        }
        self.marks[place] = true;
        self.queue.push_reserved(place as u32);
    }

    // Forgets what was reached.
    pub fn clear(&mut self)
        ensures reached { self.new.reached ≡ [] }
        ensures room { self.new.room ≡ self.old.room }
    {
        unmark(&mut self.marks, &self.queue);
        self.queue.clear();
    }
}

fn unmark(marks: &mut [bool], queue: &[u32])
    requires { (k : ℕ) → k < length queue.now → slice_index queue.now k < length marks.old }
    ensures gone { (k : ℕ) → holds queue.now k ≡ true → slice_index_or marks.new k false ≡ false }
    ensures others { (k : ℕ) → holds queue.now k ≡ false → slice_index_or marks.new k false ≡ slice_index_or marks.old k false }
{
    for place in queue {
        marks[*place as usize] = false;
    }
}

// Reaches the page after each of these edges.
fn spread(out: &[Pair], pages: &[u32], search: &mut Search)
    requires rising { IsRising pages.now }
    requires pages { (k : ℕ) (d : Pair) → k < length out.now → holds pages.now (slice_index_or out.now k d).after ≡ true }
    requires within { AreWithin search.old.reached (length pages.now) }
    requires room { length pages.now ≤ search.old.room }
    ensures seen { (x : ℕ) → seen pages.now search.new.reached x ≡ (seen pages.now search.old.reached x || list_any (λ p. eqb p.after x) out.now) }
    ensures within { AreWithin search.new.reached (length pages.now) }
    ensures front { (k : ℕ) → k < length search.old.reached → slice_index search.new.reached k ≡ slice_index search.old.reached k }
    ensures grows { length search.old.reached ≤ length search.new.reached }
    ensures room { search.new.room ≡ search.old.room }
{
    for pair in out {
        search.visit(pages::position_of(pages, pair.after));
    }
}

// Reaches a page, and all to which Live edges lead from it.
pub fn explore(live: &[Pair], pages: &[u32], search: &mut Search, from: u32)
    requires live_rising { AreRising live.now }
    requires rising { IsRising pages.now }
    requires ends { (a b : ℕ) → has_pair live.now a b ≡ true → holds pages.now b ≡ true }
    requires from { holds pages.now from ≡ true }
    requires within { AreWithin search.old.reached (length pages.now) }
    requires room { length pages.now ≤ search.old.room }
    requires closed { IsClosed live.now pages.now search.old.reached }
    ensures sound { (x : ℕ) → seen pages.now search.new.reached x ≡ true → (seen pages.now search.old.reached x ≡ true) ⊎ Closes (has_pair live.now) x from }
    ensures kept { (x : ℕ) → seen pages.now search.old.reached x ≡ true → seen pages.now search.new.reached x ≡ true }
    ensures complete { (x : ℕ) → Closes (has_pair live.now) x from → seen pages.now search.new.reached x ≡ true }
    ensures within { AreWithin search.new.reached (length pages.now) }
    ensures closed { IsClosed live.now pages.now search.new.reached }
    ensures room { search.new.room ≡ search.old.room }
{
    let mut head = search.len();
    search.visit(pages::position_of(pages, from));
    while head < search.len() {
        let page = pages[search.place(head)];
        spread(pairs::out_of(live, page), pages, search);
        head += 1;
    }
}

// Whether a way leads from one page to another, or they are one.
pub fn reaches(live: &[Pair], pages: &[u32], search: &mut Search, from: u32, to: u32) -> bool
    requires live_rising { AreRising live.now }
    requires rising { IsRising pages.now }
    requires ends { (a b : ℕ) → has_pair live.now a b ≡ true → holds pages.now b ≡ true }
    requires from { holds pages.now from ≡ true }
    requires to { holds pages.now to ≡ true }
    requires none { search.old.reached ≡ [] }
    requires room { length pages.now ≤ search.old.room }
    ensures way { (result ≡ true) ↔ Closes (has_pair live.now) to from }
    ensures none { search.new.reached ≡ [] }
    ensures room { search.new.room ≡ search.old.room }
{
    explore(live, pages, search, from);
    let found = search.is_reached(pages::position_of(pages, to));
    search.clear();
    found
}

// Lists, in rising order, the pages to which no edge leads and from which a way leads to one page, and that page itself where no
// edge leads to it. The edges are turned round.
pub fn list_reaching(
    back: &[Pair],
    dirty: &Waiting,
    search: &mut Search,
    to: u32,
    listed: &mut Vec<u32>,
)
    requires back_rising { AreRising back.now }
    requires ends { (a b : ℕ) → has_pair back.now a b ≡ true → (holds dirty.now.pages a ≡ true) × (holds dirty.now.pages b ≡ true) }
    requires none { search.old.reached ≡ [] }
    requires room { length dirty.now.pages ≤ search.old.room }
    requires listed_room { length dirty.now.pages ≤ vec_capacity listed.old }
    ensures listed { (a : ℕ) → (holds listed.new.items a ≡ true) ↔ (((holds dirty.now.pages a && eqb (waits_for dirty.now a) 0) ≡ true) × Closes (has_pair back.now) a to) }
    ensures rising { IsRising listed.new.items }
    ensures none { search.new.reached ≡ [] }
    ensures room { search.new.room ≡ search.old.room }
    ensures listed_room { vec_capacity listed.new ≡ vec_capacity listed.old }
{
    listed.clear();
    if !dirty.contains(to) {
        return;
    }
    explore(back, dirty.pages(), search, to);
    collect(dirty, search.places(), listed);
    search.clear();
}

// Lists the pages at these places to which no edge leads, in rising order.
fn collect(dirty: &Waiting, places: &[u32], listed: &mut Vec<u32>)
    requires within { AreWithin places.now (length dirty.now.pages) }
    requires none { listed.old.items ≡ [] }
    requires room { length dirty.now.pages ≤ vec_capacity listed.old }
    ensures listed { (a : ℕ) → holds listed.new.items a ≡ (seen dirty.now.pages places.now a && eqb (waits_for dirty.now a) 0) }
    ensures rising { IsRising listed.new.items }
    ensures room { vec_capacity listed.new ≡ vec_capacity listed.old }
{
    for place in places {
        list_if_ready(dirty, *place as usize, listed);
    }
}

// Lists the page at a place where no edge leads to it.
fn list_if_ready(dirty: &Waiting, place: usize, listed: &mut Vec<u32>)
    requires place { place < length dirty.now.pages }
    requires rising { IsRising listed.old.items }
    requires some { (a : ℕ) → holds listed.old.items a ≡ true → holds dirty.now.pages a ≡ true }
    requires room { length dirty.now.pages ≤ vec_capacity listed.old }
    ensures listed { (a : ℕ) → holds listed.new.items a ≡ (holds listed.old.items a || (eqb (slice_index dirty.now.pages place) a && eqb (waits_for dirty.now a) 0)) }
    ensures rising { IsRising listed.new.items }
    ensures room { vec_capacity listed.new ≡ vec_capacity listed.old }
{
    let page = dirty.pages()[place];
    if dirty.is_ready(page) {
        pages::include(listed, page);
    }
}
