// The levels of dirty pages: each page is taken once all before it were, and lifts those that wait for it.
ghost use Rattle.std.specs.Prelude.{◌≡◌, ◌⊎◌, ◌↔◌, ℕ, ◌+◌, ◌-◌, ◌<◌, ◌≤◌, ◌^◌, ◌||◌, ◌&&◌, Bool, true, false, eqb, max, [], ◌∷◌, ◌++◌, length, take, slice_index, slice_index_or, vec_capacity, if◌then◌else◌};
ghost use Rattle.std.specs.List.{list_any};
ghost use Rattle.dep_graph.specs.Pages.{holds, IsRising};
ghost use Rattle.dep_graph.specs.Pairs.{AreRising, ends_at, has_pair};
ghost use Rattle.order_model.specs.Paths.{IsAcyclic};
ghost use Rattle.dep_graph.specs.Trails.{seen, AreApart, AreWithin};
ghost use Rattle.dep_graph.specs.Waits.{count_at};
ghost use Rattle.dep_graph.specs.Heights.{AreClimbed};

use crate::pages;
use crate::pairs::{self, Pair};
use crate::search::Search;

// Puts so many equal numbers in place of the others, where there is room.
fn fill(items: &mut Vec<u32>, count: usize, value: u32)
    requires { count ≤ vec_capacity items.old }
    ensures len { length items.new.items ≡ count }
    ensures value { (k : ℕ) → k < count → slice_index items.new.items k ≡ value }
    ensures room { vec_capacity items.old ≤ vec_capacity items.new }
{
    items.clear();
    let _ = items.resize(count, value);
}

// Counts for each page the edges that lead to it.
fn count_edges(live: &[Pair], pages: &[u32], left: &mut Vec<u32>)
    requires rising { IsRising pages.now }
    requires ends { (k : ℕ) (d : Pair) → k < length live.now → holds pages.now (slice_index_or live.now k d).after ≡ true }
    requires each { length left.old.items ≡ length pages.now }
    requires none { (p : ℕ) → count_at pages.now left.old.items p ≡ 0 }
    requires few { length live.now < 2 ^ 32 }
    ensures each { length left.new.items ≡ length pages.now }
    ensures counts { (p : ℕ) → count_at pages.now left.new.items p ≡ ends_at live.now p }
    ensures room { vec_capacity left.new ≡ vec_capacity left.old }
{
    for pair in live {
        let at = pages::position_of(pages, pair.after);
        left[at] += 1;
    }
}

// Sets the level of each page to which a Barrier edge leads to 2.
fn lift_barred(barred: &[Pair], pages: &[u32], level: &mut Vec<u32>)
    requires rising { IsRising pages.now }
    requires ends { (k : ℕ) (d : Pair) → k < length barred.now → holds pages.now (slice_index_or barred.now k d).after ≡ true }
    requires each { length level.old.items ≡ length pages.now }
    ensures each { length level.new.items ≡ length pages.now }
    ensures levels { (p : ℕ) → count_at pages.now level.new.items p ≡ (if list_any (λ e. eqb e.after p) barred.now then 2 else count_at pages.now level.old.items p) }
    ensures room { vec_capacity level.new ≡ vec_capacity level.old }
{
    for pair in barred {
        let at = pages::position_of(pages, pair.after);
        level[at] = 2;
    }
}

// Reaches a place whose page waits for none.
fn visit_free(search: &mut Search, place: usize, count: u32)
    requires { place < search.old.room }
    ensures reached { search.new.reached ≡ (if eqb count 0 then (if holds search.old.reached place then search.old.reached else search.old.reached ++ place ∷ []) else search.old.reached) }
    ensures room { search.new.room ≡ search.old.room }
{
    if count == 0 {
        search.visit(place);
    }
}

// Reaches the pages to which no edge leads.
fn reach_free(pages: &[u32], left: &[u32], search: &mut Search)
    requires rising { IsRising pages.now }
    requires each { length left.now ≡ length pages.now }
    requires none { length search.old.reached ≡ 0 }
    requires room { length pages.now ≤ search.old.room }
    ensures seen { (p : ℕ) → seen pages.now search.new.reached p ≡ (holds pages.now p && eqb (count_at pages.now left.now p) 0) }
    ensures within { AreWithin search.new.reached (length pages.now) }
    ensures apart { AreApart search.new.reached }
    ensures room { search.new.room ≡ search.old.room }
{
    for (place, count) in left.iter().enumerate() {
        visit_free(search, place, *count);
    }
}

// One edge: its page waits for one less, stands above the page before, and is reached where it waits for none.
fn relax(
    page: u32,
    height: u32,
    pages: &[u32],
    search: &mut Search,
    left: &mut Vec<u32>,
    level: &mut Vec<u32>,
)
    requires rising { IsRising pages.now }
    requires there { holds pages.now page ≡ true }
    requires waits { 0 < count_at pages.now left.old.items page }
    requires left_each { length left.old.items ≡ length pages.now }
    requires level_each { length level.old.items ≡ length pages.now }
    requires within { AreWithin search.old.reached (length pages.now) }
    requires apart { AreApart search.old.reached }
    requires room { length pages.now ≤ search.old.room }
    ensures left { (p : ℕ) → count_at pages.now left.new.items p ≡ (if eqb p page then count_at pages.now left.old.items p - 1 else count_at pages.now left.old.items p) }
    ensures level { (p : ℕ) → count_at pages.now level.new.items p ≡ (if eqb p page then max (count_at pages.now level.old.items p) height else count_at pages.now level.old.items p) }
    ensures seen { (p : ℕ) → seen pages.now search.new.reached p ≡ (seen pages.now search.old.reached p || (eqb p page && eqb (count_at pages.now left.new.items p) 0)) }
    ensures within { AreWithin search.new.reached (length pages.now) }
    ensures apart { AreApart search.new.reached }
    ensures front { (k : ℕ) → k < length search.old.reached → slice_index search.new.reached k ≡ slice_index search.old.reached k }
    ensures grows { length search.old.reached ≤ length search.new.reached }
    ensures room { search.new.room ≡ search.old.room }
    ensures left_each { length left.new.items ≡ length pages.now }
    ensures level_each { length level.new.items ≡ length pages.now }
    ensures left_room { vec_capacity left.new ≡ vec_capacity left.old }
    ensures level_room { vec_capacity level.new ≡ vec_capacity level.old }
{
    let at = pages::position_of(pages, page);
    let count = left[at];
    let before = level[at];
    left[at] = count - 1;
    level[at] = before.max(height);
    visit_free(search, at, count - 1);
}

// The edges from one page, at this height.
fn relax_each(
    out: &[Pair],
    height: u32,
    pages: &[u32],
    search: &mut Search,
    left: &mut Vec<u32>,
    level: &mut Vec<u32>,
)
    requires rising { IsRising pages.now }
    requires there { (k : ℕ) (d : Pair) → k < length out.now → holds pages.now (slice_index_or out.now k d).after ≡ true }
    requires waits { (p : ℕ) → ends_at out.now p ≤ count_at pages.now left.old.items p }
    requires left_each { length left.old.items ≡ length pages.now }
    requires level_each { length level.old.items ≡ length pages.now }
    requires within { AreWithin search.old.reached (length pages.now) }
    requires apart { AreApart search.old.reached }
    requires room { length pages.now ≤ search.old.room }
    ensures left { (p : ℕ) → count_at pages.now left.new.items p + ends_at out.now p ≡ count_at pages.now left.old.items p }
    ensures level { (p : ℕ) → count_at pages.now level.new.items p ≡ (if list_any (λ e. eqb e.after p) out.now then max (count_at pages.now level.old.items p) height else count_at pages.now level.old.items p) }
    ensures seen { (p : ℕ) → seen pages.now search.new.reached p ≡ (seen pages.now search.old.reached p || (list_any (λ e. eqb e.after p) out.now && eqb (count_at pages.now left.new.items p) 0)) }
    ensures within { AreWithin search.new.reached (length pages.now) }
    ensures apart { AreApart search.new.reached }
    ensures front { (k : ℕ) → k < length search.old.reached → slice_index search.new.reached k ≡ slice_index search.old.reached k }
    ensures grows { length search.old.reached ≤ length search.new.reached }
    ensures room { search.new.room ≡ search.old.room }
    ensures left_each { length left.new.items ≡ length pages.now }
    ensures level_each { length level.new.items ≡ length pages.now }
    ensures left_room { vec_capacity left.new ≡ vec_capacity left.old }
    ensures level_room { vec_capacity level.new ≡ vec_capacity level.old }
{
    for pair in out {
        relax(pair.after, height, pages, search, left, level);
    }
}

// Takes the pages that are reached one after another, until each page was.
fn climb(
    live: &[Pair],
    pages: &[u32],
    search: &mut Search,
    left: &mut Vec<u32>,
    level: &mut Vec<u32>,
)
    requires rising { IsRising pages.now }
    requires live_rising { AreRising live.now }
    requires ends { (a b : ℕ) → has_pair live.now a b ≡ true → (holds pages.now a ≡ true) × (holds pages.now b ≡ true) }
    requires acyclic { IsAcyclic (has_pair live.now) }
    requires left { (p : ℕ) → count_at pages.now left.old.items p ≡ ends_at live.now p }
    requires seen { (p : ℕ) → seen pages.now search.old.reached p ≡ (holds pages.now p && eqb (count_at pages.now left.old.items p) 0) }
    requires low { (p : ℕ) → count_at pages.now level.old.items p ≤ 2 }
    requires left_each { length left.old.items ≡ length pages.now }
    requires level_each { length level.old.items ≡ length pages.now }
    requires within { AreWithin search.old.reached (length pages.now) }
    requires apart { AreApart search.old.reached }
    requires room { length pages.now ≤ search.old.room }
    requires few { search.old.room < 2 ^ 31 }
    ensures above { (a b : ℕ) → has_pair live.now a b ≡ true → count_at pages.now level.new.items a < count_at pages.now level.new.items b }
    ensures is { (p : ℕ) → (count_at pages.now level.new.items p ≡ count_at pages.now level.old.items p) ⊎ ((a : ℕ) × ((has_pair live.now a p ≡ true) × (count_at pages.now level.new.items p ≡ count_at pages.now level.new.items a + 1))) }
    ensures grows { (p : ℕ) → count_at pages.now level.old.items p ≤ count_at pages.now level.new.items p }
    ensures level_each { length level.new.items ≡ length pages.now }
    ensures room { search.new.room ≡ search.old.room }
    ensures left_room { vec_capacity left.new ≡ vec_capacity left.old }
    ensures level_room { vec_capacity level.new ≡ vec_capacity level.old }
{
    let mut head = 0;
    while head < search.len() {
        let place = search.place(head);
        let height = level[place] + 1;
        relax_each(
            pairs::out_of(live, pages[place]),
            height,
            pages,
            search,
            left,
            level,
        );
        head += 1;
    }
}

// The greatest of some numbers, or 0.
fn greatest_of(numbers: &[u32]) -> u32
    ensures most { (k : ℕ) → k < length numbers.now → slice_index numbers.now k ≤ result }
    ensures reached { ((result ≡ 0) × (length numbers.now ≡ 0)) ⊎ ((k : ℕ) × ((k < length numbers.now) × (slice_index numbers.now k ≡ result))) }
{
    let mut most = 0;
    for number in numbers {
        if *number >= most {
            most = *number;
        }
    }
    most
}

// The greatest level of a dirty page, or 0 where there is none.
pub fn greatest_level(
    live: &[Pair],
    barred: &[Pair],
    pages: &[u32],
    search: &mut Search,
    left: &mut Vec<u32>,
    level: &mut Vec<u32>,
) -> u32
    requires rising { IsRising pages.now }
    requires live_rising { AreRising live.now }
    requires ends { (a b : ℕ) → has_pair live.now a b ≡ true → (holds pages.now a ≡ true) × (holds pages.now b ≡ true) }
    requires barred_ends { (a b : ℕ) → has_pair barred.now a b ≡ true → holds pages.now b ≡ true }
    requires acyclic { IsAcyclic (has_pair live.now) }
    requires none { search.old.reached ≡ [] }
    requires room { length pages.now ≤ search.old.room }
    requires few { search.old.room < 2 ^ 31 }
    requires few_edges { length live.now < 2 ^ 32 }
    requires left_room { length pages.now ≤ vec_capacity left.old }
    requires level_room { length pages.now ≤ vec_capacity level.old }
    ensures levels { AreClimbed pages.now (has_pair live.now) (has_pair barred.now) result }
    ensures none { search.new.reached ≡ [] }
    ensures room { search.new.room ≡ search.old.room }
    ensures left_room { vec_capacity left.old ≤ vec_capacity left.new }
    ensures level_room { vec_capacity level.old ≤ vec_capacity level.new }
{
    fill(left, pages.len(), 0);
    fill(level, pages.len(), 1);
    count_edges(live, pages, left);
    lift_barred(barred, pages, level);
    reach_free(pages, left, search);
    climb(live, pages, search, left, level);
    search.clear();
    greatest_of(level)
}
