// Page numbers in rising order, in a vector. No call takes memory.
ghost use Rattle.std.specs.Prelude.{◌≡◌, ℕ, ◌+◌, ◌<◌, ◌≤◌, Bool, false, true, ◌||◌, ◌&&◌, not, eqb, length, vec_len, vec_capacity, insert, remove};
ghost use Rattle.dep_graph.specs.Pages.{holds, IsAt, IsLeast, IsPlace, IsRising};

use crate::room::insert_at;

// How many of the pages are below this one.
pub fn place_of(pages: &[u32], page: u32) -> usize
    requires { IsRising pages.now }
    ensures { IsPlace pages.now page result }
{
    pages.partition_point(|p| *p < page)
}

// Whether the page is one of them.
pub fn contains(pages: &[u32], page: u32) -> bool
    requires { IsRising pages.now }
    ensures { result ≡ holds pages.now page }
{
    let at = place_of(pages, page);
    at < pages.len() && pages[at] == page
}

// Where the page stands, which is one of them.
pub fn position_of(pages: &[u32], page: u32) -> usize
    requires rising { IsRising pages.now }
    requires present { holds pages.now page ≡ true }
    ensures { IsAt pages.now page result }
{
    place_of(pages, page)
}

// Puts a page in that is not there, and says where.
pub fn insert(pages: &mut Vec<u32>, page: u32) -> usize
    requires rising { IsRising pages.old.items }
    requires room { vec_len pages.old < vec_capacity pages.old }
    requires absent { holds pages.old.items page ≡ false }
    ensures place { result ≤ length pages.old.items }
    ensures items { pages.new.items ≡ insert pages.old.items result page }
    ensures pages { (a : ℕ) → holds pages.new.items a ≡ holds pages.old.items a || eqb a page }
    ensures rising { IsRising pages.new.items }
    ensures room { vec_capacity pages.new ≡ vec_capacity pages.old }
{
    let at = place_of(pages, page);
    insert_at(pages, at, page);
    at
}

// Puts a page in where it is not there.
pub fn include(pages: &mut Vec<u32>, page: u32)
    requires rising { IsRising pages.old.items }
    requires room { holds pages.old.items page ≡ false → vec_len pages.old < vec_capacity pages.old }
    ensures pages { (a : ℕ) → holds pages.new.items a ≡ holds pages.old.items a || eqb a page }
    ensures rising { IsRising pages.new.items }
    ensures room { vec_capacity pages.new ≡ vec_capacity pages.old }
{
    if !contains(pages, page) {
        insert(pages, page);
    }
}

// Takes out a page that is there, and says where it was.
pub fn remove(pages: &mut Vec<u32>, page: u32) -> usize
    requires rising { IsRising pages.old.items }
    requires present { holds pages.old.items page ≡ true }
    ensures place { IsAt pages.old.items page result }
    ensures items { pages.new.items ≡ remove pages.old.items result }
    ensures pages { (a : ℕ) → holds pages.new.items a ≡ holds pages.old.items a && not (eqb a page) }
    ensures rising { IsRising pages.new.items }
    ensures room { vec_capacity pages.new ≡ vec_capacity pages.old }
{
    let at = position_of(pages, page);
    let _ = pages.remove(at);
    at
}

// The least of the pages that is not below this number.
pub fn first_from(pages: &[u32], from: u32) -> Option<u32>
    requires { IsRising pages.now }
    ensures { IsLeast (λ page. holds pages.now page ≡ true) from result }
{
    let at = place_of(pages, from);
    if at < pages.len() {
        Some(pages[at])
    } else {
        None
    }
}

// Lists these pages, in place of what the vector held.
pub fn list(pages: &[u32], listed: &mut Vec<u32>)
    requires { length pages.now ≤ vec_capacity listed.old }
    ensures items { listed.new.items ≡ pages.now }
    ensures room { vec_capacity listed.old ≤ vec_capacity listed.new }
{
    listed.clear();
    let _ = listed.extend_from_slice(pages);
}
