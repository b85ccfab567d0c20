// The dirty pages in rising page number, each with its age and its edits.
ghost use Rattle.std.specs.Prelude.{◌≡◌, ℕ, ◌+◌, ◌<◌, ◌≤◌, false, map, length, vec_capacity, insert, remove, slice_set, slice_index_or, true};
ghost use Rattle.dep_graph.specs.Pages.{holds, IsAt, IsPlace, IsRising};
ghost use Rattle.flush_engine.specs.Tallies.{counted, first_edit, left_out, older, page_of, tally_of, with_edit};

/// For how long a page is dirty, and how often it was edited since. Each number stands still at the end of its type.
#[derive(Clone, Copy, Debug, PartialEq, Eq, Drop)]
pub struct Tally {
    pub page: u32,
    /// How many turns ended since the page became dirty.
    pub age: u64,
    /// How often it was edited since.
    pub edits: u32,
}

// How many of the pages are below this one.
fn place_of(tallies: &[Tally], page: u32) -> usize
    requires { IsRising (map page_of tallies.now) }
    ensures { IsPlace (map page_of tallies.now) page result }
{
    tallies.partition_point(|tally| tally.page < page)
}

// Whether the page stands at its place.
fn stands_at(tallies: &[Tally], at: usize, page: u32) -> bool
    requires rising { IsRising (map page_of tallies.now) }
    requires place { IsPlace (map page_of tallies.now) page at }
    ensures there { result ≡ true → IsAt (map page_of tallies.now) page at }
    ensures absent { result ≡ false → holds (map page_of tallies.now) page ≡ false }
{
    at < tallies.len() && tallies[at].page == page
}

fn edit_at(tallies: &mut Vec<Tally>, at: usize)
    requires place { at < length tallies.old.items }
    ensures items { tallies.new.items ≡ slice_set tallies.old.items at (with_edit (slice_index_or tallies.old.items at (first_edit 0))) }
    ensures room { vec_capacity tallies.new ≡ vec_capacity tallies.old }
{
    let edits = tallies[at].edits.saturating_add(1);
    tallies[at].edits = edits;
}

fn insert_at(tallies: &mut Vec<Tally>, at: usize, tally: Tally)
    requires place { at ≤ length tallies.old.items }
    requires room { length tallies.old.items < vec_capacity tallies.old }
    ensures items { tallies.new.items ≡ insert tallies.old.items at tally }
    ensures room { vec_capacity tallies.new ≡ vec_capacity tallies.old }
{
    let _ = tallies.insert(at, tally);
}

fn remove_at(tallies: &mut Vec<Tally>, at: usize)
    requires place { at < length tallies.old.items }
    ensures items { tallies.new.items ≡ remove tallies.old.items at }
    ensures room { vec_capacity tallies.new ≡ vec_capacity tallies.old }
{
    let _ = tallies.remove(at);
}

// One edit more of a page, and the first one where it is not there.
pub(crate) fn count(tallies: &mut Vec<Tally>, page: u32)
    requires rising { IsRising (map page_of tallies.old.items) }
    requires room { holds (map page_of tallies.old.items) page ≡ false → length tallies.old.items < vec_capacity tallies.old }
    ensures items { tallies.new.items ≡ counted page tallies.old.items }
    ensures room { vec_capacity tallies.new ≡ vec_capacity tallies.old }
{
    let at = place_of(tallies, page);
    if stands_at(tallies, at, page) {
        edit_at(tallies, at);
    } else {
        insert_at(
            tallies,
            at,
            Tally {
                page,
                age: 0,
                edits: 1,
            },
        );
    }
}

// The page is dirty no longer.
pub(crate) fn leave(tallies: &mut Vec<Tally>, page: u32)
    requires rising { IsRising (map page_of tallies.old.items) }
    ensures items { tallies.new.items ≡ left_out page tallies.old.items }
    ensures room { vec_capacity tallies.new ≡ vec_capacity tallies.old }
{
    let at = place_of(tallies, page);
    if stands_at(tallies, at, page) {
        remove_at(tallies, at);
    }
}

// A turn ended.
pub(crate) fn raise(tallies: &mut Vec<Tally>)
    ensures items { tallies.new.items ≡ map older tallies.old.items }
    ensures room { vec_capacity tallies.new ≡ vec_capacity tallies.old }
{
    raise_each(tallies);
}

fn raise_each(tallies: &mut [Tally])
    ensures { tallies.new ≡ map older tallies.old }
{
    for tally in tallies.iter_mut() {
        tally.age = tally.age.saturating_add(1);
    }
}

// The tally of a page that is there.
pub(crate) fn find(tallies: &[Tally], page: u32) -> Tally
    requires rising { IsRising (map page_of tallies.now) }
    requires there { holds (map page_of tallies.now) page ≡ true }
    ensures { result ≡ tally_of page tallies.now }
{
    tallies[place_of(tallies, page)]
}
