// The queue.
ghost use Rattle.std.specs.Prelude.{◌≡◌, ◌<◌, ◌≤◌, ◌++◌, ◌∷◌, [], suc, eqb, true, false, length, map, take, drop, remove, slice_index_or, vec_capacity, IfOk};
ghost use Rattle.dep_graph.specs.Pages.{IsLeast};
ghost use Rattle.release_queue.specs.Queued.{IsQueue, after_barrier, after_change, after_count_write, after_write, is_marked, pushed, unmarked};
ghost use Rattle.release_queue.specs.declared.TheConstants.{UNBORN};

use crate::{FIXED, NOT_WRITTEN, NoMemory, Release, WRITTEN};
use std::alloc::Global;
use std::marker::Model;

/// Releases in the order in which they were pushed, up to a limit.
///
/// Contracts see it as the list of its releases and its limit. Only `new` takes memory.
#[derive(Drop)]
pub struct Queue {
    releases: Vec<Release>,
    limit: u32,
    // No release before this place is to be looked at.
    first_look: u32,
}

impl Model for Queue {
    ghost use Rattle.std.specs.Prelude.{◌≤◌, vec_capacity};
    ghost use Rattle.release_queue.specs.Queued.{IsLook, IsQueue, QueueLists};

    ghost Value = { QueueLists };

    ghost view = { λ q. record { releases = q.releases.items; limit = q.limit } };

    ghost invariant = { λ q. (q.limit ≤ vec_capacity q.releases) × IsQueue (record { releases = q.releases.items; limit = q.limit }) × IsLook q.releases.items q.first_look };
}

impl Release {
    // Its map page was written.
    fn map_written(&mut self, map_page: u32)
        ensures { self.new ≡ after_write map_page self.old }
    {
        if self.map_at == map_page && self.stage == NOT_WRITTEN {
            self.stage = WRITTEN;
        }
    }

    // A barrier was made.
    fn fixed(&mut self)
        ensures { self.new ≡ after_barrier self.old }
    {
        if self.stage == WRITTEN {
            self.stage = FIXED;
        }
    }

    // Its count page was written.
    fn count_written(&mut self, count_page: u32)
        ensures { self.new ≡ after_count_write count_page self.old }
    {
        if self.count_at == count_page {
            self.look = true;
        }
    }

    // The count or the print of a data page changed.
    fn page_changed(&mut self, page: u32)
        ensures { self.new ≡ after_change page self.old }
    {
        if self.page == page {
            self.look = true;
        }
    }
}

fn write_map(releases: &mut [Release], map_page: u32)
    ensures { releases.new ≡ map (after_write map_page) releases.old }
{
    for release in releases.iter_mut() {
        release.map_written(map_page);
    }
}

fn write_count(releases: &mut [Release], count_page: u32)
    ensures { releases.new ≡ map (after_count_write count_page) releases.old }
{
    for release in releases.iter_mut() {
        release.count_written(count_page);
    }
}

fn change(releases: &mut [Release], page: u32)
    ensures { releases.new ≡ map (after_change page) releases.old }
{
    for release in releases.iter_mut() {
        release.page_changed(page);
    }
}

fn append(releases: &mut Vec<Release>, release: Release)
    requires { length releases.old.items < vec_capacity releases.old }
    ensures items { releases.new.items ≡ releases.old.items ++ release ∷ [] }
    ensures room { vec_capacity releases.new ≡ vec_capacity releases.old }
{
    releases.push_reserved(release);
}

fn unmark(releases: &mut [Release], i: usize)
    requires { i < length releases.old }
    ensures { releases.new ≡ unmarked i releases.old }
{
    releases[i].look = false;
}

fn fix(releases: &mut [Release])
    ensures { releases.new ≡ map after_barrier releases.old }
{
    for release in releases.iter_mut() {
        release.fixed();
    }
}

impl Queue {
    /// An empty queue with room for `limit` releases; it holds no more. `NoMemory` where no memory is found. It takes the memory in one
    /// piece; else constant.
    pub fn new(alloc: Global, limit: u32) -> Result<Queue, NoMemory>
        ensures { IfOk result (λ queue. queue ≡ record { releases = []; limit = limit }) }
    {
        match Vec::with_capacity(alloc, limit as usize) {
            Ok(releases) => Ok(Queue {
                releases,
                limit,
                first_look: 0,
            }),
            Err(_) => Err(NoMemory),
        }
    }

    /// How many releases wait: at most the limit. Constant.
    pub fn len(&self) -> u32
        ensures len { result ≡ length self.now.releases }
        ensures queue { IsQueue self.now }
    {
        self.releases.len() as u32
    }

    /// Whether the queue holds as many releases as its limit. Constant.
    pub fn full(&self) -> bool
        ensures { result ≡ eqb (length self.now.releases) self.now.limit }
    {
        self.len() == self.limit
    }

    /// Puts a release at the end of a queue that is not full. It is to be looked at. Constant.
    pub fn push(&mut self, release: Release)
        requires room { eqb (length self.old.releases) self.old.limit ≡ false }
        requires stage { release.stage ≤ UNBORN }
        ensures { self.new ≡ record self.old { releases = self.old.releases ++ pushed release ∷ [] } }
    {
        self.first_look = self.first_look.min(self.len());
        append(
            &mut self.releases,
            Release {
                look: true,
                ..release
            },
        );
    }

    /// The release at place `i`, counted from 0, of those that wait. Constant.
    pub fn at(&self, i: u32) -> &Release
        requires { i < length self.now.releases }
        ensures release { result.now ≡ slice_index_or self.now.releases i result.now }
        ensures stage { result.now.stage ≤ UNBORN }
    {
        &self.releases[i as usize]
    }

    /// Takes out the release at place `i`, counted from 0; the others keep their order. It moves those that come after.
    pub fn remove(&mut self, i: u32) -> Release
        requires { i < length self.old.releases }
        ensures release { result ≡ slice_index_or self.old.releases i result }
        ensures stage { result.stage ≤ UNBORN }
        ensures split { self.old.releases ≡ take i self.old.releases ++ result ∷ drop (suc i) self.old.releases }
        ensures others { self.new ≡ record self.old { releases = remove self.old.releases i } }
    {
        self.first_look = self.first_look.min(i);
        self.releases.remove(i as usize)
    }

    /// The first place from `from` on whose release is to be looked at. It costs the releases that it passes over; those at the front
    /// of the queue that were looked at cost nothing until one of them is to be looked at again.
    pub fn next_look(&self, from: u32) -> Option<u32>
        ensures { IsLeast (λ i. is_marked self.now.releases i ≡ true) from result }
    {
        for i in from.max(self.first_look)..self.len() {
            if self.releases[i as usize].look {
                return Some(i);
            }
        }
        None
    }

    /// The release at place `i` was looked at, and stays. Constant.
    pub fn looked(&mut self, i: u32)
        requires { i < length self.old.releases }
        ensures { self.new ≡ record self.old { releases = unmarked i self.old.releases } }
    {
        unmark(&mut self.releases, i as usize);
        if self.first_look == i {
            self.first_look = i + 1;
        }
    }

    /// A count page was written: its releases are to be looked at. Once over the queue.
    pub fn count_written(&mut self, count_page: u32)
        ensures { self.new ≡ record self.old { releases = map (after_count_write count_page) self.old.releases } }
    {
        write_count(&mut self.releases, count_page);
        self.first_look = 0;
    }

    /// The count or the print of a data page changed: its releases are to be looked at. Once over the queue.
    pub fn page_changed(&mut self, page: u32)
        ensures { self.new ≡ record self.old { releases = map (after_change page) self.old.releases } }
    {
        change(&mut self.releases, page);
        self.first_look = 0;
    }

    /// A map page was written: of its releases those at stage [`NOT_WRITTEN`] move to [`WRITTEN`]. Once over the queue.
    pub fn map_written(&mut self, map_page: u32)
        ensures { self.new ≡ record self.old { releases = map (after_write map_page) self.old.releases } }
    {
        write_map(&mut self.releases, map_page);
    }

    /// A barrier was made: the releases at stage [`WRITTEN`] move to [`FIXED`]. Once over the queue.
    pub fn fixed(&mut self)
        ensures { self.new ≡ record self.old { releases = map after_barrier self.old.releases } }
    {
        fix(&mut self.releases);
    }
}
