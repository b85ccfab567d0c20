// Marks and edges.
ghost use Rattle.std.specs.Prelude.{◌≡◌, ℕ, ◌+◌, ◌-◌, ◌<◌, ◌≤◌, ◌^◌, ◌||◌, ◌&&◌, ◌↔◌, not, eqb, true, false, length, vec_capacity, [], max, IfOk, OnOk, OnErr, if◌then◌else◌};
ghost use Rattle.order_model.specs.Edges.{is_live};
ghost use Rattle.dep_graph.specs.Lists.{dirty_in, hung_in, live_in, barred_in, edge_in, entered, is_node, is_ready, node_count, waiter_count, waits_in, IsGraph, marks_of};
ghost use Rattle.dep_graph.specs.Calls.{Dropped, Fixed, Wrote};
ghost use Rattle.dep_graph.specs.Pages.{holds, IsLeast, IsRising};
ghost use Rattle.order_model.specs.Levels.{IsGreatestLevel};
ghost use Rattle.order_model.specs.Paths.{Closes};

use crate::levels::greatest_level;
use crate::live::LiveEdges;
use crate::moves::{bar_each, lower_each};
use crate::pairs::{self, Pair};
use crate::room::room_for;
use crate::search::{Search, list_reaching, reaches};
use crate::waiting::Waiting;
use crate::{Kind, NoMemory, pages};
use std::alloc::Global;
use std::marker::Model;

/// A graph has fewer nodes than this, its spare ones included.
pub const NODE_LIMIT: u32 = 1 << 31;

// So many in all, where a number tells them.
fn in_all(there: usize, spare: u32) -> Result<u32, NoMemory>
    ensures { IfOk result (λ all. all ≡ there + spare) }
{
    match u32::try_from(there) {
        Ok(there) => there.checked_add(spare).ok_or(NoMemory),
        Err(_) => Err(NoMemory),
    }
}

// Room for so many pages in all.
fn room_for_nodes(
    dirty: &mut Waiting,
    hung: &mut Vec<u32>,
    search: &mut Search,
    all: u32,
) -> Result<(), NoMemory>
    requires none { search.old.reached ≡ [] }
    requires few { all < 2 ^ 31 }
    requires few_places { search.old.room < 2 ^ 31 }
    ensures pages { dirty.new.pages ≡ dirty.old.pages }
    ensures counts { dirty.new.counts ≡ dirty.old.counts }
    ensures hung { hung.new.items ≡ hung.old.items }
    ensures reached { search.new.reached ≡ [] }
    ensures few { search.new.room < 2 ^ 31 }
    ensures ok { OnOk result ((all ≤ dirty.new.room) × (all ≤ vec_capacity hung.new) × (all ≤ search.new.room)) }
    ensures room { (dirty.old.room ≤ dirty.new.room) × (vec_capacity hung.old ≤ vec_capacity hung.new) × (search.old.room ≤ search.new.room) }
{
    match dirty.reserve(all) {
        Ok(()) => {}
        Err(_) => return Err(NoMemory),
    }
    match room_for(hung, all as usize) {
        Ok(()) => {}
        Err(_) => return Err(NoMemory),
    }
    match search.reserve(all) {
        Ok(()) => Ok(()),
        Err(_) => Err(NoMemory),
    }
}

// Room to find so many levels.
fn room_for_levels(left: &mut Vec<u32>, level: &mut Vec<u32>, all: u32) -> Result<(), NoMemory>
    ensures ok { OnOk result ((all ≤ vec_capacity left.new) × (all ≤ vec_capacity level.new)) }
    ensures room { (vec_capacity left.old ≤ vec_capacity left.new) × (vec_capacity level.old ≤ vec_capacity level.new) }
{
    match room_for(left, all as usize) {
        Ok(()) => {}
        Err(_) => return Err(NoMemory),
    }
    match room_for(level, all as usize) {
        Ok(()) => Ok(()),
        Err(_) => Err(NoMemory),
    }
}

// Room for so many edges in all.
fn room_for_edges(live: &mut LiveEdges, barred: &mut Vec<Pair>, all: u32) -> Result<(), NoMemory>
    ensures live { live.new.pairs ≡ live.old.pairs }
    ensures barred { barred.new.items ≡ barred.old.items }
    ensures ok { OnOk result ((all ≤ live.new.room) × (all ≤ vec_capacity barred.new)) }
    ensures room { (live.old.room ≤ live.new.room) × (vec_capacity barred.old ≤ vec_capacity barred.new) }
{
    match live.reserve(all) {
        Ok(()) => {}
        Err(_) => return Err(NoMemory),
    }
    match room_for(barred, all as usize) {
        Ok(()) => Ok(()),
        Err(_) => Err(NoMemory),
    }
}

/// The dirty and hung pages, and which waits for which.
///
/// Contracts see it as plain lists: dirty pages, hung pages, edges, and the numbers of spare nodes and spare edges.
#[derive(Drop)]
pub struct Graph {
    dirty: Waiting,
    hung: Vec<u32>,
    // How many hung pages are not dirty.
    hung_only: u32,
    live: LiveEdges,
    barred: Vec<Pair>,
    spare_nodes: u32,
    spare_edges: u32,
    search: Search,
    left: Vec<u32>,
    level: Vec<u32>,
}

impl Model for Graph {
    ghost use Rattle.std.specs.Prelude.{◌≡◌, ◌+◌, [], length, vec_capacity};
    ghost use Rattle.dep_graph.specs.Lists.{GraphLists, edges_of};
    ghost use Rattle.dep_graph.specs.Kept.{HasRoom, IsKept};

    ghost Value = { GraphLists };

    ghost view = { λ g. record { dirty = g.dirty.pages; hung = g.hung.items; edges = edges_of g.live.pairs g.barred.items; spare_nodes = g.spare_nodes; spare_edges = g.spare_edges } };

    ghost invariant = { λ g. IsKept g.dirty g.hung.items g.hung_only g.live.pairs g.barred.items × HasRoom (length g.dirty.pages + g.hung_only + g.spare_nodes) (length g.live.pairs + length g.barred.items + g.spare_edges) g.dirty.room (vec_capacity g.hung) g.live.room (vec_capacity g.barred) g.search.room (vec_capacity g.left) (vec_capacity g.level) × (g.search.reached ≡ []) };
}

impl Graph {
    /// A graph with no node, no edge and no room. It takes no memory.
    pub fn new(alloc: Global) -> Graph
        ensures lists { result ≡ record { dirty = []; hung = []; edges = []; spare_nodes = 0; spare_edges = 0 } }
        ensures graph { IsGraph result }
    {
        Graph {
            dirty: Waiting::new(alloc),
            hung: Vec::new(alloc),
            hung_only: 0,
            live: LiveEdges::new(alloc),
            barred: Vec::new(alloc),
            spare_nodes: 0,
            spare_edges: 0,
            search: Search::new(alloc),
            left: Vec::new(alloc),
            level: Vec::new(alloc),
        }
    }

    /// Makes room for at least so many further nodes and edges: the spare numbers rise to these, and fall no lower. It is the
    /// only call that takes memory.
    ///
    /// `NoMemory` where no memory is found, where there would be [`NODE_LIMIT`] nodes, or 2^32 edges. The graph is then as before.
    /// Constant where the room is there; else the vectors are moved.
    pub fn reserve(&mut self, nodes: u32, edges: u32) -> Result<(), NoMemory>
        ensures ok { OnOk result (self.new ≡ record self.old { spare_nodes = max self.old.spare_nodes nodes; spare_edges = max self.old.spare_edges edges }) }
        ensures err { OnErr result (self.new ≡ self.old) }
    {
        let spare_nodes = self.spare_nodes.max(nodes);
        let spare_edges = self.spare_edges.max(edges);
        let all_nodes = in_all(self.nodes() as usize, spare_nodes)?;
        if all_nodes >= NODE_LIMIT {
            return Err(NoMemory);
        }
        let all_edges = in_all(self.live.pairs().len() + self.barred.len(), spare_edges)?;
        room_for_nodes(&mut self.dirty, &mut self.hung, &mut self.search, all_nodes)?;
        room_for_levels(&mut self.left, &mut self.level, all_nodes)?;
        room_for_edges(&mut self.live, &mut self.barred, all_edges)?;
        self.spare_nodes = spare_nodes;
        self.spare_edges = spare_edges;
        Ok(())
    }

    /// Whether a Live edge from one page to the other would close a cycle: they are one page, or a way of Live edges leads from
    /// `after` to `before`.
    ///
    /// It costs the pages that Live edges lead to from `after`, with their edges, by marks that are taken away again.
    pub fn closes(&mut self, before: u32, after: u32) -> bool
        ensures closes { (result ≡ true) ↔ Closes (live_in self.old) before after }
        ensures same { self.new ≡ self.old }
    {
        if before == after {
            return true;
        }
        if !self.dirty.contains(before) {
            return false;
        }
        if !self.dirty.contains(after) {
            return false;
        }
        reaches(
            self.live.pairs(),
            self.dirty.pages(),
            &mut self.search,
            after,
            before,
        )
    }

    /// The least ready page at or above a number that is the target, or from which a way of Live edges leads to it.
    ///
    /// It costs the pages from which a way of Live edges leads to the target, and the edges between them, each with a look-up, by
    /// marks that are taken away again. Of other pages it looks at none, ready or not.
    pub fn first_ready_before(&mut self, target: u32, from: u32) -> Option<u32>
        ensures least { IsLeast (λ page. (is_ready self.old page ≡ true) × Closes (live_in self.old) target page) from result }
        ensures same { self.new ≡ self.old }
    {
        list_reaching(
            self.live.back(),
            &self.dirty,
            &mut self.search,
            target,
            &mut self.left,
        );
        pages::first_from(&self.left, from)
    }

    /// Lists each ready page that is the target, or from which a way of Live edges leads to it, in rising order and in place of what
    /// the vector held.
    ///
    /// It costs as much as one [`first_ready_before`](Graph::first_ready_before), beside moving small elements of a sorted vector,
    /// and takes no memory.
    pub fn list_ready_before(&mut self, target: u32, listed: &mut Vec<u32>)
        requires { length self.old.dirty ≤ vec_capacity listed.old }
        ensures rising { IsRising listed.new.items }
        ensures pages { (a : ℕ) → (holds listed.new.items a ≡ true) ↔ ((is_ready self.old a ≡ true) × Closes (live_in self.old) target a) }
        ensures room { vec_capacity listed.old ≤ vec_capacity listed.new }
        ensures same { self.new ≡ self.old }
    {
        list_reaching(
            self.live.back(),
            &self.dirty,
            &mut self.search,
            target,
            listed,
        );
    }

    /// Lists the ready pages, in rising order and in place of what the vector held. It costs these pages, and takes no memory.
    pub fn list_ready(&self, listed: &mut Vec<u32>)
        requires { length self.now.dirty ≤ vec_capacity listed.old }
        ensures rising { IsRising listed.new.items }
        ensures pages { (a : ℕ) → holds listed.new.items a ≡ is_ready self.now a }
        ensures room { vec_capacity listed.old ≤ vec_capacity listed.new }
    {
        pages::list(self.dirty.ready(), listed);
    }

    /// Whether the page is dirty: edited since its last write. Logarithmic.
    pub fn is_dirty(&self, page: u32) -> bool
        ensures { result ≡ dirty_in self.now page }
    {
        self.dirty.contains(page)
    }

    /// Whether the page is hung: written, and not yet covered by a barrier. Logarithmic.
    pub fn is_hung(&self, page: u32) -> bool
        ensures { result ≡ hung_in self.now page }
    {
        pages::contains(&self.hung, page)
    }

    /// Whether the page is ready: dirty, and no edge leads to it. Logarithmic.
    pub fn ready(&self, page: u32) -> bool
        ensures { result ≡ is_ready self.now page }
    {
        self.dirty.is_ready(page)
    }

    /// Marks the page dirty. A page that is not a node takes one spare node. Logarithmic, beside moving small elements of
    /// sorted vectors.
    pub fn enter(&mut self, page: u32)
        requires { is_node self.old page ≡ false → 0 < self.old.spare_nodes }
        ensures dirty { (a : ℕ) → dirty_in self.new a ≡ (dirty_in self.old a || eqb a page) }
        ensures hung { self.new.hung ≡ self.old.hung }
        ensures edges { self.new.edges ≡ self.old.edges }
        ensures spare_nodes { self.new.spare_nodes ≡ (if is_node self.old page then self.old.spare_nodes else self.old.spare_nodes - 1) }
        ensures spare_edges { self.new.spare_edges ≡ self.old.spare_edges }
        ensures graph { IsGraph self.new }
        ensures lists { self.new ≡ entered page self.old }
        ensures nodes { node_count self.new ≡ (if is_node self.old page then node_count self.old else node_count self.old + 1) }
        ensures marked { length self.new.dirty ≡ (if dirty_in self.old page then length self.old.dirty else length self.old.dirty + 1) }
    {
        if self.dirty.contains(page) {
            return;
        }
        self.dirty.enter(page);
        if pages::contains(&self.hung, page) {
            self.hung_only -= 1;
        } else {
            self.spare_nodes -= 1;
        }
    }

    /// Adds an edge, or nothing where it is there; a new edge takes one spare edge. `before` must be written and covered by a
    /// barrier ahead of the next write of `after`: a Live edge waits for its write, a Barrier edge for a barrier alone.
    /// Logarithmic, beside moving small elements of sorted vectors.
    pub fn add(&mut self, before: u32, after: u32, kind: Kind)
        requires spare { 0 < self.old.spare_edges }
        requires after { dirty_in self.old after ≡ true }
        requires live { is_live kind ≡ true → dirty_in self.old before ≡ true }
        requires opens { is_live kind ≡ true → Closes (live_in self.old) before after → ⊥ }
        requires barrier { is_live kind ≡ false → hung_in self.old before ≡ true }
        ensures dirty { self.new.dirty ≡ self.old.dirty }
        ensures hung { self.new.hung ≡ self.old.hung }
        ensures live { (a b : ℕ) → live_in self.new a b ≡ (live_in self.old a b || (is_live kind && (eqb a before && eqb b after))) }
        ensures barred { (a b : ℕ) → barred_in self.new a b ≡ (barred_in self.old a b || (not (is_live kind) && (eqb a before && eqb b after))) }
        ensures spare_nodes { self.new.spare_nodes ≡ self.old.spare_nodes }
        ensures spare_edges { self.new.spare_edges ≡ (if edge_in self.old before after kind then self.old.spare_edges else self.old.spare_edges - 1) }
        ensures graph { IsGraph self.new }
    {
        let pair = Pair { before, after };
        match kind {
            Kind::Live => self.add_live(pair),
            Kind::Barrier => self.add_barrier(pair),
        }
    }

    fn add_live(&mut self, pair: Pair)
        requires spare { 0 < self.old.spare_edges }
        requires after { dirty_in self.old pair.after ≡ true }
        requires before { dirty_in self.old pair.before ≡ true }
        requires opens { Closes (live_in self.old) pair.before pair.after → ⊥ }
        ensures dirty { self.new.dirty ≡ self.old.dirty }
        ensures hung { self.new.hung ≡ self.old.hung }
        ensures live { (a b : ℕ) → live_in self.new a b ≡ (live_in self.old a b || (eqb a pair.before && eqb b pair.after)) }
        ensures barred { (a b : ℕ) → barred_in self.new a b ≡ barred_in self.old a b }
        ensures spare_nodes { self.new.spare_nodes ≡ self.old.spare_nodes }
        ensures spare_edges { self.new.spare_edges ≡ (if live_in self.old pair.before pair.after then self.old.spare_edges else self.old.spare_edges - 1) }
        ensures graph { IsGraph self.new }
    {
        if pairs::contains(self.live.pairs(), pair) {
            return;
        }
        self.live.insert(pair);
        self.dirty.raise(pair.after);
        self.spare_edges -= 1;
    }

    fn add_barrier(&mut self, pair: Pair)
        requires spare { 0 < self.old.spare_edges }
        requires after { dirty_in self.old pair.after ≡ true }
        requires before { hung_in self.old pair.before ≡ true }
        ensures dirty { self.new.dirty ≡ self.old.dirty }
        ensures hung { self.new.hung ≡ self.old.hung }
        ensures live { (a b : ℕ) → live_in self.new a b ≡ live_in self.old a b }
        ensures barred { (a b : ℕ) → barred_in self.new a b ≡ (barred_in self.old a b || (eqb a pair.before && eqb b pair.after)) }
        ensures spare_nodes { self.new.spare_nodes ≡ self.old.spare_nodes }
        ensures spare_edges { self.new.spare_edges ≡ (if barred_in self.old pair.before pair.after then self.old.spare_edges else self.old.spare_edges - 1) }
        ensures graph { IsGraph self.new }
    {
        if pairs::contains(&self.barred, pair) {
            return;
        }
        pairs::insert(&mut self.barred, pair);
        self.dirty.raise(pair.after);
        self.spare_edges -= 1;
    }

    /// The page, which was ready, was written: it is hung and not dirty, and its outgoing Live edges wait for a barrier alone. No
    /// page waits for its write any more; as many as before wait for that of each other page.
    /// It costs the page's own edges, each with look-ups, beside moving small elements of sorted vectors.
    pub fn wrote(&mut self, page: u32)
        requires { is_ready self.old page ≡ true }
        ensures { Wrote page self.old self.new }
    {
        self.dirty.leave(page);
        self.hung_only += 1;
        bar_each(
            pairs::out_of(self.live.pairs(), page),
            &mut self.barred,
            &mut self.dirty,
        );
        self.live.remove_out_of(page);
        pages::include(&mut self.hung, page);
    }

    /// A barrier was made: all hung marks and all Barrier edges go, and each page without a mark is no node any more. As many pages
    /// as before wait for the write of each.
    /// It costs the hung pages and their Barrier edges, each edge with a look-up, beside moving small elements of a sorted vector.
    pub fn barrier(&mut self)
        ensures { Fixed self.old self.new }
    {
        lower_each(&self.barred, &mut self.dirty);
        self.barred.clear();
        self.hung.clear();
        self.hung_only = 0;
    }

    /// Takes the dirty mark from a page to which no edge leads, and its outgoing Live edges. A page that is also hung stays a
    /// node. No page waits for it any more. It costs the page's own edges, each with look-ups, beside moving small elements of
    /// sorted vectors.
    pub fn drop_node(&mut self, page: u32)
        requires { waits_in self.old page ≡ false }
        ensures { Dropped page self.old self.new }
    {
        if !self.dirty.contains(page) {
            return;
        }
        self.dirty.leave(page);
        lower_each(pairs::out_of(self.live.pairs(), page), &mut self.dirty);
        self.live.remove_out_of(page);
        self.hung_only += u32::from(pages::contains(&self.hung, page));
    }

    /// The least ready page at or above a number. Logarithmic.
    pub fn first_ready(&self, from: u32) -> Option<u32>
        ensures { IsLeast (λ page. is_ready self.now page ≡ true) from result }
    {
        self.dirty.first_ready(from)
    }

    /// To how many pages a Live edge leads from this one. Logarithmic.
    pub fn waiters(&self, page: u32) -> u32
        ensures { result ≡ waiter_count self.now page }
    {
        pairs::out_of(self.live.pairs(), page).len() as u32
    }

    /// How many pages are dirty. Constant.
    pub fn dirty(&self) -> u32
        ensures { result ≡ length self.now.dirty }
    {
        self.dirty.pages().len() as u32
    }

    /// How many pages are hung. Constant.
    pub fn hung(&self) -> u32
        ensures { result ≡ length self.now.hung }
    {
        self.hung.len() as u32
    }

    /// How many pages are dirty or hung. Constant.
    pub fn nodes(&self) -> u32
        ensures count { result ≡ node_count self.now }
        ensures graph { IsGraph self.now }
    {
        self.dirty() + self.hung_only
    }

    /// The greatest level of a node, or 0 where there is none: as many barriers as a flush needs. A node to which no edge leads
    /// has level 1, as has one that is hung alone; another is one above the greatest of the pages before it on Live edges, and
    /// above 1 where a Barrier edge leads to it. It costs the dirty pages and the edges once, each edge with a look-up.
    pub fn levels(&mut self) -> u32
        ensures level { IsGreatestLevel (marks_of self.old) result }
        ensures same { self.new ≡ self.old }
    {
        let greatest = greatest_level(
            self.live.pairs(),
            &self.barred,
            self.dirty.pages(),
            &mut self.search,
            &mut self.left,
            &mut self.level,
        );
        if self.hung.is_empty() {
            return greatest;
        }
        greatest.max(1)
    }
}
