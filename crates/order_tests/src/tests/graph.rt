// The graph beside a plain program over tables of marks and edges, and the levels of whole sessions.
use dep_graph::{Graph, Kind, NoMemory};
use std::alloc::Global;
use std::process::Abort;

const PAGES: usize = 5;

type Row = [bool; PAGES];

type Table = [Row; PAGES];

// Pages below `PAGES` with their marks, and the edges between them.
#[derive(Clone, Copy)]
struct Plain {
    dirty: Row,
    hung: Row,
    live: Table,
    barred: Table,
}

#[derive(Clone, Copy)]
enum Step {
    Enter(u32),
    Live(u32, u32),
    Barrier(u32, u32),
    Write(u32),
    Fix,
    Drop(u32),
}

fn marked(row: &Row, page: u32) -> bool {
    row.get(page as usize).copied().unwrap_or(false)
}

fn mark(row: &mut Row, page: u32, to: bool) {
    if (page as usize) < PAGES {
        row[page as usize] = to;
    }
}

fn linked(table: &Table, before: u32, after: u32) -> bool {
    match table.get(before as usize) {
        Some(row) => marked(row, after),
        None => false,
    }
}

fn link(table: &mut Table, before: u32, after: u32) {
    if (before as usize) < PAGES {
        mark(&mut table[before as usize], after, true);
    }
}

// From which page a way leads to which, by Warshall's rule.
fn ways(live: &Table) -> Table {
    let mut ways = *live;
    for by in 0..PAGES {
        for from in 0..PAGES {
            for to in 0..PAGES {
                if ways[from][by] && ways[by][to] {
                    ways[from][to] = true;
                }
            }
        }
    }
    ways
}

fn any_before(table: &Table, after: usize) -> bool {
    for before in 0..PAGES {
        if after < PAGES && table[before][after] {
            return true;
        }
    }
    false
}

impl Plain {
    fn is_ready(&self, page: usize) -> bool {
        page < PAGES
            && self.dirty[page]
            && !any_before(&self.live, page)
            && !any_before(&self.barred, page)
    }

    fn closes(&self, before: u32, after: u32) -> bool {
        before == after || linked(&ways(&self.live), after, before)
    }
}

impl Plain {
    // Levels found by so many rounds as a way can be long.
    fn levels(&self) -> u32 {
        let mut level = [0u32; PAGES];
        for _ in 0..PAGES {
            level = self.raised(level);
        }
        level.iter().copied().max().unwrap_or(0)
    }

    fn raised(&self, level: [u32; PAGES]) -> [u32; PAGES] {
        let mut next = level;
        for page in 0..PAGES {
            if self.dirty[page] || self.hung[page] {
                next[page] = self.level_after(&level, page);
            }
        }
        next
    }

    fn level_after(&self, level: &[u32; PAGES], page: usize) -> u32 {
        let mut most = 1;
        for before in 0..PAGES {
            if page < PAGES && self.live[before][page] {
                most = most.max(level[before].saturating_add(1));
            }
            if page < PAGES && self.barred[before][page] {
                most = most.max(2);
            }
        }
        most
    }

    fn write(&mut self, page: usize) {
        if page < PAGES {
            self.dirty[page] = false;
            self.hung[page] = true;
            for after in 0..PAGES {
                self.barred[page][after] = self.barred[page][after] || self.live[page][after];
                self.live[page][after] = false;
            }
        }
    }

    fn drop_node(&mut self, page: usize) {
        if page < PAGES {
            self.dirty[page] = false;
            self.live[page] = [false; PAGES];
        }
    }

    // Makes a step where its conditions hold, and says whether they do.
    fn step(&mut self, step: Step) -> bool {
        match step {
            Step::Enter(page) => mark(&mut self.dirty, page, true),
            Step::Live(before, after) => {
                if !marked(&self.dirty, before)
                    || !marked(&self.dirty, after)
                    || self.closes(before, after)
                {
                    return false;
                }
                link(&mut self.live, before, after);
            }
            Step::Barrier(before, after) => {
                if !marked(&self.hung, before) || !marked(&self.dirty, after) {
                    return false;
                }
                link(&mut self.barred, before, after);
            }
            Step::Write(page) => {
                if !self.is_ready(page as usize) {
                    return false;
                }
                self.write(page as usize);
            }
            Step::Fix => {
                self.hung = [false; PAGES];
                self.barred = [[false; PAGES]; PAGES];
            }
            Step::Drop(page) => {
                if !self.is_ready(page as usize) {
                    return false;
                }
                self.drop_node(page as usize);
            }
        }
        true
    }
}

pub fn enter(graph: &mut Graph, page: u32) -> Result<(), NoMemory> {
    graph.reserve(1, 0)?;
    graph.enter(page);
    Ok(())
}

pub fn add_live(graph: &mut Graph, before: u32, after: u32) -> Result<bool, NoMemory> {
    graph.reserve(0, 1)?;
    if !graph.is_dirty(before) {
        return Ok(false);
    }
    if !graph.is_dirty(after) {
        return Ok(false);
    }
    if graph.closes(before, after) {
        return Ok(false);
    }
    graph.add(before, after, Kind::Live);
    Ok(true)
}

fn add_barrier(graph: &mut Graph, before: u32, after: u32) -> Result<bool, NoMemory> {
    graph.reserve(0, 1)?;
    if !graph.is_hung(before) {
        return Ok(false);
    }
    if !graph.is_dirty(after) {
        return Ok(false);
    }
    graph.add(before, after, Kind::Barrier);
    Ok(true)
}

fn write(graph: &mut Graph, page: u32) -> bool {
    if !graph.ready(page) {
        return false;
    }
    graph.wrote(page);
    true
}

fn drop_node(graph: &mut Graph, page: u32) -> bool {
    if !graph.ready(page) {
        return false;
    }
    graph.drop_node(page);
    true
}

fn make(graph: &mut Graph, step: Step) -> Result<bool, NoMemory> {
    match step {
        Step::Enter(page) => {
            enter(graph, page)?;
            Ok(true)
        }
        Step::Live(before, after) => add_live(graph, before, after),
        Step::Barrier(before, after) => add_barrier(graph, before, after),
        Step::Write(page) => Ok(write(graph, page)),
        Step::Fix => {
            graph.barrier();
            Ok(true)
        }
        Step::Drop(page) => Ok(drop_node(graph, page)),
    }
}

fn count(row: &Row) -> u32 {
    let mut many = 0u32;
    for held in row {
        if *held {
            many = many.saturating_add(1);
        }
    }
    many
}

fn nodes(plain: &Plain) -> u32 {
    let mut many = 0u32;
    for page in 0..PAGES {
        if plain.dirty[page] || plain.hung[page] {
            many = many.saturating_add(1);
        }
    }
    many
}

// The least ready page from a number on that the table of ways leads from to the target, or any with no target.
fn first(plain: &Plain, from: u32, target: Option<u32>) -> Option<u32> {
    for page in 0..5u32 {
        let leads = match target {
            Some(target) => plain.closes(target, page),
            None => true,
        };
        if page >= from && plain.is_ready(page as usize) && leads {
            return Some(page);
        }
    }
    None
}

fn compare_marks(rt: &impl Abort, graph: &mut Graph, plain: &Plain) {
    for page in 0..5u32 {
        assert!(rt; graph.is_dirty(page) == marked(&plain.dirty, page));
        assert!(rt; graph.is_hung(page) == marked(&plain.hung, page));
        assert!(rt; graph.ready(page) == plain.is_ready(page as usize));
        assert!(rt; graph.first_ready(page) == first(plain, page, None));
        let waiting = plain.live.get(page as usize).map_or(0, count);
        assert!(rt; graph.waiters(page) == waiting);
    }
}

fn compare_ways(rt: &impl Abort, graph: &mut Graph, plain: &Plain) {
    for before in 0..5u32 {
        for after in 0..5u32 {
            assert!(rt; graph.closes(before, after) == plain.closes(before, after));
            let least = graph.first_ready_before(before, after);
            assert!(rt; least == first(plain, after, Some(before)));
        }
    }
}

// The first of some pages that is not below a number.
fn first_listed(listed: &[u32], from: u32) -> Option<u32> {
    for page in listed {
        if *page >= from {
            return Some(*page);
        }
    }
    None
}

// The ready pages, and those of them that lead to a page.
fn list_ready(alloc: Global, graph: &Graph) -> Result<Vec<u32>, NoMemory> {
    let Ok(mut listed) = Vec::with_capacity(alloc, graph.dirty() as usize) else {
        return Err(NoMemory);
    };
    graph.list_ready(&mut listed);
    Ok(listed)
}

fn list_before(alloc: Global, graph: &mut Graph, target: u32) -> Result<Vec<u32>, NoMemory> {
    let Ok(mut listed) = Vec::with_capacity(alloc, graph.dirty() as usize) else {
        return Err(NoMemory);
    };
    graph.list_ready_before(target, &mut listed);
    Ok(listed)
}

fn compare_listed(rt: &impl Abort, listed: &[u32], plain: &Plain, target: Option<u32>) {
    for from in 0..5u32 {
        assert!(rt; first_listed(listed, from) == first(plain, from, target));
    }
}

fn compare_lists(
    rt: &(impl Abort + AllocGlobal),
    graph: &mut Graph,
    plain: &Plain,
) -> Result<(), NoMemory> {
    let listed = list_ready(rt.alloc(), graph)?;
    compare_listed(rt, &listed, plain, None);
    for target in 0..5u32 {
        let listed = list_before(rt.alloc(), graph, target)?;
        compare_listed(rt, &listed, plain, Some(target));
    }
    Ok(())
}

fn compare_counts(rt: &impl Abort, graph: &mut Graph, plain: &Plain) {
    assert!(rt; graph.dirty() == count(&plain.dirty));
    assert!(rt; graph.hung() == count(&plain.hung));
    assert!(rt; graph.nodes() == nodes(plain));
    assert!(rt; graph.levels() == plain.levels());
}

fn run(rt: &(impl Abort + AllocGlobal), steps: &[Step]) -> Result<(), NoMemory> {
    let mut graph = Graph::new(rt.alloc());
    let mut plain = Plain {
        dirty: [false; PAGES],
        hung: [false; PAGES],
        live: [[false; PAGES]; PAGES],
        barred: [[false; PAGES]; PAGES],
    };
    for step in steps {
        let made = make(&mut graph, *step)?;
        assert!(rt; made == plain.step(*step));
        compare_marks(rt, &mut graph, &plain);
        compare_ways(rt, &mut graph, &plain);
        compare_lists(rt, &mut graph, &plain)?;
        compare_counts(rt, &mut graph, &plain);
    }
    Ok(())
}

#[test]
fn chain_and_cycles(rt: HostRuntime) -> Result<(), NoMemory> {
    run(
        &rt,
        &[
            Step::Enter(3),
            Step::Enter(1),
            Step::Enter(4),
            Step::Live(3, 1),
            Step::Live(1, 4),
            Step::Live(4, 3),
            Step::Live(1, 1),
            Step::Live(3, 4),
            Step::Live(2, 3),
            Step::Write(1),
            Step::Write(3),
            Step::Fix,
            Step::Write(1),
            Step::Fix,
            Step::Write(4),
            Step::Fix,
        ],
    )
}

#[test]
fn dirty_and_hung(rt: HostRuntime) -> Result<(), NoMemory> {
    run(
        &rt,
        &[
            Step::Enter(0),
            Step::Enter(2),
            Step::Live(0, 2),
            Step::Write(0),
            Step::Enter(0),
            Step::Live(0, 2),
            Step::Barrier(0, 4),
            Step::Enter(4),
            Step::Barrier(0, 4),
            Step::Write(0),
            Step::Enter(0),
            Step::Drop(0),
            Step::Enter(0),
            Step::Live(0, 4),
            Step::Fix,
            Step::Drop(2),
            Step::Drop(4),
            Step::Drop(0),
            Step::Drop(4),
        ],
    )
}

fn build(
    rt: &(impl Abort + AllocGlobal),
    pages: &[u32],
    edges: &[(u32, u32)],
) -> Result<Graph, NoMemory> {
    let mut graph = Graph::new(rt.alloc());
    for page in pages {
        enter(&mut graph, *page)?;
    }
    for (before, after) in edges {
        let added = add_live(&mut graph, *before, *after)?;
        assert!(rt; added);
    }
    Ok(graph)
}

// Pages, edges, the levels and the nodes of their graph, and the first ready page from a page on.
struct Worked {
    pages: &'static [u32],
    edges: &'static [(u32, u32)],
    levels: u32,
    nodes: u32,
    ready: &'static [(u32, Option<u32>)],
}

const WORKED: [Worked; 3] = [
    // A block that is written once, over 4 blocks and 4 pages: count page 2 and data page 4 come before map page 1 and print page 3.
    Worked {
        pages: &[1, 2, 3, 4],
        edges: &[(2, 1), (2, 3), (4, 1), (4, 3)],
        levels: 2,
        nodes: 4,
        ready: &[(0, Some(2)), (3, Some(4))],
    },
    // A block that is written anew where the old page's count lies in another count page: its release waits for the map and the print page.
    Worked {
        pages: &[1, 3, 4, 5, 11, 1042],
        edges: &[(1042, 1), (1042, 11), (4, 1), (4, 11), (1, 3), (5, 3)],
        levels: 3,
        nodes: 6,
        ready: &[(0, Some(4)), (5, Some(5)), (6, Some(1042))],
    },
    // A block that is written where the print page was put before count page 2, and was settled.
    Worked {
        pages: &[2, 1, 3, 6],
        edges: &[(2, 1), (2, 3), (6, 1), (6, 3)],
        levels: 2,
        nodes: 4,
        ready: &[(0, Some(2)), (3, Some(6))],
    },
];

#[test]
fn worked_graphs(rt: HostRuntime) -> Result<(), NoMemory> {
    for row in &WORKED {
        let mut graph = build(&rt, row.pages, row.edges)?;
        assert!(rt; graph.levels() == row.levels && graph.nodes() == row.nodes);
        for (from, page) in row.ready {
            assert!(rt; graph.first_ready(*from) == *page);
        }
    }
    Ok(())
}

// A print page that a release put before its count page: the other way round it would close, until it is settled.
#[test]
fn settled_print_page(rt: HostRuntime) -> Result<(), NoMemory> {
    run(
        &rt,
        &[
            Step::Enter(2),
            Step::Enter(3),
            Step::Live(3, 2),
            Step::Live(2, 3),
            Step::Write(3),
            Step::Fix,
            Step::Enter(1),
            Step::Enter(3),
            Step::Enter(4),
            Step::Live(2, 1),
            Step::Live(2, 3),
            Step::Live(4, 1),
            Step::Live(4, 3),
        ],
    )
}
