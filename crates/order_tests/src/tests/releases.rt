ghost use Rattle.std.specs.Prelude.{◌≤◌};

use super::graph::{add_live, enter};
use dep_graph::Graph;
use release_queue::{
    FIXED, NOT_WRITTEN, Need, NoMemory, Queue, Release, UNBORN, WRITTEN, Wanted, blocked, needs,
};
use std::process::Abort;

// A graph, the map, count and print page of a release and its stage, whether its page loses its last print, and whether it has to
// wait.
struct Row {
    edges: &'static [(u32, u32)],
    pages: (u32, u32, u32),
    stage: u8,
    last_print: bool,
    waits: bool,
}

// In an image of 4 blocks and 4 pages, page 1 is of the map, 2 of the counts, 3 of the prints, and the data follow. In one of 2048
// and 2048, 1 is of the map, 3 and 4 are of the counts, and 5 is the first of the prints.
const ROWS: [Row; 6] = [
    // A block is written anew: its map page waits for the count page that the release would make wait for the map page.
    Row {
        edges: &[(2, 1), (2, 3), (5, 1), (5, 3)],
        pages: (1, 2, 3),
        stage: NOT_WRITTEN,
        last_print: true,
        waits: true,
    },
    // The fresh page has its count in another count page.
    Row {
        edges: &[(4, 1), (4, 11), (1042, 1), (1042, 11)],
        pages: (1, 3, 5),
        stage: NOT_WRITTEN,
        last_print: true,
        waits: false,
    },
    // Then a second block of that map page takes a page with its count in the first count page.
    Row {
        edges: &[(5, 3), (3, 1)],
        pages: (1, 3, 5),
        stage: NOT_WRITTEN,
        last_print: true,
        waits: true,
    },
    // Once everything is on the device nothing stands in the way.
    Row {
        edges: &[],
        pages: (1, 2, 3),
        stage: FIXED,
        last_print: true,
        waits: false,
    },
    // An unborn name needs no edge, but a print that was on the device does.
    Row {
        edges: &[(2, 1), (2, 3)],
        pages: (1, 2, 3),
        stage: UNBORN,
        last_print: true,
        waits: true,
    },
    Row {
        edges: &[(2, 1), (2, 3)],
        pages: (1, 2, 3),
        stage: UNBORN,
        last_print: false,
        waits: false,
    },
];

// What the first block owes the first data page.
fn owed(pages: (u32, u32, u32), stage: u8) -> Release
    ensures { result.stage ≤ 3 }
{
    Release {
        block: 0,
        page: 1,
        map_at: pages.0,
        count_at: pages.1,
        print_at: pages.2,
        stage: stage.min(UNBORN),
        look: true,
    }
}

// Enters two pages, and adds an edge between them where it may stand.
fn add(graph: &mut Graph, before: u32, after: u32) -> Result<bool, NoMemory> {
    enter(graph, before)?;
    enter(graph, after)?;
    add_live(graph, before, after)
}

#[test]
fn waits_for_cycles(rt: HostRuntime) -> Result<(), NoMemory> {
    for row in &ROWS {
        let mut graph = Graph::new(rt.alloc());
        for (before, after) in row.edges {
            let added = add(&mut graph, *before, *after)?;
            assert!(&rt; added);
        }
        let release = owed(row.pages, row.stage);
        let waits = blocked(&mut graph, &release, row.last_print);
        assert!(&rt; waits == row.waits);
    }
    Ok(())
}

fn push(queue: &mut Queue, pages: (u32, u32, u32), stage: u8) -> bool {
    if queue.full() {
        return false;
    }
    queue.push(owed(pages, stage));
    true
}

fn at(queue: &Queue, i: u32) -> Option<Release> {
    if i < queue.len() {
        Some(*queue.at(i))
    } else {
        None
    }
}

fn remove(queue: &mut Queue, i: u32) -> Option<Release> {
    if i < queue.len() {
        Some(queue.remove(i))
    } else {
        None
    }
}

fn stages(queue: &Queue) -> [Option<u8>; 3] {
    let mut stages = [None; 3];
    for i in 0..3u32 {
        stages[i as usize] = at(queue, i).map(|release| release.stage);
    }
    stages
}

// Two releases of map page 1 and one of map page 2: a write, a barrier, and a removal.
#[test]
fn moves_on(rt: HostRuntime) -> Result<(), NoMemory> {
    let mut queue = Queue::new(rt.alloc(), 3)?;
    assert!(&rt; push(&mut queue, (1, 3, 5), NOT_WRITTEN));
    assert!(&rt; push(&mut queue, (2, 3, 5), NOT_WRITTEN));
    assert!(&rt; push(&mut queue, (1, 4, 5), UNBORN));
    assert!(&rt; !push(&mut queue, (1, 4, 5), NOT_WRITTEN));
    queue.map_written(1);
    assert!(&rt; stages(&queue) == [Some(WRITTEN), Some(NOT_WRITTEN), Some(UNBORN)]);
    queue.fixed();
    assert!(&rt; stages(&queue) == [Some(FIXED), Some(NOT_WRITTEN), Some(UNBORN)]);
    assert!(&rt; remove(&mut queue, 1) == Some(owed((2, 3, 5), NOT_WRITTEN)));
    assert!(&rt; stages(&queue) == [Some(FIXED), Some(UNBORN), None]);
    assert!(&rt; queue.len() == 2 && !queue.full());
    Ok(())
}

fn looked(queue: &mut Queue, i: u32) {
    if i < queue.len() {
        queue.looked(i);
    }
}

// Those that are to be looked at, as a pass finds them.
fn looks(queue: &Queue) -> [bool; 3] {
    let mut looks = [false; 3];
    for i in 0..3u32 {
        looks[i as usize] = queue.next_look(i) == Some(i);
    }
    looks
}

// All three were looked at, and then something changed: the pages of a call, and which of the releases it frees.
#[test]
fn looks_again(rt: HostRuntime) -> Result<(), NoMemory> {
    let mut queue = Queue::new(rt.alloc(), 3)?;
    for count_page in [3, 4, 3] {
        assert!(&rt; push(&mut queue, (1, count_page, 5), NOT_WRITTEN));
    }
    assert!(&rt; looks(&queue) == [true, true, true]);
    for i in 0..3u32 {
        looked(&mut queue, i);
    }
    assert!(&rt; queue.next_look(0) == None);
    queue.map_written(1);
    queue.fixed();
    assert!(&rt; queue.next_look(0) == None);
    queue.count_written(4);
    assert!(&rt; looks(&queue) == [false, true, false]);
    queue.page_changed(1);
    assert!(&rt; looks(&queue) == [true, true, true]);
    Ok(())
}

fn wanted(stage: u8, last_print: bool) -> Wanted {
    needs(&owed((1, 2, 3), stage), last_print)
}

#[test]
fn needed(rt: HostRuntime) {
    for (stage, from_map) in [
        (NOT_WRITTEN, Need::Live),
        (WRITTEN, Need::Barrier),
        (FIXED, Need::Nothing),
        (UNBORN, Need::Nothing),
    ] {
        assert!(&rt;
            wanted(stage, false)
                == Wanted {
                    from_map,
                    from_print: Need::Nothing
                }
        );
        assert!(&rt;
            wanted(stage, true)
                == Wanted {
                    from_map,
                    from_print: Need::Live
                }
        );
    }
}
