// A plain program: marks and edges in tables, waves by their definition.

pub const PAGES: usize = 8;

type Row = [bool; PAGES];

type Table = [Row; PAGES];

/// A call of a device, and whether it succeeded.
#[derive(Clone, Copy, Debug, PartialEq, Eq, Drop)]
pub enum Call {
    Write(u32),
    Barrier,
    FailedWrite(u32),
    FailedBarrier,
}

/// Pages below `PAGES` with their marks, the edges between them, and how many calls are to be made until one fails.
#[derive(Clone, Copy, Drop)]
pub struct Plain {
    dirty: Row,
    hung: Row,
    live: Table,
    barred: Table,
    calls: u64,
    failing: u64,
}

fn marked(row: &Row, page: u32) -> bool {
    row.get(page as usize).copied().unwrap_or(false)
}

fn mark(row: &mut Row, page: u32, to: bool) {
    if (page as usize) < PAGES {
        row[page as usize] = to;
    }
}

fn linked(table: &Table, before: u32, after: u32) -> bool {
    match table.get(before as usize) {
        Some(row) => marked(row, after),
        None => false,
    }
}

fn link(table: &mut Table, before: u32, after: u32) {
    if (before as usize) < PAGES {
        mark(&mut table[before as usize], after, true);
    }
}

// From which page a way leads to which, by Warshall's rule.
fn ways(live: &Table) -> Table {
    let mut ways = *live;
    for by in 0..PAGES {
        for from in 0..PAGES {
            for to in 0..PAGES {
                if ways[from][by] && ways[by][to] {
                    ways[from][to] = true;
                }
            }
        }
    }
    ways
}

fn any_before(table: &Table, after: u32) -> bool {
    for before in 0..8u32 {
        if linked(table, before, after) {
            return true;
        }
    }
    false
}

fn any(row: &Row) -> bool {
    row.iter().any(|held| *held)
}

impl Plain {
    /// No page is marked, and the call of this number is to fail, counted from 1.
    pub fn new(failing: u64) -> Plain {
        Plain {
            dirty: [false; PAGES],
            hung: [false; PAGES],
            live: [[false; PAGES]; PAGES],
            barred: [[false; PAGES]; PAGES],
            calls: 0,
            failing,
        }
    }

    pub fn touch(&mut self, page: u32) {
        mark(&mut self.dirty, page, true);
    }

    pub fn is_dirty(&self, page: u32) -> bool {
        marked(&self.dirty, page)
    }

    /// Orders two pages where that closes no cycle.
    pub fn order(&mut self, before: u32, after: u32) {
        let closes = before == after || linked(&ways(&self.live), after, before);
        if !marked(&self.dirty, after) || closes {
            return;
        }
        if marked(&self.dirty, before) {
            link(&mut self.live, before, after);
        } else if marked(&self.hung, before) {
            link(&mut self.barred, before, after);
        }
    }

    fn is_ready(&self, page: u32) -> bool {
        marked(&self.dirty, page)
            && !any_before(&self.live, page)
            && !any_before(&self.barred, page)
    }

    // Whether the page is due in waves for one page, or for all.
    fn is_due(&self, page: u32, target: Option<u32>) -> bool {
        let serves = match target {
            Some(target) => page == target || linked(&ways(&self.live), page, target),
            None => true,
        };
        serves && self.is_ready(page)
    }

    fn goes_on(&self, target: Option<u32>) -> bool {
        match target {
            Some(page) => marked(&self.dirty, page) || marked(&self.hung, page),
            None => any(&self.dirty) || any(&self.hung),
        }
    }

    // Whether the next call succeeds.
    fn succeeds(&mut self) -> bool {
        self.calls = self.calls.saturating_add(1);
        self.calls != self.failing
    }

    fn written(&mut self, page: u32) {
        mark(&mut self.dirty, page, false);
        mark(&mut self.hung, page, true);
        for after in 0..8u32 {
            if linked(&self.live, page, after) {
                link(&mut self.barred, page, after);
            }
        }
        if (page as usize) < PAGES {
            self.live[page as usize] = [false; PAGES];
        }
    }

    fn write(&mut self, page: u32, calls: &mut Vec<Call>) -> bool {
        if !self.succeeds() {
            note(calls, Call::FailedWrite(page));
            return false;
        }
        note(calls, Call::Write(page));
        self.written(page);
        true
    }

    fn barrier(&mut self, calls: &mut Vec<Call>) -> bool {
        if !self.succeeds() {
            note(calls, Call::FailedBarrier);
            return false;
        }
        note(calls, Call::Barrier);
        self.hung = [false; PAGES];
        self.barred = [[false; PAGES]; PAGES];
        true
    }

    // Writes what is due at the start, and says whether all was written.
    fn write_due(&mut self, target: Option<u32>, calls: &mut Vec<Call>) -> bool {
        let start = *self;
        for page in 0..8u32 {
            if start.is_due(page, target) && !self.write(page, calls) {
                return false;
            }
        }
        true
    }

    /// Waves for one page, or for all, until they are over or a call fails. Of eight pages no way is longer than nine waves.
    pub fn waves(&mut self, target: Option<u32>, calls: &mut Vec<Call>) -> bool {
        for _ in 0..9u32 {
            if !self.goes_on(target) {
                return true;
            }
            if !self.write_due(target, calls) || !self.barrier(calls) {
                return false;
            }
        }
        false
    }

    /// An idle turn for a policy that picks all that is offered, the lowest first, and asks for each barrier.
    pub fn eager_turn(&mut self, calls: &mut Vec<Call>) -> bool {
        self.write_due(None, calls) && (!any(&self.hung) || self.barrier(calls))
    }
}

/// Notes a call, as far as there is room.
pub fn note(calls: &mut Vec<Call>, call: Call) {
    if calls.len() < calls.capacity() {
        calls.push_reserved(call);
    }
}
