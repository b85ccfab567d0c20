// The lives of data pages, and the lowest free page of large pools. In an image of 4 blocks and 4 data pages the one count
// page is page 2.
ghost use Rattle.std.specs.Prelude.{◌≡◌};

use page_alloc::Pool;
use page_layout::Shape;
use std::alloc::Global;
use std::test::Fail;

const COUNTS: u32 = 2;

// What the pool is told, or the lowest free page that it tells.
#[derive(Clone, Copy, Drop)]
enum Step {
    Take(u32),
    Zeroed(u32),
    Tried(u32),
    Written(u32),
    Fixed,
    Lowest(Option<u32>),
}

// A pool of 4 data pages.
#[derive(Drop)]
struct Bench {
    pool: Pool,
    ghost four: { pool.shape.pages ≡ 4 },
}

impl Bench {
    fn new(alloc: Global) -> Result<Bench, Fail> {
        let pool = Pool::new(alloc, &Shape::new(4, 4)?)?;
        Ok(Bench { pool })
    }

    // Does a step, and says whether the pool tells what it is to tell.
    fn follow(&mut self, step: Step) -> bool {
        match step {
            Step::Take(p) if 1 <= p && p <= 4 => self.pool.take(p),
            Step::Zeroed(p) if 1 <= p && p <= 4 => self.pool.zeroed(p),
            Step::Tried(page) => self.pool.count_tried(page),
            Step::Written(page) => self.pool.count_written(page),
            Step::Fixed => self.pool.fixed(),
            Step::Lowest(page) => return self.pool.lowest() == page,
            _ => return false,
        }
        true
    }

    // The first step that goes wrong.
    fn first_wrong(&mut self, steps: &[Step]) -> Option<usize> {
        for (at, step) in steps.iter().enumerate() {
            if !self.follow(*step) {
                return Some(at);
            }
        }
        None
    }
}

const LIVES: [&[Step]; 4] = [
    // A page is free once its zero is fixed.
    &[
        Step::Lowest(Some(1)),
        Step::Take(1),
        Step::Lowest(Some(2)),
        Step::Tried(COUNTS),
        Step::Written(COUNTS),
        Step::Fixed,
        Step::Zeroed(1),
        Step::Lowest(Some(2)),
        Step::Tried(COUNTS),
        Step::Written(COUNTS),
        Step::Lowest(Some(2)),
        Step::Fixed,
        Step::Lowest(Some(1)),
    ],
    // An unborn page is free at once.
    &[Step::Take(1), Step::Zeroed(1), Step::Lowest(Some(1))],
    // A write that failed may have been taken.
    &[
        Step::Take(1),
        Step::Tried(COUNTS),
        Step::Zeroed(1),
        Step::Fixed,
        Step::Lowest(Some(2)),
        Step::Tried(COUNTS),
        Step::Written(COUNTS),
        Step::Fixed,
        Step::Lowest(Some(1)),
    ],
    // Other pages than the count page tell nothing.
    &[
        Step::Take(1),
        Step::Tried(0),
        Step::Written(0),
        Step::Tried(1),
        Step::Written(1),
        Step::Tried(3),
        Step::Written(3),
        Step::Tried(4),
        Step::Written(4),
        Step::Tried(8),
        Step::Written(8),
        Step::Tried(u32::MAX),
        Step::Written(u32::MAX),
        Step::Fixed,
        Step::Lowest(Some(2)),
    ],
];

#[test]
fn lives_of_data_pages(rt: HostRuntime) -> Result<(), Fail> {
    for steps in LIVES {
        let mut bench = Bench::new(rt.alloc())?;
        assert_eq!(rt; bench.first_wrong(steps), None, "of {} steps", steps.len());
    }
    Ok(())
}

// Takes the lowest free page, so many times.
fn take_lowest(pool: &mut Pool, rounds: u32) {
    for _ in 0..rounds {
        if let Some(p) = pool.lowest() {
            pool.take(p);
        }
    }
}

#[test]
fn gives_each_page_once(rt: HostRuntime) -> Result<(), Fail> {
    for (pages, taken, lowest) in [
        (1, 1, None),
        (64, 63, Some(64)),
        (65, 64, Some(65)),
        (4097, 4096, Some(4097)),
        (300_000, 262_144, Some(262_145)),
        (300_000, 300_000, None),
    ] {
        let mut pool = Pool::new(rt.alloc(), &Shape::new(4, pages)?)?;
        take_lowest(&mut pool, taken);
        assert_eq!(rt; pool.lowest(), lowest);
    }
    Ok(())
}
