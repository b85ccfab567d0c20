// That clean pages really come from the list, and a long list of calls beside a plain program, over a device that fails.
use page_cache::{Cache, LEAST_SIZE, absent_is_unmarked};
use page_device::{Device, Failed, MemDevice, NoMemory, Page};
use std::alloc::Global;
use std::process::Abort;

mod plain;

use plain::{PAGES, Plain, call_fails, read_fails};

// What a call answered.
#[derive(Clone, Copy, Debug, PartialEq, Eq, Drop)]
pub enum Answer {
    Done,
    // The page is not there, or was read from the device.
    Away,
    // The page was there already.
    There,
    // The last byte of the number of the block.
    Byte(u8),
    Failed,
}

// A call, or several that belong together.
#[derive(Clone, Copy, Drop)]
pub enum Step {
    Fetch(u32),
    Look(u32),
    // Puts the block of a number into a page that is there.
    Edit(u32, u8),
    // Brings in the block of a number, where the page is not there.
    Place(u32, u8),
    // Holds a page that is there.
    Hold(u32),
    // The same, and then no longer.
    Touch(u32),
    // Brings in a page that is not there, and takes it out again: clean, or dirty.
    ComeAndGo(u32),
    ComeAndGiveUp(u32),
    Write(u32),
    Barrier,
    Read(u32),
}

fn fetch<D: Device>(cache: &mut Cache, device: &mut D, page: u32) -> Answer {
    if page >= device.pages() {
        return Answer::Failed;
    }
    match cache.fetch(device, page) {
        Ok(true) => Answer::Away,
        Ok(false) => Answer::There,
        Err(_) => Answer::Failed,
    }
}

fn look(cache: &Cache, page: u32) -> Answer {
    match cache.look(page) {
        Some(found) => Answer::Byte(found.bytes()[7]),
        None => Answer::Away,
    }
}

fn hold(cache: &mut Cache, page: u32) -> Answer {
    match cache.look(page) {
        Some(_) => {}
        None => return Answer::Away,
    }
    match cache.hold(page) {
        Ok(()) => Answer::Done,
        Err(_) => Answer::Failed,
    }
}

fn edit(cache: &mut Cache, page: u32, number: u8) -> Answer {
    match cache.look(page) {
        Some(_) => {}
        None => return Answer::Away,
    }
    match cache.hold(page) {
        Ok(()) => {}
        Err(_) => return Answer::Failed,
    }
    let lent = cache.edit(page);
    *lent = Page::numbered(u64::from(number));
    cache.unhold(page);
    Answer::Done
}

fn place(cache: &mut Cache, page: u32, number: u8) -> Answer {
    match cache.look(page) {
        Some(_) => return Answer::There,
        None => {}
    }
    absent_is_unmarked();
    match cache.place(page, &Page::numbered(u64::from(number))) {
        Ok(()) => Answer::Done,
        Err(_) => Answer::Failed,
    }
}

// Brings in a page that is not there, and takes it out again.
fn come_and_go(cache: &mut Cache, page: u32) -> Answer {
    match cache.look(page) {
        Some(_) => return Answer::There,
        None => {}
    }
    absent_is_unmarked();
    match cache.place(page, &Page::numbered(9)) {
        Ok(()) => {}
        Err(_) => return Answer::Failed,
    }
    cache.forget(page);
    look(cache, page)
}

// The same for a page that was edited.
fn come_and_give_up(cache: &mut Cache, page: u32) -> Answer {
    match cache.look(page) {
        Some(_) => return Answer::There,
        None => {}
    }
    absent_is_unmarked();
    match cache.place(page, &Page::numbered(9)) {
        Ok(()) => {}
        Err(_) => return Answer::Failed,
    }
    match cache.hold(page) {
        Ok(()) => {}
        Err(_) => return Answer::Failed,
    }
    *cache.edit(page) = Page::numbered(7);
    cache.unhold(page);
    cache.give_up(page);
    look(cache, page)
}

fn touch(cache: &mut Cache, page: u32) -> Answer {
    match cache.look(page) {
        Some(_) => {}
        None => return Answer::Away,
    }
    match cache.hold(page) {
        Ok(()) => {}
        Err(_) => return Answer::Failed,
    }
    cache.unhold(page);
    Answer::Done
}

fn write<D: Device>(cache: &mut Cache, device: &mut D, page: u32) -> Answer {
    if page >= device.pages() {
        return Answer::Away;
    }
    match cache.look(page) {
        Some(_) => {}
        None => return Answer::Away,
    }
    match cache.write_out(device, page) {
        Ok(()) => Answer::Done,
        Err(Failed) => Answer::Failed,
    }
}

fn barrier<D: Device>(cache: &mut Cache, device: &mut D) -> Answer {
    match cache.barrier(device) {
        Ok(()) => Answer::Done,
        Err(Failed) => Answer::Failed,
    }
}

fn read<D: Device>(cache: &mut Cache, device: &mut D, page: u32) -> Answer {
    if page >= device.pages() {
        return Answer::Failed;
    }
    let mut into = Page::zero();
    match cache.read_into(device, page, &mut into) {
        Ok(()) => Answer::Byte(into.bytes()[7]),
        Err(Failed) => Answer::Failed,
    }
}

fn run<D: Device>(cache: &mut Cache, device: &mut D, step: Step) -> Answer {
    match step {
        Step::Fetch(page) => fetch(cache, device, page),
        Step::Look(page) => look(cache, page),
        Step::Edit(page, number) => edit(cache, page, number),
        Step::Place(page, number) => place(cache, page, number),
        Step::Hold(page) => hold(cache, page),
        Step::Touch(page) => touch(cache, page),
        Step::ComeAndGo(page) => come_and_go(cache, page),
        Step::ComeAndGiveUp(page) => come_and_give_up(cache, page),
        Step::Write(page) => write(cache, device, page),
        Step::Barrier => barrier(cache, device),
        Step::Read(page) => read(cache, device, page),
    }
}

// A device of so many pages of zeros.
fn zeros(alloc: Global, pages: u32) -> Result<MemDevice, Failed> {
    let mut device = MemDevice::holding(alloc, Vec::new(alloc));
    device.room(pages)?;
    Ok(device)
}

// Fetches pages one after another. How many of them were read.
fn fetch_all(cache: &mut Cache, device: &mut MemDevice, from: u32, to: u32) -> u64 {
    let mut read = 0u64;
    for page in from..to {
        if fetch(cache, device, page) == Answer::Away {
            read = read.saturating_add(1);
        }
    }
    read
}

// A step, what it answers, and the reads of the device after it.
type Row = (Step, Answer, u64);

// The first row that says something else than what comes.
fn first_wrong(cache: &mut Cache, device: &mut MemDevice, rows: &[Row]) -> Option<usize> {
    for (at, row) in rows.iter().enumerate() {
        let (step, answer, reads) = *row;
        if run(cache, device, step) != answer || device.reads() != reads {
            return Some(at);
        }
    }
    None
}

// After pages 0 to 63 were fetched, in this order: page 0 is used again, so that pages 1 and 2 are the last, and are dropped.
const LIST: [Row; 17] = [
    (Step::Fetch(0), Answer::There, 64),
    (Step::Fetch(63), Answer::There, 64),
    (Step::Fetch(64), Answer::Away, 65),
    (Step::Fetch(65), Answer::Away, 66),
    (Step::Look(1), Answer::Away, 66),
    (Step::Look(2), Answer::Away, 66),
    (Step::Look(0), Answer::Byte(0), 66),
    (Step::Look(3), Answer::Byte(0), 66),
    (Step::Fetch(1), Answer::Away, 67),
    (Step::Fetch(65), Answer::There, 67),
    // What is read into a page of the caller's is not kept.
    (Step::Read(66), Answer::Byte(0), 68),
    (Step::Read(66), Answer::Byte(0), 69),
    (Step::Read(65), Answer::Byte(0), 69),
    // The 70th read fails.
    (Step::Fetch(66), Answer::Failed, 70),
    (Step::Look(66), Answer::Away, 70),
    (Step::ComeAndGo(66), Answer::Away, 70),
    (Step::ComeAndGiveUp(66), Answer::Away, 70),
];

#[test]
fn clean_pages_come_from_the_list(rt: HostRuntime) -> Result<(), Failed> {
    let mut device = zeros(rt.alloc(), 67)?;
    let Ok(mut cache) = Cache::new(rt.alloc(), LEAST_SIZE) else {
        return Err(Failed);
    };
    assert!(&rt; device.fail_read(70).is_ok());
    assert!(&rt; fetch_all(&mut cache, &mut device, 0, 64) == 64);
    assert!(&rt; first_wrong(&mut cache, &mut device, &LIST) == None);
    Ok(())
}

// A page that is held stays, and one that is dirty, and one that was written, until a barrier; the others go.
const USED: [Row; 9] = [
    (Step::Hold(0), Answer::Done, 4),
    (Step::Edit(1, 5), Answer::Done, 4),
    (Step::Edit(2, 6), Answer::Done, 4),
    (Step::Write(2), Answer::Done, 4),
    (Step::Look(0), Answer::Byte(0), 4),
    (Step::Look(1), Answer::Byte(5), 4),
    (Step::Look(2), Answer::Byte(6), 4),
    (Step::Look(3), Answer::Byte(0), 4),
    (Step::Look(4), Answer::Away, 4),
];

const LATER: [Row; 8] = [
    (Step::Look(0), Answer::Byte(0), 68),
    (Step::Look(1), Answer::Byte(5), 68),
    (Step::Look(2), Answer::Byte(6), 68),
    (Step::Look(3), Answer::Away, 68),
    (Step::Barrier, Answer::Done, 68),
    // The list was full, with page 4 at its end, which is dropped for page 2.
    (Step::Look(4), Answer::Away, 68),
    (Step::Look(2), Answer::Byte(6), 68),
    (Step::Fetch(5), Answer::There, 68),
];

#[test]
fn pages_in_use_stay(rt: HostRuntime) -> Result<(), Failed> {
    let mut device = zeros(rt.alloc(), 68)?;
    let Ok(mut cache) = Cache::new(rt.alloc(), LEAST_SIZE) else {
        return Err(Failed);
    };
    assert!(&rt; fetch_all(&mut cache, &mut device, 0, 4) == 4);
    assert!(&rt; first_wrong(&mut cache, &mut device, &USED) == None);
    assert!(&rt; fetch_all(&mut cache, &mut device, 4, 68) == 64);
    assert!(&rt; first_wrong(&mut cache, &mut device, &LATER) == None);
    Ok(())
}

// The calls of a long list: a step for each state of a generator.
fn step_of(state: u64) -> Step {
    let page = (state / 65_536 % u64::from(PAGES)) as u32;
    let number = (state / 4_294_967_296 % 251) as u8;
    match state / 1024 % 32 {
        0 | 1 => Step::Barrier,
        2 => Step::Place(page, number),
        3 | 4 => Step::Edit(page, number),
        5..=8 => Step::Write(page),
        9..=11 => Step::Look(page),
        12 | 13 => Step::Touch(page),
        14..=16 => Step::Read(page),
        _ => Step::Fetch(page),
    }
}

// Plans the faults of so many calls and reads.
fn plan(device: &mut MemDevice, calls: u64) -> Result<(), NoMemory> {
    for call in 1..calls {
        if call_fails(call) {
            device.fail_call(call, false)?;
        }
        if read_fails(call) {
            device.fail_read(call)?;
        }
    }
    Ok(())
}

// After how many steps, if any, the cache or the device differ from the plain program.
fn first_difference(
    cache: &mut Cache,
    device: &mut MemDevice,
    plain: &mut Plain,
    steps: u32,
) -> Option<u32> {
    let mut state = 1u64;
    for step in 0..steps {
        state = state
            .wrapping_mul(6_364_136_223_846_793_005)
            .wrapping_add(1_442_695_040_888_963_407);
        let next = step_of(state);
        let answer = run(cache, device, next);
        if plain.run(next) != Ok(answer)
            || plain.reads != device.reads()
            || plain.calls != cache.calls()
        {
            return Some(step);
        }
    }
    None
}

#[test]
fn calls_beside_a_plain_program(rt: HostRuntime) -> Result<(), Failed> {
    let mut device = zeros(rt.alloc(), PAGES)?;
    let Ok(mut cache) = Cache::new(rt.alloc(), LEAST_SIZE) else {
        return Err(Failed);
    };
    let mut plain = Plain::new(rt.alloc());
    assert!(&rt; plan(&mut device, 1000).is_ok());
    assert!(&rt; first_difference(&mut cache, &mut device, &mut plain, 2000) == None);
    assert!(&rt; cache.calls() == device.calls());
    Ok(())
}
