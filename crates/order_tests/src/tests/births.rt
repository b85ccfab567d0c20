use birth_marks::{Births, NoMemory, Slot};
use std::process::Abort;

const NAME: Slot = Slot::Name(0);

const PRINT: Slot = Slot::Print(1);

// Which of the values 0 to 3 are unborn.
fn unborn(births: &Births, slot: Slot) -> [bool; 4] {
    let mut found = [false; 4];
    for value in 0..4u32 {
        found[value as usize] = births.unborn(slot, value);
    }
    found
}

// A block takes page 1 and then page 2, with no write between: page 1 and its print were never on the device.
#[test]
fn made_and_unmade(rt: HostRuntime) -> Result<(), NoMemory> {
    let mut births = Births::new(rt.alloc());
    births.reserve(3)?;
    births.change(NAME, 1, 0, 1);
    births.change(PRINT, 3, 0, 1);
    assert!(&rt; unborn(&births, NAME) == [false, true, true, true]);
    assert!(&rt; unborn(&births, PRINT) == [false, true, true, true]);
    births.change(NAME, 1, 1, 2);
    assert!(&rt; unborn(&births, NAME) == [false, true, true, true]);
    Ok(())
}

// A try that failed may have been taken.
#[test]
fn failed_try(rt: HostRuntime) -> Result<(), NoMemory> {
    let mut births = Births::new(rt.alloc());
    births.reserve(2)?;
    births.change(NAME, 1, 0, 1);
    births.tried(1);
    births.fixed();
    assert!(&rt; unborn(&births, NAME) == [false, false, true, true]);
    births.change(NAME, 1, 1, 2);
    assert!(&rt; unborn(&births, NAME) == [false, false, true, true]);
    Ok(())
}

// A barrier settles a page that was written, but not one that was changed since.
#[test]
fn settled(rt: HostRuntime) -> Result<(), NoMemory> {
    let mut births = Births::new(rt.alloc());
    births.reserve(2)?;
    births.change(NAME, 1, 0, 1);
    births.tried(1);
    births.written(1);
    births.change(NAME, 1, 1, 2);
    births.fixed();
    assert!(&rt; unborn(&births, NAME) == [false, false, true, true]);
    births.tried(1);
    births.written(1);
    births.fixed();
    assert!(&rt; unborn(&births, NAME) == [false, false, false, false]);
    Ok(())
}
