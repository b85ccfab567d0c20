// Vectors with room.
ghost use Rattle.std.specs.Prelude.{◌≡◌, ◌+◌, ◌<◌, ◌≤◌, ◌++◌, take, drop, vec_len, vec_capacity, insert, OnOk};

use std::alloc::AllocError;

// Makes room for so many items in all.
pub fn room_for<T>(items: &mut Vec<T>, all: usize) -> Result<(), AllocError>
    ensures items { items.new.items ≡ items.old.items }
    ensures ok { OnOk result (all ≤ vec_capacity items.new) }
    ensures room { vec_capacity items.old ≤ vec_capacity items.new }
{
    if all <= items.len() {
        return Ok(());
    }
    items.try_reserve(all - items.len())?;
    Ok(())
}

// Puts an item in where there is room, so that no memory is taken.
pub fn insert_at<T: Copy>(items: &mut Vec<T>, at: usize, item: T)
    requires place { at ≤ vec_len items.old }
    requires room { vec_len items.old < vec_capacity items.old }
    ensures items { items.new.items ≡ insert items.old.items at item }
    ensures len { vec_len items.new ≡ vec_len items.old + 1 }
    ensures room { vec_capacity items.new ≡ vec_capacity items.old }
{
    let _ = items.insert(at, item);
}

// Takes out what stands from the first place up to the second.
pub fn cut_out<T: Copy>(items: &mut Vec<T>, first: usize, end: usize)
    requires order { first ≤ end }
    requires within { end ≤ vec_len items.old }
    ensures items { items.new.items ≡ take first items.old.items ++ drop end items.old.items }
    ensures room { vec_capacity items.new ≡ vec_capacity items.old }
{
    let _ = items.drain(first..end);
}
