// The lists of pages, one for each value of a print's first two bytes.
ghost use Rattle.std.specs.Prelude.{◌≡◌, ◌≢◌, ◌<◌, ◌≤◌, ℕ, true, OnOk, IsOk, vec_len, length, insert, remove};
ghost use Rattle.finger_table.specs.Order.{print_in};
ghost use Rattle.finger_table.specs.Index.{list_at, has_room};

use crate::order::LISTS;
use page_device::NoMemory;
use std::alloc::Global;

// Makes the table long enough for a page.
pub fn lengthen(table: &mut Vec<Option<[u8; 20]>>, p: u32) -> Result<(), NoMemory>
    ensures long { OnOk result (p < vec_len table.new) }
    ensures longer { vec_len table.old ≤ vec_len table.new }
    ensures same { (q : ℕ) → print_in table.new.items q ≡ print_in table.old.items q }
    ensures succeeds { p < vec_len table.old → IsOk result }
{
    let p = p as usize;
    if p < table.len() {
        return Ok(());
    }
    match table.resize(p + 1, None) {
        Ok(()) => Ok(()),
        Err(_) => Err(NoMemory),
    }
}

// Makes the empty lists that are missing.
pub fn make_lists(alloc: Global, lists: &mut Vec<Vec<u32>>) -> Result<(), NoMemory>
    ensures all { OnOk result (65536 ≤ vec_len lists.new) }
    ensures same { (k : ℕ) → list_at lists.new.items k ≡ list_at lists.old.items k }
    ensures rooms { (k : ℕ) → has_room lists.old.items k ≡ true → has_room lists.new.items k ≡ true }
{
    let missing = LISTS.saturating_sub(lists.len());
    if lists.reserve(missing).is_err() {
        return Err(NoMemory);
    }
    for number in lists.len()..LISTS {
        lists.push_reserved(Vec::new(alloc));
    }
    Ok(())
}

// Makes room for one more in a list.
fn reserve_list(lists: &mut Vec<Vec<u32>>, list: usize) -> Result<(), NoMemory>
    requires { list < vec_len lists.old }
    ensures room { OnOk result (has_room lists.new.items list ≡ true) }
    ensures same { (k : ℕ) → list_at lists.new.items k ≡ list_at lists.old.items k }
    ensures rooms { (k : ℕ) → has_room lists.old.items k ≡ true → has_room lists.new.items k ≡ true }
    ensures succeeds { has_room lists.old.items list ≡ true → IsOk result }
{
    match lists[list].reserve(1) {
        Ok(()) => Ok(()),
        Err(_) => Err(NoMemory),
    }
}

// Makes room for one more in a list, which may be missing.
pub fn reserve(alloc: Global, lists: &mut Vec<Vec<u32>>, list: usize) -> Result<(), NoMemory>
    requires { list < 65536 }
    ensures room { OnOk result (has_room lists.new.items list ≡ true) }
    ensures same { (k : ℕ) → list_at lists.new.items k ≡ list_at lists.old.items k }
    ensures rooms { (k : ℕ) → has_room lists.old.items k ≡ true → has_room lists.new.items k ≡ true }
    ensures succeeds { has_room lists.old.items list ≡ true → IsOk result }
{
    if list >= lists.len() {
        make_lists(alloc, lists)?;
    }
    reserve_list(lists, list)
}

// Puts a page into a list that has room for it.
pub fn put_page(lists: &mut Vec<Vec<u32>>, list: usize, at: usize, p: u32)
    requires list { list < vec_len lists.old }
    requires place { at ≤ length (list_at lists.old.items list) }
    requires room { has_room lists.old.items list ≡ true }
    ensures here { list_at lists.new.items list ≡ insert (list_at lists.old.items list) at p }
    ensures others { (k : ℕ) → k ≢ list → list_at lists.new.items k ≡ list_at lists.old.items k }
    ensures rooms { (k : ℕ) → k ≢ list → has_room lists.old.items k ≡ true → has_room lists.new.items k ≡ true }
{
    let _ = lists[list].insert(at, p);
}

// Takes a page out of a list.
pub fn take_page(lists: &mut Vec<Vec<u32>>, list: usize, at: usize)
    requires list { list < vec_len lists.old }
    requires place { at < length (list_at lists.old.items list) }
    ensures here { list_at lists.new.items list ≡ remove (list_at lists.old.items list) at }
    ensures others { (k : ℕ) → k ≢ list → list_at lists.new.items k ≡ list_at lists.old.items k }
    ensures rooms { (k : ℕ) → has_room lists.old.items k ≡ true → has_room lists.new.items k ≡ true }
{
    let _ = lists[list].remove(at);
}
