// The lists of a whole table of prints at once.
ghost use Rattle.std.specs.Prelude.{◌≡◌, ◌≢◌, ◌<◌, ◌≤◌, ◌+◌, ◌++◌, ◌∷◌, [], ℕ, List, Some, OnOk, length, nat_lt, vec_len};
ghost use Rattle.std.specs.List.Sorted.{IsNonDecreasingBy, IsPermutation};
ghost use Rattle.finger_table.specs.Filled.{IsFilled};
ghost use Rattle.finger_table.specs.Index.{list_at, IsIndexed};
ghost use Rattle.finger_table.specs.Order.{IsPrint, key_in, less_where, print_in};

use crate::order::{is_before, list_of};
use page_device::NoMemory;
use std::cmp::Ordering;

// Puts a page at the end of a list.
fn append(lists: &mut Vec<Vec<u32>>, list: usize, p: u32) -> Result<(), NoMemory>
    requires { list < vec_len lists.old }
    ensures here { OnOk result (list_at lists.new.items list ≡ list_at lists.old.items list ++ p ∷ []) }
    ensures others { (k : ℕ) → k ≢ list → list_at lists.new.items k ≡ list_at lists.old.items k }
    ensures count { vec_len lists.new ≡ vec_len lists.old }
{
    match lists[list].push(p) {
        Ok(()) => Ok(()),
        Err(_) => Err(NoMemory),
    }
}

// Puts a page of a table, if it has a print, at the end of the list of that.
fn add_page(table: &[Option<[u8; 20]>], lists: &mut Vec<Vec<u32>>, p: u32) -> Result<(), NoMemory>
    requires within { p < length table.now }
    requires lists { 65536 ≤ vec_len lists.old }
    requires filled { IsFilled table.now p (list_at lists.old.items) }
    ensures filled { OnOk result (IsFilled table.now (p + 1) (list_at lists.new.items)) }
    ensures count { vec_len lists.new ≡ vec_len lists.old }
{
    match &table[p as usize] {
        Some(print) => match append(lists, list_of(print), p) {
            Ok(()) => Ok(()),
            Err(error) => Err(error),
        },
        None => Ok(()),
    }
}

// Puts each page of a table that has a print into the list of that, in rising order.
pub fn fill_lists(table: &[Option<[u8; 20]>], lists: &mut Vec<Vec<u32>>) -> Result<(), NoMemory>
    requires few { length table.now ≤ 4294967295 }
    requires lists { 65536 ≤ vec_len lists.old }
    requires empty { (k : ℕ) → list_at lists.old.items k ≡ [] }
    ensures { OnOk result (IsFilled table.now (length table.now) (list_at lists.new.items)) }
{
    for p in 0..table.len() as u32 {
        match add_page(table, lists, p) {
            Ok(()) => {}
            Err(error) => return Err(error),
        }
    }
    Ok(())
}

// A page goes before another in a list: by their prints, and those of one print by their numbers.
fn goes_before(prints: &[Option<[u8; 20]>], a: u32, b: u32) -> bool
    requires { (p : ℕ) (own : List ℕ) → print_in prints.now p ≡ Some own → IsPrint own }
    ensures { result ≡ nat_lt (key_in prints.now a) (key_in prints.now b) }
{
    match prints.get(b as usize) {
        Some(Some(print)) => is_before(prints, a, print, b as u64),
        _ => false,
    }
}

// How two pages stand to each other in a list. No two of its pages are equal in that order, so one test is enough.
fn compare(prints: &[Option<[u8; 20]>], a: u32, b: u32) -> Ordering
    requires { (p : ℕ) (own : List ℕ) → print_in prints.now p ≡ Some own → IsPrint own }
    ensures { result ≡ less_where (nat_lt (key_in prints.now a) (key_in prints.now b)) }
{
    if goes_before(prints, a, b) {
        Ordering::Less
    } else {
        Ordering::Greater
    }
}

// Sorts one list.
fn sort_list(prints: &[Option<[u8; 20]>], lists: &mut Vec<Vec<u32>>, list: usize)
    requires list { list < vec_len lists.old }
    requires prints { (p : ℕ) (own : List ℕ) → print_in prints.now p ≡ Some own → IsPrint own }
    ensures sorted { IsNonDecreasingBy (key_in prints.now) (list_at lists.new.items list) }
    ensures same { IsPermutation (list_at lists.old.items list) (list_at lists.new.items list) }
    ensures others { (k : ℕ) → k ≢ list → list_at lists.new.items k ≡ list_at lists.old.items k }
    ensures count { vec_len lists.new ≡ vec_len lists.old }
{
    lists[list].sort_unstable_by(|a, b| compare(prints, *a, *b));
}

// Sorts all lists.
pub fn sort_lists(table: &[Option<[u8; 20]>], lists: &mut Vec<Vec<u32>>)
    requires { IsFilled table.now (length table.now) (list_at lists.old.items) }
    ensures { IsIndexed (print_in table.now) (list_at lists.new.items) }
{
    for list in 0..lists.len() {
        sort_list(table, lists, list);
    }
}
