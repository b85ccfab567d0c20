// The marks of all data pages in groups of 64, with the set of the groups that have a free one.
ghost use Rattle.std.specs.Prelude.{◌≡◌, ◌≢◌, ℕ, ◌+◌, ◌-◌, ◌*◌, ◌/◌, ◌<◌, ◌≤◌, true, false, length, slice_set};
ghost use Rattle.page_alloc.specs.Kept.{told_at, IsIndexed};
ghost use Rattle.page_alloc.specs.Marks.{told_after};
ghost use Rattle.page_alloc.specs.Numbers.{holds, HoldsNone};

use crate::marks::{Marks, Step};
use crate::numbers::Numbers;

// Groups of a count page.
pub const GROUPS: usize = 16;

// Sets the marks of a group. Constant time.
pub fn put(groups: &mut [Marks], free: &mut Numbers, group: usize, marks: Marks)
    requires within { group < length groups.old }
    requires indexed { IsIndexed groups.old free.old }
    ensures groups { groups.new ≡ slice_set groups.old group marks }
    ensures indexed { IsIndexed groups.new free.new }
{
    groups[group] = marks;
    if marks.free() == 0 {
        free.remove(group);
    } else {
        free.insert(group);
    }
}

// Tells a step of a count page, counted from 0, to all its groups.
pub fn tell(groups: &mut [Marks], free: &mut Numbers, count_page: usize, step: Step)
    requires within { 16 * count_page + 16 ≤ length groups.old }
    requires indexed { IsIndexed groups.old free.old }
    ensures inside { (p : ℕ) → (p - 1) / 1024 ≡ count_page → told_at groups.new p ≡ told_after step (told_at groups.old p) }
    ensures outside { (p : ℕ) → (p - 1) / 1024 ≢ count_page → told_at groups.new p ≡ told_at groups.old p }
    ensures indexed { IsIndexed groups.new free.new }
{
    let first = GROUPS * count_page;
    for group in first..first + GROUPS {
        let marks = groups[group].after(step);
        put(groups, free, group, marks);
    }
}

// Tells a barrier to the groups of each count page of the set, and empties it.
pub fn settle(groups: &mut [Marks], free: &mut Numbers, written: &mut Numbers)
    requires within { (c : ℕ) → holds written.old c ≡ true → 16 * c + 16 ≤ length groups.old }
    requires indexed { IsIndexed groups.old free.old }
    ensures here { (p : ℕ) → holds written.old ((p - 1) / 1024) ≡ true → told_at groups.new p ≡ told_after Step.Fixed (told_at groups.old p) }
    ensures there { (p : ℕ) → holds written.old ((p - 1) / 1024) ≡ false → told_at groups.new p ≡ told_at groups.old p }
    ensures none { HoldsNone written.new }
    ensures room { length written.new ≡ length written.old }
    ensures indexed { IsIndexed groups.new free.new }
{
    while let Some(count_page) = written.least() {
        tell(groups, free, count_page, Step::Fixed);
        written.remove(count_page);
    }
}
