// The record of the changes.
ghost use Rattle.std.specs.Prelude.{◌≡◌, ◌≢◌, ℕ, ◌<◌, ◌≤◌, ◌+◌, ◌-◌, ◌&&◌, not, false, true, cond, max, OnOk, OnErr, None, Some};
ghost use Rattle.std.specs.HashMap.{spare as room_of};
ghost use Rattle.std.specs.Map.{lookup};
ghost use Rattle.birth_marks.specs.contracts.births.PairPartialEq.TheImpl.{eq-value as same_pair};
ghost use Rattle.order_model.specs.Calls.{same_slot};
ghost use Rattle.birth_marks.specs.Pages.{is_known, mark_of, settled};
ghost use Rattle.birth_marks.specs.Kept.{AreBehind, AreLinked, Gone, HeadsPage, Swept};
ghost use Rattle.birth_marks.specs.Births.{Changed, FixedAll, KeepsRecorded, PlacedAt, Same, SameBut, TriedAt, WrittenAt, first_of, is_after, is_tried, is_unborn_in, place_in, record_in, recorded_in, value_in};

use crate::pages::Pages;
use crate::{NoMemory, Slot};
use std::alloc::Global;
use std::collections::HashMap;
use std::marker::Model;

// A value that a slot met.
#[derive(Clone, Copy, PartialEq, Eq, Hash, Drop)]
pub struct Pair {
    pub slot: Slot,
    pub value: u32,
}

// When a slot met a value, and the pair that was noted before for the same page.
#[derive(Clone, Copy, Drop)]
pub struct Met {
    pub moment: u64,
    pub before: Option<Pair>,
}

// The last change of a slot: where it stands, the value that was left, when it was first changed since its page was settled, and when it was changed last.
#[derive(Clone, Copy, Drop)]
pub struct Record {
    pub page: u32,
    pub value: u32,
    pub first: u64,
    pub moment: u64,
}

/// The slots that were changed since their pages were last settled, with the values that a crash may bring back. A page is settled at
/// a barrier that comes after a write of it with no change on it since that write.
///
/// Contracts see it as lists that are looked up: `recorded_in`, `place_in`, `value_in`, `met_in` and `written_in` of
/// `specs/Births.antt`, with the number of spare changes.
#[derive(Drop)]
pub struct Births {
    pages: Pages,
    records: HashMap<Slot, Record>,
    moments: HashMap<Pair, Met>,
    // Goes up by one with each change.
    moment: u64,
    spare: u32,
}

impl Model for Births {
    ghost use Rattle.std.specs.HashMap.{spare as room_of};
    ghost use Rattle.birth_marks.specs.Births.{BirthsView};
    ghost use Rattle.birth_marks.specs.Kept.{AreBehind, AreLinked, HasRoom};

    ghost Value = { BirthsView };

    ghost view = { λ b. record { records = b.records.entries; moments = b.moments.entries; pages = b.pages; spare = b.spare } };

    ghost invariant = { λ b. AreBehind (record { records = b.records.entries; moments = b.moments.entries; pages = b.pages; spare = b.spare }) b.moment
        × AreLinked (record { records = b.records.entries; moments = b.moments.entries; pages = b.pages; spare = b.spare }) b.moment
        × HasRoom b.spare b.pages.spare (room_of b.records) (room_of b.moments) b.moment };
}

// When the slot was first changed since its page was settled, if that is not now.
fn first_of(was: Option<Record>, now: u64) -> u64
    ensures { result ≡ first_of was now }
{
    match was {
        Some(record) => record.first,
        None => now,
    }
}

// Notes that a value was met.
fn note(moments: &mut HashMap<Pair, Met>, pair: Pair, first_met: bool, met: Met)
    requires { 0 < room_of moments.old }
    ensures moments { (q : Pair) → lookup (same_pair.it q) moments.new.entries ≡ cond (first_met && same_pair.it pair q) (Some met) (lookup (same_pair.it q) moments.old.entries) }
    ensures room { room_of moments.old ≤ room_of moments.new + 1 }
{
    if first_met {
        let _ = moments.insert(pair, met);
    }
}

// The pair that was noted last for a page, after this one.
fn last_noted(first_met: bool, pair: Pair, before: Option<Pair>) -> Option<Pair>
    ensures { result ≡ cond first_met (Some pair) before }
{
    if first_met { Some(pair) } else { before }
}

// Puts the last change of a slot in place of the one before.
fn put(records: &mut HashMap<Slot, Record>, slot: Slot, last: Record)
    requires { 0 < room_of records.old }
    ensures records { (s : Slot) → lookup (same_slot s) records.new.entries ≡ cond (same_slot slot s) (Some last) (lookup (same_slot s) records.old.entries) }
    ensures room { room_of records.old ≤ room_of records.new + 1 }
{
    let _ = records.insert(slot, last);
}

// Takes out what is kept for a page, from the pair that was noted last for it on.
fn sweep(records: &mut HashMap<Slot, Record>, moments: &mut HashMap<Pair, Met>, last: Option<Pair>)
    ensures none { last ≡ None → (records.new.entries ≡ records.old.entries) × (moments.new.entries ≡ moments.old.entries) }
    ensures gone { (page moment : ℕ) → HeadsPage page moment last records.old.entries moments.old.entries
        → Gone page records.old.entries moments.old.entries records.new.entries moments.new.entries }
    ensures room { (room_of records.old ≤ room_of records.new) × (room_of moments.old ≤ room_of moments.new) }
{
    let mut next = last;
    while let Some(pair) = next {
        let Some(met) = moments.remove(&pair) else {
            return;
        };
        let _ = records.remove(&pair.slot);
        next = met.before;
    }
}

// Settles the pages that were written with no change since, and takes out what is kept for them.
fn settle_all(
    pages: &mut Pages,
    records: &mut HashMap<Slot, Record>,
    moments: &mut HashMap<Pair, Met>,
    moment: u64,
)
    requires behind { AreBehind (record { records = records.old.entries; moments = moments.old.entries; pages = pages.old; spare = 0 }) moment }
    requires linked { AreLinked (record { records = records.old.entries; moments = moments.old.entries; pages = pages.old; spare = 0 }) moment }
    ensures mark { (p : ℕ) → mark_of pages.new p ≡ settled moment (mark_of pages.old p) }
    ensures known { (p : ℕ) → is_known pages.new p ≡ is_known pages.old p }
    ensures spare { pages.new.spare ≡ pages.old.spare }
    ensures swept { Swept pages.new records.old.entries moments.old.entries records.new.entries moments.new.entries }
    ensures linked { AreLinked (record { records = records.new.entries; moments = moments.new.entries; pages = pages.new; spare = 0 }) moment }
    ensures room { (room_of records.old ≤ room_of records.new) × (room_of moments.old ≤ room_of moments.new) }
{
    while pages.has_listed() {
        let last = pages.settle(moment);
        sweep(records, moments, last);
    }
}

// Room for so many further changes.
fn room_for(
    pages: &mut Pages,
    records: &mut HashMap<Slot, Record>,
    moments: &mut HashMap<Pair, Met>,
    changes: usize,
) -> Result<(), NoMemory>
    ensures mark { (p : ℕ) → mark_of pages.new p ≡ mark_of pages.old p }
    ensures known { (p : ℕ) → is_known pages.new p ≡ is_known pages.old p }
    ensures records { (s : Slot) → lookup (same_slot s) records.new.entries ≡ lookup (same_slot s) records.old.entries }
    ensures moments { (q : Pair) → lookup (same_pair.it q) moments.new.entries ≡ lookup (same_pair.it q) moments.old.entries }
    ensures ok { OnOk result ((changes ≤ pages.new.spare) × (changes ≤ room_of records.new) × (changes ≤ room_of moments.new)) }
    ensures room { (pages.old.spare ≤ pages.new.spare) × (room_of records.old ≤ room_of records.new) × (room_of moments.old ≤ room_of moments.new) }
{
    match pages.reserve(changes) {
        Ok(()) => {}
        Err(_) => return Err(NoMemory),
    }
    match records.try_reserve(changes) {
        Ok(()) => {}
        Err(_) => return Err(NoMemory),
    }
    match moments.try_reserve(changes) {
        Ok(()) => Ok(()),
        Err(_) => Err(NoMemory),
    }
}

impl Births {
    /// Nothing recorded, and no room. It takes no memory, which no clause says. Constant.
    pub fn new(alloc: Global) -> Births
        ensures recorded { (s : Slot) → recorded_in result s ≡ false }
        ensures spare { result.spare ≡ 0 }
    {
        Births {
            pages: Pages::new(alloc),
            records: HashMap::new(alloc),
            moments: HashMap::new(alloc),
            moment: 0,
            spare: 0,
        }
    }

    /// Makes room for at least so many further changes: the spare number rises to this, and falls no lower. It is the only call
    /// that takes memory. Constant where there is room already; else all that is kept may move.
    ///
    /// `NoMemory` where no memory is found, or after 2^64 changes. Nothing is changed then. It does not say that there is memory.
    pub fn reserve(&mut self, changes: u32) -> Result<(), NoMemory>
        ensures same { Same self.old self.new }
        ensures ok { OnOk result (self.new.spare ≡ max self.old.spare changes) }
        ensures err { OnErr result (self.new.spare ≡ self.old.spare) }
    {
        let spare = self.spare.max(changes);
        let Some(_) = self.moment.checked_add(spare as u64) else {
            return Err(NoMemory);
        };
        match room_for(
            &mut self.pages,
            &mut self.records,
            &mut self.moments,
            spare as usize,
        ) {
            Ok(()) => {}
            Err(_) => return Err(NoMemory),
        }
        self.spare = spare;
        Ok(())
    }

    /// Whether no content that a crash may leave has this value at the slot: the slot was changed since its page was settled, and
    /// had another value then and at each try to write the page since. Constant. Of a slot that is not recorded it does not say
    /// that a crash may leave the value.
    pub fn unborn(&self, slot: Slot, value: u32) -> bool
        ensures { result ≡ is_unborn_in self.now slot value }
    {
        let Some(record) = self.live(slot) else {
            return false;
        };
        if record.value == value && record.moment <= self.pages.mark(record.page).tried_at {
            return false;
        }
        match self.moments.get(&Pair { slot, value }) {
            Some(met) => met.moment < record.first,
            None => true,
        }
    }

    /// The cached value of the slot went from `from` to `to`. `at` is the device page on which the slot stands; of a recorded slot it
    /// is that of its last change. What the values of slots are then is said where `from` is what the last change of a recorded slot
    /// left; where slots stand is said in any case. Takes one of the spare changes. Constant.
    pub fn change(&mut self, slot: Slot, at: u32, from: u32, to: u32)
        requires spare { 0 < self.old.spare }
        requires place { recorded_in self.old slot ≡ true → place_in self.old slot ≡ at }
        ensures changed { (recorded_in self.old slot ≡ true → value_in self.old slot ≡ from) → Changed self.old self.new slot at from to }
        ensures placed { PlacedAt self.old self.new slot at }
        ensures others { SameBut slot self.old self.new }
        ensures spare { self.new.spare ≡ self.old.spare - 1 }
    {
        let was = self.live(slot);
        let first = first_of(was, self.moment + 1);
        let pair = Pair { slot, value: from };
        let first_met = self.is_first_met(pair, was, first);
        let before = self.pages.mark(at).last;
        self.moment += 1;
        self.spare -= 1;
        let met = Met {
            moment: self.moment,
            before,
        };
        let record = Record {
            page: at,
            value: to,
            first,
            moment: self.moment,
        };
        note(&mut self.moments, pair, first_met, met);
        put(&mut self.records, slot, record);
        self.pages.change(at, last_noted(first_met, pair, before));
    }

    // Whether the value that was left is met, and was not before.
    fn is_first_met(&self, pair: Pair, was: Option<Record>, first: u64) -> bool
        ensures { result ≡ (is_tried self.now.pages was && not (is_after first (lookup (same_pair.it pair) self.now.moments))) }
    {
        if !self.is_tried(was) {
            return false;
        }
        match self.moments.get(&pair) {
            Some(met) => met.moment < first,
            None => true,
        }
    }

    // Whether its page was tried since the change; a value from before all changes counts as tried.
    fn is_tried(&self, was: Option<Record>) -> bool
        ensures { result ≡ is_tried self.now.pages was }
    {
        match was {
            Some(record) => record.moment <= self.pages.mark(record.page).tried_at,
            None => true,
        }
    }

    // The last change of a slot that came after its page was settled.
    fn live(&self, slot: Slot) -> Option<Record>
        ensures { result ≡ cond (recorded_in self.now slot) (record_in self.now slot) None }
    {
        match self.records.get(&slot) {
            Some(record) => {
                if record.moment <= self.pages.mark(record.page).settled_at {
                    return None;
                }
                Some(*record)
            }
            None => None,
        }
    }

    /// A write of the page is about to be made. It may be taken even where it fails, so what its slots have is met. Constant. It does
    /// not say that the write is made.
    pub fn tried(&mut self, at: u32)
        ensures tried { TriedAt self.old self.new at }
        ensures spare { self.new.spare ≡ self.old.spare }
    {
        self.pages.tried(at, self.moment);
    }

    /// The write of the page succeeded. Constant. Of a page on which no slot is recorded it does not say that the write is kept.
    pub fn written(&mut self, at: u32)
        ensures written { WrittenAt self.old self.new at }
        ensures spare { self.new.spare ≡ self.old.spare }
    {
        self.pages.written(at);
    }

    /// A barrier was made: the pages that were written with no change since are settled, and their slots are recorded no longer.
    ///
    /// It costs a step for each page that was written since the last barrier and had a recorded slot, and the slots of those that are
    /// settled, with the values that they met. Other pages cost nothing. Of what is recorded no longer nothing is kept: its room goes to
    /// later changes. Each page that ever had a recorded slot keeps its mark.
    pub fn fixed(&mut self)
        ensures fixed { FixedAll self.old self.new }
        ensures kept { KeepsRecorded self.new }
        ensures spare { self.new.spare ≡ self.old.spare }
    {
        settle_all(
            &mut self.pages,
            &mut self.records,
            &mut self.moments,
            self.moment,
        );
    }
}
