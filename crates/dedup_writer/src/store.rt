// The store over a device.
ghost use Rattle.std.specs.Prelude.{◌≡◌, ℕ, ◌+◌, ◌-◌, ◌<◌, ◌≤◌, true, false, length, replicate, IsOk, IsErr, IfOk, IfErr, OnOk, IfSome, IfNone, Some};
ghost use Rattle.page_device.specs.Block.{zero_block};
ghost use Rattle.page_device.specs.Disk.{at_rest};
ghost use Rattle.page_device.specs.Meaning.{Meaning, HasCause, IsCounted};
ghost use Rattle.page_layout.specs.Numbers.{entry_of};
ghost use Rattle.page_layout.specs.Shape.{IsValid, total, map_pages, count_pages, map_place, count_place, data_page};
ghost use Rattle.page_layout.specs.Tables.{IsMapPage, shape_of, page_of};
ghost use Rattle.dedup_writer.specs.Core.{count_index, name_in};
ghost use Rattle.dedup_writer.specs.Put.{PutsCounted};
ghost use Rattle.array_model.specs.Counting.{mapped_of};
ghost use Rattle.array_model.specs.Images.{Mode, IsGood};
ghost use Rattle.array_model.specs.Array.{BlockArray, array_start, last, maps, writes_nothing, writes_one};

use crate::put::put;
use crate::totals::{Totals, opened};
use page_device::{Damage, Device, Failed, NoMemory, Page};
use page_layout::{Shape, count_entry, map_entry, set_count_entry, set_map_entry};
use sparse_pages::SparsePages;
use std::alloc::Global;
use std::marker::Model;
use trace_text::Stat;

/// Why a store refuses a call.
#[derive(Clone, Copy, Debug, PartialEq, Eq, Drop)]
pub enum Refusal {
    /// The block is not below the number of blocks.
    Range,
    /// The device counted a fault in this call.
    Device,
    /// A table page that was read in this call holds this malformed entry.
    Damaged(Damage),
    /// No data page is free: `live` of them are counted, `waste` times more than they are named.
    Full { live: u32, waste: u64 },
    NoMemory,
}

/// Blocks over a device.
///
/// A store keeps no device: each call is lent the one over which it was opened, and what is promised of
/// contents is promised over that one. It keeps the map and count pages in memory: 4 bytes a logical block and
/// 4 bytes a data page, but a few bytes for a page of zeros.
#[derive(Drop)]
pub struct Store {
    shape: Shape,
    // The map pages and the count pages, in order.
    maps: SparsePages,
    counts: SparsePages,
    // Which map pages have yet to be written.
    pending: Vec<bool>,
    // Each data page below it is counted.
    next: u32,
    totals: Totals,
    // Device writes and barriers so far.
    calls: u64,
}

impl Model for Store {
    ghost use Rattle.dedup_writer.specs.Core.{CoreView};
    ghost use Rattle.dedup_writer.specs.Whole.{IsWhole};

    ghost Value = { CoreView };

    ghost view = { λ s. record {
      tables = record { shape = s.shape; maps = s.maps.items; counts = s.counts.items; pending = s.pending.items };
      calls = s.calls;
    } };

    ghost invariant = { λ s. IsWhole (record { shape = s.shape; maps = s.maps.items; counts = s.counts.items; pending = s.pending.items }) s.next s.totals };
}

// So many flags that are not set.
fn no_flags(alloc: Global, n: u32) -> Result<Vec<bool>, NoMemory>
    ensures flags { IfOk result (λ flags. flags.items ≡ replicate n false) }
{
    let Ok(mut flags) = Vec::with_capacity(alloc, n as usize) else {
        return Err(NoMemory);
    };
    for _ in 0..n {
        flags.push_reserved(false);
    }
    Ok(flags)
}

// The map entry of a block in these map pages, which are all of them, in order: the data page that it
// names, or 0.
fn name_at(shape: &Shape, maps: &SparsePages, block: u32) -> u32
    requires block { block < shape.now.blocks }
    requires pages { length maps.now.items ≡ map_pages shape.now }
    ensures { result ≡ name_in maps.now.items block }
{
    let (page, entry) = shape.map_place(block);
    map_entry(maps.page(page - 1), entry)
}

/// The count of a data page in these count pages, which are all of them, in order. Constant.
pub fn count_at(shape: &Shape, counts: &SparsePages, p: u32) -> u32
    requires first { 1 ≤ p }
    requires last { p ≤ shape.now.pages }
    requires pages { length counts.now.items ≡ count_pages shape.now }
    ensures { result ≡ entry_of (page_of counts.now.items (count_index p)) (count_place p) }
{
    let (page, entry) = shape.count_place(p);
    count_entry(counts.page(page - shape.first_count_page()), entry)
}

// Whether a write of this content maps its block: in version 2 a write of zeros does not.
fn maps_block(shape: &Shape, from: &Page) -> bool
    ensures maps { result ≡ maps shape.now.version from.now }
    ensures zeros { result ≡ false → from.now ≡ zero_block }
{
    shape.version != 2 || !from.is_zero()
}

// The number of map pages.
fn number_of_map_pages(shape: &Shape) -> u32
    ensures pages { result ≡ map_pages shape.now }
    ensures valid { IsValid shape.now }
{
    let _ = &shape.blocks;
    shape.first_count_page() - 1
}

// The first data page from `next` on that nothing counts, or the number behind the last one.
fn first_free(shape: &Shape, counts: &SparsePages, next: u32) -> u32
    requires first { 1 ≤ next }
    requires last { next ≤ shape.now.pages + 1 }
    requires pages { length counts.now.items ≡ count_pages shape.now }
    ensures from { next ≤ result }
    ensures to { result ≤ shape.now.pages + 1 }
    ensures free { result ≤ shape.now.pages → entry_of (page_of counts.now.items (count_index result)) (count_place result) ≡ 0 }
    ensures passed { (p : ℕ) → next ≤ p → p < result → 1 ≤ entry_of (page_of counts.now.items (count_index p)) (count_place p) }
{
    let end = shape.pages + 1;
    for p in next..end {
        if count_at(shape, counts, p) == 0 {
            return p;
        }
    }
    end
}

impl Store {
    ghost use Rattle.dedup_writer.specs.Core.{CoreView, cached_map, cached_count, count_index, name_in, stat_in, shape_in, calls_in, waste};
    ghost use Rattle.dedup_writer.specs.Stands.{StandsFor, AreCached, IsInStep};
    ghost use Rattle.dedup_writer.specs.Calls.{Called, FlushCalled, after_write, after_discard, WriteCause, TableCause, IsFull, IsQuietIf, CountsOne, NamesOne, Settles, AllCounted};

    /// The store over an image of this shape, whose map pages and count pages these are, each in order, and of
    /// whose blocks so many are mapped. Makes no device call. Linear in the data pages, of which those in
    /// pages of zeros cost little.
    pub fn over(
        alloc: Global,
        shape: Shape,
        maps: SparsePages,
        counts: SparsePages,
        mapped: u32,
    ) -> Result<Store, NoMemory>
        requires maps { length maps.items ≡ map_pages shape }
        requires counts { length counts.items ≡ count_pages shape }
        requires entries { (j : ℕ) → j < map_pages shape → IsMapPage shape j (page_of maps.items j) }
        requires mapped { mapped ≡ mapped_of (name_in maps.items) shape.blocks }
        ensures shape { IfOk result (λ store. shape_in store ≡ shape) }
        ensures calls { IfOk result (λ store. calls_in store ≡ 0) }
        ensures stands { IfOk result (λ store. (mode : Mode) (d : Meaning) → d.honest ≡ true → d.tells_pages ≡ true → length d.state.fixed ≡ d.pages
            → d.state ≡ at_rest d.state.fixed → shape_of d.state.fixed ≡ shape → IsGood mode d.state.fixed → AreCached d.state.fixed shape maps.items counts.items
            → StandsFor mode store d (array_start d.state.fixed)) }
        ensures in_step { IfOk result (λ store. (d : Meaning) → d.state ≡ at_rest d.state.fixed → AreCached d.state.fixed shape maps.items counts.items → IsInStep store d) }
    {
        let totals = opened(&shape, &counts, mapped);
        let pending = no_flags(alloc, number_of_map_pages(&shape))?;
        Ok(Store {
            shape,
            maps,
            counts,
            pending,
            next: 1,
            totals,
            calls: 0,
        })
    }

    /// The shape of its image.
    pub fn shape(&self) -> Shape
        ensures { result ≡ shape_in self.now }
    {
        self.shape
    }

    /// Device writes and barriers since it was opened, failed ones too. Stands still at its end.
    pub fn calls(&self) -> u64
        ensures { result ≡ calls_in self.now }
    {
        self.calls
    }

    /// What it holds: the data pages that are counted, how much more often they are counted than blocks name
    /// them, no postponed release, since nothing is released, and the map pages that have yet to be written.
    /// Constant.
    pub fn stat(&self) -> Stat
        ensures { result ≡ stat_in self.now }
    {
        Stat {
            live: self.totals.live,
            waste: self.totals.waste(),
            postponed: 0,
            dirty: self.totals.pending,
        }
    }

    /// Writes a block. A block that was written reads as its new content from then on; after a crash it
    /// reads that, or what it may have read before, until a flush. After an error it reads as before. In an
    /// image of version 2 a write of zeros unmaps the block.
    ///
    /// Costs up to six device calls, beside passing data pages that are counted, each once.
    pub fn write<D: Device>(
        &mut self,
        device: &mut D,
        block: u32,
        from: &Page,
    ) -> Result<(), Refusal>
        requires { total (shape_in self.old) ≤ (D.seen device.old).pages }
        ensures pages { (D.seen device.new).pages ≡ (D.seen device.old).pages }
        ensures never_falls { (D.seen device.old).faults ≤ (D.seen device.new).faults }
        ensures range { (shape_in self.old).blocks ≤ block → result ≡ Err Refusal.Range }
        ensures cause { IfErr result (λ why. WriteCause why block self.old (D.seen device.old) (D.seen device.new)) }
        ensures full { block < (shape_in self.old).blocks → maps (shape_in self.old).version from.now ≡ true → AllCounted self.old → IfErr result IsFull × IsErr result }
        ensures shape { shape_in self.new ≡ shape_in self.old }
        ensures quiet { IsQuietIf result self.old self.new (D.seen device.old) (D.seen device.new) }
        ensures call { Called self.old self.new (D.seen device.old) (D.seen device.new) (λ a. after_write result (shape_in self.old).version a block from.now) (λ _. writes_one block from.now) }
    {
        let shape = self.shape();
        if block >= shape.blocks {
            return Err(Refusal::Range);
        }
        if !maps_block(&shape, from) {
            return self.discard(device, block);
        }
        let Some(p) = self.lowest_free() else {
            return Err(self.full());
        };
        if self.put_data(device, p, from).is_err() {
            return Err(Refusal::Device);
        }
        if self.count_one(device, p).is_err() {
            return Err(Refusal::Device);
        }
        self.name_one(device, block, p);
        Ok(())
    }

    /// Unmaps a block: it reads zeros from then on; after a crash it reads zeros, or what it may have read
    /// before, until a flush. The data page that it named stays counted. A map page that can't be written
    /// is pending until a flush.
    ///
    /// Costs up to two device calls, and none where the block is not mapped.
    pub fn discard<D: Device>(&mut self, device: &mut D, block: u32) -> Result<(), Refusal>
        requires { total (shape_in self.old) ≤ (D.seen device.old).pages }
        ensures pages { (D.seen device.new).pages ≡ (D.seen device.old).pages }
        ensures never_falls { (D.seen device.old).faults ≤ (D.seen device.new).faults }
        ensures range { (shape_in self.old).blocks ≤ block → result ≡ Err Refusal.Range }
        ensures cause { IfErr result (λ why. TableCause why block self.old (D.seen device.old) (D.seen device.new)) }
        ensures quiet { IsQuietIf result self.old self.new (D.seen device.old) (D.seen device.new) }
        ensures done { block < (shape_in self.old).blocks → IsOk result }
        ensures shape { shape_in self.new ≡ shape_in self.old }
        ensures call { Called self.old self.new (D.seen device.old) (D.seen device.new) (λ a. after_discard result a block) (λ _. writes_one block zero_block) }
    {
        if block >= self.shape().blocks {
            return Err(Refusal::Range);
        }
        if self.name_of(block) == 0 {
            return Ok(());
        }
        self.name_one(device, block, 0);
        Ok(())
    }

    /// Reads a block: zeros where it is not mapped, without a device call. After an error nothing is known
    /// of `into`. At most one device read.
    pub fn read<D: Device>(
        &mut self,
        device: &mut D,
        block: u32,
        into: &mut Page,
    ) -> Result<(), Refusal>
        requires { total (shape_in self.old) ≤ (D.seen device.old).pages }
        ensures pages { (D.seen device.new).pages ≡ (D.seen device.old).pages }
        ensures never_falls { (D.seen device.old).faults ≤ (D.seen device.new).faults }
        ensures range { (shape_in self.old).blocks ≤ block → result ≡ Err Refusal.Range }
        ensures cause { IfErr result (λ why. TableCause why block self.old (D.seen device.old) (D.seen device.new)) }
        ensures quiet { IsQuietIf result self.old self.new (D.seen device.old) (D.seen device.new) }
        ensures same { self.new ≡ self.old }
        ensures call { Called self.old self.new (D.seen device.old) (D.seen device.new) (λ a. a) (λ _. writes_nothing) }
        ensures bytes { (mode : Mode) (a : BlockArray) → StandsFor mode self.old (D.seen device.old) a → OnOk result (into.new ≡ last a block) }
    {
        if block >= self.shape().blocks {
            return Err(Refusal::Range);
        }
        let p = self.name_of(block);
        if p == 0 {
            *into = Page::zero();
            return Ok(());
        }
        let place = self.shape.data_place(p);
        let Ok(()) = device.read(place, into) else {
            return Err(Refusal::Device);
        };
        Ok(())
    }

    /// Puts on the device what is pending: after it, each block reads its present content after any crash,
    /// or one that is written later. Makes no call where nothing is pending, and stops at the first call
    /// that fails; what is pending then stays so.
    ///
    /// Looks at one flag a map page, and writes those that are pending.
    pub fn flush<D: Device>(&mut self, device: &mut D) -> Result<(), Failed>
        requires { total (shape_in self.old) ≤ (D.seen device.old).pages }
        ensures pages { (D.seen device.new).pages ≡ (D.seen device.old).pages }
        ensures cause { HasCause result (D.seen device.old) (D.seen device.new) }
        ensures shape { shape_in self.new ≡ shape_in self.old }
        ensures call { FlushCalled result self.old self.new (D.seen device.old) (D.seen device.new) }
    {
        let map_pages = self.map_pages();
        for index in 0..map_pages {
            match self.settle(device, index) {
                Ok(()) => {}
                Err(failed) => return Err(failed),
            }
        }
        Ok(())
    }

    // The number of map pages.
    fn map_pages(&self) -> u32
        ensures { result ≡ map_pages self.now.tables.shape }
    {
        number_of_map_pages(&self.shape)
    }

    // Writes a map page and fixes it, where it is pending.
    fn settle<D: Device>(&mut self, device: &mut D, index: u32) -> Result<(), Failed>
        requires index { index < map_pages self.old.tables.shape }
        requires room { total self.old.tables.shape ≤ (D.seen device.old).pages }
        ensures pages { (D.seen device.new).pages ≡ (D.seen device.old).pages }
        ensures cause { HasCause result (D.seen device.old) (D.seen device.new) }
        ensures settles { Settles index result self.old self.new (D.seen device.old) (D.seen device.new) }
    {
        let at = index as usize;
        if !self.pending[at] {
            return Ok(());
        }
        match put(device, &mut self.calls, index + 1, self.maps.page(index)) {
            Ok(()) => {
                self.pending[at] = false;
                self.totals.marked(true, false);
                Ok(())
            }
            Err(failed) => Err(failed),
        }
    }

    // Writes the content of a data page and fixes it.
    fn put_data<D: Device>(&mut self, device: &mut D, p: u32, from: &Page) -> Result<(), Failed>
        requires first { 1 ≤ p }
        requires last { p ≤ self.old.tables.shape.pages }
        requires room { total self.old.tables.shape ≤ (D.seen device.old).pages }
        ensures pages { (D.seen device.new).pages ≡ (D.seen device.old).pages }
        ensures cause { HasCause result (D.seen device.old) (D.seen device.new) }
        ensures tables { self.new.tables ≡ self.old.tables }
        ensures puts { PutsCounted (data_page self.old.tables.shape p) from.now result (D.seen device.old) (D.seen device.new) self.old.calls self.new.calls }
    {
        let place = self.shape.data_place(p);
        put(device, &mut self.calls, place, from)
    }

    // The cached map entry of a block.
    fn name_of(&self, block: u32) -> u32
        requires { block < self.now.tables.shape.blocks }
        ensures name { result ≡ cached_map self.now.tables block }
        ensures within { result ≤ self.now.tables.shape.pages }
    {
        name_at(&self.shape, &self.maps, block)
    }

    // The lowest data page that nothing counts. Each is passed once: a page that is counted stays so.
    fn lowest_free(&mut self) -> Option<u32>
        ensures same { self.new ≡ self.old }
        ensures first { IfSome result (λ p. 1 ≤ p) }
        ensures last { IfSome result (λ p. p ≤ self.old.tables.shape.pages) }
        ensures free { IfSome result (λ p. cached_count self.old.tables p ≡ 0) }
        ensures none { IfNone result (AllCounted self.old) }
    {
        let shape = self.shape;
        let next = first_free(&shape, &self.counts, self.next);
        self.next = next;
        if next > shape.pages {
            return None;
        }
        Some(next)
    }

    // Why a write finds no data page: each of them is counted, some more often than they are named.
    fn full(&self) -> Refusal
        ensures { result ≡ Refusal.Full self.now.tables.shape.pages (waste self.now.tables) }
    {
        Refusal::Full {
            live: self.shape.pages,
            waste: self.totals.waste(),
        }
    }

    // Counts a data page that nothing counts, in the cache and then on the device. After a fault it stays
    // counted in the cache.
    fn count_one<D: Device>(&mut self, device: &mut D, p: u32) -> Result<(), Failed>
        requires first { 1 ≤ p }
        requires last { p ≤ self.old.tables.shape.pages }
        requires free { cached_count self.old.tables p ≡ 0 }
        requires room { total self.old.tables.shape ≤ (D.seen device.old).pages }
        ensures pages { (D.seen device.new).pages ≡ (D.seen device.old).pages }
        ensures cause { HasCause result (D.seen device.old) (D.seen device.new) }
        ensures counts { CountsOne p result self.old self.new (D.seen device.old) (D.seen device.new) }
    {
        let (page, entry) = self.shape.count_place(p);
        let index = page - self.shape.first_count_page();
        set_count_entry(self.counts.edit(index), entry, 1);
        self.totals.counted_first();
        put(device, &mut self.calls, page, self.counts.page(index))
    }

    // Gives a block the name of a data page, in the cache and then on the device. A map page that could
    // not be written stays pending.
    fn name_one<D: Device>(&mut self, device: &mut D, block: u32, p: u32)
        requires block { block < self.old.tables.shape.blocks }
        requires last { p ≤ self.old.tables.shape.pages }
        requires room { total self.old.tables.shape ≤ (D.seen device.old).pages }
        ensures pages { (D.seen device.new).pages ≡ (D.seen device.old).pages }
        ensures never_falls { (D.seen device.old).faults ≤ (D.seen device.new).faults }
        ensures names { NamesOne block p self.old self.new (D.seen device.old) (D.seen device.new) }
    {
        let was = self.name_of(block);
        self.totals.renamed(was, p);
        let (page, entry) = self.shape.map_place(block);
        let index = page - 1;
        set_map_entry(self.maps.edit(index), entry, p);
        let at = index as usize;
        let was_pending = self.pending[at];
        self.pending[at] = true;
        let refused = put(device, &mut self.calls, page, self.maps.page(index)).is_err();
        self.pending[at] = refused;
        self.totals.marked(was_pending, refused);
    }
}
