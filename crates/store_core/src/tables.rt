// Table pages that are brought in: what is read is looked over, and a page with a malformed entry is not kept.
ghost use Rattle.std.specs.Prelude.{◌≡◌, ℕ, List, Bool, false, true, IsSome};
ghost use Rattle.page_device.specs.Block.{Block};
ghost use Rattle.page_device.specs.Meaning.{Meaning};
ghost use Rattle.page_device.specs.declared.error.Damage.{Damage};
ghost use Rattle.page_layout.specs.Entries.{table_at};
ghost use Rattle.page_cache.specs.Calls.{TakenOut};
ghost use Rattle.page_cache.specs.View.{holds_in, is_there};
ghost use Rattle.page_cache.specs.View.{dirty_in as cached_dirty};
ghost use Rattle.store_core.specs.declared.Core.{Core};
ghost use Rattle.store_core.specs.Damaged.{IsDamage};
ghost use Rattle.store_core.specs.Stands.{StandsFor};

use crate::Core;
use flush_engine::Engine;
use page_cache::FetchError;
use page_device::{Damage, Device, NoMemory};
use page_layout::{pages_are_tested, table_fault};

/// Why a table page could not be brought in.
#[derive(Clone, Copy, Debug, PartialEq, Eq, Drop)]
pub enum TableError {
    /// The device failed, and counted it.
    Device,
    NoMemory,
    /// The page was read, and this is its first malformed entry.
    Damaged(Damage),
}

/// Over an honest device with an image that is fit no table page has a malformed entry.
pub fn tables_are_whole()
    ensures { (sound : Bool) (d : Meaning) (core : Core) (array : ℕ → List Block) (page : ℕ) (damage : Damage) → StandsFor sound d core array
        → IsSome (table_at core.shape page) → IsDamage core.shape page d damage → ⊥ }
{}

// A clean page that nobody holds is let go.
fn forget_page(engine: &mut Engine, page: u32)
    requires there { is_there engine.old.cache page ≡ true }
    requires clean { cached_dirty engine.old.cache page ≡ false }
    requires free { holds_in engine.old.cache page ≡ 0 }
    ensures out { TakenOut engine.old.cache engine.new.cache page }
    ensures rest { engine.new ≡ record engine.old { cache = engine.new.cache } }
{
    engine.cache().forget(page);
}

impl Core {
    ghost use Rattle.std.specs.Prelude.{◌≡◌, ◌≤◌, ℕ, true, false, IfNone, IfSome, IsSome, IfErr, OnOk, OnErr};
    ghost use Rattle.page_layout.specs.Entries.{table_at};
    ghost use Rattle.page_layout.specs.Formed.{is_formed};
    ghost use Rattle.page_layout.specs.Shape.{total};
    ghost use Rattle.page_cache.specs.View.{content_in, holds_in, is_there};
    ghost use Rattle.dep_graph.specs.Lists.{dirty_in};
    ghost use Rattle.store_core.specs.Damaged.{HasTableCause, IsFirstMalformed, LooksOver, TableCall};
    ghost use Rattle.store_core.specs.Fetching.{OnlyBrings};
    ghost use Rattle.store_core.specs.Orderly.{KeepsFormed};
    ghost use Rattle.store_core.specs.Quiet.{GivesBack, Quiet, none, once};
    ghost use Rattle.store_core.specs.Views.{page_in};

    /// Brings in a table page, so that it is there after `Ok`: `true` where it was read, `false` where it was there. A page that was
    /// read is looked over, so each entry of it is well formed then. What the core stands for stays, and so does each page that is
    /// held. A page that nobody holds may go for it.
    ///
    /// `Device` is a counted fault of the device. `NoMemory` where no memory is found. `Damaged` where the page that was read has a
    /// malformed entry, always, and it tells the first one; the page is not kept. Over an honest device with an image that is fit
    /// that never comes ([`tables_are_whole`](crate::tables_are_whole)). It costs a read at most and a look at its entries, beside a
    /// constant.
    pub fn fetch_table<D: Device>(&mut self, device: &mut D, page: u32) -> Result<bool, TableError>
        requires room { total self.old.shape ≤ (D.seen device.old).pages }
        requires table { IsSome (table_at self.old.shape page) }
        ensures cause { HasTableCause result (D.seen device.old) (D.seen device.new) }
        ensures call { TableCall result (D.seen device.old) (D.seen device.new) }
        ensures looked { LooksOver page result (D.seen device.old) self.old self.new }
        ensures there { OnOk result (is_there self.new.engine.cache page ≡ true) }
        ensures brings { OnlyBrings page self.old self.new }
        ensures formed { KeepsFormed self.old self.new }
        ensures quiet { Quiet none (D.seen device.old) (D.seen device.new) self.old self.new }
    {
        let read = match self.fetch(device, page) {
            Ok(read) => read,
            Err(FetchError::Device) => return Err(TableError::Device),
            Err(FetchError::NoMemory) => return Err(TableError::NoMemory),
        };
        if !read {
            return Ok(false);
        }
        match self.look_over(page) {
            Ok(()) => Ok(true),
            Err(damage) => Err(TableError::Damaged(damage)),
        }
    }

    /// Brings in a table page as [`fetch_table`](Core::fetch_table), and holds it once more. After an error nothing is held that was
    /// not held before.
    ///
    /// `NoMemory` also where the page is held 2^32 - 1 times.
    pub fn bring_table<D: Device>(&mut self, device: &mut D, page: u32) -> Result<bool, TableError>
        requires room { total self.old.shape ≤ (D.seen device.old).pages }
        requires table { IsSome (table_at self.old.shape page) }
        ensures cause { HasTableCause result (D.seen device.old) (D.seen device.new) }
        ensures call { TableCall result (D.seen device.old) (D.seen device.new) }
        ensures looked { LooksOver page result (D.seen device.old) self.old self.new }
        ensures there { OnOk result (is_there self.new.engine.cache page ≡ true) }
        ensures brings { OnlyBrings page self.old self.new }
        ensures formed { KeepsFormed self.old self.new }
        ensures ok { OnOk result (Quiet (once page) (D.seen device.old) (D.seen device.new) self.old self.new) }
        ensures err { OnErr result (Quiet none (D.seen device.old) (D.seen device.new) self.old self.new) }
    {
        let read = match self.fetch_table(device, page) {
            Ok(read) => read,
            Err(error) => return Err(error),
        };
        match self.hold(page) {
            Ok(()) => Ok(read),
            Err(NoMemory) => Err(TableError::NoMemory),
        }
    }

    // Looks over a table page that was just read, and lets it go where an entry of it is malformed.
    fn look_over(&mut self, page: u32) -> Result<(), Damage>
        requires table { IsSome (table_at self.old.shape page) }
        requires there { is_there self.old.engine.cache page ≡ true }
        requires clean { dirty_in self.old.engine.graph page ≡ false }
        requires free { holds_in self.old.engine.cache page ≡ 0 }
        ensures ok { OnOk result (is_formed self.old.shape page (page_in self.old page) ≡ true) }
        ensures same { OnOk result (self.new ≡ self.old) }
        ensures err { IfErr result (λ damage. (damage.page ≡ page) × IsFirstMalformed self.old.shape page (page_in self.old page) damage.entry) }
        ensures gone { OnErr result (is_there self.new.engine.cache page ≡ false) }
        ensures back { OnErr result (GivesBack none self.old self.new) }
    {
        match self.fault_of(page) {
            Some(damage) => {
                self.forget(page);
                Err(damage)
            }
            None => Ok(()),
        }
    }

    // The first malformed entry of a table page that is there.
    fn fault_of(&self, page: u32) -> Option<Damage>
        requires table { IsSome (table_at self.now.shape page) }
        requires there { is_there self.now.engine.cache page ≡ true }
        ensures fault { IfSome result (λ damage. (damage.page ≡ page) × IsFirstMalformed self.now.shape page (page_in self.now page) damage.entry) }
        ensures none { IfNone result (is_formed self.now.shape page (page_in self.now page) ≡ true) }
    {
        pages_are_tested();
        match self.engine.cache_seen().look(page) {
            Some(content) => table_fault(page, content, &self.shape),
            None => None,
        }
    }

    // A clean page that nobody holds is let go.
    fn forget(&mut self, page: u32)
        requires there { is_there self.old.engine.cache page ≡ true }
        requires clean { dirty_in self.old.engine.graph page ≡ false }
        requires free { holds_in self.old.engine.cache page ≡ 0 }
        ensures gone { is_there self.new.engine.cache page ≡ false }
        ensures back { GivesBack none self.old self.new }
    {
        forget_page(&mut self.engine, page);
    }
}
