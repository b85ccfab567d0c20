// Pages that are brought in, and held.
ghost use Rattle.std.specs.Prelude.{◌≡◌, ◌<◌, true, OnOk, OnErr};
ghost use Rattle.page_cache.specs.View.{holds_in, is_there};
ghost use Rattle.page_cache.specs.Calls.{HasFetchCause, Held, Same, Unheld};
ghost use Rattle.page_device.specs.Meaning.{HasCause};
ghost use Rattle.engine_model.specs.Disk.{newest_on};
ghost use Rattle.page_cache.specs.View.{content_in};
ghost use Rattle.store_core.specs.Fetching.{Copies, Fetches};
ghost use Rattle.store_core.specs.Views.{IsKnown, held_or};

use crate::Core;
use flush_engine::Engine;
use page_cache::FetchError;
use page_device::{Device, Failed, NoMemory, Page};

// Brings in a page of the device.
fn fetch_page<D: Device>(engine: &mut Engine, device: &mut D, page: u32) -> Result<bool, FetchError>
    requires within { page < (D.seen device.old).pages }
    ensures cause { HasFetchCause result (D.seen device.old) (D.seen device.new) }
    ensures fetches { Fetches page result (D.seen device.old) (D.seen device.new) engine.old.cache engine.new.cache }
    ensures rest { engine.new ≡ record engine.old { cache = engine.new.cache } }
{
    engine.cache().fetch(device, page)
}

// Copies a page that is there, or reads it.
fn read_page<D: Device>(
    engine: &mut Engine,
    device: &mut D,
    page: u32,
    into: &mut Page,
) -> Result<(), Failed>
    requires within { page < (D.seen device.old).pages }
    ensures cause { HasCause result (D.seen device.old) (D.seen device.new) }
    ensures copies { Copies page (D.seen device.old) (D.seen device.new) engine.old.cache engine.new.cache }
    ensures content { OnOk result (IsKnown (D.seen device.old) → held_or (content_in engine.old.cache page) (newest_on (D.seen device.old).state page) ≡ into.new) }
    ensures rest { engine.new ≡ record engine.old { cache = engine.new.cache } }
{
    engine.cache().read_into(device, page, into)
}

// A page that is there is held once more.
fn hold_page(engine: &mut Engine, page: u32) -> Result<(), NoMemory>
    requires { is_there engine.old.cache page ≡ true }
    ensures ok { OnOk result (Held engine.old.cache engine.new.cache page) }
    ensures err { OnErr result (Same engine.old.cache engine.new.cache) }
    ensures rest { engine.new ≡ record engine.old { cache = engine.new.cache } }
{
    engine.cache().hold(page)
}

// A held page is held once less.
fn unhold_page(engine: &mut Engine, page: u32)
    requires { 0 < holds_in engine.old.cache page }
    ensures unheld { Unheld engine.old.cache engine.new.cache page }
    ensures rest { engine.new ≡ record engine.old { cache = engine.new.cache } }
{
    engine.cache().unhold(page);
}

impl Core {
    ghost use Rattle.std.specs.Prelude.{◌≡◌, ◌<◌, ◌≤◌, ℕ, List, Bool, Ok, None, true, not, slice_get, IfOk, OnOk, OnErr};
    ghost use Rattle.page_device.specs.Block.{Block};
    ghost use Rattle.page_device.specs.Disk.{newest};
    ghost use Rattle.page_device.specs.Meaning.{HasCause, Meaning};
    ghost use Rattle.page_layout.specs.Entries.{table_at};
    ghost use Rattle.page_layout.specs.Shape.{data_page, total};
    ghost use Rattle.page_cache.specs.View.{content_in, holds_in, is_there};
    ghost use Rattle.page_cache.specs.Calls.{FetchCall, HasFetchCause};
    ghost use Rattle.store_core.specs.Fetching.{Fetches, OnlyBrings};
    ghost use Rattle.store_core.specs.Orderly.{KeepsFormed};
    ghost use Rattle.store_core.specs.Quiet.{GivesBack, Quiet, none, once};
    ghost use Rattle.store_core.specs.Stands.{StandsFor};
    ghost use Rattle.store_core.specs.Views.{world_of};

    /// Brings in a page, so that it is there after `Ok`: `true` where it was read, `false` where it was there. What the core stands
    /// for stays, and so does each page that is held. A page that nobody holds may go for it.
    ///
    /// `Device` is a counted fault of the device. `NoMemory` where no memory is found. It costs a read at most, beside a constant.
    pub fn fetch<D: Device>(&mut self, device: &mut D, page: u32) -> Result<bool, FetchError>
        requires room { total self.old.shape ≤ (D.seen device.old).pages }
        requires within { page < total self.old.shape }
        ensures cause { HasFetchCause result (D.seen device.old) (D.seen device.new) }
        ensures call { FetchCall result (D.seen device.old) (D.seen device.new) }
        ensures fetches { Fetches page result (D.seen device.old) (D.seen device.new) self.old.engine.cache self.new.engine.cache }
        ensures answer { IfOk result (λ read. read ≡ not (is_there self.old.engine.cache page)) }
        ensures there { OnOk result (is_there self.new.engine.cache page ≡ true) }
        ensures newest { result ≡ Ok true → (D.seen device.old).honest ≡ true → (D.seen device.old).tells_pages ≡ true → content_in self.new.engine.cache page ≡ slice_get (newest (D.seen device.old).state) page }
        ensures brings { OnlyBrings page self.old self.new }
        ensures kept { OnErr result ((q : ℕ) → content_in self.new.engine.cache q ≡ content_in self.old.engine.cache q) }
        ensures formed { table_at self.old.shape page ≡ None → KeepsFormed self.old self.new }
        ensures quiet { Quiet none (D.seen device.old) (D.seen device.new) self.old self.new }
    {
        fetch_page(&mut self.engine, device, page)
    }

    /// Brings in a page and holds it once more: `true` where it was read. What the core stands for stays. After an error nothing
    /// is held that was not held before.
    ///
    /// `Device` is a counted fault of the device. `NoMemory` where no memory is found, or the page is held 2^32 - 1 times. It costs
    /// a read at most, beside a constant.
    pub fn bring<D: Device>(&mut self, device: &mut D, page: u32) -> Result<bool, FetchError>
        requires room { total self.old.shape ≤ (D.seen device.old).pages }
        requires within { page < total self.old.shape }
        ensures cause { HasFetchCause result (D.seen device.old) (D.seen device.new) }
        ensures call { FetchCall result (D.seen device.old) (D.seen device.new) }
        ensures ok { OnOk result (Quiet (once page) (D.seen device.old) (D.seen device.new) self.old self.new) }
        ensures there { OnOk result (is_there self.new.engine.cache page ≡ true) }
        ensures brings { OnlyBrings page self.old self.new }
        ensures formed { table_at self.old.shape page ≡ None → KeepsFormed self.old self.new }
        ensures err { OnErr result (Quiet none (D.seen device.old) (D.seen device.new) self.old self.new) }
    {
        let read = match self.fetch(device, page) {
            Ok(read) => read,
            Err(error) => return Err(error),
        };
        match self.hold(page) {
            Ok(()) => Ok(read),
            Err(NoMemory) => Err(FetchError::NoMemory),
        }
    }

    // A page that is there is held once more. The only error is that it is held 2^32 - 1 times.
    pub(crate) fn hold(&mut self, page: u32) -> Result<(), NoMemory>
        requires { is_there self.old.engine.cache page ≡ true }
        ensures ok { OnOk result ((d : Meaning) → Quiet (once page) d d self.old self.new) }
        ensures there { OnOk result (is_there self.new.engine.cache page ≡ true) }
        ensures same { (q : ℕ) → content_in self.new.engine.cache q ≡ content_in self.old.engine.cache q }
        ensures err { OnErr result ((d : Meaning) → Quiet none d d self.old self.new) }
    {
        hold_page(&mut self.engine, page)
    }

    /// A held page is held once less. A page that is neither held nor dirty nor hung may go. Constant, beside memory for the list of
    /// such pages.
    pub fn unhold(&mut self, page: u32)
        requires { 0 < holds_in self.old.engine.cache page }
        ensures { GivesBack (once page) self.old self.new }
    {
        unhold_page(&mut self.engine, page);
    }

    /// Copies a data page: from memory where it is there, else straight from the device, and the core keeps nothing of it. What the
    /// core stands for stays, and so does each page that is held. It is the content that the core has of the page.
    ///
    /// `Failed` is a counted fault of the device, and nothing is known of `into` then. It costs a read at most, beside copying one page.
    pub fn read_data<D: Device>(
        &mut self,
        device: &mut D,
        p: u32,
        into: &mut Page,
    ) -> Result<(), Failed>
        requires first { 1 ≤ p }
        requires last { p ≤ self.old.shape.pages }
        requires room { total self.old.shape ≤ (D.seen device.old).pages }
        ensures cause { HasCause result (D.seen device.old) (D.seen device.new) }
        ensures bytes { OnOk result ((sound : Bool) (array : ℕ → List Block) → StandsFor sound (D.seen device.old) self.old array → into.new ≡ (world_of (D.seen device.old) self.old).cached (data_page self.old.shape p)) }
        ensures formed { KeepsFormed self.old self.new }
        ensures quiet { Quiet none (D.seen device.old) (D.seen device.new) self.old self.new }
    {
        let at = self.shape.data_place(p);
        read_page(&mut self.engine, device, at, into)
    }
}
