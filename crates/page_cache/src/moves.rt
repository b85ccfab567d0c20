// Moves between the table and the list. Only page numbers move.
ghost use Rattle.std.specs.Prelude.{◌≡◌, ℕ, ◌≤◌, ◌<◌, ◌∷◌, ◌||◌, ◌+◌, [], true, false, take, length, eqb, is_some, IsSome, OnOk, OnErr};
ghost use Rattle.std.specs.List.{IsDistinct};
ghost use Rattle.std.specs.HashMap.{spare};
ghost use Rattle.page_cache.specs.Entries.{entry_at, is_used_at};
ghost use Rattle.page_cache.specs.Recent.{has, IsRising};
ghost use Rattle.page_cache.specs.Moves.{Drops, Moves, Settles, stays_at};

use crate::entries::{Entry, is_used, take_out};
use crate::recent::Recent;
use indexmap::IndexMap;
use page_device::NoMemory;

// Puts a page that does not stand in the list in front of it. The page that a full list drops for it is let go.
pub fn bring(
    pages: &mut IndexMap<u32, Entry>,
    recent: &mut Recent,
    page: u32,
) -> Result<(), NoMemory>
    requires { has recent.old.pages page ≡ false }
    ensures recent { OnOk result (recent.new.pages ≡ take recent.old.limit (page ∷ recent.old.pages)) }
    ensures front { OnOk result (has recent.new.pages page ≡ true) }
    ensures others { OnOk result ((q : ℕ) → has recent.new.pages q ≡ true → (eqb q page || has recent.old.pages q) ≡ true) }
    ensures drops { OnOk result (Drops pages.old.entries recent.old.pages pages.new.entries recent.new.pages) }
    ensures err { OnErr result (recent.new.pages ≡ recent.old.pages) }
    ensures same { OnErr result (pages.new.entries ≡ pages.old.entries) }
    ensures limit { recent.new.limit ≡ recent.old.limit }
    ensures len { length pages.new.entries ≤ length pages.old.entries }
    ensures room { spare pages.old ≤ spare pages.new }
{
    match recent.bring(page) {
        Ok(Some(dropped)) => {
            take_out(pages, dropped);
            Ok(())
        }
        Ok(None) => Ok(()),
        Err(_) => Err(NoMemory),
    }
}

// A page that stands in the table no longer goes to the front of the list, or is let go where no memory is found, or where none is asked for.
pub fn settle(pages: &mut IndexMap<u32, Entry>, recent: &mut Recent, page: u32, asks: bool)
    requires { has recent.old.pages page ≡ false }
    ensures moves { Moves asks pages.old.entries recent.old page pages.new.entries recent.new }
    ensures len { length pages.new.entries ≤ length pages.old.entries }
{
    if !asks {
        take_out(pages, page);
        return;
    }
    match bring(pages, recent, page) {
        Ok(()) => {}
        Err(_) => take_out(pages, page),
    }
}

// The same for each of the pages that were written, which a barrier lets go from the table where they are neither held nor dirty.
pub fn settle_all(
    pages: &mut IndexMap<u32, Entry>,
    recent: &mut Recent,
    written: &[u32],
    asks: bool,
)
    requires distinct { IsDistinct eqb written.now }
    requires rising { asks ≡ true → IsRising written.now }
    requires apart { (q : ℕ) → has recent.old.pages q ≡ true → (is_used_at pages.old.entries q ≡ false) × (has written.now q ≡ false) }
    requires there { (q : ℕ) → is_some (entry_at pages.old.entries q) ≡ stays_at pages.old.entries recent.old.pages written.now q }
    ensures { Settles pages.old.entries recent.old written.now [] pages.new.entries recent.new }
{
    // Its contract says that the list is not too long.
    let _ = recent.limit();
    for page in written {
        if !is_used(pages, *page) {
            settle(pages, recent, *page, asks);
        }
    }
}
