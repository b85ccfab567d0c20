// An engine over a device: steps that are made of both, each with its conditions.
ghost use Rattle.std.specs.Prelude.{◌≡◌, ◌<◌, true, false, IfSome};
ghost use Rattle.page_device.specs.Meaning.{Meaning};
ghost use Rattle.page_cache.specs.View.{holds_in};
ghost use Rattle.order_model.specs.Paths.{Closes};
ghost use Rattle.dep_graph.specs.Lists.{live_in, node_count};
ghost use Rattle.flush_engine.specs.View.{Fits};

use flush_engine::{Device, Engine, Page, lent_parts_fit, touched_is_whole};
use page_cache::{Cache, LEAST_SIZE};
use std::alloc::Global;

/// An engine with no page.
pub fn empty(alloc: Global) -> Option<Engine>
    ensures { IfSome result (λ e. (d : Meaning) → Fits e d) }
{
    let Ok(cache) = Cache::new(alloc, LEAST_SIZE) else {
        return None;
    };
    match Engine::new(alloc, cache) {
        Ok(engine) => Some(engine),
        Err(_) => None,
    }
}

// Makes room for one page and one edge.
fn reserve<D: Device>(engine: &mut Engine, _device: &D) -> bool
    requires { Fits engine.old (D.seen _device.now) }
    ensures spare { result ≡ true → (0 < engine.new.graph.spare_nodes) × (0 < engine.new.graph.spare_edges) }
    ensures fits { Fits engine.new (D.seen _device.now) }
{
    lent_parts_fit();
    match engine.graph().reserve(1, 1) {
        Ok(()) => true,
        Err(_) => false,
    }
}

// Brings in a page, and holds it from now on.
fn hold<D: Device>(engine: &mut Engine, device: &mut D, page: u32) -> bool
    requires within { page < (D.seen device.old).pages }
    ensures held { result ≡ true → 0 < holds_in engine.new.cache page }
    ensures graph { engine.new.graph ≡ engine.old.graph }
    ensures fits { Fits engine.old (D.seen device.old) → Fits engine.new (D.seen device.new) }
    ensures pages { (D.seen device.new).pages ≡ (D.seen device.old).pages }
{
    match engine.cache().fetch(device, page) {
        Ok(_) => {}
        Err(_) => return false,
    }
    engine.cache().hold(page).is_ok()
}

/// Edits a page, and holds it from now on.
pub fn touch<D: Device>(engine: &mut Engine, device: &mut D, page: u32) -> bool
    requires { Fits engine.old (D.seen device.old) }
    ensures { Fits engine.new (D.seen device.new) }
{
    if page >= device.pages() || !reserve(engine, device) {
        return false;
    }
    if !hold(engine, device, page) || engine.is_full() {
        return false;
    }
    edit(engine, device, page);
    true
}

// Edits a page that is held.
fn edit<D: Device>(engine: &mut Engine, _device: &D, page: u32)
    requires fits { Fits engine.old (D.seen _device.now) }
    requires within { page < (D.seen _device.now).pages }
    requires held { 0 < holds_in engine.old.cache page }
    requires spare { 0 < engine.old.graph.spare_nodes }
    requires room { node_count engine.old.graph < engine.old.room }
    ensures { Fits engine.new (D.seen _device.now) }
{
    touched_is_whole();
    *engine.touch(page) = Page::numbered(u64::from(page));
}

// Whether a Live edge would close a cycle.
fn closes(engine: &mut Engine, before: u32, after: u32) -> bool
    ensures same { engine.new ≡ engine.old }
    ensures opens { result ≡ false → Closes (live_in engine.old.graph) before after → ⊥ }
{
    engine.graph().closes(before, after)
}

/// Orders two pages where that closes no cycle.
pub fn order<D: Device>(engine: &mut Engine, device: &D, before: u32, after: u32)
    requires { Fits engine.old (D.seen device.now) }
    ensures { Fits engine.new (D.seen device.now) }
{
    if !reserve(engine, device) || !engine.graph_seen().is_dirty(after) {
        return;
    }
    if closes(engine, before, after) {
        return;
    }
    engine.order(before, after);
}

/// How many levels the graph has.
pub fn levels(engine: &mut Engine) -> u32
    ensures { engine.new ≡ engine.old }
{
    engine.graph().levels()
}
