// Room that is made ahead of the first edit of a command.
ghost use Rattle.std.specs.Prelude.{◌≡◌, ◌↔◌, ◌≤◌, ◌^◌, true, max, IfSome, OnOk, OnErr};
ghost use Rattle.order_model.specs.Paths.{Closes};
ghost use Rattle.dep_graph.specs.Lists.{live_in};
ghost use Rattle.store_core.specs.Room.{IsWithOwed};

use crate::Core;
use flush_engine::Engine;
use page_device::NoMemory;

/// Why there is no room for a command.
#[derive(Clone, Copy, Debug, PartialEq, Eq, Drop)]
pub enum NoRoom {
    /// There is no place in the queue, or as many pages may be dirty or hung as there is room for: a drain makes room.
    Full,
    NoMemory,
}

// Numbers of nodes, edges and changes.
#[derive(Clone, Copy, Drop)]
struct Numbers {
    nodes: u32,
    edges: u32,
    changes: u32,
}

// So many beside those that the releases may take, of which there are so many.
fn with_owed(asked: Numbers, owed: u64) -> Option<Numbers>
    requires { owed ≤ 2 ^ 32 }
    ensures { IfSome result (IsWithOwed owed asked) }
{
    let nodes = u32::try_from(asked.nodes as u64 + 2 * owed).ok()?;
    let edges = u32::try_from(asked.edges as u64 + 2 * owed).ok()?;
    let changes = u32::try_from(asked.changes as u64 + owed).ok()?;
    Some(Numbers {
        nodes,
        edges,
        changes,
    })
}

// Room for so many further nodes and edges.
fn reserve_nodes(engine: &mut Engine, nodes: u32, edges: u32) -> Result<(), NoMemory>
    ensures ok { OnOk result (engine.new ≡ record engine.old { graph = record engine.old.graph { spare_nodes = max engine.old.graph.spare_nodes nodes; spare_edges = max engine.old.graph.spare_edges edges } }) }
    ensures err { OnErr result (engine.new ≡ engine.old) }
{
    engine.graph().reserve(nodes, edges)
}

// Whether a Live edge would close a cycle.
fn closes_in(engine: &mut Engine, before: u32, after: u32) -> bool
    ensures closes { (result ≡ true) ↔ Closes (live_in engine.old.graph) before after }
    ensures same { engine.new ≡ engine.old }
{
    engine.graph().closes(before, after)
}

impl Core {
    ghost use Rattle.std.specs.Prelude.{◌≡◌, ◌↔◌, ◌<◌, ◌≤◌, ◌+◌, ◌*◌, ◌^◌, ℕ, true, false, eqb, length, Err, OnOk, OnErr};
    ghost use Rattle.page_device.specs.Meaning.{Meaning};
    ghost use Rattle.order_model.specs.Paths.{Closes};
    ghost use Rattle.dep_graph.specs.Lists.{live_in, node_count};
    ghost use Rattle.store_core.specs.declared.room.NoRoom.TheVariants.{Full};
    ghost use Rattle.store_core.specs.Quiet.{Quiet, SameRest, none};
    ghost use Rattle.store_core.specs.Room.{HasRoom, IsCrowded, IsReserved, owed};

    /// Whether a Live edge from one page to the other would close a cycle. It costs what the graph's `closes` does.
    pub fn closes(&mut self, before: u32, after: u32) -> bool
        ensures closes { (result ≡ true) ↔ Closes (live_in self.old.engine.graph) before after }
        ensures same { self.new ≡ self.old }
        ensures engine { self.new.engine ≡ self.old.engine }
        ensures quiet { (d : Meaning) → Quiet none d d self.old self.new }
    {
        closes_in(&mut self.engine, before, after)
    }

    // How many releases there may be to apply, with one more.
    fn owed(&self) -> u64
        ensures is { result ≡ owed self.now }
        ensures few { result ≤ 2 ^ 32 }
    {
        self.ledger.queue.len() as u64 + 1
    }

    // Whether there is a place in the queue, and so many nodes more are within the room of the engine.
    fn has_place(&self, nodes: u32) -> bool
        ensures place { result ≡ true → eqb (length self.now.ledger.queue.releases) self.now.ledger.queue.limit ≡ false }
        ensures within { result ≡ true → node_count self.now.engine.graph + (nodes + 2 * owed self.now) ≤ self.now.engine.room }
        ensures crowded { (result ≡ false) ↔ IsCrowded nodes self.now }
    {
        if self.ledger.queue.full() {
            return false;
        }
        let all = self.engine.graph_seen().nodes() as u64 + (nodes as u64 + 2 * self.owed());
        all <= self.engine.room() as u64
    }

    /// Makes room ahead of the first edit of a command, so that no edit of it can fail: a place in the queue, and room for so many
    /// nodes, edges and changes beside two nodes, two edges and a change for each queued release and for one more. It is never
    /// given back. What the core stands for stays.
    ///
    /// `Full` where there is no place in the queue, or where so many nodes are not within the room of the engine. `NoMemory` where
    /// no memory is found. Constant where the room is there; else all that the graph or the births keep may move.
    pub fn reserve(&mut self, nodes: u32, edges: u32, changes: u32) -> Result<(), NoRoom>
        ensures ok { OnOk result (HasRoom nodes edges changes self.new) }
        ensures cache { self.new.engine.cache ≡ self.old.engine.cache }
        ensures quiet { (d : Meaning) → Quiet none d d self.old self.new }
        ensures full { (result ≡ Err Full) ↔ IsCrowded nodes self.old }
    {
        if !self.has_place(nodes) {
            return Err(NoRoom::Full);
        }
        let asked = Numbers {
            nodes,
            edges,
            changes,
        };
        match with_owed(asked, self.owed()) {
            Some(all) => self.reserve_in_all(all),
            None => Err(NoRoom::NoMemory),
        }
    }

    // Room for at least so many further nodes, edges and changes. The only error is a want of memory.
    fn reserve_in_all(&mut self, all: Numbers) -> Result<(), NoRoom>
        ensures rest { SameRest self.old self.new }
        ensures cache { self.new.engine.cache ≡ self.old.engine.cache }
        ensures quiet { (d : Meaning) → Quiet none d d self.old self.new }
        ensures ok { OnOk result (IsReserved all self.new) }
        ensures err { result ≡ Err Full → ⊥ }
    {
        match self.ledger.births.reserve(all.changes) {
            Ok(()) => {}
            Err(_) => return Err(NoRoom::NoMemory),
        }
        match reserve_nodes(&mut self.engine, all.nodes, all.edges) {
            Ok(()) => Ok(()),
            Err(_) => Err(NoRoom::NoMemory),
        }
    }
}
