// A core is opened over an image that was just mounted.
ghost use Rattle.std.specs.Prelude.{◌≡◌, ℕ, Bool};
ghost use Rattle.page_device.specs.Meaning.{Meaning};
ghost use Rattle.page_layout.specs.Shape.{ShapeView};
ghost use Rattle.page_layout.specs.Tables.{shape_of};
ghost use Rattle.page_alloc.specs.Pool.{PoolView};
ghost use Rattle.array_model.specs.Array.{array_start};
ghost use Rattle.store_core.specs.declared.Core.{Core};
ghost use Rattle.store_core.specs.Opened.{CanOpen, IsOpened};
ghost use Rattle.store_core.specs.Orderly.{IsOrderly};
ghost use Rattle.store_core.specs.Owed.{IsProvided};
ghost use Rattle.store_core.specs.Stands.{StandsFor};

use crate::{Core, Ledger};
use birth_marks::Births;
use flush_engine::Engine;
use page_alloc::Pool;
use page_cache::{Cache, NoMemory};
use page_layout::Shape;
use release_queue::Queue;
use std::alloc::Global;

/// A core that was opened over an image stands for the array that the image reads: each block has one content. Where the image is
/// sound, prints are true. Over any device it is provided and in order, since nothing is owed and nothing is dirty.
pub fn opened()
    ensures provided { (shape : ShapeView) (size : ℕ) (pool : PoolView) (core : Core) → IsOpened shape size pool core → IsProvided core }
    ensures orderly { (shape : ShapeView) (size : ℕ) (pool : PoolView) (core : Core) → IsOpened shape size pool core → IsOrderly core }
    ensures stands { (sound : Bool) (d : Meaning) (size : ℕ) (pool : PoolView) (core : Core) → CanOpen sound d pool
        → IsOpened (shape_of d.state.fixed) size pool core → StandsFor sound d core (array_start d.state.fixed).lists }
{}

impl Core {
    ghost use Rattle.std.specs.Prelude.{◌≡◌, IfOk};
    ghost use Rattle.page_cache.specs.Recent.{IsSize};
    ghost use Rattle.store_core.specs.Opened.{IsOpened};

    /// The core of an image of this shape that was just mounted, with a pool that was told of its counts: no page is in memory, and
    /// nothing is dirty or owed. `size` is for how many clean pages the cache is, from 64 to 4096. A quarter more pages may be dirty
    /// or hung at a time, and an eighth as many releases may be owed. Over a good image it stands for what that reads
    /// ([`opened`](crate::opened)).
    ///
    /// `NoMemory` where no memory is found. Linear in `size`.
    pub fn open(alloc: Global, shape: Shape, size: u32, pool: Pool) -> Result<Core, NoMemory>
        requires size { IsSize size }
        requires pool { pool.shape ≡ shape }
        ensures { IfOk result (IsOpened shape size pool) }
    {
        let Ok(cache) = Cache::new(alloc, size) else {
            return Err(NoMemory);
        };
        let Ok(engine) = Engine::new(alloc, cache) else {
            return Err(NoMemory);
        };
        let Ok(queue) = Queue::new(alloc, size / 8) else {
            return Err(NoMemory);
        };
        let births = Births::new(alloc);
        Ok(Core {
            shape,
            engine,
            ledger: Ledger {
                queue,
                pool,
                births,
            },
        })
    }
}
