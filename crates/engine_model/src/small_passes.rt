//! A pass over the queue by the small steps that code makes: touch the count page, order the map page before it, take
//! a last print away, lower the count with the release taken out, give the data page up.

ghost use Rattle.std.specs.Prelude.{◌≡◌, ◌≤◌, ◌++◌, ◌∷◌, [], ℕ, List, Bool};
ghost use Rattle.engine_model.specs.Entries.{Apart};
ghost use Rattle.engine_model.specs.Invariant.{EngineInvariant, Moment};
ghost use Rattle.engine_model.specs.Pass.{Drops, Lowers, Pass};
ghost use Rattle.engine_model.specs.PassEffects.{PassEffects};
ghost use Rattle.engine_model.specs.Pool.{PoolExact};
ghost use Rattle.engine_model.specs.Room.{room_taken};
ghost use Rattle.engine_model.specs.Schedule.{DeviceRun, NoNode, last_of};
ghost use Rattle.engine_model.specs.SmallPass.{Applies, SmallPass};
ghost use Rattle.engine_model.specs.SmallRuns.{with_release_out};
ghost use Rattle.order_model.specs.World.{Layout, Release};

/// A pass keeps the invariant: each of its steps does. And where the pool knew each free page it does so still.
pub fn pass_keeps()
    ensures kept { (lay : Layout) (top : ℕ) (sound : Bool) → Apart lay → (m n : Moment)
        → EngineInvariant lay top sound m → SmallPass lay m [] m.world.queue n → EngineInvariant lay top sound n }
    ensures exact { (lay : Layout) (top : ℕ) (sound : Bool) → Apart lay → (m n : Moment)
        → EngineInvariant lay top sound m → SmallPass lay m [] m.world.queue n → (p : ℕ)
        → PoolExact lay m.world (m.pool p) p → PoolExact lay n.world (n.pool p) p }
{}

/// The small steps of an applied release are the two steps that the laws of whole commands speak of: the count is
/// lowered, and then the data page is given up or stays.
pub fn applied_composes()
    ensures lowers { (lay : Layout) (top : ℕ) (sound : Bool) → Apart lay → (m n : Moment) (r : Release) (before after : List Release)
        → EngineInvariant lay top sound m → m.world.queue ≡ before ++ r ∷ after → (x : Applies lay m n r before after)
        → Lowers lay m (with_release_out lay r.page x.content (before ++ after) x.pool x.cleared) r before after }
    ensures drops { (lay : Layout) (top : ℕ) (sound : Bool) → Apart lay → (m n : Moment) (r : Release) (before after : List Release)
        → EngineInvariant lay top sound m → m.world.queue ≡ before ++ r ∷ after → (x : Applies lay m n r before after)
        → Drops lay (with_release_out lay r.page x.content (before ++ after) x.pool x.cleared) n r.page }
{}

/// A pass by small steps is a pass of whole steps, so every law of a pass holds of one that code makes. Two rounds of
/// a drain, each a flush and then a pass, leave no node and no release.
pub fn pass_composes()
    ensures composed { (lay : Layout) (top : ℕ) (sound : Bool) → Apart lay → (m n : Moment)
        → EngineInvariant lay top sound m → SmallPass lay m [] m.world.queue n → Pass lay m [] m.world.queue n }
    ensures drained { (lay : Layout) (top : ℕ) (sound : Bool) → Apart lay → (m n o : Moment) (ns : List Moment)
        → EngineInvariant lay top sound m → NoNode m → SmallPass lay m [] m.world.queue n → DeviceRun lay top n ns
        → NoNode (last_of n ns) → SmallPass lay (last_of n ns) [] (last_of n ns).world.queue o
        → NoNode o × (o.world.queue ≡ []) }
{}

/// A pass lowers each count by the releases that left the queue, keeps the print of each page that is counted still, and
/// adds edges into count pages; the device, the names and the array stay. That a page whose count became 0 has no print
/// follows from the invariant, which `pass_keeps` keeps.
pub fn pass_effects()
    ensures whole { (lay : Layout) (top : ℕ) (sound : Bool) → Apart lay → (m n : Moment)
        → EngineInvariant lay top sound m → Pass lay m [] m.world.queue n → PassEffects lay m n }
    ensures small { (lay : Layout) (top : ℕ) (sound : Bool) → Apart lay → (m n : Moment)
        → EngineInvariant lay top sound m → SmallPass lay m [] m.world.queue n → PassEffects lay m n }
{}

/// The nodes and twice the queued releases are no more after a pass than before it: each release has two nodes kept
/// for it, its count page and its print page. No premise is asked.
pub fn pass_room()
    ensures kept { (lay : Layout) (total : ℕ) (m n : Moment) → SmallPass lay m [] m.world.queue n
        → room_taken total n.world ≤ room_taken total m.world }
{}
