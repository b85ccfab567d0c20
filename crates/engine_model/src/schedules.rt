//! Whole schedules, from a state at rest, over any list of steps.

ghost use Rattle.std.specs.Prelude.{◌≡◌, ◌⊎◌, ◌↔◌, ◌<◌, ◌∷◌, [], ℕ, List, Bool, false};
ghost use Rattle.engine_model.specs.Contents.{ContentsInvariant, Last};
ghost use Rattle.engine_model.specs.Counts.{EdgeKinds};
ghost use Rattle.engine_model.specs.DeviceSteps.{AtRest, Same};
ghost use Rattle.order_model.specs.World.{IsData, Agree, Layout, Possible, World};
ghost use Rattle.engine_model.specs.Entries.{Apart, IsTable, cached_count};
ghost use Rattle.engine_model.specs.Images.{ContentsFit, CountsFit, CrashImage, Format, block_in};
ghost use Rattle.engine_model.specs.Invariant.{EngineInvariant, Moment};
ghost use Rattle.order_model.specs.Paths.{IsAcyclic};
ghost use Rattle.order_model.specs.Pool.{Listed, after_fixed, new_pool, taken_all, written_all};
ghost use Rattle.engine_model.specs.Schedule.{Each, NoNode, Run, gained_in, last_of};
ghost use Rattle.engine_model.specs.SmallRuns.{SmallRun};
ghost use Rattle.order_model.specs.Contents.{IsAmong};

/// At every moment the invariant holds; so every image at every moment is fit and reads allowed contents, no cycle
/// is closed, and edges are of the allowed kinds.
pub fn every_schedule()
    ensures kept { (lay : Layout) (top : ℕ) (sound : Bool) → Apart lay → (m : Moment) (ns : List Moment)
        → EngineInvariant lay top sound m → Run lay top m ns → Each (EngineInvariant lay top sound) ns }
    ensures kept_in_small { (lay : Layout) (top : ℕ) (sound : Bool) → Apart lay → (m : Moment) (ns : List Moment)
        → EngineInvariant lay top sound m → SmallRun lay top m ns → Each (EngineInvariant lay top sound) ns }
    ensures images { (lay : Layout) (top : ℕ) (sound : Bool) → Apart lay → (m : Moment) (ns : List Moment)
        → EngineInvariant lay top sound m → SmallRun lay top m ns
        → Each (λ n. (image : ℕ → List ℕ) → CrashImage n.world image → CountsFit lay image × ContentsFit lay sound image n.array) ns }
    ensures graph { (lay : Layout) (top : ℕ) (sound : Bool) → Apart lay → (m : Moment) (ns : List Moment)
        → EngineInvariant lay top sound m → SmallRun lay top m ns
        → Each (λ n. IsAcyclic n.world.live × EdgeKinds lay n.world) ns }
{}

/// Where no page is a node each block of every image is the last of its list. The list may then be cut to that one,
/// and later images read it or one that was gained since.
pub fn after_a_flush()
    ensures last { (lay : Layout) (top : ℕ) (sound : Bool) (m : Moment) → EngineInvariant lay top sound m → NoNode m
        → Format lay top → (image : ℕ → List ℕ) → CrashImage m.world image → (l : ℕ) → l < lay.blocks → (c : List ℕ)
        → Last (m.array l) c → block_in lay image l ≡ c }
    ensures cut { (lay : Layout) (sound : Bool) (array after : ℕ → List (List ℕ)) (w : World)
        → ContentsInvariant lay sound array w
        → ((page : ℕ) (c : List ℕ) → IsTable lay page → Possible w page c → c ≡ w.cached page)
        → ((page : ℕ) → w.dirty page ≡ false)
        → ((l : ℕ) → l < lay.blocks → (c : List ℕ) → Last (array l) c → after l ≡ c ∷ [])
        → ContentsInvariant lay sound after w }
    ensures later { (lay : Layout) (top : ℕ) (sound : Bool) → Apart lay → Format lay top
        → (m n : Moment) (ns : List Moment) (image : ℕ → List ℕ) (l : ℕ) (c : List ℕ)
        → EngineInvariant lay top sound m → NoNode m → Same m.world n.world → n.calls ≡ m.calls → Agree n.pool m.pool
        → ((k : ℕ) → k < lay.blocks → (d : List ℕ) → Last (m.array k) d → n.array k ≡ d ∷ []) → (r : Run lay top n ns)
        → CrashImage (last_of n ns).world image → l < lay.blocks → Last (m.array l) c
        → (block_in lay image l ≡ c) ⊎ IsAmong (block_in lay image l) (gained_in lay top n ns r l) }
{}

/// What a crash leaves starts the next session, and at any moment each block of an image is one of its list, or one
/// that was gained since.
pub fn sessions_chain()
    ensures next { (lay : Layout) (top : ℕ) (sound : Bool) → Format lay top → (m n : Moment) (counted tables : List ℕ)
        → EngineInvariant lay top sound m → AtRest n.world → CrashImage m.world n.world.newest
        → ((l : ℕ) → l < lay.blocks → n.array l ≡ block_in lay n.world.newest l ∷ []) → n.calls ≡ []
        → ((p : ℕ) → IsData lay p → Listed p counted ↔ (0 < cached_count lay n.world p))
        → ((p : ℕ) → IsData lay p → Listed (lay.count_page p) tables)
        → Agree n.pool (after_fixed (written_all lay tables (taken_all counted new_pool)))
        → EngineInvariant lay top sound n
        × ((l : ℕ) → l < lay.blocks → IsAmong (block_in lay n.world.newest l) (m.array l)) }
    ensures later { (lay : Layout) (top : ℕ) (sound : Bool) → Apart lay → Format lay top
        → (m : Moment) (ns : List Moment) (image : ℕ → List ℕ) → EngineInvariant lay top sound m
        → (r : Run lay top m ns) → CrashImage (last_of m ns).world image → (l : ℕ) → l < lay.blocks
        → IsAmong (block_in lay image l) (m.array l) ⊎ IsAmong (block_in lay image l) (gained_in lay top m ns r l) }
{}
