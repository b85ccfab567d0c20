//! A page that is not dirty has its newest content cached, so it may be forgotten and fetched again.

ghost use Rattle.std.specs.Prelude.{◌≡◌, ◌<◌, ℕ, List, Bool, false};
ghost use Rattle.engine_model.specs.Bytes.{layout_of, pages_of};
ghost use Rattle.engine_model.specs.Contents.{ContentsInvariant};
ghost use Rattle.engine_model.specs.Counts.{CountsInvariant};
ghost use Rattle.engine_model.specs.DeviceSteps.{Same, forgotten};
ghost use Rattle.engine_model.specs.Entries.{IsDataPage, IsPage, IsTable};
ghost use Rattle.engine_model.specs.Invariant.{EngineInvariant, Moment};
ghost use Rattle.order_model.specs.World.{Layout, World};

/// The first page, each table page and each data page that is not dirty is cached as a read gives it. Every page of a
/// device is one of these. So a clean page may be forgotten: the state is the same, read another way.
pub fn clean_page()
    ensures first { (lay : Layout) (sound : Bool) (array : ℕ → List (List ℕ)) (w : World)
        → ContentsInvariant lay sound array w → w.cached 0 ≡ w.newest 0 }
    ensures table { (lay : Layout) (top : ℕ) (w : World) (page : ℕ) → CountsInvariant lay top w → IsTable lay page
        → w.dirty page ≡ false → w.cached page ≡ w.newest page }
    ensures data_page { (lay : Layout) (sound : Bool) (array : ℕ → List (List ℕ)) (w : World) (page : ℕ)
        → ContentsInvariant lay sound array w → IsDataPage lay page → w.dirty page ≡ false
        → w.cached page ≡ w.newest page }
    ensures each { (lay : Layout) (top : ℕ) (sound : Bool) (m : Moment) → EngineInvariant lay top sound m
        → (page : ℕ) → IsPage lay page → m.world.dirty page ≡ false → m.world.cached page ≡ m.world.newest page }
    ensures every_page { (blocks pages : ℕ) (well_formed : ℕ → List ℕ → Bool) (zero : List ℕ) (finger : List ℕ → List ℕ) (page : ℕ)
        → page < pages_of blocks pages → IsPage (layout_of blocks pages well_formed zero finger) page }
    ensures forgets { (lay : Layout) (top : ℕ) (sound : Bool) (m : Moment) → EngineInvariant lay top sound m
        → (page : ℕ) → IsPage lay page → m.world.dirty page ≡ false → Same m.world (forgotten page m.world) }
{}
