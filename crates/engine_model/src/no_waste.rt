//! Where nothing is wasted each step keeps it so, as long as a fresh page is chosen only where no candidate is
//! usable, and in version 2 only where the content is no block of zeros.

ghost use Rattle.std.specs.Prelude.{◌≡◌, ◌≤◌, ◌<◌, ◌+◌, ◌↔◌, [], ℕ, List, true, length};
ghost use Rattle.engine_model.specs.Contents.{Last};
ghost use Rattle.engine_model.specs.DeviceSteps.{AtRest};
ghost use Rattle.engine_model.specs.Drain.{DoneDrain, Round};
ghost use Rattle.engine_model.specs.Entries.{Apart, cached_count, cached_name};
ghost use Rattle.engine_model.specs.Images.{CrashImage, ImageTight};
ghost use Rattle.engine_model.specs.Invariant.{EngineInvariant, Moment};
ghost use Rattle.engine_model.specs.Schedule.{NoNode, Step};
ghost use Rattle.engine_model.specs.SmallCommands.{Discards, Writes};
ghost use Rattle.engine_model.specs.Tight.{ChoosesWell, HasRoom, HeldByNone, IsSettled, IsTight, NoneFree, NoneUsable, WantsPage, live_pages, named_pages};
ghost use Rattle.order_model.specs.World.{IsData, Layout, World};

/// From a tight image to a tight image.
pub fn nothing_is_wasted()
    ensures start { (lay : Layout) (version : ℕ) (w : World) → AtRest w → ImageTight lay version w.newest
        → IsTight lay version w }
    ensures kept { (lay : Layout) (top version : ℕ) → Apart lay → (m n : Moment) → EngineInvariant lay top true m
        → IsTight lay version m.world → (s : Step lay top m n) → ChoosesWell version s → IsTight lay version n.world }
    ensures ends { (lay : Layout) (top version : ℕ) (m : Moment) → EngineInvariant lay top true m
        → IsTight lay version m.world → NoNode m → m.world.queue ≡ [] → (image : ℕ → List ℕ)
        → CrashImage m.world image → ImageTight lay version image }
{}

/// What whole commands composed from small steps, and the rounds of a drain, keep of it; after a drain in which no call
/// failed each image is tight.
pub fn commands_waste_nothing()
    ensures discard { (lay : Layout) (top version : ℕ) → Apart lay → (m n : Moment) → EngineInvariant lay top true m
        → IsTight lay version m.world → (l o : ℕ) → Discards lay m n l o → IsTight lay version n.world }
    ensures write { (lay : Layout) (top version : ℕ) → Apart lay → (m n : Moment) → EngineInvariant lay top true m
        → IsTight lay version m.world → (l o p : ℕ) (content : List ℕ) → Writes lay top m n l o p content
        → (cached_count lay m.world p ≡ 0 → WantsPage lay top version m.world content) → IsTight lay version n.world }
    ensures round { (lay : Layout) (top version : ℕ) → Apart lay → (m n : Moment) → EngineInvariant lay top true m
        → IsTight lay version m.world → Round lay top m n → IsTight lay version n.world }
    ensures drained { (lay : Layout) (top version : ℕ) → Apart lay → (m n : Moment) (image : ℕ → List ℕ)
        → EngineInvariant lay top true m → IsTight lay version m.world → DoneDrain lay top m n
        → CrashImage n.world image → ImageTight lay version image }
{}

/// The counted pages are the named ones and at most one more for each queued release. Two blocks have the same last
/// content exactly where they name one page: so the named pages are as many as the different contents of named blocks.
/// No count comes to a limit that is above the blocks and the queued releases together.
pub fn counted_where_tight()
    ensures at_least { (lay : Layout) (version : ℕ) (w : World) → IsTight lay version w
        → named_pages lay w ≤ live_pages lay w }
    ensures at_most { (lay : Layout) (version : ℕ) (w : World) → IsTight lay version w
        → live_pages lay w ≤ named_pages lay w + length w.queue }
    ensures room { (lay : Layout) (top : ℕ) (w : World) → lay.blocks + length w.queue < top → HasRoom lay top w }
    ensures one_page { (lay : Layout) (top version : ℕ) (m : Moment) → EngineInvariant lay top true m
        → IsTight lay version m.world → (k l p q : ℕ) → k < lay.blocks → l < lay.blocks → IsData lay p → IsData lay q
        → cached_name lay m.world k ≡ p → cached_name lay m.world l ≡ q → (c d : List ℕ) → Last (m.array k) c
        → Last (m.array l) d → (c ≡ d) ↔ (p ≡ q) }
{}

/// Where nothing waits, as after a drain in which no call failed: no page is free and no candidate is usable exactly
/// where each data page is named, so the blocks have as many different contents as there are data pages, and the new
/// content is none of them.
pub fn full_where_tight()
    ensures full { (lay : Layout) (top version : ℕ) (m : Moment) → EngineInvariant lay top true m
        → IsTight lay version m.world → lay.blocks < top → IsSettled lay m → (content : List ℕ)
        → (NoneFree lay m × NoneUsable lay top m.world content)
        ↔ ((named_pages lay m.world ≡ lay.pages) × HeldByNone lay m content) }
{}
