//! The change of a version in place. While it runs an invariant of its own stands in the place of the engine
//! invariant.

ghost use Rattle.std.specs.Prelude.{◌≡◌, ◌≢◌, ℕ, List, Bool, true};
ghost use Rattle.engine_model.specs.Entries.{Apart};
ghost use Rattle.engine_model.specs.Images.{CrashImage};
ghost use Rattle.engine_model.specs.Invariant.{EngineInvariant, Moment};
ghost use Rattle.engine_model.specs.Schedule.{Each, NoNode, last_of};
ghost use Rattle.engine_model.specs.SmallSteps.{placed};
ghost use Rattle.engine_model.specs.VersionSwitch.{Edited, SwitchImage, SwitchRun, SwitchStart, with_finger};
ghost use Rattle.order_model.specs.World.{Layout, Possible, World};

/// Each image within is fit in the version of its first page, and the end keeps the engine invariant in the other
/// version.
pub fn version_switch()
    ensures images { (lay : Layout) (top : ℕ) (sound : Bool) (next : List ℕ) (was : Moment) → Apart lay
        → SwitchStart lay top sound was → (finger : List ℕ → List ℕ) → next ≢ was.world.newest 0 → (ns : List Moment)
        → SwitchRun lay next was was ns
        → Each (λ n. (image : ℕ → List ℕ) → CrashImage n.world image → SwitchImage lay sound next was.world was.array finger image) ns }
    ensures ends { (lay : Layout) (top : ℕ) (sound : Bool) (next : List ℕ) (was : Moment) → Apart lay
        → SwitchStart lay top sound was → (finger : List ℕ → List ℕ) → next ≢ was.world.newest 0 → (ns : List Moment)
        → SwitchRun lay next was was ns → NoNode (last_of was ns) → (last_of was ns).world.cached 0 ≡ next
        → EngineInvariant (with_finger lay finger) top true (last_of was ns)
        × ((c : List ℕ) → Possible (last_of was ns).world 0 c → c ≡ next) }
    ensures made { (w : World) (page : ℕ) (c : List ℕ) → Edited w (placed page c w) page }
{}
