//! What a crash leaves, page by page any possible content, is fit.

ghost use Rattle.std.specs.Prelude.{ℕ, List, Bool};
ghost use Rattle.engine_model.specs.Contents.{ContentsInvariant};
ghost use Rattle.engine_model.specs.Counts.{CountsInvariant};
ghost use Rattle.engine_model.specs.Images.{ContentsFit, CountsFit, CrashImage};
ghost use Rattle.engine_model.specs.Invariant.{EngineInvariant, Moment};
ghost use Rattle.order_model.specs.World.{Layout, World};

/// In every image counts cover names, prints stand on counts, each block reads a content of its list, and prints
/// are true where the session began sound.
pub fn images()
    ensures counts { (lay : Layout) (top : ℕ) (w : World) (image : ℕ → List ℕ) → CountsInvariant lay top w
        → CrashImage w image → CountsFit lay image }
    ensures contents { (lay : Layout) (sound : Bool) (array : ℕ → List (List ℕ)) (w : World) (image : ℕ → List ℕ)
        → ContentsInvariant lay sound array w → CrashImage w image → ContentsFit lay sound image array }
    ensures whole { (lay : Layout) (top : ℕ) (sound : Bool) (m : Moment) → EngineInvariant lay top sound m
        → (image : ℕ → List ℕ) → CrashImage m.world image → CountsFit lay image × ContentsFit lay sound image m.array }
{}
