//! An applied release: the count is lowered, the print goes where the count becomes 0, and the needed edges are
//! added.

ghost use Rattle.std.specs.Prelude.{ℕ, List, Bool};
ghost use Rattle.engine_model.specs.Commands.{DataKept};
ghost use Rattle.engine_model.specs.Contents.{ContentsInvariant};
ghost use Rattle.engine_model.specs.Counts.{CountsInvariant};
ghost use Rattle.engine_model.specs.Known.{Known, Tells};
ghost use Rattle.engine_model.specs.Releases.{Applied};
ghost use Rattle.order_model.specs.World.{Layout, Release, World};

/// An applied release keeps the invariant.
pub fn released()
    ensures counts { (lay : Layout) (known : Known) (top : ℕ) (w v : World) (r : Release) (before after : List Release)
        → CountsInvariant lay top w → Tells lay w known → Applied lay known w v r before after
        → CountsInvariant lay top v }
    ensures contents { (lay : Layout) (known : Known) (top : ℕ) (sound : Bool) (array : ℕ → List (List ℕ)) (w v : World) (r : Release) (before after : List Release)
        → Tells lay w known → Applied lay known w v r before after → DataKept lay w v → CountsInvariant lay top w
        → ContentsInvariant lay sound array w → ContentsInvariant lay sound array v }
{}
