//! The commands, each with all its edits at once.

ghost use Rattle.std.specs.Prelude.{◌≡◌, ◌<◌, ℕ, List, Bool};
ghost use Rattle.engine_model.specs.Commands.{DataKept, Discarded, Gains, PageContent, Renamed};
ghost use Rattle.engine_model.specs.Contents.{ContentsInvariant, Last};
ghost use Rattle.engine_model.specs.Counts.{CountsInvariant};
ghost use Rattle.order_model.specs.World.{IsData, Layout, World};
ghost use Rattle.engine_model.specs.Entries.{Apart, cached_name};
ghost use Rattle.engine_model.specs.Invariant.{EngineInvariant, Moment};
ghost use Rattle.engine_model.specs.Known.{Known, Tells};
ghost use Rattle.engine_model.specs.Schedule.{Step};

/// A block takes the name of a fresh page or of one that holds the content already: a write.
pub fn written()
    ensures counts { (lay : Layout) (known : Known) (top : ℕ) (w v : World) (l o p : ℕ) → Apart lay
        → CountsInvariant lay top w → Tells lay w known → Renamed lay known top w v l o p → CountsInvariant lay top v }
    ensures contents { (lay : Layout) (known : Known) (top : ℕ) (sound : Bool) (before after : ℕ → List (List ℕ)) (w v : World) (l o p : ℕ) (content : List ℕ)
        → Tells lay w known → Renamed lay known top w v l o p → PageContent lay known w v l p content
        → Gains before after l content → CountsInvariant lay top w → ContentsInvariant lay sound before w
        → ContentsInvariant lay sound after v }
{}

/// A block drops its name.
pub fn discarded()
    ensures counts { (lay : Layout) (known : Known) (top : ℕ) (w v : World) (l o : ℕ) → CountsInvariant lay top w
        → Tells lay w known → Discarded lay known w v l o → CountsInvariant lay top v }
    ensures contents { (lay : Layout) (known : Known) (top : ℕ) (sound : Bool) (before after : ℕ → List (List ℕ)) (w v : World) (l o : ℕ)
        → Discarded lay known w v l o → DataKept lay w v → Gains before after l lay.zero_block
        → CountsInvariant lay top w → ContentsInvariant lay sound before w → ContentsInvariant lay sound after v }
{}

/// A block takes the name of another block's page, so what it gains is the last content of that block.
pub fn copied()
    ensures last { (lay : Layout) (sound : Bool) (array : ℕ → List (List ℕ)) (w : World) (k p : ℕ)
        → ContentsInvariant lay sound array w → k < lay.blocks → IsData lay p → cached_name lay w k ≡ p
        → Last (array k) (w.cached (lay.data_page p)) }
    ensures contents { (lay : Layout) (known : Known) (top : ℕ) (sound : Bool) (before after : ℕ → List (List ℕ)) (w v : World) (k l o p : ℕ) (content : List ℕ)
        → Tells lay w known → Renamed lay known top w v l o p
        → PageContent lay known w v l p (w.cached (lay.data_page p)) → k < lay.blocks → cached_name lay w k ≡ p
        → Last (before k) content → Gains before after l content → CountsInvariant lay top w
        → ContentsInvariant lay sound before w → ContentsInvariant lay sound after v }
{}

/// A block takes the name of another page of equal content, or none where its page holds zeros, and no list
/// changes.
pub fn folded()
    ensures contents { (lay : Layout) (known : Known) (top : ℕ) (sound : Bool) (array : ℕ → List (List ℕ)) (w v : World) (l o p : ℕ)
        → IsData lay o → Tells lay w known → Renamed lay known top w v l o p
        → PageContent lay known w v l p (w.cached (lay.data_page o)) → CountsInvariant lay top w
        → ContentsInvariant lay sound array w → ContentsInvariant lay sound array v }
    ensures zeros { (lay : Layout) (known : Known) (top : ℕ) (sound : Bool) (array : ℕ → List (List ℕ)) (w v : World) (l o : ℕ)
        → IsData lay o → w.cached (lay.data_page o) ≡ lay.zero_block → Discarded lay known w v l o → DataKept lay w v
        → CountsInvariant lay top w → ContentsInvariant lay sound array w → ContentsInvariant lay sound array v }
{}

/// A write of what the block holds, and a discard of a block with no name, change no entry; each appends to the
/// list.
pub fn written_again()
    ensures write { (lay : Layout) (top : ℕ) (sound : Bool) (before after : ℕ → List (List ℕ)) (w : World) (l p : ℕ) (content : List ℕ)
        → IsData lay p → cached_name lay w l ≡ p → w.cached (lay.data_page p) ≡ content → Gains before after l content
        → CountsInvariant lay top w → ContentsInvariant lay sound before w → ContentsInvariant lay sound after w }
    ensures discard { (lay : Layout) (top : ℕ) (sound : Bool) (before after : ℕ → List (List ℕ)) (w : World) (l : ℕ)
        → cached_name lay w l ≡ 0 → Gains before after l lay.zero_block → CountsInvariant lay top w
        → ContentsInvariant lay sound before w → ContentsInvariant lay sound after w }
{}

/// Any command, release, correction or device call, as one step of a run.
pub fn any_step()
    ensures kept { (lay : Layout) (top : ℕ) (sound : Bool) → Apart lay → (m n : Moment)
        → EngineInvariant lay top sound m → Step lay top m n → EngineInvariant lay top sound n }
{}
