//! A scan sets each count to its names. It runs where nothing is queued and no map page is a node.

ghost use Rattle.std.specs.Prelude.{◌≡◌, ◌<◌, [], ℕ, List, Bool};
ghost use Rattle.engine_model.specs.Commands.{DataKept};
ghost use Rattle.engine_model.specs.Contents.{ContentsInvariant};
ghost use Rattle.engine_model.specs.Corrections.{Corrected};
ghost use Rattle.engine_model.specs.Counts.{CountsInvariant, Covered};
ghost use Rattle.order_model.specs.World.{IsData, Agree, Layout, Possible, World};
ghost use Rattle.engine_model.specs.Entries.{Apart};
ghost use Rattle.engine_model.specs.Images.{CountsExact, CrashImage};
ghost use Rattle.engine_model.specs.Invariant.{EngineInvariant, Moment};
ghost use Rattle.engine_model.specs.Frames.{Frame, both};
ghost use Rattle.engine_model.specs.SmallScan.{Fixes, IsDrained, SmallScan, count_fix_reach, print_fix_reach};
ghost use Rattle.engine_model.specs.Scan.{CorrectsAt, CorrectsNothing, SameWaste, Scan, TablesSettled};
ghost use Rattle.engine_model.specs.Schedule.{NoNode, Step, last_of};

/// A correction keeps the invariant.
pub fn corrected()
    ensures counts { (lay : Layout) (top : ℕ) (w v : World) (p : ℕ) → Apart lay → CountsInvariant lay top w
        → Corrected lay w v p → CountsInvariant lay top v }
    ensures contents { (lay : Layout) (top : ℕ) (sound : Bool) (array : ℕ → List (List ℕ)) (w v : World) (p : ℕ)
        → Corrected lay w v p → DataKept lay w v → CountsInvariant lay top w → ContentsInvariant lay sound array w
        → ContentsInvariant lay sound array v }
    ensures named { (lay : Layout) (top : ℕ) (w : World) → CountsInvariant lay top w → (p l : ℕ) → IsData lay p
        → l < lay.blocks → Covered lay w p l → (c : List ℕ) → Possible w (lay.count_page p) c → 0 < lay.count_in c p }
{}

/// Only a scan changes the waste of a page; and once a scan is fixed the counts are exact.
pub fn scan_is_exact()
    ensures waste { (lay : Layout) (top : ℕ) (sound : Bool) → Apart lay → (m n : Moment)
        → EngineInvariant lay top sound m → (p : ℕ) → IsData lay p → (s : Step lay top m n) → CorrectsNothing s
        → SameWaste lay m.world n.world p }
    ensures kept { (lay : Layout) (top : ℕ) (sound : Bool) → Apart lay → (m : Moment) (ns : List Moment)
        → EngineInvariant lay top sound m → Scan lay top 1 m ns → EngineInvariant lay top sound (last_of m ns) }
    ensures array { (lay : Layout) (top p : ℕ) (m : Moment) (ns : List Moment) → Scan lay top p m ns
        → Agree (last_of m ns).array m.array }
    ensures exact { (lay : Layout) (top : ℕ) (sound : Bool) → Apart lay
        → (m : Moment) (ns : List Moment) (image : ℕ → List ℕ) → EngineInvariant lay top sound m → Scan lay top 1 m ns
        → TablesSettled lay (last_of m ns) → CrashImage (last_of m ns).world image → CountsExact lay image }
{}

/// A correction by small steps: a print that no name needs goes, ordered before the count page, or a missing one is
/// made; and then the count is set to the names. It asks for a drained state, and leaves one.
pub fn a_correction()
    ensures composed { (lay : Layout) (top : ℕ) (sound : Bool) → Apart lay → (m n : Moment) (p : ℕ)
        → EngineInvariant lay top sound m → IsDrained lay m.world → Fixes lay m n p → CorrectsAt lay m n p }
    ensures kept { (lay : Layout) (top : ℕ) (sound : Bool) → Apart lay → (m n : Moment) (p : ℕ)
        → EngineInvariant lay top sound m → IsDrained lay m.world → Fixes lay m n p
        → EngineInvariant lay top sound n }
    ensures frame { (lay : Layout) (top : ℕ) (sound : Bool) → Apart lay → (m n : Moment) (p : ℕ)
        → EngineInvariant lay top sound m → IsDrained lay m.world → Fixes lay m n p
        → Frame lay (both (print_fix_reach lay p) (count_fix_reach lay p)) m n }
    ensures drained { (lay : Layout) (top : ℕ) (sound : Bool) → Apart lay → (m n : Moment) (p : ℕ)
        → EngineInvariant lay top sound m → IsDrained lay m.world → Fixes lay m n p → IsDrained lay n.world }
{}

/// A scan by small steps over a drained state is a scan: corrections in rising data page, with steps of the device
/// between. Once its table pages are settled each count is its names, and exactly the named pages have a print.
pub fn a_small_scan()
    ensures starts { (lay : Layout) (top : ℕ) (sound : Bool) (m : Moment) → EngineInvariant lay top sound m
        → NoNode m → m.world.queue ≡ [] → IsDrained lay m.world }
    ensures composed { (lay : Layout) (top : ℕ) (sound : Bool) → Apart lay → (m : Moment) (ns : List Moment)
        → EngineInvariant lay top sound m → IsDrained lay m.world → SmallScan lay top 1 m ns → Scan lay top 1 m ns }
    ensures exact { (lay : Layout) (top : ℕ) (sound : Bool) → Apart lay
        → (m : Moment) (ns : List Moment) (image : ℕ → List ℕ) → EngineInvariant lay top sound m
        → IsDrained lay m.world → SmallScan lay top 1 m ns → TablesSettled lay (last_of m ns)
        → CrashImage (last_of m ns).world image → CountsExact lay image }
{}
