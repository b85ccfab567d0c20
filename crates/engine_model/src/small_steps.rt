//! The small steps into which a command falls. Each keeps the invariant alone, so a device call, a fault or a crash
//! may come between any two of them.

ghost use Rattle.std.specs.Prelude.{◌≡◌, ◌+◌, ◌++◌, ℕ, List, Bool, true};
ghost use Rattle.engine_model.specs.Counts.{CountsInvariant};
ghost use Rattle.engine_model.specs.DeviceSteps.{Same};
ghost use Rattle.order_model.specs.World.{IsData, Agree, Layout, Release, World};
ghost use Rattle.engine_model.specs.Entries.{Apart, EdgeKind, IsTable, cached_count};
ghost use Rattle.engine_model.specs.Invariant.{EngineInvariant, Moment, ToldTake, ToldZero, known_at};
ghost use Rattle.engine_model.specs.Known.{Free};
ghost use Rattle.order_model.specs.Paths.{Closes};
ghost use Rattle.order_model.specs.Pool.{Told};
ghost use Rattle.engine_model.specs.SmallRuns.{SmallStep, in_state, with_count, with_name, with_print, with_release_out};
ghost use Rattle.engine_model.specs.SmallSteps.{CanClear, CanLower, CanName, CanPrint, CanRaise, CanRecount, GainsOrHolds, given_up, held_by, ordered, ordered_after, ordered_by_barrier, placed, touched};

/// A table page becomes dirty.
pub fn touch()
    ensures kept { (lay : Layout) (top : ℕ) (sound : Bool) → Apart lay → (m : Moment)
        → EngineInvariant lay top sound m → (page : ℕ) → IsTable lay page
        → EngineInvariant lay top sound (in_state (touched page m.world) m) }
{}

/// A free data page gets its content and becomes dirty.
pub fn place()
    ensures kept { (lay : Layout) (top : ℕ) (sound : Bool) → Apart lay → (m : Moment)
        → EngineInvariant lay top sound m → (p : ℕ) (content : List ℕ) → IsData lay p → Free lay m.world p
        → EngineInvariant lay top sound (in_state (placed (lay.data_page p) content m.world) m) }
{}

/// An edge is added: a Live edge between two dirty pages that closes no cycle, or a Barrier edge from a hung page; or
/// whichever of them the marks of the page before ask for, if any.
pub fn order()
    ensures live { (lay : Layout) (top : ℕ) (sound : Bool) → Apart lay → (m : Moment)
        → EngineInvariant lay top sound m → (before after : ℕ) → EdgeKind lay before after
        → m.world.dirty after ≡ true → m.world.dirty before ≡ true → (Closes m.world.live before after → ⊥)
        → EngineInvariant lay top sound (in_state (ordered before after m.world) m) }
    ensures barrier { (lay : Layout) (top : ℕ) (sound : Bool) → Apart lay → (m : Moment)
        → EngineInvariant lay top sound m → (before after : ℕ) → EdgeKind lay before after
        → m.world.dirty after ≡ true → m.world.hung before ≡ true
        → EngineInvariant lay top sound (in_state (ordered_by_barrier before after m.world) m) }
    ensures either { (lay : Layout) (top : ℕ) (sound : Bool) → Apart lay → (m : Moment)
        → EngineInvariant lay top sound m → (before after : ℕ) → EdgeKind lay before after
        → m.world.dirty after ≡ true → (m.world.dirty before ≡ true → Closes m.world.live before after → ⊥)
        → EngineInvariant lay top sound (in_state (ordered_after before after m.world) m) }
{}

/// A count is raised by one.
pub fn raise()
    ensures kept { (lay : Layout) (top : ℕ) (sound : Bool) → Apart lay → (m : Moment)
        → EngineInvariant lay top sound m → (p : ℕ) (c : List ℕ) → CanRaise lay top m.world p c → (pool : ℕ → Told)
        → ToldTake lay p m (with_count lay p c pool m) → EngineInvariant lay top sound (with_count lay p c pool m) }
{}

/// A data page gets its print, once its edges stand.
pub fn set_print()
    ensures kept { (lay : Layout) (top : ℕ) (sound : Bool) → Apart lay → (m : Moment)
        → EngineInvariant lay top sound m → (p : ℕ) (c print : List ℕ) → CanPrint lay m.world p c print
        → EngineInvariant lay top sound (with_print lay p c 0 1 m) }
{}

/// A block takes another name, or none, and the release of the old one is pushed. Its list gains what it holds now,
/// or has it as its last.
pub fn set_name()
    ensures kept { (lay : Layout) (top : ℕ) (sound : Bool) → Apart lay → (m : Moment)
        → EngineInvariant lay top sound m → (l o p : ℕ) (c : List ℕ) → CanName lay m.world l o p c
        → (array : ℕ → List (List ℕ)) → GainsOrHolds m.array array l (held_by lay m.world p)
        → EngineInvariant lay top sound (with_name lay l o p c array m) }
{}

/// A print is cleared, once its page is ordered before the count page, or where it is unborn.
pub fn clear_print()
    ensures kept { (lay : Layout) (top : ℕ) (sound : Bool) → Apart lay → (m : Moment)
        → EngineInvariant lay top sound m → (p : ℕ) (c print : List ℕ)
        → CanClear lay (known_at lay m) m.world p c print → EngineInvariant lay top sound (with_print lay p c 1 0 m) }
{}

/// A count is lowered by one and its release taken out, once the edge of the release stands.
pub fn lower()
    ensures kept { (lay : Layout) (top : ℕ) (sound : Bool) → Apart lay → (m : Moment)
        → EngineInvariant lay top sound m → (r : Release) (before after : List Release) (c : List ℕ) (count : ℕ)
        → CanLower lay m.world r before after c count → (pool : ℕ → Told)
        → ToldZero lay r.page m (with_release_out lay r.page c (before ++ after) pool m)
        → EngineInvariant lay top sound (with_release_out lay r.page c (before ++ after) pool m) }
{}

/// A count is lowered by waste alone, as a scan does.
pub fn recount()
    ensures kept { (lay : Layout) (top : ℕ) (sound : Bool) → Apart lay → (m : Moment)
        → EngineInvariant lay top sound m → (p : ℕ) (c : List ℕ) (count : ℕ) → CanRecount lay m.world p c count
        → (pool : ℕ → Told) → ToldZero lay p m (with_count lay p c pool m)
        → EngineInvariant lay top sound (with_count lay p c pool m) }
{}

/// The dirty content of a data page with count 0 is given up.
pub fn give_up()
    ensures kept { (lay : Layout) (top : ℕ) (sound : Bool) → Apart lay → (m : Moment)
        → EngineInvariant lay top sound m → (p : ℕ) → IsData lay p → cached_count lay m.world p ≡ 0
        → EngineInvariant lay top sound (in_state (given_up (lay.data_page p) m.world) m) }
{}

/// The state is the same, read another way: as after a clean page was fetched or forgotten, or after a barrier that
/// was refused.
pub fn reload()
    ensures counts { (lay : Layout) (top : ℕ) (w v : World) → CountsInvariant lay top w → Same w v
        → CountsInvariant lay top v }
    ensures whole { (lay : Layout) (top : ℕ) (sound : Bool) → Apart lay → (m n : Moment)
        → EngineInvariant lay top sound m → Same m.world n.world → Agree n.array m.array → n.calls ≡ m.calls
        → Agree n.pool m.pool → EngineInvariant lay top sound n }
{}

/// Any of these, as one step of a run.
pub fn any_small_step()
    ensures kept { (lay : Layout) (top : ℕ) (sound : Bool) → Apart lay → (m n : Moment)
        → EngineInvariant lay top sound m → SmallStep lay top m n → EngineInvariant lay top sound n }
{}
