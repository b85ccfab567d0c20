//! Whole commands from the small steps that code makes: what a command's steps come to, what birth_marks and the pool
//! were told included, how far they reach, and that the end keeps the invariant. That each moment on the way keeps it
//! is said by the laws of the small steps.

ghost use Rattle.std.specs.Prelude.{◌≡◌, ℕ, List, Bool};
ghost use Rattle.engine_model.specs.Commands.{Gains};
ghost use Rattle.engine_model.specs.Entries.{Apart, cached_count, cached_name};
ghost use Rattle.engine_model.specs.Frames.{Frame, both, count_reach, mark_reach, name_reach};
ghost use Rattle.engine_model.specs.Invariant.{EngineInvariant, Moment};
ghost use Rattle.engine_model.specs.Schedule.{Step};
ghost use Rattle.engine_model.specs.SmallCommands.{CanDiscard, CanFill, CanNamePage, CanWriteFound, CanWriteFresh, Discards, FillsPage, NamesPage, Writes, fill_reach, page_name_reach, raise_reach, with_discard, with_found_write, with_fresh_write, with_page_filled, with_page_named};
ghost use Rattle.engine_model.specs.SmallRuns.{in_state};
ghost use Rattle.engine_model.specs.SmallSteps.{GainsOrHolds, given_up};
ghost use Rattle.order_model.specs.World.{IsData, Layout};

/// A discard of a block that has a name: the map page is touched, and the name goes with its release pushed.
pub fn a_discard()
    ensures composed { (lay : Layout) (top : ℕ) (sound : Bool) → Apart lay → (m : Moment)
        → EngineInvariant lay top sound m → (l o : ℕ) (c : List ℕ) → CanDiscard lay m.world l o c
        → (array : ℕ → List (List ℕ)) → Gains m.array array l lay.zero_block
        → Discards lay m (with_discard lay l o c array m) l o }
    ensures frame { (lay : Layout) → Apart lay → (m : Moment) (l o : ℕ) (c : List ℕ) → CanDiscard lay m.world l o c
        → (array : ℕ → List (List ℕ)) → Frame lay (both (mark_reach (lay.map_page l)) (name_reach l)) m (with_discard lay l o c array m) }
    ensures kept { (lay : Layout) (top : ℕ) (sound : Bool) → Apart lay → (m : Moment)
        → EngineInvariant lay top sound m → (l o : ℕ) (c : List ℕ) → CanDiscard lay m.world l o c
        → (array : ℕ → List (List ℕ)) → Gains m.array array l lay.zero_block
        → EngineInvariant lay top sound (with_discard lay l o c array m) }
    ensures step { (lay : Layout) (top : ℕ) (m n : Moment) (l o : ℕ) → Discards lay m n l o → Step lay top m n }
{}

/// A free page is filled: it gets its content, its count becomes 1, and it gets its print. Named by nobody, it is a
/// state like any other; its count has one to spare.
pub fn fill_page()
    ensures composed { (lay : Layout) (top : ℕ) (sound : Bool) → Apart lay → (m : Moment)
        → EngineInvariant lay top sound m → (p : ℕ) (content count print : List ℕ)
        → CanFill lay top m p content count print
        → FillsPage lay (with_page_filled lay p content count print m) p content }
    ensures frame { (lay : Layout) (top : ℕ) (sound : Bool) → Apart lay → (m : Moment)
        → EngineInvariant lay top sound m → (p : ℕ) (content count print : List ℕ)
        → CanFill lay top m p content count print
        → Frame lay (fill_reach lay p) m (with_page_filled lay p content count print m) }
    ensures kept { (lay : Layout) (top : ℕ) (sound : Bool) → Apart lay → (m : Moment)
        → EngineInvariant lay top sound m → (p : ℕ) (content count print : List ℕ)
        → CanFill lay top m p content count print
        → EngineInvariant lay top sound (with_page_filled lay p content count print m) }
{}

/// A page that was filled for a block may be named by it: what that asks holds of it.
pub fn filled_page_is_nameable()
    ensures nameable { (lay : Layout) (top : ℕ) (sound : Bool) → Apart lay → (m : Moment)
        → EngineInvariant lay top sound m → (l o p : ℕ) (content count print name : List ℕ)
        → CanWriteFresh lay top m l o p content count print name
        → CanNamePage lay (with_page_filled lay p content count print m).world l o p name }
{}

/// A block takes the name of a page whose count has one to spare, and the release of the old name is pushed. Its list
/// gains the content of the page, or has it as its last.
pub fn name_page()
    ensures composed { (lay : Layout) → Apart lay → (m : Moment) (l o p : ℕ) (c : List ℕ)
        → CanNamePage lay m.world l o p c → (array : ℕ → List (List ℕ))
        → NamesPage lay m (with_page_named lay l o p c array m) l o p }
    ensures frame { (lay : Layout) → Apart lay → (m : Moment) (l o p : ℕ) (c : List ℕ)
        → CanNamePage lay m.world l o p c → (array : ℕ → List (List ℕ)) → Frame lay (page_name_reach lay l p) m (with_page_named lay l o p c array m) }
    ensures kept { (lay : Layout) (top : ℕ) (sound : Bool) → Apart lay → (m : Moment)
        → EngineInvariant lay top sound m → (l o p : ℕ) (c : List ℕ) → CanNamePage lay m.world l o p c
        → (array : ℕ → List (List ℕ)) → GainsOrHolds m.array array l (m.world.cached (lay.data_page p))
        → EngineInvariant lay top sound (with_page_named lay l o p c array m) }
{}

/// A write to a fresh page: the page is filled, and the block takes its name.
pub fn a_fresh_write()
    ensures composed { (lay : Layout) (top : ℕ) (sound : Bool) → Apart lay → (m : Moment)
        → EngineInvariant lay top sound m → (l o p : ℕ) (content count print name : List ℕ)
        → CanWriteFresh lay top m l o p content count print name → (array : ℕ → List (List ℕ))
        → Gains m.array array l content
        → Writes lay top m (with_fresh_write lay l o p content count print name array m) l o p content }
    ensures frame { (lay : Layout) (top : ℕ) (sound : Bool) → Apart lay → (m : Moment)
        → EngineInvariant lay top sound m → (l o p : ℕ) (content count print name : List ℕ)
        → CanWriteFresh lay top m l o p content count print name → (array : ℕ → List (List ℕ))
        → Gains m.array array l content
        → Frame lay (both (fill_reach lay p) (page_name_reach lay l p)) m (with_fresh_write lay l o p content count print name array m) }
    ensures kept { (lay : Layout) (top : ℕ) (sound : Bool) → Apart lay → (m : Moment)
        → EngineInvariant lay top sound m → (l o p : ℕ) (content count print name : List ℕ)
        → CanWriteFresh lay top m l o p content count print name → (array : ℕ → List (List ℕ))
        → Gains m.array array l content
        → EngineInvariant lay top sound (with_fresh_write lay l o p content count print name array m) }
    ensures step { (lay : Layout) (top : ℕ) (m n : Moment) (l o p : ℕ) (content : List ℕ)
        → Writes lay top m n l o p content → Step lay top m n }
{}

/// A write to a page that holds the content: its count is one higher, and the block takes its name.
pub fn a_found_write()
    ensures composed { (lay : Layout) (top : ℕ) (sound : Bool) → Apart lay → (m : Moment)
        → EngineInvariant lay top sound m → (l o p : ℕ) (content count name : List ℕ)
        → CanWriteFound lay top m.world l o p content count name → (array : ℕ → List (List ℕ))
        → Gains m.array array l content
        → Writes lay top m (with_found_write lay l o p count name array m) l o p content }
    ensures frame { (lay : Layout) (top : ℕ) (sound : Bool) → Apart lay → (m : Moment)
        → EngineInvariant lay top sound m → (l o p : ℕ) (content count name : List ℕ)
        → CanWriteFound lay top m.world l o p content count name → (array : ℕ → List (List ℕ))
        → Gains m.array array l content
        → Frame lay (both (raise_reach lay p) (page_name_reach lay l p)) m (with_found_write lay l o p count name array m) }
    ensures kept { (lay : Layout) (top : ℕ) (sound : Bool) → Apart lay → (m : Moment)
        → EngineInvariant lay top sound m → (l o p : ℕ) (content count name : List ℕ)
        → CanWriteFound lay top m.world l o p content count name → (array : ℕ → List (List ℕ))
        → Gains m.array array l content
        → EngineInvariant lay top sound (with_found_write lay l o p count name array m) }
{}

/// A write of what the block holds, and a discard of a block with no name, change nothing but the list; and a data
/// page of count 0 is given up in one step.
pub fn one_step_commands()
    ensures same_write { (lay : Layout) (top : ℕ) (m : Moment) (l p : ℕ) → IsData lay p
        → cached_name lay m.world l ≡ p → (array : ℕ → List (List ℕ))
        → Gains m.array array l (m.world.cached (lay.data_page p)) → Step lay top m (record m { array = array }) }
    ensures empty_discard { (lay : Layout) (top : ℕ) (m : Moment) (l : ℕ) → cached_name lay m.world l ≡ 0
        → (array : ℕ → List (List ℕ)) → Gains m.array array l lay.zero_block
        → Step lay top m (record m { array = array }) }
    ensures gives_up { (lay : Layout) (top : ℕ) (m : Moment) (p : ℕ) → IsData lay p → cached_count lay m.world p ≡ 0
        → Step lay top m (in_state (given_up (lay.data_page p) m.world) m) }
{}
