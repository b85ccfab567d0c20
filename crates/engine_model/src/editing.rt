//! Edits of the cache: every command, release and correction is an instance.

ghost use Rattle.std.specs.Prelude.{◌≡◌, ◌≢◌, ◌<◌, ℕ, List, Bool};
ghost use Rattle.order_model.specs.Calls.{Call};
ghost use Rattle.order_model.specs.declared.Slot.{Slot};
ghost use Rattle.engine_model.specs.Births.{AllDirty, BirthKnown, Edit, Leads, cached_value, told};
ghost use Rattle.engine_model.specs.Contents.{ContentsInvariant};
ghost use Rattle.engine_model.specs.Counts.{CountsInvariant};
ghost use Rattle.engine_model.specs.Edits.{CacheOnly, ContentEdits, Edits, Grown};
ghost use Rattle.order_model.specs.World.{IsData, Layout, World};
ghost use Rattle.engine_model.specs.Entries.{cached_count};
ghost use Rattle.engine_model.specs.Invariant.{EngineInvariant, Moment, ToldBirths, ToldPool};
ghost use Rattle.order_model.specs.Pool.{Told, after_take, after_zeroed};
ghost use Rattle.engine_model.specs.Pool.{PoolExact, PoolKnows, PossibleStays};

/// Edits that bring their edges and releases keep each part of the invariant.
pub fn edits()
    ensures counts { (lay : Layout) (top : ℕ) (w v : World) → CountsInvariant lay top w → Edits lay top w v
        → CountsInvariant lay top v }
    ensures contents { (lay : Layout) (top : ℕ) (sound : Bool) (before after : ℕ → List (List ℕ)) (w v : World)
        → CountsInvariant lay top w → ContentsInvariant lay sound before w → ContentEdits lay sound before after w v
        → ContentsInvariant lay sound after v }
    ensures births { (lay : Layout) (w v : World) (calls : List Call) (edits : List Edit) (slot : Slot)
        → BirthKnown lay w calls slot → CacheOnly lay w v → AllDirty v edits
        → Leads lay slot edits (cached_value lay w slot) (cached_value lay v slot)
        → BirthKnown lay v (told edits calls) slot }
    ensures pool { (lay : Layout) (m n : Moment) → CacheOnly lay m.world n.world → ToldPool lay m n → (q : ℕ)
        → IsData lay q → PoolKnows lay m.world (m.pool q) q → PoolKnows lay n.world (n.pool q) q }
    ensures pool_taken { (lay : Layout) (w v : World) (pool : ℕ → Told) (p q : ℕ) → CacheOnly lay w v
        → (q ≡ p → 0 < cached_count lay v q) → (q ≢ p → cached_count lay v q ≡ cached_count lay w q)
        → PoolKnows lay w (pool q) q → PoolKnows lay v (after_take p pool q) q }
    ensures pool_zeroed { (lay : Layout) (w v : World) (pool : ℕ → Told) (p q : ℕ) → CacheOnly lay w v
        → (q ≡ p → cached_count lay v q ≡ 0) → (q ≢ p → cached_count lay v q ≡ cached_count lay w q)
        → PoolKnows lay w (pool q) q → PoolKnows lay v (after_zeroed p pool q) q }
    ensures pool_is_exact { (lay : Layout) (w v : World) (told now : Told) (p : ℕ) → PoolExact lay w told p
        → v.newest (lay.count_page p) ≡ w.newest (lay.count_page p) → PossibleStays w v → now.tried ≡ told.tried
        → now.newest ≡ told.newest → PoolExact lay v now p }
    ensures whole { (lay : Layout) (top : ℕ) (sound : Bool) (m n : Moment) → EngineInvariant lay top sound m
        → Edits lay top m.world n.world → ContentEdits lay sound m.array n.array m.world n.world → ToldBirths lay m n
        → ToldPool lay m n → EngineInvariant lay top sound n }
{}

/// Pages are touched, counts are raised or edges are added, in any number at once, and no entry of another kind
/// changes.
pub fn growth()
    ensures counts { (lay : Layout) (top : ℕ) (w v : World) → CountsInvariant lay top w → Grown lay top w v
        → CountsInvariant lay top v }
{}
