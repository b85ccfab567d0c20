//! A page that the pool gives has count 0 in the cache and in every possible content of its count page.

ghost use Rattle.std.specs.Prelude.{◌≡◌, ℕ, Bool, true};
ghost use Rattle.order_model.specs.World.{IsData, Layout, World};
ghost use Rattle.engine_model.specs.Invariant.{EngineInvariant, Moment};
ghost use Rattle.engine_model.specs.Known.{Free};
ghost use Rattle.order_model.specs.Pool.{IsLowest, Told, is_free};
ghost use Rattle.engine_model.specs.Pool.{PoolExact, PoolKnows};

/// What the pool gives is free, and as long as no write of a count page failed it gives every page that is free.
pub fn free()
    ensures free { (lay : Layout) (w : World) (told : Told) (p : ℕ) → PoolKnows lay w told p → is_free told ≡ true
        → Free lay w p }
    ensures lowest { (lay : Layout) (w : World) (pool : ℕ → Told) (p : ℕ)
        → ((q : ℕ) → IsData lay q → PoolKnows lay w (pool q) q) → IsLowest lay pool p → Free lay w p }
    ensures every_free { (lay : Layout) (w : World) (told : Told) (p : ℕ) → PoolKnows lay w told p
        → PoolExact lay w told p → Free lay w p → is_free told ≡ true }
    ensures whole { (lay : Layout) (top : ℕ) (sound : Bool) (m : Moment) → EngineInvariant lay top sound m → (p : ℕ)
        → IsData lay p → is_free (m.pool p) ≡ true → Free lay m.world p }
{}
