// What a pool knows, as a function of its calls.
ghost use Rattle.std.specs.Prelude.{◌∷◌, List};
ghost use Rattle.order_model.specs.World.{Layout};
ghost use Rattle.page_layout.specs.Shape.{ShapeView};
ghost use Rattle.page_alloc.specs.Calls.{PoolCall, after_call, told_by};
ghost use Rattle.page_alloc.specs.Pool.{IsTold, PoolView, told_of};

/// What a pool knows is a function of the list of its calls. A new one was told by none (`told_by`), and
/// what the contract of a call says of the pool before it is what one call more says of the whole list.
pub fn calls_tell()
    ensures { (shape : ShapeView) (lay : Layout) (calls : List PoolCall) (call : PoolCall) (old new : PoolView)
        → IsTold shape (told_by lay calls) old → IsTold old.shape (after_call lay call (told_of old)) new
        → IsTold shape (told_by lay (call ∷ calls)) new }
{}
