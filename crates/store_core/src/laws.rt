// Laws of what a core stands for.
ghost use Rattle.std.specs.Prelude.{◌≡◌, ◌<◌, ℕ, List, Bool, true, false};
ghost use Rattle.page_device.specs.Block.{Block};
ghost use Rattle.page_device.specs.Disk.{IsImage};
ghost use Rattle.page_device.specs.Meaning.{Meaning};
ghost use Rattle.page_layout.specs.Shape.{ShapeView};
ghost use Rattle.page_layout.specs.Tables.{shape_of};
ghost use Rattle.order_model.specs.Contents.{IsAmong};
ghost use Rattle.dep_graph.specs.Lists.{is_node};
ghost use Rattle.array_model.specs.Images.{IsGood, block_of};
ghost use Rattle.engine_model.specs.Contents.{Last};
ghost use Rattle.store_core.specs.declared.Core.{Core};
ghost use Rattle.engine_model.specs.Invariant.{EngineInvariant, Moment};
ghost use Rattle.store_core.specs.Frames.{KeepsStands};
ghost use Rattle.store_core.specs.Layout.{lay_of, top};
ghost use Rattle.store_core.specs.Moments.{IsMomentOf, Moves};
ghost use Rattle.store_core.specs.Weaker.{Extends, mode_of};
ghost use Rattle.store_core.specs.Stands.{IsFit, StandsFor};

/// Whatever a crash leaves of the device's present state is fit for each array that the core stands for.
pub fn images_are_fit()
    ensures { (sound : Bool) (d : Meaning) (core : Core) (array : ℕ → List Block) (image : List Block) → StandsFor sound d core array → IsImage d.state image → IsFit core.shape sound array image }
{}

/// An image that is fit for an array is one that mounts with no repair, and a sound one where prints are to be true. It has the
/// same shape, and each block of it reads a content of its list.
pub fn image_is_good()
    ensures shape { (shape : ShapeView) (sound : Bool) (array : ℕ → List Block) (image : List Block) → IsFit shape sound array image → shape_of image ≡ shape }
    ensures good { (shape : ShapeView) (sound : Bool) (array : ℕ → List Block) (image : List Block) → IsFit shape sound array image → IsGood (mode_of sound) image }
    ensures reads { (shape : ShapeView) (sound : Bool) (array : ℕ → List Block) (image : List Block) → IsFit shape sound array image → (l : ℕ) → l < shape.blocks → IsAmong (block_of image l) (array l) }
{}

/// A core stands for less, too: where prints need not be true, and where blocks have longer lists with the same last members.
pub fn weaker()
    ensures fit { (d : Meaning) (core : Core) (array : ℕ → List Block) → StandsFor true d core array → StandsFor false d core array }
    ensures longer { (sound : Bool) (d : Meaning) (core : Core) (array longer : ℕ → List Block) → ((l : ℕ) → l < core.shape.blocks → Extends (array l) (longer l)) → StandsFor sound d core array → StandsFor sound d core longer }
{}

/// Where no page is dirty or hung, as after a flush, each block of each image reads the last of its list.
pub fn settled()
    ensures { (sound : Bool) (d : Meaning) (core : Core) (array : ℕ → List Block) (image : List Block) → StandsFor sound d core array → ((a : ℕ) → is_node core.engine.graph a ≡ false) → IsImage d.state image
        → (l : ℕ) → l < core.shape.blocks → (c : Block) → Last (array l) c → block_of image l ≡ c }
{}

/// A core that stands for an array is a moment of the laws over it. And whatever moment of the same shape a later core is that keeps
/// the engine invariant, it stands for the array of that moment.
pub fn moments_stand()
    ensures moment { (sound : Bool) (d : Meaning) (core : Core) (array : ℕ → List Block) → StandsFor sound d core array → (m : Moment) × IsMomentOf d core m × (m.array ≡ array) × EngineInvariant (lay_of core.shape) top sound m }
    ensures stands { (sound : Bool) (d : Meaning) (old new : Core) (array : ℕ → List Block) (m : Moment) → StandsFor sound d old array → new.shape ≡ old.shape → IsMomentOf d new m → EngineInvariant (lay_of old.shape) top sound m → StandsFor sound d new m.array }
{}

/// Where a step of the laws that keeps the engine invariant leads from each moment that a core was to one that it is, the same arrays
/// stand.
pub fn moves_stand()
    ensures { (old new : Core) → new.shape ≡ old.shape → Moves (λ m n. (sound : Bool) → EngineInvariant (lay_of old.shape) top sound m → EngineInvariant (lay_of old.shape) top sound n) old new → KeepsStands old new }
{}
