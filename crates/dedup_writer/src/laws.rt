// What a crate above may use of what a store stands for. Each function is a law: it does nothing, and its
// contract holds.
ghost use Rattle.std.specs.Prelude.{◌≡◌, ◌<◌, ◌≤◌, ℕ, List};
ghost use Rattle.page_device.specs.Block.{Block};
ghost use Rattle.page_device.specs.Disk.{newest};
ghost use Rattle.page_device.specs.Meaning.{Meaning};
ghost use Rattle.page_device.specs.Moments.{EachImage};
ghost use Rattle.page_layout.specs.Tables.{shape_of, count_of};
ghost use Rattle.array_model.specs.Images.{Mode, EachPage, left_mode, stat_of, block_of};
ghost use Rattle.array_model.specs.Array.{BlockArray, MayBeLeft, IsAmong, last, writes_nothing};
ghost use Rattle.dedup_writer.specs.Core.{CoreView, shape_in, stat_in};
ghost use Rattle.dedup_writer.specs.Stands.{StandsFor, IsInStep, Weakens};
ghost use Rattle.dedup_writer.specs.Calls.{AllCounted};

/// Each image that a crash may leave now is good, and each of its blocks reads what the array allows.
pub fn store_images()
    ensures { (mode : Mode) (core : CoreView) (d : Meaning) (a : BlockArray) → StandsFor mode core d a
        → EachImage (MayBeLeft (left_mode mode) (shape_in core).blocks a writes_nothing) d.state }
{}

/// A store that stands for an array where more is asked of its image also does where less is asked; and it
/// stands for each array that allows more, with the same last contents and the same blocks mapped.
pub fn store_weaker()
    ensures mode { (mode less : Mode) (core : CoreView) (d : Meaning) (a : BlockArray) → Weakens mode less → StandsFor mode core d a → StandsFor less core d a }
    ensures lists { (mode : Mode) (core : CoreView) (d : Meaning) (a b : BlockArray)
        → ((block : ℕ) (content : Block) → IsAmong content (a.lists block) → IsAmong content (b.lists block))
        → ((block : ℕ) → last b block ≡ last a block) → ((block : ℕ) → b.mapped block ≡ a.mapped block)
        → StandsFor mode core d a → StandsFor mode core d b }
{}

/// As long as the device has counted no fault, nothing is pending between two calls: each image that a
/// crash may leave is the newest one, and each block of it reads its last content.
pub fn store_settled()
    ensures image { (core : CoreView) (d : Meaning) → IsInStep core d → EachImage (λ image. image ≡ newest d.state) d.state }
    ensures reads { (mode : Mode) (core : CoreView) (d : Meaning) (a : BlockArray) → StandsFor mode core d a → IsInStep core d
        → (block : ℕ) → block < (shape_in core).blocks → block_of (newest d.state) block ≡ last a block }
{}

/// As long as the device has counted no fault, the numbers of the store are those of the newest pages; and
/// where each data page is counted, it is so in each image that a crash may leave.
pub fn store_stat()
    ensures shape { (mode : Mode) (core : CoreView) (d : Meaning) (a : BlockArray) → StandsFor mode core d a → IsInStep core d → shape_of (newest d.state) ≡ shape_in core }
    ensures numbers { (mode : Mode) (core : CoreView) (d : Meaning) (a : BlockArray) → StandsFor mode core d a → IsInStep core d → stat_in core ≡ stat_of (newest d.state) }
    ensures counted { (mode : Mode) (core : CoreView) (d : Meaning) (a : BlockArray) → StandsFor mode core d a → IsInStep core d → AllCounted core
        → EachImage (λ image. EachPage image (λ p. 1 ≤ count_of image p)) d.state }
{}
