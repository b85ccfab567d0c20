// What holds of every cache, and what an edit leaves.
ghost use Rattle.std.specs.Prelude.{◌≡◌, ℕ, ◌<◌, None, false};
ghost use Rattle.page_device.specs.Block.{Block};
ghost use Rattle.page_cache.specs.View.{CacheView, content_in, dirty_in, holds_in};
ghost use Rattle.page_cache.specs.Calls.{Edited};
ghost use Rattle.page_cache.specs.Lending.{with_content};

/// A held page that was lent to be edited is dirty, has the content that was left in it, and is held as often; nothing else of
/// the cache changes.
pub fn edits_one_page()
    ensures { (c : CacheView) (page : ℕ) (block : Block) → 0 < holds_in c page → Edited c (with_content c page block) page block }
{}

/// A page that is not there is not dirty, and nobody holds it.
pub fn absent_is_unmarked()
    ensures { (c : CacheView) (q : ℕ) → content_in c q ≡ None → (holds_in c q ≡ 0) × (dirty_in c q ≡ false) }
{}
