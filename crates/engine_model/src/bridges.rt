//! From what code holds, lists and bytes, to the functions of the plain state.

ghost use Rattle.std.specs.Prelude.{◌≡◌, ◌≢◌, ◌⊎◌, ◌↔◌, ◌++◌, ◌∷◌, cond, ◌≤◌, ◌*◌, ◌+◌, ◌-◌, ◌/◌, ◌%◌, ◌&&◌, ◌||◌, not, eqb, [], ℕ, List, Bool, Option, Some, false, true, get_or, length};
ghost use Rattle.engine_model.specs.Bytes.{layout_of, print_entry, with_bytes, with_number};
ghost use Rattle.engine_model.specs.Counts.{Covered};
ghost use Rattle.engine_model.specs.CoveredCount.{is_covered};
ghost use Rattle.engine_model.specs.DeviceSteps.{IsReady, Taken};
ghost use Rattle.engine_model.specs.Disk.{InRange, IsOver, newest_on, older_on};
ghost use Rattle.page_device.specs.Disk.{DeviceState, IsImage, settled, written};
ghost use Rattle.order_model.specs.Edges.{Edge, has_barred, has_live, is_live};
ghost use Rattle.engine_model.specs.EdgeList.{after_add, after_barrier, after_drop, after_wrote};
ghost use Rattle.order_model.specs.World.{IsData, Layout, Possible, World};
ghost use Rattle.engine_model.specs.Entries.{Apart};
ghost use Rattle.engine_model.specs.Images.{CrashImage};
ghost use Rattle.order_model.specs.Paths.{Closes, IsAcyclic};
ghost use Rattle.engine_model.specs.SmallSteps.{SetsCount, SetsName, SetsPrint};
ghost use Rattle.order_model.specs.Counting.{AtMost, count_below};
ghost use Rattle.order_model.specs.Contents.{IsAmong};

/// What a read gives and what a crash may leave, over the lists of a device.
pub fn disk_lists()
    ensures write_here { (d : DeviceState) (page : ℕ) (c : List ℕ) → newest_on (written d page c) page ≡ c }
    ensures write_other { (d : DeviceState) (page other : ℕ) (c : List ℕ) → other ≢ page
        → newest_on (written d page c) other ≡ newest_on d other }
    ensures newest { (d : DeviceState) (page a : ℕ) (c : List ℕ)
        → newest_on (written d page c) a ≡ cond (eqb a page) c (newest_on d a) }
    ensures older { (d : DeviceState) (page a : ℕ) (c : List ℕ)
        → older_on (written d page c) a ≡ older_on d a ++ cond (eqb a page) (c ∷ []) [] }
    ensures write_older { (d : DeviceState) (page other : ℕ) (c x : List ℕ) → IsAmong x (older_on (written d page c) other)
        → IsAmong x (older_on d other) ⊎ ((other ≡ page) × (x ≡ c)) }
    ensures flush_newest { (d : DeviceState) (page : ℕ) → InRange (length d.fixed) d.since
        → newest_on (settled d) page ≡ newest_on d page }
    ensures flush_older { (d : DeviceState) (page : ℕ) (x : List ℕ) → InRange (length d.fixed) d.since
        → IsAmong x (older_on (settled d) page) → x ≡ newest_on d page }
    ensures image { (d : DeviceState) (image : List (List ℕ)) (page : ℕ) → IsImage d image
        → IsAmong (get_or image page []) (older_on d page) }
{}

/// A write and a barrier on the lists are those of the plain state over them, and an image of the lists is one of
/// the state.
pub fn disk_steps()
    ensures taken { (d : DeviceState) (w v : World) (page : ℕ) → IsOver d w → IsOver (written d page (w.cached page)) v
        → IsReady w page → ((other : ℕ) → v.cached other ≡ w.cached other) → Taken w v page }
    ensures fixed { (d : DeviceState) (w v : World) (page : ℕ) → IsOver d w → IsOver (settled d) v
        → InRange (length d.fixed) d.since
        → (v.newest page ≡ w.newest page) × ((c : List ℕ) → Possible v page c → c ≡ w.newest page) }
    ensures image { (d : DeviceState) (w : World) (image : List (List ℕ)) → IsOver d w → IsImage d image
        → CrashImage w (λ page. get_or image page []) }
{}

/// The edges of a list after each call of a graph, and that no edge less and no edge that closes nothing makes a
/// cycle.
pub fn edge_lists()
    ensures live_wrote { (es : List Edge) (page a b : ℕ)
        → has_live (after_wrote page es) a b ≡ has_live es a b && not (eqb a page) }
    ensures barred_wrote { (es : List Edge) (page a b : ℕ)
        → has_barred (after_wrote page es) a b ≡ has_barred es a b || (has_live es a b && eqb a page) }
    ensures live_barrier { (es : List Edge) (a b : ℕ) → has_live (after_barrier es) a b ≡ has_live es a b }
    ensures barred_barrier { (es : List Edge) (a b : ℕ) → has_barred (after_barrier es) a b ≡ false }
    ensures live_added { (e : Edge) (es : List Edge) (a b : ℕ)
        → has_live (after_add e es) a b ≡ (eqb e.before a && (eqb e.after b && is_live e.kind)) || has_live es a b }
    ensures barred_added { (e : Edge) (es : List Edge) (a b : ℕ)
        → has_barred (after_add e es) a b ≡ (eqb e.before a && (eqb e.after b && not (is_live e.kind))) || has_barred es a b }
    ensures live_dropped { (es : List Edge) (page a b : ℕ)
        → has_live (after_drop page es) a b ≡ has_live es a b && not (eqb a page) }
    ensures barred_dropped { (es : List Edge) (page a b : ℕ) → has_barred (after_drop page es) a b ≡ has_barred es a b }
    ensures fewer { (live less : ℕ → ℕ → Bool) → ((a b : ℕ) → less a b ≡ true → live a b ≡ true) → IsAcyclic live
        → IsAcyclic less }
    ensures more { (live more extra : ℕ → ℕ → Bool)
        → ((a b : ℕ) → more a b ≡ true → (live a b ≡ true) ⊎ (extra a b ≡ true)) → IsAcyclic live
        → ((a b x y : ℕ) → extra a b ≡ true → extra x y ≡ true → Closes live a y → ⊥) → IsAcyclic more }
{}

/// The layout over bytes: its pages are apart, and what is put in the bytes of an entry changes that entry alone.
pub fn entry_bytes()
    ensures apart { (blocks pages : ℕ) (well_formed : ℕ → List ℕ → Bool) (zero : List ℕ) (finger : List ℕ → List ℕ)
        → Apart (layout_of blocks pages well_formed zero finger) }
    ensures name { (blocks pages : ℕ) (well_formed : ℕ → List ℕ → Bool) (zero : List ℕ) (finger : List ℕ → List ℕ) (c : List ℕ)
        → length c ≡ 4096 → (l p : ℕ) → well_formed (1 + l / 1024) (with_number c (4 * (l % 1024)) p) ≡ true
        → SetsName (layout_of blocks pages well_formed zero finger) c (with_number c (4 * (l % 1024)) p) l p }
    ensures count { (blocks pages : ℕ) (well_formed : ℕ → List ℕ → Bool) (zero : List ℕ) (finger : List ℕ → List ℕ) (c : List ℕ)
        → length c ≡ 4096 → (p n : ℕ) → IsData (layout_of blocks pages well_formed zero finger) p
        → well_formed ((layout_of blocks pages well_formed zero finger).count_page p) (with_number c (4 * ((p - 1) % 1024)) n) ≡ true
        → SetsCount (layout_of blocks pages well_formed zero finger) c (with_number c (4 * ((p - 1) % 1024)) n) p n }
    ensures print { (blocks pages : ℕ) (well_formed : ℕ → List ℕ → Bool) (zero : List ℕ) (finger : List ℕ → List ℕ) (c : List ℕ)
        → length c ≡ 4096 → (p : ℕ) (print : Option (List ℕ))
        → IsData (layout_of blocks pages well_formed zero finger) p
        → ((bytes : List ℕ) → print ≡ Some bytes → length bytes ≡ 20)
        → well_formed ((layout_of blocks pages well_formed zero finger).print_page p) (with_bytes c (24 * ((p - 1) % 170)) (print_entry print)) ≡ true
        → SetsPrint (layout_of blocks pages well_formed zero finger) c (with_bytes c (24 * ((p - 1) % 170)) (print_entry print)) p print }
{}

/// "At most k blocks are covered" is said of a count.
pub fn covered_is_counted()
    ensures size { (lay : Layout) (w : World) (p k : ℕ)
        → AtMost lay.blocks (Covered lay w p) k ↔ (count_below (is_covered lay w p) lay.blocks ≤ k) }
{}
