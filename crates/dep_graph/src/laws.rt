// Laws of graphs that callers above cite.
ghost use Rattle.std.specs.Prelude.{◌≡◌, ◌⊎◌, ◌↔◌, ℕ, ◌<◌, ◌≤◌, Bool, true, false, List, [], length, cond};
ghost use Rattle.dep_graph.specs.Lists.{GraphLists, IsGraph, barred_in, dirty_in, hung_in, is_node, is_ready, live_in, node_count, waits_in};
ghost use Rattle.order_model.specs.Levels.{EndsAreMarked, HasLevels, IsGreatestLevel, IsNode, Marks};
ghost use Rattle.order_model.specs.Paths.{Closes, IsAcyclic};
ghost use Rattle.dep_graph.specs.Schedules.{IsComplete, Respects, Schedule, Waves, barriers, times_written};

/// Of the complete schedules that respect a graph none has fewer barriers than its greatest level. Waves, each of all ready
/// pages and a barrier, have exactly so many and write each dirty page once: where waves lead to no node, the graph has a
/// greatest level, which is their number. A node has one level.
pub fn barriers_are_fewest()
    ensures fewest { (m : Marks) (n : ℕ) (s : Schedule) → EndsAreMarked m → IsGreatestLevel m n → Respects m s → IsComplete m s → n ≤ barriers s }
    ensures waves { (m : Marks) (ns : List Marks) (n : ℕ) → EndsAreMarked m → Waves m ns → IsGreatestLevel m n → length ns ≡ n }
    ensures levels { (m : Marks) (ns : List Marks) → EndsAreMarked m → Waves m ns → IsGreatestLevel m (length ns) }
    ensures once { (p : ℕ) (m : Marks) (ns : List Marks) → Waves m ns → times_written p m ns ≡ cond (m.dirty p) 1 0 }
    ensures level { (m : Marks) (f g : ℕ → ℕ) → EndsAreMarked m → HasLevels m f → HasLevels m g → (p : ℕ) → IsNode m p → f p ≡ g p }
{}

/// Edges that are added into one page, where none of them closes a cycle alone, make no cycle together: whatever others were
/// added, none of them closes now that did not before.
pub fn edges_into_one_page()
    ensures closes { (live more : ℕ → ℕ → Bool) (page : ℕ) → ((a b : ℕ) → live a b ≡ true → more a b ≡ true) → ((a b : ℕ) → more a b ≡ true → (live a b ≡ true) ⊎ (b ≡ page))
        → (a : ℕ) → Closes more a page → Closes live a page }
    ensures acyclic { (live more : ℕ → ℕ → Bool) (page : ℕ) → ((a b : ℕ) → live a b ≡ true → more a b ≡ true) → ((a b : ℕ) → more a b ≡ true → (live a b ≡ true) ⊎ (b ≡ page))
        → IsAcyclic live → ((a : ℕ) → more a page ≡ true → (live a page ≡ true) ⊎ (Closes live a page → ⊥)) → IsAcyclic more }
{}

/// Where a page is dirty, some dirty page waits for no write. Where moreover none is hung, as after a barrier, one is ready; and
/// not all ready pages are ones from which no way of Live edges leads to that page.
pub fn some_page_is_ready()
    ensures free { (g : GraphLists) (page : ℕ) → IsGraph g → dirty_in g page ≡ true → (a : ℕ) × ((dirty_in g a ≡ true) × ((b : ℕ) → live_in g b a ≡ false)) }
    ensures ready { (g : GraphLists) (page : ℕ) → IsGraph g → g.hung ≡ [] → dirty_in g page ≡ true → (a : ℕ) × (is_ready g a ≡ true) }
    ensures serves { (g : GraphLists) (page : ℕ) → IsGraph g → g.hung ≡ [] → dirty_in g page ≡ true → ((a : ℕ) → is_ready g a ≡ true → Closes (live_in g) page a → ⊥) → ⊥ }
{}

/// A page waits where an edge of one kind or the other leads to it, from whatever page.
pub fn edges_are_waited_for()
    ensures waits { (g : GraphLists) (b : ℕ) → (waits_in g b ≡ true) ↔ ((a : ℕ) × ((live_in g a b ≡ true) ⊎ (barred_in g a b ≡ true))) }
    ensures none { (g : GraphLists) (b : ℕ) → (waits_in g b ≡ false) ↔ ((a : ℕ) → (live_in g a b ≡ false) × (barred_in g a b ≡ false)) }
    ensures ready { (g : GraphLists) (b : ℕ) → (is_ready g b ≡ true) ↔ ((dirty_in g b ≡ true) × ((a : ℕ) → (live_in g a b ≡ false) × (barred_in g a b ≡ false))) }
{}

/// The number of nodes is above 0 exactly where some page is a node, and above that of the dirty pages where one is hung alone.
pub fn nodes_are_counted()
    ensures some { (g : GraphLists) → 0 < node_count g → (a : ℕ) × (is_node g a ≡ true) }
    ensures none { (g : GraphLists) → node_count g ≡ 0 → (a : ℕ) → is_node g a ≡ false }
    ensures hung { (g : GraphLists) (a : ℕ) → dirty_in g a ≡ false → hung_in g a ≡ true → length g.dirty < node_count g }
{}
