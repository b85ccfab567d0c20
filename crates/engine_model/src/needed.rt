//! Counterexamples: what goes wrong without a premise.

ghost use Rattle.std.specs.Prelude.{false};
ghost use Rattle.order_model.specs.Paths.{Closes};
ghost use Rattle.engine_model.specs.Counterexamples.{WeakContents, after_overwrite, discarded_array, overwritten, small, stale, stale_array, stale_flushed, torn_image};
ghost use Rattle.engine_model.specs.Counts.{CountsInvariant};
ghost use Rattle.engine_model.specs.DeviceSteps.{MovesMarks, Taken};
ghost use Rattle.engine_model.specs.Images.{ContentsFit, CrashImage};
ghost use Rattle.engine_model.specs.PassExamples.{crossed, two_ways};
ghost use Rattle.engine_model.specs.SmallSteps.{given_up, ordered};

/// Why the contents' part asks that a page named on the device is not dirty, and that a clean data page is cached
/// as it was written.
pub fn added_facts_are_needed()
    ensures overwritten { CountsInvariant small 5 overwritten × WeakContents small false discarded_array overwritten
        × Taken overwritten after_overwrite 4 × MovesMarks small overwritten after_overwrite 4
        × CrashImage after_overwrite torn_image × (ContentsFit small false torn_image discarded_array → ⊥) }
    ensures stale { CountsInvariant small 5 stale × WeakContents small false stale_array stale
        × (WeakContents small false stale_flushed stale → ⊥) }
{}

/// If an edge led to a data page, giving it up could take a way along: what was blocked would be blocked no more.
pub fn give_up_needs_no_edge()
    ensures unblocked { Closes crossed.live 1 2 × (Closes (given_up 4 crossed).live 1 2 → ⊥) }
{}

/// A pass may leave a release that was not blocked when it began: each of the edges from 1 to 3 and from 2 to 4 closes
/// nothing, and where the one stands the other does. So the order of pushing decides.
pub fn order_decides()
    ensures first { Closes two_ways.live 1 3 → ⊥ }
    ensures second { Closes two_ways.live 2 4 → ⊥ }
    ensures after_first { Closes (ordered 1 3 two_ways).live 2 4 }
{}
