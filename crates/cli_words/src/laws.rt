//! What follows from the definitions alone. A law does nothing, and its contract holds.

ghost use Rattle.std.specs.Prelude.{◌≡◌, ℕ, List};
ghost use Rattle.cli_words.specs.Grammar.{Means};
ghost use Rattle.cli_words.specs.declared.jobs.Job.{Job};

/// Words mean one job at most.
pub fn words_are_one_job()
    ensures { (words : List (List ℕ)) (i j : Job) → Means words i → Means words j → i ≡ j }
{}
