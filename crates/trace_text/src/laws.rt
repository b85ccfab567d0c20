// What follows from the definitions alone. A law does nothing, and its contract holds.
ghost use Rattle.std.specs.Prelude.{◌≡◌, ℕ, List};
ghost use Rattle.trace_text.specs.Grammar.{IsCommand};
ghost use Rattle.trace_text.specs.declared.command.Command.{Command};

/// A line is one command at most.
pub fn one_line_is_one_command()
    ensures { (line : List ℕ) (c d : Command) → IsCommand line c → IsCommand line d → c ≡ d }
{}
