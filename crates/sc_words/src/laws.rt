//! What holds of all words.
#![tactic(auto)]

ghost use Rattle.sc_words.specs.Words.{FlagAsksForCopies, NamesAreCommands};

/// The law that `run` and a name that doesn't begin with `-` are a command: the run of that script
/// with no option set.
pub fn names_are_commands()
    ensures { NamesAreCommands }
{}

/// The law that the flag `--speculation` behind them is a command too: the same run, but a slow
/// task may get a second copy.
pub fn flag_asks_for_copies()
    ensures { FlagAsksForCopies }
{}
