//! What holds of the files of attempts, call by call.
#![tactic(auto)]

ghost use Rattle.sc_staging.specs.Laws.{AbortLeaves, CommitSaves, FilesStand, WaysGoOn};

/// Which files of attempts stand behind each call. A call does nothing.
pub fn laws_of_files()
    ensures { FilesStand }
{}

/// A save under way stays one, call by call. A call does nothing.
pub fn laws_of_ways()
    ensures { WaysGoOn }
{}

/// What a commit and an abort leave of what attempts did. A call does nothing.
pub fn laws_of_saves()
    ensures saved { CommitSaves }
    ensures aborted { AbortLeaves }
{}
