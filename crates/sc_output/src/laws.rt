//! What holds of names and of commits.
#![tactic(auto)]

ghost use Rattle.sc_base.specs.Saves.{NoneUnderBoth, SavesKeepApart};
ghost use Rattle.sc_output.specs.NameLaws.{NamesDiffer, NamesLieWithin};
ghost use Rattle.sc_output.specs.Names.{IsWithinTypes};
ghost use Rattle.sc_output.specs.Saved.{AbortedIsEmpty, CommitsStayWithin, CommittedIsSaved, StopsLeave};

use sc_ids::AttemptId;

/// What a commit needs to know of the numbers of each winner. A call does nothing.
pub fn is_within_types(attempt: AttemptId)
    ensures { IsWithinTypes attempt }
{}

/// The laws of names: which differ, and which directories they lie in. A call does nothing.
pub fn laws_of_names()
    ensures differ { NamesDiffer }
    ensures within { NamesLieWithin }
    ensures apart { NoneUnderBoth }
{}

/// The laws of commits: what stands behind one that was through, behind one that stopped, and
/// behind an abort. A call does nothing.
pub fn laws_of_commits()
    ensures saved { CommittedIsSaved }
    ensures aborted { AbortedIsEmpty }
    ensures within { CommitsStayWithin }
    ensures stopped { StopsLeave }
    ensures apart { SavesKeepApart }
{}
