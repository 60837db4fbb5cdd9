//! What the answers of a coordinator say, and how long grants and wins last.
#![tactic(auto)]

ghost use Rattle.sc_commit.specs.CommitLaws.{DeniedExactly, GrantedHolds, HoldersStay, OverExactly, WinnersHeld, WinnersStay};

/// The laws of answers: when each of them comes. A call does nothing.
pub fn laws_of_answers()
    ensures over { OverExactly }
    ensures denied { DeniedExactly }
    ensures granted { GrantedHolds }
{}

/// The laws of grants: a grant lasts until its holder ends, only a holder wins, and for good. A
/// call does nothing.
pub fn laws_of_grants()
    ensures holders { HoldersStay }
    ensures winners { WinnersHeld }
    ensures for_good { WinnersStay }
{}
