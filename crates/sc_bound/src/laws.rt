//! Laws, as functions that do nothing.
#![tactic(auto)]

ghost use Rattle.sc_bound.specs.Accounts.{AccountsAreKept, LeftIsBounded, LeftIsNeeded, StepsKeepAccounts};
ghost use Rattle.sc_bound.specs.Charged.{EpochsArePlanned, FailedAttemptsArePlanned};
ghost use Rattle.sc_bound.specs.Freed.{FreesAreBounded, GivenIsBounded};
ghost use Rattle.sc_bound.specs.Given.{BoundsAreKept};
ghost use Rattle.sc_bound.specs.Handed.{HandedIsGiven};
ghost use Rattle.sc_bound.specs.Losses.{EventsArePlanned, LossesArePlanned};
ghost use Rattle.sc_bound.specs.Suffice.{BudgetsSuffice, ExecutorsSuffice, StageAttemptsSuffice};

/// No more executors are lost, and outputs are forgotten no more often, than a plan says. A call
/// does nothing.
pub fn losses_are_planned()
    ensures lost { LossesArePlanned }
    ensures events { EventsArePlanned }
    ensures cores { EpochsArePlanned }
{}

/// No more attempts of a stage fail than the plan lets outputs be forgotten, also of those that
/// count no more. A call does nothing.
pub fn failed_attempts_are_planned()
    ensures { FailedAttemptsArePlanned }
{}

/// A task set hands a partition out twice, and twice more for each entry that frees it, whatever
/// happens; what it may hand out before anything is told is counted in. A call does nothing.
pub fn accounts_are_kept()
    ensures steps { StepsKeepAccounts }
    ensures journals { AccountsAreKept }
    ensures needed { LeftIsNeeded }
    ensures left { LeftIsBounded }
{}

/// A job counts as many hand-outs as its task sets do. A call does nothing.
pub fn hand_outs_are_given()
    ensures { HandedIsGiven }
{}

/// A partition of a task set is freed no more often than the limits, the plan and the older sets of
/// its stage allow, and so handed out no more often. A call does nothing.
pub fn frees_are_bounded()
    ensures frees { FreesAreBounded }
    ensures given { GivenIsBounded }
{}

/// Where the task sets of each stage are as few as the bound has it, a job hands out no more tasks
/// than the bound. A call does nothing.
pub fn bounds_are_kept()
    ensures { BoundsAreKept }
{}

/// Limits that leave room for what a plan does to a job don't abort it. A call does nothing.
pub fn limits_suffice()
    ensures stages { StageAttemptsSuffice }
    ensures executors { ExecutorsSuffice }
    ensures budget { BudgetsSuffice }
{}
