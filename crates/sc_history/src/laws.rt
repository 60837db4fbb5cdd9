//! Laws of journals, as functions that do nothing.
#![tactic(auto)]

ghost use Rattle.sc_history.specs.Budgets.{BudgetsAreShown, HandOutsAreCounted, LimitsStay};
ghost use Rattle.sc_history.specs.Charges.{FailedAttemptsAreCharged, StepsCharge};
ghost use Rattle.sc_history.specs.Committing.{GrantsAreSole, SavesStay, WinnersCommit};
ghost use Rattle.sc_history.specs.Evidence.{TaskLimitsAreShown};
ghost use Rattle.sc_history.specs.Fresh.{TakesAreFresh};
ghost use Rattle.sc_history.specs.Given.{HeardAreGiven, RunningAreGiven};
ghost use Rattle.sc_history.specs.Losses.{LossesAreShown, NoExecutorsAreShown};
ghost use Rattle.sc_history.specs.Openings.{OpeningsAgree, OpeningsMakeRoom};
ghost use Rattle.sc_history.specs.Results.{ResultsAreOnce};
ghost use Rattle.sc_history.specs.Rooms.{ReplaysKeepRoom, StepsKeepRoom};
ghost use Rattle.sc_history.specs.Ruling.{BogusStays, EventsForgetAtOne, OthersForgetNone, ReplaysGoForward};
ghost use Rattle.sc_history.specs.StageEvidence.{StageLimitsAreShown};
ghost use Rattle.sc_history.specs.Stands.{StandsAreTold};
ghost use Rattle.sc_history.specs.Tellings.{ReportsArePosted};
ghost use Rattle.sc_history.specs.Trackers.{EpochsCount, StepsCountEpochs, StepsTrack};

/// A job begins in one way. A call does nothing.
pub fn openings_agree()
    ensures { OpeningsAgree }
{}

/// Room for outputs of shuffles is made where a job begins, and stays as it is. A call does
/// nothing.
pub fn room_is_kept()
    ensures openings { OpeningsMakeRoom }
    ensures steps { StepsKeepRoom }
    ensures replays { ReplaysKeepRoom }
{}

/// A core counts the tasks that it hands out, and a job that is aborted by its budget shows as many
/// as it may hand out. A call does nothing.
pub fn hand_outs_are_counted()
    ensures counted { HandOutsAreCounted }
    ensures limits { LimitsStay }
    ensures budget { BudgetsAreShown }
{}

/// A report that is heard was posted, whenever it is told. A call does nothing.
pub fn reports_are_posted()
    ensures { ReportsArePosted }
{}

/// A job that is aborted for failures shows them in its entries, and one that is aborted for want
/// of executors ends with every executor told lost. A call does nothing.
pub fn aborts_are_shown()
    ensures task_limit { TaskLimitsAreShown }
    ensures stage_limit { StageLimitsAreShown }
    ensures no_executor { NoExecutorsAreShown }
{}

/// An executor that is lost in the end was lost where the job began, or an entry tells it. A call
/// does nothing.
pub fn losses_are_shown()
    ensures { LossesAreShown }
{}

/// No attempt is handed out twice. A call does nothing.
pub fn takes_are_fresh()
    ensures { TakesAreFresh }
{}

/// What runs was handed out to the executor that asked, and so was each attempt of which a report
/// is heard. A call does nothing.
pub fn running_are_given()
    ensures running { RunningAreGiven }
    ensures heard { HeardAreGiven }
{}

/// What is known of map outputs changes by registrations and by two kinds of events alone, and the
/// epoch counts these events. A call does nothing.
pub fn epochs_count()
    ensures steps { StepsTrack }
    ensures rises { StepsCountEpochs }
    ensures journals { EpochsCount }
{}

/// What is heard of an executor is never taken back: an event that forgets outputs forgets those of
/// one executor, and rules out for good what was handed out there before. A call does nothing.
pub fn what_is_heard_stays()
    ensures forward { ReplaysGoForward }
    ensures bogus { BogusStays }
    ensures forgets { EventsForgetAtOne }
    ensures others { OthersForgetNone }
{}

/// Each attempt of a stage that fails is charged to an event of its own, also once it counts no
/// more. A call does nothing.
pub fn failures_are_charged()
    ensures steps { StepsCharge }
    ensures journals { FailedAttemptsAreCharged }
{}

/// No partition gets its result twice, and in a job that is done each one of the result stage has
/// it. A call does nothing.
pub fn results_are_once()
    ensures { ResultsAreOnce }
{}

/// No two attempts of a partition hold a grant, and who has won was granted it, moved its output
/// and told its success, in this order and with its grant held from the first to the last. A call
/// does nothing.
pub fn grants_are_sole()
    ensures sole { GrantsAreSole }
    ensures winners { WinnersCommit }
{}

/// A job saves in the end exactly where it did as it began. A call does nothing.
pub fn saves_stay()
    ensures { SavesStay }
{}

/// What stands of the output of an attempt is a function of the entries. A call does nothing.
pub fn stands_are_told()
    ensures { StandsAreTold }
{}
