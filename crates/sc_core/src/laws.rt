//! Laws of cores, as functions that do nothing.
#![tactic(auto)]

ghost use Rattle.sc_core.specs.Laws.{AsksAreOver, DoneJobsAreWhole, EventsAreAnswered, FirstHasLive, NeverStuck, NoExecutorsAreLeft, OpeningsAreSound, ReplaysAgree, ReplaysKeepSound, SideEventsStayAside, SoundCoresLeaveWell, StageLimitsAreReached, StepsAgree, StepsAreSpent, StepsKeepSound, TaskLimitsAreReached, UnregisteredLeaveWell, WaitsHaveCause};
ghost use Rattle.sc_core.specs.Openings.{OpeningsAreSubmissions};
ghost use Rattle.sc_core.specs.Waits.{WaitsAreForOthers};

/// An event has one answer and leaves one state, and so a journal does. A call does nothing.
pub fn steps_have_one_answer()
    ensures steps { StepsAgree }
    ensures replays { ReplaysAgree }
{}

/// What holds of a core is kept, whatever happens; in the first job of a run somebody is live. A
/// call does nothing.
pub fn cores_are_sound()
    ensures first { FirstHasLive }
    ensures begins { OpeningsAreSound }
    ensures steps { StepsKeepSound }
    ensures replays { ReplaysKeepSound }
{}

/// What a job leaves serves the job behind it, with what is registered or with nothing. A call does
/// nothing.
pub fn cores_leave_well()
    ensures sound { SoundCoresLeaveWell }
    ensures unregistered { UnregisteredLeaveWell }
{}

/// A job begins with its result stage submitted, and before that nothing has happened. A call does
/// nothing.
pub fn jobs_begin_unsubmitted()
    ensures { OpeningsAreSubmissions }
{}

/// A job never sticks: each event that is enabled has an answer, who waits waits for an attempt
/// that is under way elsewhere, and where none is there is a task. A call does nothing.
pub fn jobs_never_stick()
    ensures answered { EventsAreAnswered }
    ensures waits { WaitsHaveCause }
    ensures others { WaitsAreForOthers }
    ensures never_stuck { NeverStuck }
    ensures spent { StepsAreSpent }
{}

/// A job ends as it says: done with the result of each partition, or aborted for so many failures,
/// or for want of executors. A call does nothing.
pub fn ends_are_as_told()
    ensures done { DoneJobsAreWhole }
    ensures task_limit { TaskLimitsAreReached }
    ensures stage_limit { StageLimitsAreReached }
    ensures no_executor { NoExecutorsAreLeft }
{}

/// In a save who asks is over exactly where it doesn't come next. A call does nothing.
pub fn asks_are_over()
    ensures { AsksAreOver }
{}

/// What happens beside the reports changes none of what they rest on. A call does nothing.
pub fn side_events_stay_aside()
    ensures { SideEventsStayAside }
{}
