//! Laws, as functions that do nothing.
#![tactic(auto)]

ghost use Rattle.sc_epochs.specs.ApartLaws.{AttemptsAreApart, AttemptsAreFew, AttemptsArePlanned, OpeningsAreApart, OutputsWereThere, StagesArePlanned, StepsKeepApart};
ghost use Rattle.sc_epochs.specs.Between.{StaleWereForgotten};
ghost use Rattle.sc_epochs.specs.Desks.{AgainGoesForward, DesksForgetAsPlanned};
ghost use Rattle.sc_epochs.specs.Laws.{BeginningsFindStale, EpochsFindBogus, StepsFindStale, WorldsFindStale};
ghost use Rattle.sc_epochs.specs.Serial.{BeginningsComeAbout, ReachedComeAbout, RoomSuffices, SerialRunsSurvive};
ghost use Rattle.sc_epochs.specs.Surviving.{BoundsNeedNoMore, FewLossesAbortNone, HandOutsAreBounded, SparedExecutorsGoOn};

use sc_world::worlds_stay_sound;

/// In a world the epoch of its task finds each map output that may be lost already, whatever was
/// wiped, lost, delayed or doubled; so it alone rules out each one that is answered bogus. A call
/// does nothing.
pub fn epochs_find_stale()
    ensures begins { BeginningsFindStale }
    ensures steps { StepsFindStale }
    ensures worlds { WorldsFindStale }
    ensures bogus { EpochsFindBogus }
{
    worlds_stay_sound();
}

/// Outputs were forgotten between the Take and the success of each attempt whose map output is
/// answered bogus in a world. A call does nothing.
pub fn stale_were_forgotten()
    ensures { StaleWereForgotten }
{
    worlds_stay_sound();
}

/// A desk forgets outputs no more often than its plan allows, over all jobs of a run, and nothing
/// goes back where a job begins again that was given up. A call does nothing.
pub fn desks_forget_as_planned()
    ensures planned { DesksForgetAsPlanned }
    ensures again { AgainGoesForward }
{}

/// What a map stage lacks in a world, and its newest task set doesn't want, was lost since that set
/// began. A call does nothing.
pub fn outputs_were_there()
    ensures begins { OpeningsAreApart }
    ensures steps { StepsKeepApart }
    ensures worlds { OutputsWereThere }
{
    worlds_stay_sound();
}

/// Outputs are forgotten between any two attempts of a stage in a world's job, so a stage has one,
/// and one more at most each time that outputs are forgotten, which is no more often than the plan
/// allows. A call does nothing.
pub fn attempts_are_apart()
    ensures order { AttemptsAreApart }
    ensures few { AttemptsAreFew }
    ensures planned { AttemptsArePlanned }
{
    worlds_stay_sound();
}

/// So each stage of a world's job has one attempt at most, and one for each planned loss. A call
/// does nothing.
pub fn stages_have_few_attempts()
    ensures { StagesArePlanned }
{
    worlds_stay_sound();
}

/// A job in a world has handed out no more tasks than the bound, whatever the plan does to it. A
/// call does nothing.
pub fn hand_outs_are_bounded()
    ensures { HandOutsAreBounded }
{
    worlds_stay_sound();
}

/// What a job in a world survives: no budget aborts it that is as high as the bound, no failed
/// attempts of a stage where the plan's losses are fewer than these may be, and no want of
/// executors where the plan leaves one. A call does nothing.
pub fn jobs_survive()
    ensures budget { BoundsNeedNoMore }
    ensures stages { FewLossesAbortNone }
    ensures executors { SparedExecutorsGoOn }
{
    worlds_stay_sound();
}

/// What holds of the worlds that a job comes to holds of what a serial run leaves, as some steps in
/// a row do: it has handed out no more tasks than the bound, and where the limits leave room for
/// what the plan does, its job is done, or was aborted for the failures of one of its tasks. A call
/// does nothing.
pub fn serial_runs_survive()
    ensures begins { BeginningsComeAbout }
    ensures reached { ReachedComeAbout }
    ensures room { RoomSuffices }
    ensures serial { SerialRunsSurvive }
{
    worlds_stay_sound();
}
