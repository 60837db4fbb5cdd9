//! Laws of the stages of a job, as functions that do nothing.
#![tactic(auto)]

ghost use Rattle.sc_dag.specs.Laws.{CallsKeepSound, FailuresGoOn, MapSuccessesGoOn, NothingIsStuck, OpeningsAreSound, OthersGoOn, ResultSuccessesGoOn, SubmissionsAgree, SubmissionsRepeat, SubmissionsSettle};

/// A job begins sound and settled, and every call keeps it sound. A call does nothing.
pub fn stages_are_sound()
    ensures begins { OpeningsAreSound }
    ensures keeps { CallsKeepSound }
{}

/// A submission leaves one thing, whatever order it is made in, and settles what is submitted. A
/// call does nothing.
pub fn laws_of_submissions()
    ensures one { SubmissionsAgree }
    ensures again { SubmissionsRepeat }
    ensures settles { SubmissionsSettle }
{}

/// No stage is forgotten, whatever is told: it is handed out from, or it waits for one that is. So
/// a job never sticks. A call does nothing.
pub fn no_stage_is_forgotten()
    ensures maps { MapSuccessesGoOn }
    ensures results { ResultSuccessesGoOn }
    ensures failures { FailuresGoOn }
    ensures others { OthersGoOn }
    ensures never_stuck { NothingIsStuck }
{}
