//! The laws, on functions that do nothing.
#![tactic(auto)]

ghost use Rattle.sc_causes.specs.Inputs.{MissingInputsWereLost};
ghost use Rattle.sc_causes.specs.Losses.{EmptyPlansLoseNone, PlannedLossesAlone};
ghost use Rattle.sc_causes.specs.Raises.{RaisesLeaveNoValue};

/// Where what a task of a job is to compute raises, what the job is for never has an outcome by the
/// sequential meaning; nor has an action whose node reads the sort that a job finds bounds for.
pub fn raises_leave_no_value()
    ensures { RaisesLeaveNoValue }
{}

/// Where every executor was told lost, the plan loses each of them, and each loss was due; a plan
/// without lines loses none.
pub fn planned_losses_alone()
    ensures planned { PlannedLossesAlone }
    ensures empty { EmptyPlansLoseNone }
{}

/// Where a task is handed out without a place for an input, the output was lost since it was
/// registered there last, which is the evidence of a failure for a missing input.
pub fn missing_inputs_were_lost()
    ensures { MissingInputsWereLost }
{}
