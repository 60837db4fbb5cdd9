//! What the stages of a job mean for each shuffle and for each stage.
#![tactic(auto)]

ghost use Rattle.sc_stagecut.specs.CutLaws.{CutsAreLawful};

/// The laws of cuts: exactly the shuffles that the node reaches have a map stage, those that had
/// one keep it, the parents of a stage are those of the shuffles that its tasks read and have
/// smaller numbers, and what is carried on serves the next job. A call does nothing.
pub fn laws_of_cuts()
    ensures { CutsAreLawful }
{}
