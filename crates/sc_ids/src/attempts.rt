//! Stages, executors and attempts.
#![tactic(auto)]

use std::fmt;

/// The number of a stage, from 0 over the whole run.
pub type StageId = u32;

/// The number of an executor, from 0.
pub type ExecId = u32;

/// A task that was handed out once: which one of which attempt of its stage.
#[derive(Clone, Copy, Debug, PartialEq, Eq)]
pub struct AttemptId {
    /// The stage.
    pub stage: StageId,
    /// The number of the stage's attempt, from 0.
    pub stage_attempt: u64,
    /// The partition that it is to compute.
    pub partition: u32,
    /// How many attempts of this partition were handed out before it in this stage attempt.
    pub nth: u32,
}

impl fmt::Display for AttemptId {
    ghost use Rattle.std.specs.Prelude.{Some};
    ghost use Rattle.sc_ids.specs.Attempts.{attempt_text};

    ghost output = { λ attempt. Some (attempt_text attempt) };

    fn fmt<W: fmt::Write>(&self, f: &mut fmt::Formatter<W>) -> fmt::Result {
        let stage = self.stage;
        let stage_attempt = self.stage_attempt;
        let partition = self.partition;
        let nth = self.nth;
        write!(f, "{stage}.{stage_attempt}.{partition}.{nth}")
    }
}

/// Who made an entry of the journal.
#[derive(Clone, Copy, Debug, PartialEq, Eq)]
pub enum Mark {
    /// An executor.
    Exec(ExecId),
    /// The driver.
    Driver,
}
