//! What is said of a task.
#![tactic(auto)]

use sc_ids::ExecId;

/// Whether a partition was told finished in a set, and by whom.
#[derive(Clone, Copy, Debug, PartialEq, Eq)]
pub enum Finish {
    /// No success was told.
    Unfinished,
    /// An attempt of the set succeeded on this executor.
    OnExecutor(ExecId),
    /// An attempt of an older set of the stage succeeded.
    InOlderSet,
}

/// An attempt that runs.
#[derive(Clone, Copy, Debug, PartialEq, Eq)]
pub struct RunningCopy {
    /// Its number among the attempts of its partition in the set, from 0.
    pub nth: u32,
    /// Where it runs.
    pub exec: ExecId,
    /// When it was handed out, in milliseconds.
    pub started: u64,
}

/// What was handed out.
#[derive(Clone, Copy, Debug, PartialEq, Eq)]
pub struct GivenTask {
    /// The partition.
    pub partition: u32,
    /// How many attempts of it the set had handed out before.
    pub nth: u32,
}

/// What a failure means for the job.
#[derive(Clone, Copy, Debug, PartialEq, Eq)]
pub enum Verdict {
    /// The partition may be tried again.
    Again,
    /// The partition failed as often as is allowed in one set.
    Limit,
}
