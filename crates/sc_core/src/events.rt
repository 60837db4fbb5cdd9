//! What happens to a core.
#![tactic(auto)]

use sc_ids::{AttemptId, ExecId, FailureCause, Fault, Loc};

/// How a report ends an attempt.
#[derive(Clone, Copy, Debug, PartialEq, Eq)]
pub enum Outcome {
    /// Its map output is there.
    Map(Loc),
    /// Its partition's result is there.
    Result,
    /// It failed.
    Failed(FailureCause),
}

/// What a call on the files came to.
#[derive(Clone, Copy, Debug, PartialEq, Eq)]
pub enum FileOutcome {
    /// It is done.
    Done,
    /// It failed.
    Failed(Fault),
}

/// What happens to a core beside the reports: it ends no attempt and wins no result, and of the
/// stages it changes alone whether a partition is held back.
#[derive(Clone, Copy, Debug, PartialEq, Eq)]
pub enum SideEvent {
    /// An executor leaves early, and takes part in this job no more.
    Leave {
        /// The executor.
        exec: ExecId,
    },
    /// The clock was read.
    Tick {
        /// What it showed, in milliseconds.
        now: u64,
    },
    /// An attempt of a save has written its output aside, or tried to.
    Stage {
        /// The attempt.
        attempt: AttemptId,
        /// What the call came to.
        wrote: FileOutcome,
    },
    /// An attempt of a save asks whether it may commit.
    Ask {
        /// The attempt.
        attempt: AttemptId,
    },
    /// An attempt of a save has moved its output to where it counts, or tried to.
    Move {
        /// The attempt.
        attempt: AttemptId,
        /// What the call came to.
        renamed: FileOutcome,
    },
}

/// What happens to a core.
#[derive(Clone, Copy, Debug, PartialEq, Eq)]
pub enum Event {
    /// An executor asks for a task.
    Take {
        /// The executor.
        exec: ExecId,
    },
    /// A report of an attempt comes.
    Post {
        /// The attempt.
        attempt: AttemptId,
        /// What it reports.
        outcome: Outcome,
    },
    /// A report that was to be told later is told.
    Release {
        /// Its key.
        key: u32,
    },
    /// An executor is told lost.
    TellLost {
        /// The executor.
        exec: ExecId,
    },
    /// Something happens beside the reports.
    Side(SideEvent),
}
