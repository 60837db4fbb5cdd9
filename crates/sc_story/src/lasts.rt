//! What was told of attempts, and how the last attempt of a task ended.
#![tactic(auto)]

use sc_core::Outcome;
use sc_ids::{AttemptId, ExecId, FailureCause, Loc};

/// A report of an attempt.
#[derive(Clone, Copy)]
pub(crate) struct Report {
    pub(crate) attempt: AttemptId,
    pub(crate) outcome: Outcome,
}

/// A failure that was told, in the job of a number.
#[derive(Clone, Copy)]
pub(crate) struct Failure {
    pub(crate) attempt: AttemptId,
    pub(crate) cause: FailureCause,
}

/// How the last attempt of a task ended, as far as it was told.
#[derive(Clone, Copy)]
pub(crate) enum Last {
    /// It is out in an attempt of its stage, on this executor.
    Out(u64, ExecId),
    /// It failed.
    Failed(FailureCause),
    /// Its map output lies there, or lay there.
    Made(Loc),
    /// Its result was taken.
    Finished,
}

/// Why a task was handed out once more.
#[derive(Clone, Copy, PartialEq)]
pub(crate) enum Reason {
    /// A store that had its output, or what it reads, was wiped.
    Wiped,
    /// The executor of that store, or the one that it was out on, was told lost.
    Lost,
    /// The fault plan made it fail.
    Planned,
    /// An expression raised.
    Raised,
    /// A call on files failed.
    Device,
    /// It might not commit.
    Denied,
    /// Its stage was tried again while it was out.
    Stage,
    /// A second copy of it was begun.
    Copy,
}

impl Reason {
    /// Why, in words.
    pub(crate) fn words(self) -> &'static str {
        match self {
            Reason::Wiped => "since a store was wiped",
            Reason::Lost => "since an executor was lost",
            Reason::Planned => "after a planned failure",
            Reason::Raised => "after a raise",
            Reason::Device => "after a call on files that failed",
            Reason::Denied => "that might not commit",
            Reason::Stage => "with their stage, while they were out",
            Reason::Copy => "as a copy of one that was out",
        }
    }
}

impl Last {
    /// How an attempt ended that reports this.
    pub(crate) fn of(outcome: Outcome) -> Last {
        match outcome {
            Outcome::Map(loc) => Last::Made(loc),
            Outcome::Result => Last::Finished,
            Outcome::Failed(cause) => Last::Failed(cause),
        }
    }

    /// Why the task is handed out once more in an attempt of its stage, where these executors were
    /// told lost.
    pub(crate) fn reason(self, stage_attempt: u64, lost: &[ExecId]) -> Reason {
        match self {
            Last::Out(_, exec) if lost.contains(&exec) => Reason::Lost,
            Last::Out(number, _) if number == stage_attempt => Reason::Copy,
            Last::Out(_, _) | Last::Finished => Reason::Stage,
            Last::Made(loc) => reason_of_loss(loc.exec, lost),
            Last::Failed(cause) => reason_of_failure(cause, lost),
        }
    }
}

/// Why the task of an attempt that failed is handed out once more.
fn reason_of_failure(cause: FailureCause, lost: &[ExecId]) -> Reason {
    match cause {
        FailureCause::Planned => Reason::Planned,
        FailureCause::Raised(_) => Reason::Raised,
        FailureCause::Device(_) => Reason::Device,
        FailureCause::Denied => Reason::Denied,
        FailureCause::Gone { exec, .. } => reason_of_loss(exec, lost),
        FailureCause::Metadata { last } => reason_of_loss(last.exec, lost),
    }
}

/// What became of an executor's store.
fn reason_of_loss(exec: ExecId, lost: &[ExecId]) -> Reason {
    if lost.contains(&exec) {
        Reason::Lost
    } else {
        Reason::Wiped
    }
}
