//! What a core answers.
#![tactic(auto)]

ghost use Rattle.std.specs.Prelude.{◌≡◌, IfOk, false};
ghost use Rattle.sc_core.specs.Owners.{IsThrice, has_task};

use crate::running::HandOut;
use sc_ids::{AttemptId, ExecId, Fault, StageId};
use std::alloc::AllocError;

/// Why a job was aborted.
#[derive(Clone, Copy, Debug, PartialEq, Eq)]
pub enum Abort {
    /// A partition failed as often as is allowed in one attempt of its stage.
    TaskLimit {
        /// The stage.
        stage: StageId,
        /// The attempt of the stage.
        stage_attempt: u64,
        /// The partition.
        partition: u32,
    },
    /// As many attempts of a stage failed as are allowed without a completion between.
    StageLimit {
        /// The stage.
        stage: StageId,
    },
    /// Every executor was told lost.
    NoExecutor,
    /// As many tasks were handed out as a job may.
    Budget,
}

/// How far a job is.
#[derive(Clone, Copy, Debug, PartialEq, Eq)]
pub enum JobState {
    /// It runs.
    Running,
    /// Each partition has its result.
    Done,
    /// It was aborted.
    Aborted(Abort),
}

/// What is answered to what happens beside the reports.
#[derive(Clone, Copy, Debug, PartialEq, Eq)]
pub enum SideAnswer {
    /// The job has ended, and nothing changes.
    Ignored,
    /// The executor has left. Whoever asks from now on is stopped.
    Left,
    /// The time is noted, unless it was later before.
    Ticked,
    /// The attempt has no such step to take, and nothing changes.
    Over,
    /// The attempt's output is written aside.
    Staged,
    /// The attempt may commit.
    Granted,
    /// The attempt may not commit.
    Denied {
        /// The attempt that holds the grant, or has won.
        by: AttemptId,
    },
    /// The attempt's output is where it counts.
    Moved,
    /// The call on the files failed.
    Fault(Fault),
}

/// What a core answers.
#[derive(Drop)]
pub enum Answer {
    /// A task is handed out.
    Task(HandOut),
    /// There is no task now; this attempt is under way.
    Wait {
        /// The attempt that is waited for.
        out: AttemptId,
    },
    /// The executor has a task already.
    Busy {
        /// Its attempt.
        held: AttemptId,
    },
    /// The executor was told lost, or is none of the run.
    Lost,
    /// An executor left early.
    Stopped {
        /// The first that did.
        exec: ExecId,
    },
    /// The job has ended.
    Ended,
    /// The job is aborted by this event.
    Aborted(Abort),
    /// The report was of no running attempt, or came after the job's end.
    Ignored,
    /// The executor is told lost.
    Told,
    /// The report is to be told later.
    Shelved,
    /// The success changes nothing but that its attempt has ended.
    Repeated,
    /// The map output is registered.
    Registered,
    /// The map output may be lost already, and isn't registered.
    Bogus,
    /// The partition has its result.
    Finished,
    /// The attempt failed, and its partition may be tried again.
    Again,
    /// The attempt of the stage failed, and the stage was submitted again.
    Resubmitted,
    /// What happened beside the reports is answered so.
    Side(SideAnswer),
}

/// The answer to an event that isn't enabled: a report that doesn't fit its running attempt, a
/// release where no report of the key is to be told later, or a loss that isn't due.
#[derive(Clone, Copy, Debug, PartialEq, Eq)]
pub struct NotEnabled;

/// An answer that hands out no task, once more.
fn copied(answer: &Answer) -> Answer
    requires { has_task answer.now ≡ false }
    ensures { result ≡ answer.now }
{
    match answer {
        Answer::Task(_) => unreachable!(),
        Answer::Wait { out } => Answer::Wait { out: *out },
        Answer::Busy { held } => Answer::Busy { held: *held },
        Answer::Lost => Answer::Lost,
        Answer::Stopped { exec } => Answer::Stopped { exec: *exec },
        Answer::Ended => Answer::Ended,
        Answer::Aborted(why) => Answer::Aborted(*why),
        Answer::Ignored => Answer::Ignored,
        Answer::Told => Answer::Told,
        Answer::Shelved => Answer::Shelved,
        Answer::Repeated => Answer::Repeated,
        Answer::Registered => Answer::Registered,
        Answer::Bogus => Answer::Bogus,
        Answer::Finished => Answer::Finished,
        Answer::Again => Answer::Again,
        Answer::Resubmitted => Answer::Resubmitted,
        Answer::Side(said) => Answer::Side(*said),
    }
}

/// What a step answers, for three owners: the journal, the caller, and the executor's log.
#[derive(Drop)]
pub struct Stepped {
    /// For the journal.
    pub answer: Answer,
    /// For the caller.
    pub twin: Answer,
    /// For the executor's log.
    pub log: Answer,
}

impl Stepped {
    /// An answer that hands out no task. It takes no memory.
    pub(crate) fn plain(answer: Answer) -> Stepped
        requires { has_task answer ≡ false }
        ensures { IsThrice result answer }
    {
        let twin = copied(&answer);
        let log = copied(&answer);
        Stepped { answer, twin, log }
    }

    /// A task that is handed out.
    pub(crate) fn task(hand_out: HandOut) -> Result<Stepped, AllocError>
        ensures { IfOk result (λ s. IsThrice s (Answer.Task hand_out)) }
    {
        let twin = Answer::Task(hand_out.share()?);
        let log = Answer::Task(hand_out.share()?);
        let answer = Answer::Task(hand_out);
        Ok(Stepped { answer, twin, log })
    }
}
