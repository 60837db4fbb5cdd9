//! An executor asks for a task.
#![tactic(auto)]

ghost use Rattle.std.specs.Prelude.{◌≡◌, IfOk, OnErr};
ghost use Rattle.sc_desk.specs.Takes.{IsGivable, IsNeverStuck, IsTaken, Takes, TakesLogged, WaitsForOthers};

use crate::desks::Desk;
use crate::shelves::clear_after_end;
use sc_base::OrMemory;
use sc_core::{Abort, Answer, Event};
use sc_ids::{AttemptId, ExecId, Mark};
use sc_jobs::Job;
use sc_net::Task;
use sc_work::{Naming, SharedWork};
use std::alloc::AllocError;

/// What an executor that asks for a task gets.
#[derive(Drop)]
pub enum Taken<W: Naming> {
    /// A task.
    Task(Task<W>),
    /// There is no task now; this attempt is under way.
    Wait {
        /// The attempt that is waited for.
        out: AttemptId,
    },
    /// The executor has a task already.
    Busy {
        /// Its attempt.
        held: AttemptId,
    },
    /// The executor was told lost, or is none of the run.
    Lost,
    /// An executor left early.
    Stopped {
        /// The first that did.
        exec: ExecId,
    },
    /// The job has ended.
    Ended,
    /// The job is aborted by this call.
    Aborted(Abort),
}

/// What an executor that asks for a task gets, and what the core answered, for the log.
#[derive(Drop)]
pub struct Logged<W: Naming> {
    /// What it gets.
    pub taken: Taken<W>,
    /// What the core answered.
    pub answer: Answer,
}

impl<W: Naming> Desk<W> {
    /// An executor asks for a task. It gets what the core answers, with an entry. A refused call
    /// changes nothing.
    pub fn take(&mut self, by: Mark, exec: ExecId) -> Result<Taken<W>, AllocError>
        ensures taken { IfOk result (λ t. Takes self.old by exec t self.new) }
        ensures waits { IfOk result (λ t. WaitsForOthers self.old exec t) }
        ensures never_stuck { IfOk result (λ t. IsNeverStuck self.old exec t) }
        ensures refused { OnErr result (self.new ≡ self.old) }
    {
        let Logged { taken, .. } = self.take_logged(by, exec)?;
        Ok(taken)
    }

    /// The same for a caller who keeps a log of answers too.
    pub fn take_logged(&mut self, by: Mark, exec: ExecId) -> Result<Logged<W>, AllocError>
        ensures taken { IfOk result
            (λ l. TakesLogged self.old by exec l.taken l.answer self.new) }
        ensures waits { IfOk result (λ l. WaitsForOthers self.old exec l.taken) }
        ensures never_stuck { IfOk result (λ l. IsNeverStuck self.old exec l.taken) }
        ensures refused { OnErr result (self.new ≡ self.old) }
    {
        let work = self.work.share()?;
        let job = self.job.share()?;
        self.journal.core().is_sound();
        self.journal.is_replay();
        match self.journal.enter_logged(by, Event::Take { exec }) {
            Ok(entered) => {
                clear_after_end(&mut self.shelf, self.journal.core());
                Ok(Logged {
                    taken: told(work, job, entered.answer),
                    answer: entered.log,
                })
            }
            Err(OrMemory::OutOfMemory) => Err(AllocError),
            Err(OrMemory::Fault(_)) => unreachable!(),
        }
    }
}

/// What the core's answer is for an executor.
fn told<W: Naming>(work: SharedWork<W>, job: Job<W>, answer: Answer) -> Taken<W>
    requires { IsGivable job answer }
    ensures { IsTaken job result answer }
{
    match answer {
        Answer::Task(hand_out) => Taken::Task(Task::new(work, job, hand_out)),
        Answer::Wait { out } => Taken::Wait { out },
        Answer::Busy { held } => Taken::Busy { held },
        Answer::Lost => Taken::Lost,
        Answer::Stopped { exec } => Taken::Stopped { exec },
        Answer::Ended => Taken::Ended,
        Answer::Aborted(why) => Taken::Aborted(why),
        Answer::Ignored | Answer::Repeated | Answer::Registered => unreachable!(),
        Answer::Bogus | Answer::Finished | Answer::Again | Answer::Resubmitted => unreachable!(),
        Answer::Shelved | Answer::Told | Answer::Side(_) => unreachable!(),
    }
}
