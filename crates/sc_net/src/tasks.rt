//! Tasks.
#![tactic(auto)]

ghost use Rattle.std.specs.Prelude.{◌≡◌, ◌↔◌, IfOk, IsTrue};
ghost use Rattle.std.specs.Cmp.{partial_equiv_from_equiv};
ghost use Rattle.sc_net.specs.Equality.{same_task, tasks_are_equal};
ghost use Rattle.sc_net.specs.Tasks.{IsTaskOf, block_left, block_of_task, is_planned, task_data};

use crate::same::same_hand_out;
use sc_core::HandOut;
use sc_ids::{AttemptId, BlockId, Target};
use sc_jobs::Job;
use sc_work::{Naming, SharedWork};
use std::alloc::AllocError;
use std::marker::Model;

/// A task of a job, as it is handed out to an executor: by its type it is one of the job's, and it
/// has a location for each block that it reads.
#[derive(Drop)]
pub struct Task<W: Naming> {
    work: SharedWork<W>,
    job: Job<W>,
    hand_out: HandOut,
}

impl<W: Naming> Model for Task<W> {
    ghost use Rattle.sc_net.specs.Tasks.{IsTaskOf, TaskData, task_code, task_data};

    ghost Value = { TaskData };

    ghost coded = { task_code };

    ghost view = { λ t. task_data t.job t.hand_out };

    ghost invariant = { λ t. IsTaskOf t.job t.hand_out };
}

impl<W: Naming> Task<W> {
    /// What was handed out of a job's tasks.
    pub fn new(work: SharedWork<W>, job: Job<W>, hand_out: HandOut) -> Task<W>
        requires task { IsTaskOf job hand_out }
        ensures { result ≡ task_data job hand_out }
    {
        Task {
            work,
            job,
            hand_out,
        }
    }

    /// The same task again, which copies nothing of it.
    pub fn share(&self) -> Result<Task<W>, AllocError>
        ensures { IfOk result (λ t. t ≡ self.now) }
    {
        Ok(Task {
            work: self.work.share()?,
            job: self.job.share()?,
            hand_out: self.hand_out.share()?,
        })
    }

    /// The work.
    pub fn work(&self) -> &SharedWork<W>
        ensures { result.now ≡ W.work }
    {
        self.work.is_named();
        &self.work
    }

    /// The job that it is of.
    pub fn job(&self) -> &Job<W>
        ensures { result.now ≡ self.now.job }
    {
        &self.job
    }

    /// What was handed out with it.
    pub fn hand_out(&self) -> &HandOut
        ensures { result.now ≡ self.now.hand_out }
    {
        &self.hand_out
    }

    /// Which attempt it is.
    pub fn attempt(&self) -> AttemptId
        ensures { result ≡ self.now.hand_out.attempt }
    {
        self.hand_out.attempt()
    }

    /// The block that it leaves, where it is one of a map stage.
    pub fn block(&self) -> Option<BlockId>
        ensures { result ≡ block_of_task self.now }
    {
        let attempt = self.attempt();
        match self.job.stage(attempt.stage) {
            Some(stage) => block_left(stage.target(), attempt.partition),
            None => None,
        }
    }

    /// Whether the fault plan fails the attempt.
    pub fn is_planned(&self) -> bool
        ensures { result ≡ is_planned W.work self.now }
    {
        self.work.is_named();
        self.work.get().plan().fails(&self.attempt())
    }

    /// Whether it is what was handed out so, of this job.
    pub fn is_of(&self, job: &Job<W>, hand_out: &HandOut) -> bool
        ensures value { result ≡ same_task self.now (task_data job.now hand_out.now) }
        ensures same { IsTrue result ↔ (self.now ≡ task_data job.now hand_out.now) }
    {
        self.has_parts(job, hand_out)
    }

    /// The same, by a test of its parts.
    fn has_parts(&self, job: &Job<W>, hand_out: &HandOut) -> bool
        ensures { result ≡ same_task self.now (task_data job.now hand_out.now) }
    {
        same_hand_out(&self.hand_out, hand_out) && self.job == *job
    }

    /// What it is by its type: a task of its job.
    pub fn is_task(&self)
        ensures { IsTaskOf self.now.job self.now.hand_out }
    {
        let _ = &self.hand_out;
    }
}

/// The block that a task of a partition leaves, where it is one of a map stage.
fn block_left(target: Target, map: u32) -> Option<BlockId>
    ensures { result ≡ block_left target map }
{
    match target {
        Target::Map(shuffle) => Some(BlockId { shuffle, map }),
        Target::Result { .. } => None,
    }
}

impl<W: Naming> PartialEq for Task<W> {
    ghost eq = { same_task };

    ghost laws = { partial_equiv_from_equiv tasks_are_equal };

    /// Whether two tasks are one attempt of one job, given out in one epoch with the same inputs.
    fn eq(&self, other: &Task<W>) -> bool
        ensures value { result ≡ same_task self.now other.now }
        ensures same { IsTrue result ↔ (self.now ≡ other.now) }
    {
        self.is_of(&other.job, &other.hand_out)
    }
}
