//! The scheduler of one job, before anything is said of what holds of it.
#![tactic(auto)]

ghost use Rattle.std.specs.Prelude.{◌≡◌, ◌-◌, None, length};
ghost use Rattle.std.specs.Option.{option_map};
ghost use Rattle.sc_commit.specs.declared.committers.Ending.TheVariants as endings;
ghost use Rattle.sc_core.specs.CoreData.{CoreData, ended, held_by, is_running_job, job_runs, under_way};
ghost use Rattle.sc_core.specs.Posts.{is_save};
ghost use Rattle.sc_core.specs.Tells.{released};

use crate::answers::{Abort, Answer, JobState};
use crate::attempts::first_out;
use crate::running::{Running, Shelved};
use crate::stages::Stages;
use sc_commit::{Commit, Ending};
use sc_ids::{AttemptId, ExecId};
use sc_plan::Plan;
use std::marker::Model;

/// The scheduler of one job. Its calls are held to what one event answers and leaves, from any
/// state; contracts see its data, and whether there is room for what may be submitted.
#[derive(Drop)]
pub(crate) struct State {
    pub told: u64,
    pub tick: u64,
    pub handed: u32,
    pub job: JobState,
    pub left_first: Option<ExecId>,
    pub running: Vec<Running>,
    pub shelf: Vec<Shelved>,
    pub next_key: u32,
    pub commit: Commit,
    pub stages: Stages,
    pub plan: Plan,
}

impl Model for State {
    ghost use Rattle.std.specs.Prelude.{Bool};
    ghost use Rattle.sc_core.specs.CoreData.{CoreData, core_data};

    ghost Value = { CoreData × Bool };

    ghost view = { λ s. (
      core_data s.told s.tick s.handed s.job s.left_first s.running.items
          s.shelf.items s.next_key s.commit s.stages.0 s.plan,
      s.stages.1,
    ) };
}

impl State {
    /// Whether the job runs.
    pub fn runs(&self) -> bool
        ensures { result ≡ job_runs self.now.0 }
    {
        runs(self.job)
    }

    /// The attempt that is waited for.
    pub fn under_way(&self) -> Option<AttemptId>
        ensures { result ≡ under_way self.now.0 }
    {
        match first_out(&self.running) {
            Some(attempt) => Some(attempt),
            None => match self.shelf.first() {
                Some(shelved) => Some(shelved.attempt),
                None => None,
            },
        }
    }

    /// Whether the job saves.
    pub fn is_save(&self) -> bool
        ensures { result ≡ is_save self.now.0.committers }
    {
        is_save(&self.commit)
    }

    /// Ends the job. What is to be told later is dropped.
    pub fn end(&mut self, job: JobState)
        ensures state { self.new.0 ≡ ended self.old.0 job }
        ensures ready { self.new.1 ≡ self.old.1 }
    {
        self.job = job;
        self.shelf.clear();
    }

    /// Aborts the job.
    pub fn abort(&mut self, why: Abort) -> Answer
        ensures answer { result ≡ Answer.Aborted why }
        ensures state { self.new.0 ≡ ended self.old.0 (JobState.Aborted why) }
    {
        self.end(JobState::Aborted(why));
        Answer::Aborted(why)
    }

    /// An attempt has ended: a grant that it held is freed, and its partition no longer held back.
    pub fn release(&mut self, attempt: AttemptId, how: Ending)
        ensures state { self.new.0 ≡ released self.old.0 attempt how }
        ensures ready { self.new.1 ≡ self.old.1 }
    {
        if self.commit.ended(attempt, how) {
            self.stages.held(attempt.stage, attempt.partition, false);
        }
    }
}

/// Whether a job runs.
fn runs(job: JobState) -> bool
    ensures { result ≡ is_running_job job }
{
    match job {
        JobState::Running => true,
        JobState::Done | JobState::Aborted(_) => false,
    }
}

/// Whether there is a partition to commit.
fn is_save(commit: &Commit) -> bool
    ensures { result ≡ is_save commit.now }
{
    commit.partitions() > 0
}
