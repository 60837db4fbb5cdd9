//! What may begin new attempts of stages, and what is lost.
#![tactic(auto)]

ghost use Rattle.std.specs.Prelude.{◌≡◌, true};
ghost use Rattle.sc_dag.specs.Losses.{after_lost, after_seen};
ghost use Rattle.sc_dag.specs.Reports.{CompletesMap, FailsStage, has_failed_often};
ghost use Rattle.sc_dag.specs.Rows.{is_submitted};
ghost use Rattle.sc_dag.specs.Submission.{IsSubmitted, this_stage};

use crate::attempts::AttemptChange;
use crate::changes::RowChange;
use crate::dags::Dag;
use crate::fates::{Submitted, submit};
use crate::stages::{failed_count_at, lose_all};
use crate::uncounted::unregister;
use sc_ids::{ExecId, Generation, StageId};
use sc_taskset::Verdict;
use std::marker::Brand;
use std::sync::ledger::Blank;

impl Dag {
    /// Submits a stage: unless it is complete it gets a new attempt, or it waits and the parents
    /// that are missing are submitted in its stead. It takes no memory.
    pub fn submit(&mut self, stage: StageId)
        requires { self.old.1 ≡ true }
        ensures { IsSubmitted self.old.0 (this_stage stage) self.new.0 }
    {
        self.submit_all(Submitted::Stage(stage));
    }

    /// A map stage is complete: its failed attempts are forgotten, and all stages that wait are
    /// looked at again. It takes no memory.
    pub fn map_done(&mut self, stage: StageId)
        requires { self.old.1 ≡ true }
        ensures { CompletesMap self.old.0 stage self.new.0 }
    {
        self.change(stage, RowChange::Complete);
        self.submit_all(Submitted::Waiting);
    }

    /// An attempt of a stage failed. Unless too many did, the stage is submitted again. It takes no
    /// memory. It is told of the newest attempt alone, and only for an event that came after that
    /// began: that keeps what holds of every job.
    pub fn stage_failed(&mut self, stage: StageId, number: u64) -> Verdict
        requires { self.old.1 ≡ true }
        ensures { FailsStage self.old.0 stage number result self.new.0 }
    {
        self.change(stage, RowChange::Own(number, AttemptChange::Failed));
        if self.has_failed_often(stage) {
            return Verdict::Limit;
        }
        self.submit_all(Submitted::Stage(stage));
        Verdict::Again
    }

    /// Whether so many attempts of a stage failed that the job is aborted.
    fn has_failed_often(&self, stage: StageId) -> bool
        ensures { result ≡ has_failed_often self.now.0 stage }
    {
        failed_count_at(&self.rows, stage) >= self.limits.stage_attempts as usize
    }

    /// Submits stages.
    fn submit_all(&mut self, submitted: Submitted)
        requires { self.old.1 ≡ true }
        ensures { IsSubmitted self.old.0 (is_submitted submitted self.old.0) self.new.0 }
    {
        submit(
            &mut self.rows,
            &mut self.fates,
            &self.tracker,
            self.limits,
            submitted,
        );
    }

    /// A fetch has shown this generation of an executor's store: where it is a newer one, the
    /// executor's outputs are forgotten.
    pub fn raise_seen(&mut self, exec: ExecId, found: Generation)
        ensures state { self.new.0 ≡ after_seen self.old.0 exec found }
        ensures ready { self.new.1 ≡ self.old.1 }
    {
        self.tracker.raise_seen(exec, found);
    }

    /// An executor is told lost: its outputs are forgotten, and what ran on it runs no more.
    pub fn tell_lost(&mut self, exec: ExecId)
        ensures state { self.new.0 ≡ after_lost self.old.0 exec }
        ensures ready { self.new.1 ≡ self.old.1 }
    {
        unregister::<Brand>(&mut self.tracker, exec, Blank::new(1));
        lose_all(&mut self.rows, exec);
    }
}
