//! What is read of the stages of a job.
#![tactic(auto)]

ghost use Rattle.std.specs.Prelude.{◌≡◌, ◌-◌, length};
ghost use Rattle.sc_base.specs.Lists.{at_or};
ghost use Rattle.sc_dag.specs.DagData.{is_live_set, no_stage, stage_at};
ghost use Rattle.sc_dag.specs.Reports.{set_of};
ghost use Rattle.sc_dag.specs.Rows.{stages_of};

use crate::dags::Dag;
use crate::rows::StageRow;
use crate::stages::{parents_at, target_at};
use sc_ids::{AttemptId, Limits, StageId, Target};

impl Dag {
    /// The limits of the run.
    pub fn limits(&self) -> Limits
        ensures { result ≡ self.now.0.limits }
    {
        self.limits
    }

    /// The number of the last stage, which is the result stage of a job.
    pub fn last_stage(&self) -> StageId
        ensures { result ≡ length self.now.0.stages - 1 }
    {
        self.rows.len().saturating_sub(1) as u32
    }

    /// What the tasks of a stage make.
    pub fn target(&self, stage: StageId) -> Target
        ensures { result ≡ (stage_at self.now.0 stage).target }
    {
        target_at(&self.rows, stage)
    }

    /// How many tasks a stage has: none where its number isn't one of the job.
    pub fn tasks(&self, stage: StageId) -> u32
        ensures { result ≡ (stage_at self.now.0 stage).tasks }
    {
        tasks_at(&self.rows, stage)
    }

    /// The stages whose outputs a stage reads, in order.
    pub fn parents(&self, stage: StageId) -> &[StageId]
        ensures { result.now ≡ (stage_at self.now.0 stage).parents }
    {
        parents_at(&self.rows, stage as usize)
    }

    /// Whether the stage's attempt that an attempt is of hands out tasks.
    pub fn hands_out(&self, attempt: AttemptId) -> bool
        ensures { result ≡ is_live_set (set_of self.now.0 attempt) }
    {
        match self.rows.get(attempt.stage as usize) {
            Some(row) => row.hands_out(attempt.stage_attempt),
            None => false,
        }
    }
}

/// How many tasks a stage has.
fn tasks_at(rows: &[StageRow], stage: StageId) -> u32
    ensures { result ≡ (at_or (stages_of rows.now) stage no_stage).tasks }
{
    match rows.get(stage as usize) {
        Some(row) => row.stage().tasks(),
        None => 0,
    }
}
