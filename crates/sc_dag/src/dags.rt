//! The stages of a job while it runs.
#![tactic(auto)]

ghost use Rattle.std.specs.Prelude.{◌≡◌, OnOk, OnErr, slice_get, true};
ghost use Rattle.std.specs.Option.{option_map};
ghost use Rattle.sc_dag.specs.Changes.{state_by};
ghost use Rattle.sc_dag.specs.DagData.{is_live_set, newest_at, stage_at, with_state};
ghost use Rattle.sc_dag.specs.Offers.{IsNextTask, OffersIn, handed_out, may_be_given_in, newest_number};
ghost use Rattle.sc_dag.specs.Outputs.{is_complete};
ghost use Rattle.sc_dag.specs.Reports.{is_finished_short, is_of_newest, wants_in};

use crate::changes::RowChange;
use crate::fates::Fate;
use crate::rows::StageRow;
use crate::stages::{change_row, give_at, is_complete_at, prepare_all};
use sc_ids::{AttemptId, Epoch, ExecId, Limits, Stage, StageId};
use sc_taskset::GivenTask;
use sc_tracker::Tracker;
use std::alloc::{AllocError, Global};
use std::marker::Model;

/// The stages of a job while it runs, and where their outputs lie.
#[derive(Drop)]
pub struct Dag {
    pub(crate) alloc: Global,
    pub(crate) rows: Vec<StageRow>,
    pub(crate) fates: Vec<Fate>,
    pub(crate) tracker: Tracker,
    pub(crate) limits: Limits,
}

impl Model for Dag {
    ghost use Rattle.std.specs.Prelude.{◌≡◌, ◌≤◌, ◌^◌, Bool, length};
    ghost use Rattle.sc_dag.specs.DagData.{DagData};
    ghost use Rattle.sc_dag.specs.Rows.{AreOlder, are_ready, dag_of, stages_of};

    ghost Value = { DagData × Bool };

    ghost view = { λ d. (dag_of d.rows.items d.tracker d.limits, are_ready d.rows.items) };

    ghost invariant = { λ d. AreOlder (stages_of d.rows.items)
        × (length d.fates.items ≡ length (stages_of d.rows.items))
        × (length (stages_of d.rows.items) ≤ 2 ^ 32) };
}

impl Dag {
    /// Makes room for one more attempt of each stage, so that a submission takes no memory. Nothing
    /// that is seen of the stages changes.
    pub fn prepare(&mut self) -> Result<(), AllocError>
        ensures same { self.new.0 ≡ self.old.0 }
        ensures ready { OnOk result (self.new.1 ≡ true) }
    {
        prepare_all(&mut self.rows, self.alloc)
    }

    /// The next task for an executor: of the first stage that has one.
    pub fn next_task(&self, exec: ExecId, now: u64) -> Option<AttemptId>
        ensures { IsNextTask self.now.0 exec now result }
    {
        for k in 0..self.rows.len() {
            let stage = k as u32;
            if let Some(given) = self.offer(stage, exec, now) {
                return Some(AttemptId {
                    stage,
                    stage_attempt: self.newest_number(stage),
                    partition: given.partition,
                    nth: given.nth,
                });
            }
        }
        None
    }

    /// What the newest attempt of a stage has for an executor.
    fn offer(&self, stage: StageId, exec: ExecId, now: u64) -> Option<GivenTask>
        ensures { OffersIn (newest_at self.now.0 stage) exec now result }
    {
        match self.rows.get(stage as usize) {
            Some(row) => row.peek(exec, now),
            None => None,
        }
    }

    /// Hands out a task of the newest attempt of its stage. A refused call changes nothing.
    pub fn give(&mut self, attempt: AttemptId, exec: ExecId, now: u64) -> Result<(), AllocError>
        requires { may_be_given_in (newest_at self.old.0 attempt.stage) exec now
            attempt.partition ≡ true }
        ensures given { OnOk result (self.new.0 ≡ handed_out self.old.0 attempt exec now) }
        ensures refused { OnErr result (self.new.0 ≡ self.old.0) }
        ensures ready { self.new.1 ≡ self.old.1 }
    {
        give_at(&mut self.rows, attempt, exec, now)
    }

    /// Changes a stage, where its number is one of the job.
    pub(crate) fn change(&mut self, stage: StageId, change: RowChange)
        ensures state { self.new.0 ≡ with_state self.old.0 stage (state_by change) }
        ensures ready { self.new.1 ≡ self.old.1 }
    {
        change_row(&mut self.rows, stage, change);
    }

    /// What never changes of a stage, where its number is one of the job.
    pub fn stage(&self, stage: StageId) -> Option<&Stage>
        ensures { option_map (λ s. s.now) result ≡ slice_get self.now.0.stages stage }
    {
        match self.rows.get(stage as usize) {
            Some(row) => Some(row.stage()),
            None => None,
        }
    }

    /// The number of the newest attempt of a stage.
    pub fn newest_number(&self, stage: StageId) -> u64
        ensures { result ≡ newest_number self.now.0 stage }
    {
        match self.rows.get(stage as usize) {
            Some(row) => row.newest_number(),
            None => 0,
        }
    }

    /// Whether an attempt is of the newest attempt of its stage.
    pub fn is_of_newest(&self, attempt: AttemptId) -> bool
        ensures { result ≡ is_of_newest self.now.0 attempt }
    {
        attempt.stage_attempt == self.newest_number(attempt.stage)
    }

    /// Whether the newest attempt of a stage hands out tasks.
    pub fn is_live(&self, stage: StageId) -> bool
        ensures { result ≡ is_live_set (newest_at self.now.0 stage) }
    {
        match self.rows.get(stage as usize) {
            Some(row) => row.is_live(),
            None => false,
        }
    }

    /// Whether all partitions of a stage are done.
    pub fn is_complete(&self, stage: StageId) -> bool
        ensures { result ≡ is_complete self.now.0 stage }
    {
        is_complete_at(&self.rows, &self.tracker, stage)
    }

    /// Whether the tasks of the newest attempt of a stage are all finished while outputs are
    /// missing.
    pub fn is_finished_short(&self, stage: StageId) -> bool
        ensures { result ≡ is_finished_short self.now.0 stage }
    {
        match self.rows.get(stage as usize) {
            Some(row) => { !row.is_complete(&self.tracker) && row.is_idle() && row.all_finished() }
            None => false,
        }
    }

    /// Whether the newest attempt of its stage still wants the partition of an attempt. A success
    /// of a partition that it doesn't want is a repeated one.
    pub fn wants(&self, attempt: AttemptId) -> bool
        ensures { result ≡ wants_in (newest_at self.now.0 attempt.stage) attempt.partition }
    {
        match self.rows.get(attempt.stage as usize) {
            Some(row) => row.wants(attempt.partition),
            None => false,
        }
    }

    /// Where the outputs of map stages lie.
    pub fn tracker(&self) -> &Tracker
        ensures { result.now ≡ self.now.0.tracker }
    {
        &self.tracker
    }

    /// How often outputs of an executor were forgotten.
    pub fn epoch(&self) -> Epoch
        ensures { result ≡ self.now.0.tracker.epoch }
    {
        self.tracker.epoch()
    }
}
