//! One stage of a job: what becomes of it, and room for its next attempt.
#![tactic(auto)]

ghost use Rattle.std.specs.Prelude.{◌≡◌, ◌+◌, ◌-◌, OnOk, IfOk, false, length, Some, true};
ghost use Rattle.sc_dag.specs.DagData.{attempt_in, is_live, is_live_set, newest_set, place_of_attempt, set_in};
ghost use Rattle.sc_dag.specs.Offers.{OffersIn};
ghost use Rattle.sc_dag.specs.Openings.{blank_state};
ghost use Rattle.sc_dag.specs.Outputs.{is_complete_by};
ghost use Rattle.sc_dag.specs.Reports.{failed_count, wants_in};
ghost use Rattle.sc_dag.specs.Rows.{all_have_results, are_finished_in, row_data};
ghost use Rattle.sc_dag.specs.Submission.{is_idle};

use crate::attempts::{StageAttempt, failed_count, newest};
use crate::outputs::{all_have_results, is_map};
use crate::uncounted::peek_in;
use sc_ids::{ExecId, Stage, Target};
use sc_taskset::{GivenTask, SetRoom};
use sc_tracker::Tracker;
use std::alloc::{AllocError, Global};
use std::marker::{Brand, Model};
use std::sync::ledger::Blank;

/// A stage of a job, what becomes of it, and room for its next attempt.
#[derive(Drop)]
pub(crate) struct StageRow {
    pub(crate) stage: Stage,
    pub(crate) before: u64,
    pub(crate) attempts: Vec<StageAttempt>,
    pub(crate) waits: bool,
    pub(crate) results: Vec<bool>,
    /// How many partitions have a result.
    pub(crate) done: usize,
    pub(crate) held: Vec<bool>,
    pub(crate) room: Option<SetRoom>,
}

impl Model for StageRow {
    ghost use Rattle.std.specs.Prelude.{◌≡◌, ◌<◌, ◌+◌, ◌^◌, ◌&&◌, [], IfSome, count_by, is_some, nat_lt, vec_capacity, vec_len};
    ghost use Rattle.sc_taskset.specs.Rooms.{room_of};
    ghost use Rattle.sc_dag.specs.Rows.{RowData, row_data, state_of};

    ghost Value = { RowData };

    ghost view = { λ r. row_data r.stage
        (state_of r.before r.attempts.items r.waits r.results.items r.held.items)
        (is_some r.room && (nat_lt (vec_len r.attempts) (vec_capacity r.attempts)
        && nat_lt (r.before + vec_len r.attempts + 1) (2 ^ 64))) };

    ghost invariant = { λ r. (r.before + vec_len r.attempts < 2 ^ 64)
        × IfSome r.room (λ room. room ≡ room_of [] r.stage.tasks)
        × (r.done ≡ count_by (λ b. b) r.results.items) };
}

impl StageRow {
    /// A stage that nothing was done for in this job, and that had so many attempts before.
    pub fn new(alloc: Global, stage: Stage, before: u64) -> Result<StageRow, AllocError>
        ensures { IfOk result (λ r. r ≡ row_data stage (blank_state stage before) false) }
    {
        let results = if is_map(stage.target()) {
            Vec::new(alloc)
        } else {
            vec![in alloc; false; stage.tasks() as usize]?
        };
        let held = vec![in alloc; false; stage.tasks() as usize]?;
        Ok(StageRow {
            stage,
            before,
            attempts: Vec::new(alloc),
            waits: false,
            results,
            done: 0,
            held,
            room: None,
        })
    }

    /// Makes room for one more attempt. Nothing that is seen of the stage changes.
    pub fn prepare(&mut self, alloc: Global) -> Result<(), AllocError>
        ensures state { self.new.state ≡ self.old.state }
        ensures stage { self.new.stage ≡ self.old.stage }
        ensures ready { OnOk result (self.new.is_ready ≡ true) }
    {
        if self.so_far() == u64::MAX {
            return Err(AllocError);
        }
        if self.room.is_none() {
            self.room = Some(SetRoom::new(alloc, self.stage.tasks() as usize)?);
        }
        self.attempts.reserve(1)?;
        Ok(())
    }

    /// What never changes of the stage.
    pub fn stage(&self) -> &Stage
        ensures { result.now ≡ self.now.stage }
    {
        &self.stage
    }

    /// Whether it waits for outputs of its parents.
    pub fn waits(&self) -> bool
        ensures { result ≡ self.now.state.waits }
    {
        self.waits
    }

    /// Whether all its partitions are done.
    pub fn is_complete(&self, tracker: &Tracker) -> bool
        ensures { result ≡ is_complete_by tracker.now self.now.stage self.now.state.results }
    {
        match self.stage.target() {
            Target::Map(shuffle) => tracker.has_all(shuffle, self.stage.tasks()),
            Target::Result { .. } => self.has_all_results(),
        }
    }

    /// Whether all its partitions have results. As long as there are no more results than
    /// partitions, none is looked at.
    fn has_all_results(&self) -> bool
        ensures { result ≡ all_have_results self.now.state.results self.now.stage.tasks }
    {
        let tasks = self.stage.tasks();
        if self.done < tasks as usize {
            return false;
        }
        self.results.len() == tasks as usize || all_have_results(&self.results, tasks)
    }

    /// Whether its newest attempt hands out tasks.
    pub fn is_live(&self) -> bool
        ensures { result ≡ is_live self.now.state }
    {
        match newest(&self.attempts) {
            Some(attempt) => !attempt.set.is_zombie(),
            None => false,
        }
    }

    /// Whether the attempt of a number hands out tasks.
    pub fn hands_out(&self, number: u64) -> bool
        ensures { result ≡ is_live_set (set_in (attempt_in self.now.state number)) }
    {
        match self.attempts.get(self.place(number)) {
            Some(attempt) => !attempt.set.is_zombie(),
            None => false,
        }
    }

    /// Whether it neither hands out tasks nor waits.
    pub fn is_idle(&self) -> bool
        ensures { result ≡ is_idle self.now.state }
    {
        !self.waits && !self.is_live()
    }

    /// What its newest attempt has for an executor at this time.
    pub fn peek(&self, exec: ExecId, now: u64) -> Option<GivenTask>
        ensures { OffersIn (newest_set self.now.state) exec now result }
    {
        match newest(&self.attempts) {
            Some(attempt) => peek_in::<Brand>(&attempt.set, exec, now, Blank::new(1)),
            None => None,
        }
    }

    /// How many attempts it had in all jobs so far.
    pub fn so_far(&self) -> u64
        ensures { result ≡ self.now.state.before + length self.now.state.attempts }
    {
        self.before + self.attempts.len() as u64
    }

    /// The number of its newest attempt.
    pub fn newest_number(&self) -> u64
        ensures { result ≡ self.now.state.before + (length self.now.state.attempts - 1) }
    {
        self.before + self.last() as u64
    }

    /// Whether its newest attempt still wants a partition.
    pub fn wants(&self, partition: u32) -> bool
        ensures { result ≡ wants_in (newest_set self.now.state) partition }
    {
        match newest(&self.attempts) {
            Some(attempt) => attempt.set.has(partition) && !attempt.set.is_finished(partition),
            None => false,
        }
    }

    /// Whether all tasks of its newest attempt are finished.
    pub fn all_finished(&self) -> bool
        ensures { result ≡ are_finished_in (newest_set self.now.state) }
    {
        match newest(&self.attempts) {
            Some(attempt) => attempt.set.all_finished(),
            None => false,
        }
    }

    /// How many attempts failed since it was complete.
    pub fn failed_count(&self) -> usize
        ensures { result ≡ failed_count (Some self.now.state) }
    {
        failed_count(&self.attempts)
    }

    /// The place of its newest attempt.
    pub fn last(&self) -> usize
        ensures { result ≡ length self.now.state.attempts - 1 }
    {
        self.attempts.len().saturating_sub(1)
    }

    /// The place of the attempt of a number, past the end where it isn't of this job.
    pub fn place(&self, number: u64) -> usize
        ensures { result ≡ place_of_attempt self.now.state number }
    {
        if number < self.before {
            self.attempts.len()
        } else {
            (number - self.before) as usize
        }
    }
}
