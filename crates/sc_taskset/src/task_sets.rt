//! A task set, and what it is told.
#![tactic(auto)]

ghost use Rattle.std.specs.Prelude.{◌≡◌, ◌↔◌, ◌≤◌, ◌+◌, ◌&&◌, ℕ, not, OnOk, OnErr, IfOk, true};
ghost use Rattle.sc_taskset.specs.Lookups.{are_finished, has_task_and, is_finished};
ghost use Rattle.sc_taskset.specs.Looks.{count_on, single_count, word_count};
ghost use Rattle.sc_taskset.specs.Offers.{Offers, given_of, handed, is_pending, may_be_given};
ghost use Rattle.sc_taskset.specs.Reports.{after_end, after_failure, after_held, after_loss, after_success, as_zombie, is_first, reaches_limit};
ghost use Rattle.sc_taskset.specs.Sound.{IsSoundSet};

use crate::changes::{end_in, hand_in, hold_in, succeed_in};
use crate::listed::ListedRows;
use crate::notes::{note_duration, note_failure, reserve_for, verdict};
use crate::paces::Pace;
use crate::rows::Failure;
use crate::scans::{are_finished, duration_in, ends, fails_in, is_first_in, offered, row_at};
use crate::tasks::{GivenTask, Verdict};
use sc_base::Steps;
use sc_ids::{Epoch, ExecId, FailureCause, Limits};
use std::alloc::AllocError;
use std::marker::Model;
use std::sync::ledger::Ledger;

/// The tasks of one attempt of a stage: which are finished, which run, and which comes next.
#[derive(Drop)]
pub struct TaskSet {
    pub(crate) rows: ListedRows,
    pub(crate) failures: Vec<Failure>,
    /// How long its first successes took, rising.
    pub(crate) durations: Vec<u64>,
    pub(crate) is_map: bool,
    pub(crate) is_zombie: bool,
    pub(crate) limits: Limits,
    pub(crate) born: Epoch,
}

impl Model for TaskSet {
    ghost use Rattle.std.specs.Prelude.{vec_capacity, vec_len};
    ghost use Rattle.sc_taskset.specs.TaskSetData.{TaskSetData};
    ghost use Rattle.sc_taskset.specs.Rows.{IsHeld, set_of};

    ghost Value = { TaskSetData };

    ghost view = { λ s. set_of s.rows s.failures.items s.durations.items
        s.is_map s.is_zombie s.limits s.born };

    ghost invariant = { λ s. IsHeld (set_of s.rows s.failures.items s.durations.items
        s.is_map s.is_zombie s.limits s.born)
        (vec_len s.failures) (vec_capacity s.failures)
        (vec_len s.durations) (vec_capacity s.durations) };
}

impl TaskSet {
    /// What every task set keeps: what runs or has failed was handed out, no attempt fails twice,
    /// at most two of a partition run, on different executors, and a finished set is a zombie.
    pub fn is_sound(&self)
        ensures { IsSoundSet self.now }
    {
        let _ = &self.rows;
    }

    /// Whether it hands out nothing more.
    pub fn is_zombie(&self) -> bool
        ensures { result ≡ self.now.is_zombie }
    {
        self.is_zombie
    }

    /// The epoch when it was submitted.
    pub fn born(&self) -> Epoch
        ensures { result ≡ self.now.born }
    {
        self.born
    }

    /// Whether it has a task for a partition.
    pub fn has(&self, partition: u32) -> bool
        ensures { result ≡ has_task_and (λ t. true) self.now partition }
    {
        row_at(&self.rows, partition).is_some()
    }

    /// Whether it has a task for a partition, which is finished.
    pub fn is_finished(&self, partition: u32) -> bool
        ensures { result ≡ has_task_and is_finished self.now partition }
    {
        match row_at(&self.rows, partition) {
            Some(row) => row.is_finished(),
            None => false,
        }
    }

    /// Whether all its tasks are finished.
    pub fn all_finished(&self) -> bool
        ensures { result ≡ are_finished self.now.tasks }
    {
        are_finished(&self.rows)
    }

    /// Marks it as one that hands out nothing more. Its attempts go on.
    pub fn zombie(&mut self)
        ensures { self.new ≡ as_zombie self.old }
    {
        self.is_zombie = true;
    }

    /// Notes that an attempt ended which changes nothing else, as one whose partition was finished
    /// before.
    pub fn ended(&mut self, partition: u32, nth: u32)
        ensures { self.new ≡ after_end self.old partition nth }
    {
        end_in(&mut self.rows, partition, nth);
    }

    /// Notes whether a grant that is still held has denied an attempt of a partition. Until it is
    /// told otherwise the partition isn't handed out.
    pub fn held(&mut self, partition: u32, denied: bool)
        ensures { self.new ≡ after_held self.old partition denied }
    {
        hold_in(&mut self.rows, partition, denied);
    }

    /// Notes that an executor was lost: its attempts run no more, and in a set of map tasks that
    /// is no zombie what was finished there is to be done again. It takes no memory. A step is a
    /// task that is looked at: at most one for each that was finished there, or of which an attempt
    /// ran there.
    pub fn executor_lost<L: Ledger>(&mut self, exec: ExecId, steps: &mut Steps<L>)
        ensures state { self.new ≡ after_loss self.old exec }
        ensures looked { steps.new ≤ steps.old + count_on self.old exec }
    {
        let redoes = redoes_lost(self.is_map, self.is_zombie);
        self.rows.lose(exec, redoes, steps);
    }

    /// What it has for an executor at this time: the smallest pending partition or, where nothing
    /// is pending, the smallest one that may be copied there. A step is a word of marks or a
    /// running partition that is looked at: none where something is pending, else at most one for
    /// each word and for each partition of which one attempt runs alone.
    pub fn peek<L: Ledger>(&self, exec: ExecId, now: u64, steps: &mut Steps<L>) -> Option<GivenTask>
        ensures offers { Offers self.now exec now result }
        ensures looked { steps.new ≤ steps.old + word_count self.now + single_count self.now }
        ensures pending { (partition : ℕ) → is_pending self.now partition ≡ true
            → steps.new ≡ steps.old }
    {
        let pace = Pace {
            durations: &self.durations,
            tasks: self.rows.as_slice().len(),
            now,
        };
        let row = offered(
            &self.rows,
            self.is_zombie,
            self.limits.speculation,
            exec,
            pace,
            steps,
        )?;
        Some(GivenTask {
            partition: row.partition,
            nth: row.given,
        })
    }

    /// Hands a partition out to an executor, and takes room for what may come of it. A refused
    /// call changes nothing.
    pub fn give(&mut self, partition: u32, exec: ExecId, now: u64) -> Result<(), AllocError>
        requires { may_be_given self.old exec now partition ≡ true }
        ensures given { OnOk result (self.new ≡ handed self.old partition exec now) }
        ensures refused { OnErr result (self.new ≡ self.old) }
    {
        let tasks = self.rows.as_slice().len();
        reserve_for(&mut self.failures, tasks)?;
        reserve_for(&mut self.durations, tasks)?;
        hand_in(&mut self.rows, partition, exec, now)?;
        Ok(())
    }

    /// Notes a success of a partition, by an attempt of this number or, with none, of an older
    /// set. Answers whether it is the first. A set whose tasks are all finished is a zombie.
    pub fn succeeded(&mut self, partition: u32, nth: Option<u32>, now: u64) -> bool
        ensures first { result ≡ is_first self.old partition nth }
        ensures state { self.new ≡ after_success self.old partition nth now }
    {
        let first = is_first_in(&self.rows, partition, nth);
        let duration = duration_in(&self.rows, partition, nth, now);
        succeed_in(&mut self.rows, partition, nth);
        note_duration(&mut self.durations, duration);
        self.is_zombie = ends(self.is_zombie, &self.rows);
        first
    }

    /// Notes that an attempt failed. Answers whether its partition has failed as often as is
    /// allowed: fetch failures, denials and failures in a zombie don't count.
    pub fn failed(&mut self, partition: u32, nth: u32, cause: FailureCause) -> Verdict
        ensures limit { (result ≡ Verdict.Limit)
            ↔ (reaches_limit self.old partition nth cause ≡ true) }
        ensures state { self.new ≡ after_failure self.old partition nth cause }
    {
        let fails = fails_in(&self.rows, self.is_zombie, partition, nth, cause);
        end_in(&mut self.rows, partition, nth);
        note_failure(&mut self.failures, partition, nth, fails);
        verdict(&self.failures, partition, fails, self.limits.task_failures)
    }
}

/// Whether outputs lost with an executor are made again by a set.
fn redoes_lost(is_map: bool, is_zombie: bool) -> bool
    ensures { result ≡ (is_map && not is_zombie) }
{
    is_map && !is_zombie
}
