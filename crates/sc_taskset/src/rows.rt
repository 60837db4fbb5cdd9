//! Rows of fixed size, of which a set holds one for each task.
#![tactic(auto)]

ghost use Rattle.std.specs.Prelude.{◌≡◌, ◌↔◌, ◌<◌, ◌+◌, ◌++◌, ◌&&◌, ℕ, [], List, Some, length, true, if◌then◌else◌};
ghost use Rattle.std.specs.Option.{option_to_list};
ghost use Rattle.sc_taskset.specs.declared.rows.Failure.{Failure};
ghost use Rattle.sc_taskset.specs.Lookups.{copy_at, is_finish, is_finish_on, is_one_elsewhere, is_running, without_copy, without_exec};
ghost use Rattle.sc_taskset.specs.Lists.{is_row_on};
ghost use Rattle.sc_taskset.specs.Marks.{is_single_row};
ghost use Rattle.sc_taskset.specs.Offers.{handed_task, is_copyable_task, is_pending_task};
ghost use Rattle.sc_taskset.specs.Paces.{slow_at};
ghost use Rattle.sc_taskset.specs.Reports.{ended_task, held_task, is_first_success, lost_task, succeeded_task, task_duration};
ghost use Rattle.sc_taskset.specs.Rows.{copies_of, task_of};
ghost use Rattle.sc_taskset.specs.TaskSetData.{fresh_task};

use crate::copies::{is_on, is_one, is_one_elsewhere, nth_of, unless_nth, unless_on};
use crate::paces::Pace;
use crate::tasks::{Finish, RunningCopy};
use sc_ids::ExecId;

/// A counted failure of an attempt.
#[derive(Clone, Copy, Debug)]
pub struct Failure {
    pub partition: u32,
    pub nth: u32,
}

/// A task of a set, but for its failures. Its attempts that run stand in two places, the one that
/// was handed out first in front.
#[derive(Clone, Copy, Debug)]
pub struct Row {
    pub partition: u32,
    pub finish: Finish,
    pub given: u32,
    pub denied: bool,
    pub first: Option<RunningCopy>,
    pub second: Option<RunningCopy>,
}

impl Row {
    /// A task that was never handed out.
    pub fn new(partition: u32) -> Row
        ensures { task_of [] result ≡ fresh_task partition }
    {
        Row {
            partition,
            finish: Finish::Unfinished,
            given: 0,
            denied: false,
            first: None,
            second: None,
        }
    }

    /// Whether a success of it was told.
    pub fn is_finished(self) -> bool
        ensures { result ≡ is_finish self.finish }
    {
        match self.finish {
            Finish::Unfinished => false,
            Finish::OnExecutor(_) => true,
            Finish::InOlderSet => true,
        }
    }

    /// Who finished it.
    pub fn finisher(self) -> Option<ExecId>
        ensures { (e : ℕ) → (is_finish_on e self.finish ≡ true) ↔ (result ≡ Some e) }
    {
        match self.finish {
            Finish::Unfinished => None,
            Finish::OnExecutor(exec) => Some(exec),
            Finish::InOlderSet => None,
        }
    }

    /// Whether it was finished on an executor, or an attempt of it runs there.
    pub fn is_on(self, exec: ExecId) -> bool
        ensures { result ≡ is_row_on exec self }
    {
        self.is_finished_on(exec) || is_on(self.first, exec) || is_on(self.second, exec)
    }

    /// Whether it was finished on an executor.
    fn is_finished_on(self, exec: ExecId) -> bool
        ensures { result ≡ is_finish_on exec self.finish }
    {
        match self.finish {
            Finish::Unfinished => false,
            Finish::OnExecutor(by) => by == exec,
            Finish::InOlderSet => false,
        }
    }

    /// The attempt of a number, where it runs.
    pub fn copy_at(self, nth: u32) -> Option<RunningCopy>
        ensures { result ≡ copy_at nth (copies_of self) }
    {
        nth_of(self.first, nth).or(nth_of(self.second, nth))
    }

    /// Whether an attempt of a number runs.
    pub fn runs(self, nth: u32) -> bool
        ensures { result ≡ is_running nth (copies_of self) }
    {
        self.copy_at(nth).is_some()
    }

    /// Whether it is to be handed out.
    pub fn is_pending(self) -> bool
        ensures { result ≡ is_pending_task (task_of [] self) }
    {
        !self.is_finished() && self.first.is_none() && self.second.is_none() && !self.denied
    }

    /// Whether one attempt of it runs alone, and a second one may be wanted.
    pub fn is_single(self) -> bool
        ensures { result ≡ is_single_row self }
    {
        !self.is_finished() && is_one(self.first, self.second) && !self.denied
    }

    /// Whether a second attempt may run on an executor, at a pace of its set.
    pub fn is_copyable(self, exec: ExecId, pace: Pace<'_>) -> bool
        ensures { result ≡ is_copyable_task (slow_at pace.entry) exec (task_of [] self) }
    {
        !self.is_finished()
            && is_one_elsewhere(self.first, self.second, exec)
            && !self.denied
            && (pace.is_slow(self.first) || pace.is_slow(self.second))
    }

    /// Whether a success is the first of it.
    pub fn is_first_success(self, nth: Option<u32>) -> bool
        ensures { (failures : List Failure)
            → result ≡ is_first_success nth (task_of failures self) }
    {
        match nth {
            None => !self.is_finished(),
            Some(n) => !self.is_finished() && self.copy_at(n).is_some(),
        }
    }

    /// How long it took, by its first success of an attempt of its set.
    pub fn duration(self, nth: Option<u32>, now: u64) -> Option<u64>
        ensures { (failures : List Failure)
            → result ≡ task_duration nth now (task_of failures self) }
    {
        if self.is_finished() {
            return None;
        }
        let copy = self.copy_at(nth?)?;
        Some(now.saturating_sub(copy.started))
    }

    /// It after one more hand-out.
    pub fn handed(self, exec: ExecId, now: u64, given: u32) -> Row
        requires next { given ≡ self.given + 1 }
        requires room { length (copies_of self) < 2 }
        ensures { (failures : List Failure)
            → task_of failures result ≡ handed_task exec now (task_of failures self) }
    {
        let copy = RunningCopy {
            nth: self.given,
            exec,
            started: now,
        };
        Row {
            given,
            first: self.first.or(self.second),
            second: Some(copy),
            ..self
        }
    }

    /// It after an attempt ended.
    pub fn ended(self, nth: u32) -> Row
        ensures { (failures : List Failure)
            → task_of failures result ≡ ended_task nth (task_of failures self) }
    {
        Row {
            first: unless_nth(self.first, nth),
            second: unless_nth(self.second, nth),
            ..self
        }
    }

    /// It after a success.
    pub fn succeeded(self, nth: Option<u32>) -> Row
        ensures { (failures : List Failure)
            → task_of failures result ≡ succeeded_task nth (task_of failures self) }
    {
        let finish = self.finish_by(nth);
        match nth {
            None => Row { finish, ..self },
            Some(n) => Row {
                finish,
                ..self.ended(n)
            },
        }
    }

    /// Whether it was told finished, after a success.
    fn finish_by(self, nth: Option<u32>) -> Finish
        ensures { (failures : List Failure)
            → result ≡ (succeeded_task nth (task_of failures self)).finish }
    {
        if self.is_finished() {
            return self.finish;
        }
        match nth {
            None => Finish::InOlderSet,
            Some(n) => match self.copy_at(n) {
                None => self.finish,
                Some(copy) => Finish::OnExecutor(copy.exec),
            },
        }
    }

    /// It after it was told whether a held grant has denied an attempt.
    pub fn held(self, denied: bool) -> Row
        ensures { (failures : List Failure)
            → task_of failures result ≡ held_task denied (task_of failures self) }
    {
        Row { denied, ..self }
    }

    /// It after an executor was lost, where what was finished there may be to be done again.
    pub fn lost(self, exec: ExecId, redoes: bool) -> Row
        ensures { (failures : List Failure)
            → task_of failures result ≡ lost_task exec redoes (task_of failures self) }
    {
        Row {
            finish: finish_without(self.finish, exec, redoes),
            first: unless_on(self.first, exec),
            second: unless_on(self.second, exec),
            ..self
        }
    }
}

/// Whether a task is finished after an executor was lost.
fn finish_without(finish: Finish, exec: ExecId, redoes: bool) -> Finish
    ensures { result ≡ (if redoes && is_finish_on exec finish then Finish.Unfinished else finish) }
{
    match finish {
        Finish::OnExecutor(by) => if redoes && by == exec {
            Finish::Unfinished
        } else {
            finish
        },
        Finish::Unfinished => finish,
        Finish::InOlderSet => finish,
    }
}
