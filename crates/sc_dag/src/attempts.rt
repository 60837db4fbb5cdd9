//! The attempts of a stage.
#![tactic(auto)]

ghost use Rattle.std.specs.Prelude.{◌≡◌, ◌↔◌, ◌-◌, OnOk, OnErr, count_by, length, map, slice_get, true, vec_capacity, vec_len};
ghost use Rattle.std.specs.Option.{option_map};
ghost use Rattle.sc_ids.specs.Changes.{change_at};
ghost use Rattle.sc_taskset.specs.Offers.{handed};
ghost use Rattle.sc_taskset.specs.Reports.{after_failure};
ghost use Rattle.sc_dag.specs.Changes.{attempt_by};
ghost use Rattle.sc_dag.specs.DagData.{set_in, with_set};
ghost use Rattle.sc_dag.specs.Offers.{may_be_given_in};
ghost use Rattle.sc_dag.specs.Reports.{reaches_limit_in};

use crate::uncounted::lose_in;
use sc_ids::{AttemptId, ExecId, FailureCause};
use sc_taskset::{TaskSet, Verdict};
use std::alloc::AllocError;
use std::marker::Brand;
use std::sync::ledger::Blank;

/// What becomes of an attempt of a stage.
#[derive(Clone, Copy)]
pub(crate) enum AttemptChange {
    /// A partition succeeded: its attempt of this number did, or with none one of an older attempt
    /// of the stage.
    Success {
        partition: u32,
        nth: Option<u32>,
        now: u64,
    },
    /// An attempt of a partition ended, and that changes nothing else.
    End {
        partition: u32,
        nth: u32,
    },
    /// Whether a held grant has denied an attempt of a partition.
    Held {
        partition: u32,
        denied: bool,
    },
    /// It starts nothing more.
    Zombie,
    /// It failed, and starts nothing more.
    Failed,
    /// Its stage is complete: that it failed is forgotten.
    Forgiven,
    /// An executor is lost.
    Lost(ExecId),
}

/// An attempt of a stage.
#[derive(Drop)]
pub struct StageAttempt {
    /// Its tasks.
    pub set: TaskSet,
    /// Whether it failed and its stage wasn't complete since.
    pub has_failed: bool,
}

impl StageAttempt {
    /// It changes.
    fn change(&mut self, change: AttemptChange)
        ensures { self.new ≡ attempt_by change self.old }
    {
        match change {
            AttemptChange::Success {
                partition,
                nth,
                now,
            } => {
                let _ = self.set.succeeded(partition, nth, now);
            }
            AttemptChange::End { partition, nth } => self.set.ended(partition, nth),
            AttemptChange::Held { partition, denied } => self.set.held(partition, denied),
            AttemptChange::Zombie => self.set.zombie(),
            AttemptChange::Failed => {
                self.set.zombie();
                self.has_failed = true;
            }
            AttemptChange::Forgiven => self.has_failed = false,
            AttemptChange::Lost(exec) => lose_in::<Brand>(&mut self.set, exec, Blank::new(1)),
        }
    }
}

/// A task of an attempt handed out.
pub(crate) fn give_in(
    attempts: &mut Vec<StageAttempt>,
    place: usize,
    partition: u32,
    exec: ExecId,
    now: u64,
) -> Result<(), AllocError>
    requires { may_be_given_in (set_in (slice_get attempts.old.items place)) exec now partition
        ≡ true }
    ensures given { OnOk result (attempts.new.items ≡ change_at attempts.old.items place
        (with_set (λ set. handed set partition exec now))) }
    ensures refused { OnErr result (attempts.new.items ≡ attempts.old.items) }
    ensures len { vec_len attempts.new ≡ vec_len attempts.old }
    ensures capacity { vec_capacity attempts.new ≡ vec_capacity attempts.old }
{
    if place < attempts.len() {
        attempts[place].set.give(partition, exec, now)
    } else {
        Ok(())
    }
}

/// Changes an attempt.
pub(crate) fn change_in(attempts: &mut Vec<StageAttempt>, place: usize, change: AttemptChange)
    ensures items { attempts.new.items
        ≡ change_at attempts.old.items place (attempt_by change) }
    ensures len { vec_len attempts.new ≡ vec_len attempts.old }
    ensures capacity { vec_capacity attempts.new ≡ vec_capacity attempts.old }
{
    if place < attempts.len() {
        attempts[place].change(change);
    }
}

/// A failure of a task told to the task set of an attempt.
pub(crate) fn fail_in(
    attempts: &mut Vec<StageAttempt>,
    place: usize,
    a: AttemptId,
    cause: FailureCause,
) -> Verdict
    ensures limit { (result ≡ Verdict.Limit)
        ↔ (reaches_limit_in (set_in (slice_get attempts.old.items place)) a cause ≡ true) }
    ensures items { attempts.new.items ≡ change_at attempts.old.items place
        (with_set (λ set. after_failure set a.partition a.nth cause)) }
    ensures len { vec_len attempts.new ≡ vec_len attempts.old }
    ensures capacity { vec_capacity attempts.new ≡ vec_capacity attempts.old }
{
    if place < attempts.len() {
        attempts[place].set.failed(a.partition, a.nth, cause)
    } else {
        Verdict::Again
    }
}

/// Changes all attempts.
pub(crate) fn change_all(attempts: &mut Vec<StageAttempt>, change: AttemptChange)
    ensures items { attempts.new.items ≡ map (attempt_by change) attempts.old.items }
    ensures len { vec_len attempts.new ≡ vec_len attempts.old }
    ensures capacity { vec_capacity attempts.new ≡ vec_capacity attempts.old }
{
    change_each(attempts.as_mut_slice(), change);
}

fn change_each(attempts: &mut [StageAttempt], change: AttemptChange)
    ensures { attempts.new ≡ map (attempt_by change) attempts.old }
{
    for attempt in attempts.iter_mut() {
        attempt.change(change);
    }
}

/// The newest attempt.
pub(crate) fn newest(attempts: &[StageAttempt]) -> Option<&StageAttempt>
    ensures { option_map (λ a. a.now) result ≡ slice_get attempts.now (length attempts.now - 1) }
{
    attempts.last()
}

/// How many attempts failed since their stage was complete.
pub(crate) fn failed_count(attempts: &[StageAttempt]) -> usize
    ensures { result ≡ count_by (λ a. a.has_failed) attempts.now }
{
    attempts.iter().filter(|attempt| attempt.has_failed).count()
}
