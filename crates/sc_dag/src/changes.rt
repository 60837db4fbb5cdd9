//! What becomes of one stage of a job.
#![tactic(auto)]

ghost use Rattle.std.specs.Prelude.{◌≡◌, ◌↔◌, ◌+◌, OnOk, OnErr, count_by, false, if◌then◌else◌, true};
ghost use Rattle.sc_ids.specs.Changes.{change_at};
ghost use Rattle.sc_taskset.specs.Offers.{handed};
ghost use Rattle.sc_taskset.specs.Reports.{after_failure};
ghost use Rattle.sc_dag.specs.Changes.{state_by};
ghost use Rattle.sc_dag.specs.DagData.{attempt_in, changed_newest, changed_set, newest_set, set_in};
ghost use Rattle.sc_dag.specs.Offers.{may_be_given_in};
ghost use Rattle.sc_dag.specs.Outputs.{is_complete_by};
ghost use Rattle.sc_dag.specs.Reports.{reaches_limit_in};
ghost use Rattle.sc_dag.specs.Submission.{started};

use crate::attempts::{AttemptChange, StageAttempt, change_all, change_in, fail_in, give_in};
use crate::outputs::new_set;
use crate::rows::StageRow;
use sc_ids::{AttemptId, ExecId, FailureCause, Limits};
use sc_taskset::Verdict;
use sc_tracker::Tracker;
use std::alloc::AllocError;

/// What becomes of a stage.
#[derive(Clone, Copy)]
pub(crate) enum RowChange {
    /// Its attempt of this number changes.
    Own(u64, AttemptChange),
    /// Its newest attempt changes.
    Newest(AttemptChange),
    /// All its attempts change.
    All(AttemptChange),
    /// A partition has a result.
    HasResult(u32),
    /// Whether a held grant has denied an attempt of a partition.
    Held(u32, bool),
    /// It waits for its parents.
    Waits,
    /// All its partitions are done.
    Complete,
}

impl StageRow {
    /// Hands out a task of its newest attempt.
    pub fn give(&mut self, partition: u32, exec: ExecId, now: u64) -> Result<(), AllocError>
        requires { may_be_given_in (newest_set self.old.state) exec now partition ≡ true }
        ensures given { OnOk result (self.new.state
            ≡ changed_newest (λ set. handed set partition exec now) self.old.state) }
        ensures refused { OnErr result (self.new.state ≡ self.old.state) }
        ensures stage { self.new.stage ≡ self.old.stage }
        ensures ready { self.new.is_ready ≡ self.old.is_ready }
    {
        let place = self.last();
        give_in(&mut self.attempts, place, partition, exec, now)
    }

    /// It changes.
    pub fn change(&mut self, change: RowChange)
        ensures state { self.new.state ≡ state_by change self.old.state }
        ensures stage { self.new.stage ≡ self.old.stage }
        ensures ready { self.new.is_ready ≡ self.old.is_ready }
    {
        match change {
            RowChange::Own(number, change) => {
                let place = self.place(number);
                change_in(&mut self.attempts, place, change);
            }
            RowChange::Newest(change) => {
                let place = self.last();
                change_in(&mut self.attempts, place, change);
            }
            RowChange::All(change) => change_all(&mut self.attempts, change),
            RowChange::HasResult(partition) => {
                if put_result_in(&mut self.results, partition) {
                    self.done += 1;
                }
            }
            RowChange::Held(partition, denied) => {
                let place = self.last();
                let change = AttemptChange::Held { partition, denied };
                change_in(&mut self.attempts, place, change);
                flag_in(&mut self.held, partition, denied);
            }
            RowChange::Waits => self.waits = true,
            RowChange::Complete => {
                self.waits = false;
                change_all(&mut self.attempts, AttemptChange::Forgiven);
            }
        }
    }

    /// An attempt of a task failed.
    pub fn fail(&mut self, a: AttemptId, cause: FailureCause) -> Verdict
        ensures limit { (result ≡ Verdict.Limit)
            ↔ (reaches_limit_in (set_in (attempt_in self.old.state a.stage_attempt)) a cause
            ≡ true) }
        ensures state { self.new.state ≡ changed_set a.stage_attempt
            (λ set. after_failure set a.partition a.nth cause) self.old.state }
        ensures stage { self.new.stage ≡ self.old.stage }
        ensures ready { self.new.is_ready ≡ self.old.is_ready }
    {
        let place = self.place(a.stage_attempt);
        fail_in(&mut self.attempts, place, a, cause)
    }

    /// A new attempt for the partitions that aren't done, in the room that was made. It takes no
    /// memory.
    pub fn start(&mut self, tracker: &Tracker, limits: Limits)
        requires ready { self.old.is_ready ≡ true }
        requires incomplete { is_complete_by tracker.now self.old.stage self.old.state.results
            ≡ false }
        ensures state { self.new.state
            ≡ started tracker.now limits self.old.stage self.old.state }
        ensures stage { self.new.stage ≡ self.old.stage }
    {
        match self.room.take() {
            Some(room) => {
                let set = new_set(
                    room,
                    &self.stage,
                    tracker,
                    &self.results,
                    &self.held,
                    limits,
                );
                let place = self.attempts.len().saturating_sub(1);
                change_in(&mut self.attempts, place, AttemptChange::Zombie);
                self.waits = false;
                self.attempts.push_reserved(StageAttempt {
                    set,
                    has_failed: false,
                });
            }
            None => unreachable!(),
        }
    }
}

/// A flag put in its place.
fn flag_in(flags: &mut Vec<bool>, partition: u32, flag: bool)
    ensures { flags.new.items ≡ change_at flags.old.items partition (λ _. flag) }
{
    if (partition as usize) < flags.len() {
        flags[partition as usize] = flag;
    }
}

/// A result put in its place. Answers whether it is the first one there.
fn put_result_in(results: &mut Vec<bool>, partition: u32) -> bool
    ensures items { results.new.items ≡ change_at results.old.items partition (λ _. true) }
    ensures count { count_by (λ b. b) results.new.items
        ≡ count_by (λ b. b) results.old.items + (if result then 1 else 0) }
{
    if (partition as usize) < results.len() {
        let first = !results[partition as usize];
        results[partition as usize] = true;
        first
    } else {
        false
    }
}
