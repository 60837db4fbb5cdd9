//! What the tasks of a job report.
#![tactic(auto)]

ghost use Rattle.std.specs.Prelude.{◌≡◌, ◌↔◌, false, true};
ghost use Rattle.sc_tracker.specs.Tracking.{is_bogus};
ghost use Rattle.sc_dag.specs.Reports.{after_failed, after_hold, after_map_success, after_result_success, completed_if, ended_in_own, map_success_of, reaches_limit_in, result_success_of, set_of, succeeded_in_both, succeeded_in_own, with_output};

use crate::attempts::AttemptChange;
use crate::changes::RowChange;
use crate::dags::Dag;
use crate::outputs::is_bogus;
use crate::stages::{fail_at, target_at};
use sc_ids::{AttemptId, BlockId, Epoch, FailureCause, Loc, StageId, Target};
use sc_taskset::Verdict;

/// How the success of an attempt is taken.
#[derive(Clone, Copy, Debug, PartialEq, Eq)]
pub enum Success {
    /// The newest set of its stage doesn't want its partition any more: it changes nothing else.
    Repeated,
    /// Its map output is registered.
    Registered,
    /// Its map output may be lost already, and isn't registered.
    Bogus,
    /// Its partition has a result now.
    Finished,
}

impl Dag {
    /// A map task that was handed out at this epoch left its output there.
    pub fn map_success(&mut self, attempt: AttemptId, loc: Loc, epoch: Epoch, now: u64) -> Success
        ensures answer { result ≡ map_success_of self.old.0 attempt loc epoch }
        ensures state { self.new.0 ≡ after_map_success self.old.0 attempt loc epoch now }
        ensures ready { self.new.1 ≡ self.old.1 }
    {
        if !self.wants(attempt) {
            self.ended(attempt);
            return Success::Repeated;
        }
        if is_bogus(&self.tracker, loc, epoch) {
            self.succeed_own(attempt, now);
            return Success::Bogus;
        }
        self.register(attempt, loc, epoch);
        self.succeed_both(attempt, now);
        Success::Registered
    }

    /// A result task brought its result.
    pub fn result_success(&mut self, attempt: AttemptId, now: u64) -> Success
        ensures answer { result ≡ result_success_of self.old.0 attempt }
        ensures state { self.new.0 ≡ after_result_success self.old.0 attempt now }
        ensures ready { self.new.1 ≡ self.old.1 }
    {
        if !self.wants(attempt) {
            self.ended(attempt);
            return Success::Repeated;
        }
        self.succeed_both(attempt, now);
        self.change(attempt.stage, RowChange::HasResult(attempt.partition));
        self.complete_if_done(attempt.stage);
        Success::Finished
    }

    /// An attempt ended, and that changes nothing else.
    pub fn ended(&mut self, attempt: AttemptId)
        ensures state { self.new.0 ≡ ended_in_own self.old.0 attempt }
        ensures ready { self.new.1 ≡ self.old.1 }
    {
        let end = AttemptChange::End {
            partition: attempt.partition,
            nth: attempt.nth,
        };
        self.change(attempt.stage, RowChange::Own(attempt.stage_attempt, end));
    }

    /// An attempt failed. Answers whether its partition failed as often as is allowed.
    pub fn failed(&mut self, attempt: AttemptId, cause: FailureCause) -> Verdict
        ensures limit { (result ≡ Verdict.Limit)
            ↔ (reaches_limit_in (set_of self.old.0 attempt) attempt cause ≡ true) }
        ensures state { self.new.0 ≡ after_failed self.old.0 attempt cause }
        ensures ready { self.new.1 ≡ self.old.1 }
    {
        fail_at(&mut self.rows, attempt, cause)
    }

    /// A stage is told whether a held grant has denied an attempt of a partition. Its newest
    /// attempt holds the partition back then, and so do those to come.
    pub fn held(&mut self, stage: StageId, partition: u32, denied: bool)
        ensures state { self.new.0 ≡ after_hold self.old.0 stage partition denied }
        ensures ready { self.new.1 ≡ self.old.1 }
    {
        self.change(stage, RowChange::Held(partition, denied));
    }

    /// Registers the output of a map task, which isn't bogus.
    fn register(&mut self, attempt: AttemptId, loc: Loc, epoch: Epoch)
        requires { is_bogus self.old.0.tracker loc epoch ≡ false }
        ensures state { self.new.0 ≡ with_output self.old.0 attempt loc }
        ensures ready { self.new.1 ≡ self.old.1 }
    {
        if let Target::Map(shuffle) = target_at(&self.rows, attempt.stage) {
            let map = attempt.partition;
            let _ = self.tracker.register(BlockId { shuffle, map }, loc, epoch);
        }
    }

    /// A success told to its own task set.
    fn succeed_own(&mut self, attempt: AttemptId, now: u64)
        ensures state { self.new.0 ≡ succeeded_in_own self.old.0 attempt now }
        ensures ready { self.new.1 ≡ self.old.1 }
    {
        let success = AttemptChange::Success {
            partition: attempt.partition,
            nth: Some(attempt.nth),
            now,
        };
        self.change(
            attempt.stage,
            RowChange::Own(attempt.stage_attempt, success),
        );
    }

    /// A success told to its own task set, and to the newest one of its stage.
    fn succeed_both(&mut self, attempt: AttemptId, now: u64)
        ensures state { self.new.0 ≡ succeeded_in_both self.old.0 attempt now }
        ensures ready { self.new.1 ≡ self.old.1 }
    {
        let is_newest = self.is_of_newest(attempt);
        self.succeed_own(attempt, now);
        if !is_newest {
            let success = AttemptChange::Success {
                partition: attempt.partition,
                nth: None,
                now,
            };
            self.change(attempt.stage, RowChange::Newest(success));
        }
    }

    /// A stage is complete where all its partitions are done.
    fn complete_if_done(&mut self, stage: StageId)
        ensures state { self.new.0 ≡ completed_if self.old.0 stage }
        ensures ready { self.new.1 ≡ self.old.1 }
    {
        if self.is_complete(stage) {
            self.change(stage, RowChange::Complete);
        }
    }
}
