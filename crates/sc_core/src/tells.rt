//! A report is told.
#![tactic(auto)]

ghost use Rattle.std.specs.Prelude.{◌≡◌, true, false, slice_get};
ghost use Rattle.sc_dag.specs.Outputs.{is_complete};
ghost use Rattle.sc_dag.specs.Reports.{reaches_limit_in, set_of};
ghost use Rattle.sc_tracker.specs.Trust.{is_newer};
ghost use Rattle.sc_core.specs.Owners.{has_task};
ghost use Rattle.sc_core.specs.Rooms.{may_resubmit, wants_room};
ghost use Rattle.sc_core.specs.Tells.{FailsBy, IsGone, Misses, Tells, TellsFailure, TellsFailureIf, TellsMap, TellsResult, done_if, limit_of, success_answer, with_result_of};

use crate::answers::{Abort, Answer, JobState};
use crate::events::Outcome;
use crate::running::Running;
use crate::states::State;
use sc_commit::Ending;
use sc_dag::Success;
use sc_ids::{AttemptId, ExecId, FailureCause, Generation, Loc, StageId};
use sc_taskset::Verdict;

impl State {
    /// A report of an attempt that ran, and runs no more. It takes no memory.
    pub fn tell(&mut self, running: &Running, outcome: Outcome) -> Answer
        requires { wants_room outcome ≡ true → self.old.1 ≡ true }
        ensures tells { Tells self.old.0 running.now outcome result self.new.0 }
        ensures plain { has_task result ≡ false }
    {
        match outcome {
            Outcome::Map(loc) => self.tell_map(running, loc),
            Outcome::Result => self.tell_result(running),
            Outcome::Failed(cause) => self.tell_failure(running.hand_out.attempt(), cause),
        }
    }

    /// A map output is there.
    fn tell_map(&mut self, running: &Running, loc: Loc) -> Answer
        requires { self.old.1 ≡ true }
        ensures tells { TellsMap self.old.0 running.now loc result self.new.0 }
        ensures plain { has_task result ≡ false }
    {
        let attempt = running.hand_out.attempt();
        let epoch = running.hand_out.epoch();
        answer_to(self.stages.map_success(attempt, loc, epoch, self.tick))
    }

    /// A result is there. With the last one the job is done.
    fn tell_result(&mut self, running: &Running) -> Answer
        ensures tells { TellsResult self.old.0 running.now result self.new.0 }
        ensures plain { has_task result ≡ false }
    {
        let attempt = running.hand_out.attempt();
        if !self.stages.dag().wants(attempt) {
            self.put_result(attempt);
            return Answer::Repeated;
        }
        self.release(attempt, Ending::Succeeded);
        self.put_result(attempt);
        self.end_if_complete(attempt.stage);
        Answer::Finished
    }

    /// Ends the job where its result stage is complete.
    fn end_if_complete(&mut self, stage: StageId)
        ensures { self.new.0 ≡ done_if (is_complete self.old.0.dag stage) self.old.0 }
    {
        if self.stages.dag().is_complete(stage) {
            self.end(JobState::Done);
        }
    }

    /// The success of a result task.
    fn put_result(&mut self, attempt: AttemptId)
        ensures { self.new.0 ≡ with_result_of self.old.0 attempt }
    {
        self.stages.result_success(attempt, self.tick);
    }

    /// An attempt failed.
    fn tell_failure(&mut self, attempt: AttemptId, cause: FailureCause) -> Answer
        requires { may_resubmit cause ≡ true → self.old.1 ≡ true }
        ensures tells { TellsFailureIf
            (reaches_limit_in (set_of self.old.0.dag attempt) attempt cause)
            self.old.0 attempt cause result self.new.0 }
        ensures plain { has_task result ≡ false }
    {
        let hands_out = self.stages.dag().hands_out(attempt);
        let verdict = self.stages.failed(attempt, cause);
        self.release(attempt, Ending::Failed);
        match verdict {
            Verdict::Limit => self.abort(limit_of(attempt)),
            Verdict::Again => self.fail_by(attempt, cause, !hands_out),
        }
    }

    /// What the cause of a failure brings about, where the failure isn't the last that is allowed.
    fn fail_by(&mut self, attempt: AttemptId, cause: FailureCause, is_zombie: bool) -> Answer
        requires { may_resubmit cause ≡ true → self.old.1 ≡ true }
        ensures fails { FailsBy cause is_zombie self.old.0 attempt result self.new.0 }
        ensures plain { has_task result ≡ false }
    {
        match cause {
            FailureCause::Gone { exec, found, .. } => self.gone(attempt, exec, found, is_zombie),
            FailureCause::Metadata { .. } => self.miss(attempt),
            FailureCause::Planned | FailureCause::Raised(_) => Answer::Again,
            FailureCause::Device(_) | FailureCause::Denied => Answer::Again,
        }
    }

    /// A fetch found a newer generation than it was sent to.
    fn gone(
        &mut self,
        attempt: AttemptId,
        exec: ExecId,
        found: Generation,
        is_zombie: bool,
    ) -> Answer
        requires { self.old.1 ≡ true }
        ensures gone { IsGone (is_newer (slice_get self.old.0.dag.tracker.trust exec) found)
            is_zombie self.old.0 attempt exec found result self.new.0 }
        ensures plain { has_task result ≡ false }
    {
        if self.stages.dag().tracker().is_newer(exec, found) {
            self.stages.raise_seen(exec, found);
            self.miss(attempt)
        } else if is_zombie {
            Answer::Again
        } else {
            self.miss(attempt)
        }
    }

    /// An attempt misses an input: where it is of the newest attempt of a stage that isn't
    /// complete, that attempt has failed.
    fn miss(&mut self, attempt: AttemptId) -> Answer
        requires { self.old.1 ≡ true }
        ensures misses { Misses self.old.0 attempt result self.new.0 }
        ensures plain { has_task result ≡ false }
    {
        let dag = self.stages.dag();
        if !(dag.is_of_newest(attempt) && !dag.is_complete(attempt.stage)) {
            return Answer::Again;
        }
        let stage = attempt.stage;
        match self.stages.stage_failed(stage, attempt.stage_attempt) {
            Verdict::Again => Answer::Resubmitted,
            Verdict::Limit => self.abort(Abort::StageLimit { stage }),
        }
    }
}

/// The answer to a success.
fn answer_to(success: Success) -> Answer
    ensures answer { result ≡ success_answer success }
    ensures plain { has_task result ≡ false }
{
    match success {
        Success::Repeated => Answer::Repeated,
        Success::Registered => Answer::Registered,
        Success::Bogus => Answer::Bogus,
        Success::Finished => Answer::Finished,
    }
}

/// A partition failed as often as is allowed.
fn limit_of(attempt: AttemptId) -> Abort
    ensures { result ≡ limit_of attempt }
{
    Abort::TaskLimit {
        stage: attempt.stage,
        stage_attempt: attempt.stage_attempt,
        partition: attempt.partition,
    }
}
