//! An executor is told lost.
#![tactic(auto)]

ghost use Rattle.std.specs.Prelude.{◌≡◌, IfOk, OnErr, Some, filter, not, false, slice_get};
ghost use Rattle.sc_core.specs.declared.answers.NotEnabled.{NotEnabled};
ghost use Rattle.sc_core.specs.CoreData.{CoreData};
ghost use Rattle.sc_core.specs.Losses.{Loses, LosesOrAborts, all_released, attempt_on, attempts_on, is_due_after, may_be_lost, released_at, runs_on, without_executor};
ghost use Rattle.sc_core.specs.Owners.{IsThrice, has_task};
ghost use Rattle.sc_dag.specs.Losses.{after_lost};
ghost use Rattle.sc_tracker.specs.Trust.{are_lost};

use crate::answers::{Abort, Answer, NotEnabled, Stepped};
use crate::running::Running;
use crate::states::State;
use sc_base::OrMemory;
use sc_commit::Ending;
use sc_ids::{AttemptId, ExecId};

impl State {
    /// An executor is told lost. It takes no memory.
    pub fn tell_lost(&mut self, exec: ExecId) -> Result<Stepped, OrMemory<NotEnabled>>
        ensures answered { IfOk result (λ s. Loses self.old.0 exec s.answer self.new.0) }
        ensures thrice { IfOk result (λ s. IsThrice s s.answer) }
        ensures not_enabled { (fault : NotEnabled) → result ≡ Err (OrMemory.Fault fault)
            → may_be_lost self.old.0 exec ≡ false }
        ensures unchanged { OnErr result (self.new.0 ≡ self.old.0) }
    {
        if !self.may_be_lost(exec) {
            return Err(OrMemory::Fault(NotEnabled));
        }
        self.lose(exec);
        Ok(Stepped::plain(self.end_if_nobody()))
    }

    /// Whether an executor may be told lost.
    pub fn may_be_lost(&self, exec: ExecId) -> bool
        ensures { result ≡ may_be_lost self.now.0 exec }
    {
        self.runs()
            && self.stages.dag().tracker().is_live(exec)
            && is_due_after(self.plan.loss(exec), self.told)
    }

    /// What a loss leaves.
    fn lose(&mut self, exec: ExecId)
        ensures { self.new.0 ≡ without_executor self.old.0 exec }
    {
        self.stages.tell_lost(exec);
        self.release_on(exec);
        remove_on(&mut self.running, exec);
    }

    /// Frees the grants of the attempts that run on an executor.
    fn release_on(&mut self, exec: ExecId)
        ensures state { self.new.0 ≡ all_released (attempts_on exec self.old.0.running) self.old.0 }
        ensures running { self.new.0.running ≡ self.old.0.running }
    {
        for k in 0..self.running.len() {
            self.release_at(k, exec);
        }
    }

    /// Frees the grant of the attempt at a place, where that runs on an executor.
    fn release_at(&mut self, place: usize, exec: ExecId)
        ensures { self.new.0 ≡ released_at exec (slice_get self.old.0.running place) self.old.0 }
    {
        if let Some(attempt) = self.attempt_at(place, exec) {
            self.release(attempt, Ending::Failed);
        }
    }

    /// The attempt at a place, where that runs on an executor.
    fn attempt_at(&self, place: usize, exec: ExecId) -> Option<AttemptId>
        ensures { result ≡ attempt_on exec (slice_get self.now.0.running place) }
    {
        match self.running.get(place) {
            Some(running) => attempt_on(running, exec),
            None => None,
        }
    }

    /// Aborts the job where every executor is told lost.
    fn end_if_nobody(&mut self) -> Answer
        ensures ends { LosesOrAborts (are_lost self.old.0.dag.tracker.trust) self.old.0 result
            self.new.0 }
        ensures plain { has_task result ≡ false }
    {
        if self.stages.dag().tracker().all_lost() {
            self.abort(Abort::NoExecutor)
        } else {
            Answer::Told
        }
    }
}

/// An attempt, where it runs on an executor.
fn attempt_on(running: &Running, exec: ExecId) -> Option<AttemptId>
    ensures { result ≡ attempt_on exec (Some running.now) }
{
    if running.exec == exec {
        Some(running.hand_out.attempt())
    } else {
        None
    }
}

/// Whether as many reports were told as come before a loss, where there is one.
fn is_due_after(due: Option<u64>, told: u64) -> bool
    ensures { result ≡ is_due_after due told }
{
    match due {
        Some(due) => due <= told,
        None => false,
    }
}

/// Removes what runs on an executor.
fn remove_on(running: &mut Vec<Running>, exec: ExecId)
    ensures { running.new.items ≡ filter (λ r. not (runs_on exec r)) running.old.items }
{
    running.retain(|r| r.exec != exec);
}
