//! A report is posted.
#![tactic(auto)]

ghost use Rattle.std.specs.Prelude.{◌≡◌, IfOk, None, OnErr, OnOk, Some, false, true};
ghost use Rattle.std.specs.List.{AllPairs};
ghost use Rattle.sc_ids.specs.declared.attempts.AttemptId.{AttemptId};
ghost use Rattle.sc_core.specs.declared.answers.NotEnabled.{NotEnabled};
ghost use Rattle.sc_core.specs.CoreData.{running_of, shelved_if, taken_off, told_once};
ghost use Rattle.sc_core.specs.Owners.{IsThrice, has_task};
ghost use Rattle.sc_core.specs.Posts.{Posts, PostsBy, PostsOf, TellsNow, fits, is_misfit, misfits};
ghost use Rattle.sc_dag.specs.DagData.{stage_at};
ghost use Rattle.sc_dag.specs.Submission.{is_map};
ghost use Rattle.sc_core.specs.Sound.{AreTwo};
ghost use Rattle.sc_core.specs.Rooms.{IsRunningAt, wants_room};

use crate::answers::{Answer, NotEnabled, Stepped};
use crate::attempts::place_of;
use crate::events::Outcome;
use crate::fits::{fits_failure, has_moved};
use crate::running::Running;
use crate::states::State;
use sc_base::OrMemory;
use sc_ids::{AttemptId, FailureCause, Target};
use std::alloc::AllocError;

impl State {
    /// A report of an attempt comes.
    pub fn post(
        &mut self,
        attempt: AttemptId,
        outcome: Outcome,
    ) -> Result<Stepped, OrMemory<NotEnabled>>
        requires { AllPairs AreTwo self.old.0.running }
        ensures answered { IfOk result (λ s. Posts self.old.0 attempt outcome s.answer self.new.0) }
        ensures thrice { IfOk result (λ s. IsThrice s s.answer) }
        ensures not_enabled { (fault : NotEnabled) → result ≡ Err (OrMemory.Fault fault)
            → is_misfit self.old.0 attempt outcome ≡ true }
        ensures unchanged { OnErr result (self.new.0 ≡ self.old.0) }
    {
        if !self.runs() {
            return Ok(Stepped::plain(Answer::Ignored));
        }
        match place_of(&self.running, attempt) {
            Some(place) => self.post_running(place, attempt, outcome),
            None => {
                self.count();
                Ok(Stepped::plain(Answer::Ignored))
            }
        }
    }

    /// A report of a running attempt comes.
    fn post_running(
        &mut self,
        place: usize,
        attempt: AttemptId,
        outcome: Outcome,
    ) -> Result<Stepped, OrMemory<NotEnabled>>
        requires { IsRunningAt self.old.0.running attempt place }
        ensures answered { IfOk result (λ s. PostsOf (running_of self.old.0 attempt) self.old.0
            attempt outcome s.answer self.new.0) }
        ensures thrice { IfOk result (λ s. IsThrice s s.answer) }
        ensures not_enabled { (fault : NotEnabled) → result ≡ Err (OrMemory.Fault fault)
            → misfits self.old.0 (running_of self.old.0 attempt) outcome ≡ true }
        ensures unchanged { OnErr result (self.new.0 ≡ self.old.0) }
    {
        if !self.fits(&self.running[place], outcome) {
            return Err(OrMemory::Fault(NotEnabled));
        }
        match self.plan.late(&attempt) {
            Some(delay) => {
                self.shelve_late(attempt, outcome, delay)?;
                Ok(Stepped::plain(Answer::Shelved))
            }
            None => Ok(Stepped::plain(self.post_now(place, attempt, outcome)?)),
        }
    }

    /// A report of a running attempt comes that is told at once.
    fn post_now(
        &mut self,
        place: usize,
        attempt: AttemptId,
        outcome: Outcome,
    ) -> Result<Answer, AllocError>
        requires { IsRunningAt self.old.0.running attempt place }
        ensures answered { IfOk result
            (λ answer. PostsBy None self.old.0 attempt outcome answer self.new.0) }
        ensures plain { IfOk result (λ answer. has_task answer ≡ false) }
        ensures unchanged { OnErr result (self.new.0 ≡ self.old.0) }
    {
        self.make_room(outcome)?;
        self.shelve_copy(attempt, outcome)?;
        Ok(self.tell_at(place, attempt, outcome))
    }

    /// A report of a running attempt is told.
    pub fn tell_at(&mut self, place: usize, attempt: AttemptId, outcome: Outcome) -> Answer
        requires runs { IsRunningAt self.old.0.running attempt place }
        requires room { wants_room outcome ≡ true → self.old.1 ≡ true }
        ensures tells { TellsNow self.old.0 attempt outcome result self.new.0 }
        ensures plain { has_task result ≡ false }
    {
        let running = self.take_off(place);
        self.tell(&running, outcome)
    }

    /// Makes room for what may be submitted for a report. Nothing that is seen changes.
    pub fn make_room(&mut self, outcome: Outcome) -> Result<(), AllocError>
        ensures same { self.new.0 ≡ self.old.0 }
        ensures ready { OnOk result (wants_room outcome ≡ true → self.new.1 ≡ true) }
    {
        if wants_room(outcome) {
            self.stages.prepare()
        } else {
            Ok(())
        }
    }

    /// Whether a report may be one of a running attempt: a success is of its stage's kind, a map
    /// output on its own executor, and the result of a save was moved.
    fn fits(&self, running: &Running, outcome: Outcome) -> bool
        ensures { result ≡ fits self.now.0 running.now outcome }
    {
        match outcome {
            Outcome::Map(loc) => self.is_map(running) && loc.exec == running.exec,
            Outcome::Result => {
                !self.is_map(running) && (!self.is_save() || has_moved(running.phase))
            }
            Outcome::Failed(cause) => fits_failure(running, cause),
        }
    }

    /// Whether an attempt is of a map stage.
    fn is_map(&self, running: &Running) -> bool
        ensures { result
            ≡ is_map (stage_at self.now.0.dag running.now.hand_out.attempt.stage).target }
    {
        match self.stages.dag().target(running.hand_out.attempt().stage) {
            Target::Map(_) => true,
            Target::Result { .. } => false,
        }
    }

    /// Takes an attempt off those that run, as its report is told.
    pub fn take_off(&mut self, place: usize) -> Running
        requires { (attempt : AttemptId) × IsRunningAt self.old.0.running attempt place }
        ensures running { (attempt : AttemptId) → IsRunningAt self.old.0.running attempt place
            → running_of self.old.0 attempt ≡ Some result }
        ensures state { (attempt : AttemptId) → IsRunningAt self.old.0.running attempt place
            → self.new.0 ≡ taken_off self.old.0 attempt }
        ensures ready { self.new.1 ≡ self.old.1 }
    {
        self.told = self.told.saturating_add(1);
        self.running.remove(place)
    }

    /// Counts a report that is of no running attempt.
    pub fn count(&mut self)
        ensures { self.new.0 ≡ told_once self.old.0 }
    {
        self.told = self.told.saturating_add(1);
    }
}

/// Whether stages may be submitted for a report.
fn wants_room(outcome: Outcome) -> bool
    ensures { result ≡ wants_room outcome }
{
    match outcome {
        Outcome::Map(_) => true,
        Outcome::Failed(FailureCause::Gone { .. } | FailureCause::Metadata { .. }) => true,
        Outcome::Result | Outcome::Failed(_) => false,
    }
}
