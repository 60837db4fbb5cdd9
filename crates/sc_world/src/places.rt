//! The place of the attempt that an executor has out.
#![tactic(auto)]

ghost use Rattle.std.specs.Prelude.{◌≡◌, IfOk, IfSome, None, OnErr, OnOk, Some, is_some, true};
ghost use Rattle.sc_task.specs.Attempts.{assigned, reported};
ghost use Rattle.sc_desk.specs.Saving.{IsEvidentAnswer};
ghost use Rattle.sc_world.specs.Places.{AreInOrder, ComputesAt, HasPart, IsAside, IsAttemptOf, PutsAt, ReadStands, settled};
ghost use Rattle.sc_world.specs.Steps.{ReadsAt, phase_of};

use crate::going::{compute_next, phase_of, read_next};
use crate::saving::{Part, settled};
use crate::steps::Kept;
use sc_core::SideAnswer;
use sc_ids::{AttemptId, Loc};
use sc_net::{Report, Task};
use sc_store::Store;
use sc_task::{Attempt, assign};
use sc_work::Naming;
use std::alloc::{AllocError, Global};
use std::marker::Model;

/// How far the attempt is that an executor may have out.
#[derive(Clone, Copy, Debug, PartialEq, Eq)]
pub enum AttemptState {
    /// There is none.
    Idle,
    /// It is to read its next block.
    Reads,
    /// It has read all, and is to compute.
    Computes,
    /// It is to put the block that it has computed.
    Puts,
    /// It is to write the part that it has computed.
    Stages,
    /// Its part was written, and it is to ask whether it may commit.
    Asks,
    /// It may commit, and is to move its part.
    Moves,
    /// It is to report.
    Reports,
}

/// A place for the attempt that an executor has out.
#[derive(Drop)]
pub(crate) struct Place<W: Naming> {
    attempt: Option<Attempt<W>>,
}

impl<W: Naming> Model for Place<W> {
    ghost use Rattle.std.specs.Prelude.{Option};
    ghost use Rattle.std.specs.Coded.{coded_option};
    ghost use Rattle.std.specs.Option.{option_map};
    ghost use Rattle.sc_task.specs.Attempts.{AttemptData, attempt_code, attempt_data_of};
    ghost use Rattle.sc_world.specs.Places.{IsAtRest};

    ghost Value = { Option AttemptData };

    ghost coded = { coded_option attempt_code };

    ghost view = { λ p. option_map attempt_data_of p.attempt };

    ghost invariant = { λ p. IsAtRest W.work (option_map attempt_data_of p.attempt) };
}

impl<W: Naming> Place<W> {
    /// A place without an attempt.
    pub(crate) fn empty() -> Place<W>
        ensures { result ≡ None }
    {
        Place { attempt: None }
    }

    /// How far its attempt is.
    pub(crate) fn phase(&self) -> AttemptState
        ensures { result ≡ phase_of self.now }
    {
        match &self.attempt {
            Some(attempt) => phase_of(attempt),
            None => AttemptState::Idle,
        }
    }

    /// Whether it has an attempt.
    pub(crate) fn is_taken(&self) -> bool
        ensures { result ≡ is_some self.now }
    {
        self.attempt.is_some()
    }

    /// An attempt of a task takes the place, which has read nothing yet.
    pub(crate) fn give(&mut self, alloc: Global, task: Task<W>)
        ensures { self.new ≡ Some (assigned task 0) }
    {
        self.attempt = Some(Attempt::Assigned(assign(alloc, task)));
    }

    /// The attempt reads the next block. A refused call changes nothing.
    pub(crate) fn read(&mut self, stores: &[Store<W>]) -> Result<(), AllocError>
        requires order { AreInOrder stores.now }
        requires stands { IfSome self.old (ReadStands stores.now) }
        requires reads { phase_of self.old ≡ AttemptState.Reads }
        ensures reads { OnOk result (ReadsAt stores.now self.old self.new) }
        ensures refused { OnErr result (self.new ≡ self.old) }
    {
        let Some(attempt) = self.attempt.take() else {
            unreachable!();
        };
        let Attempt::Assigned(state) = attempt else {
            unreachable!();
        };
        match read_next(stores, state) {
            Ok(next) => {
                self.attempt = Some(next);
                Ok(())
            }
            Err(failed) => {
                self.attempt = Some(Attempt::Assigned(failed.value));
                Err(AllocError)
            }
        }
    }

    /// The attempt has read all, and computes; the store of its executor uses the cached partitions
    /// that it has of it, and keeps others, as many as the answer says. A refused call changes
    /// nothing.
    pub(crate) fn compute(
        &mut self,
        alloc: Global,
        store: &mut Store<W>,
    ) -> Result<Kept, AllocError>
        requires computes { phase_of self.old ≡ AttemptState.Computes }
        ensures computes { IfOk result
            (λ kept. ComputesAt W.work self.old store.old kept self.new store.new) }
        ensures refused { OnErr result (self.new ≡ self.old) }
        ensures same { OnErr result (store.new ≡ store.old) }
    {
        let Some(attempt) = self.attempt.take() else {
            unreachable!();
        };
        let Attempt::Assigned(state) = attempt else {
            unreachable!();
        };
        match compute_next(alloc, state, store) {
            Ok((next, kept)) => {
                self.attempt = Some(next);
                Ok(kept)
            }
            Err(failed) => {
                self.attempt = Some(Attempt::Assigned(failed.value));
                Err(AllocError)
            }
        }
    }

    /// The attempt puts the block that it has computed into the store of its executor, and is to
    /// report where it lies. A refused call changes nothing.
    pub(crate) fn put(&mut self, store: &mut Store<W>) -> Result<Loc, AllocError>
        requires puts { phase_of self.old ≡ AttemptState.Puts }
        ensures puts { IfOk result
            (λ loc. PutsAt W.work self.old store.old loc self.new store.new) }
        ensures refused { OnErr result (self.new ≡ self.old) }
        ensures same { OnErr result (store.new ≡ store.old) }
    {
        let Some(attempt) = self.attempt.take() else {
            unreachable!();
        };
        let Attempt::Computed(state) = attempt else {
            unreachable!();
        };
        match state.put(store) {
            Ok(stored) => {
                let loc = stored.loc();
                self.attempt = Some(Attempt::Reported(stored.report()));
                Ok(loc)
            }
            Err(failed) => {
                self.attempt = Some(Attempt::Computed(failed.value));
                Err(AllocError)
            }
        }
    }

    /// What the attempt is to write, which it has computed, and the attempt's numbers.
    pub(crate) fn part(&self, alloc: Global) -> Result<Part, AllocError>
        requires stages { phase_of self.now ≡ AttemptState.Stages }
        ensures { IfOk result (λ p. HasPart W.work self.now p.attempt p.text.items) }
    {
        let Some(attempt) = &self.attempt else {
            unreachable!();
        };
        let Attempt::Computed(state) = attempt else {
            unreachable!();
        };
        let text = state.part_text(alloc)?;
        Ok(Part {
            attempt: state.task().attempt(),
            text,
        })
    }

    /// The numbers of the attempt.
    pub(crate) fn attempt(&self) -> AttemptId
        requires taken { is_some self.now ≡ true }
        ensures { IsAttemptOf self.now result }
    {
        match &self.attempt {
            Some(attempt) => attempt.task().attempt(),
            None => unreachable!(),
        }
    }

    /// The attempt, which is one of a save, did something beside the reports, which is answered so.
    pub(crate) fn settle(&mut self, answer: SideAnswer)
        requires aside { IsAside self.old }
        requires evident { IsEvidentAnswer answer }
        ensures { self.new ≡ settled self.old answer }
    {
        let Some(attempt) = self.attempt.take() else {
            unreachable!();
        };
        self.attempt = settled(attempt, answer);
    }

    /// The attempt leaves the place, and what it reports goes on.
    pub(crate) fn take_report(&mut self) -> Report<W>
        requires reports { phase_of self.old ≡ AttemptState.Reports }
        ensures held { self.old ≡ Some (reported result.task result.finding) }
        ensures empty { self.new ≡ None }
    {
        let Some(attempt) = self.attempt.take() else {
            unreachable!();
        };
        let Attempt::Reported(report) = attempt else {
            unreachable!();
        };
        report
    }

    /// An attempt takes the place that is to report.
    pub(crate) fn hold(&mut self, report: Report<W>)
        ensures { self.new ≡ Some (reported report.task report.finding) }
    {
        self.attempt = Some(Attempt::Reported(report));
    }
}
