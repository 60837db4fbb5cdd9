//! Worlds.
#![tactic(auto)]

ghost use Rattle.std.specs.Prelude.{◌≡◌, IfErr, IfOk, None, Some, replicate};
ghost use Rattle.sc_core.specs.CoreData.{job_runs};
ghost use Rattle.sc_core.specs.Journals.{Replays};
ghost use Rattle.sc_core.specs.declared.answers.JobState.TheVariants.{Done};
ghost use Rattle.sc_desk.specs.Begins.{FitsLast, IsPassedFor};
ghost use Rattle.sc_desk.specs.DeskData.{core_of};
ghost use Rattle.sc_desk.specs.Sound.{AreAllResults, AreEvident, IsSoundDesk};
ghost use Rattle.sc_world.specs.Runs.{AreReady, HasBegun, IsWorld, idle_world};
ghost use Rattle.sc_world.specs.Sound.{IsSoundWorld};
ghost use Rattle.sc_world.specs.Steps.{phase_of};
ghost use Rattle.sc_world.specs.WorldData.{core_in, held_at};

use crate::places::{AttemptState, Place};
use sc_desk::{Closed, Desk};
use sc_ids::ExecId;
use sc_store::Store;
use sc_work::Naming;
use std::alloc::{AllocError, Global};
use std::marker::Model;

/// The world of a job: the driver's desk, the stores of the executors, and the attempts that these
/// have out.
#[derive(Drop)]
pub struct World<W: Naming> {
    pub(crate) desk: Desk<W>,
    pub(crate) stores: Vec<Store<W>>,
    pub(crate) held: Vec<Place<W>>,
}

impl<W: Naming> Model for World<W> {
    ghost use Rattle.sc_world.specs.Runs.{IsWorld};
    ghost use Rattle.sc_world.specs.WorldData.{WorldData, world_code, world_data};

    ghost Value = { WorldData };

    ghost coded = { world_code };

    ghost view = { λ w. world_data w.desk w.stores.items w.held.items };

    ghost invariant = { λ w. IsWorld W.work (world_data w.desk w.stores.items w.held.items) };
}

/// What a world was to be made of, handed back where memory is wanting.
#[derive(Drop)]
pub struct NoRoom<W: Naming> {
    /// The desk.
    pub desk: Desk<W>,
    /// The stores.
    pub stores: Vec<Store<W>>,
}

impl<W: Naming> World<W> {
    /// The world of a job that begins over stores that are ready for it. No executor has an attempt
    /// out. A refused call hands back what it was given.
    pub fn begin(alloc: Global, desk: Desk<W>, stores: Vec<Store<W>>) -> Result<World<W>, NoRoom<W>>
        requires begun { HasBegun W.work desk }
        requires ready { AreReady W.work stores.items (core_of desk).dag.tracker
            (core_of desk).told }
        ensures begun { IfOk result (λ w. w ≡ idle_world W.work desk stores.items) }
        ensures desk { IfErr result (λ back. back.desk ≡ desk) }
        ensures stores { IfErr result (λ back. back.stores.items ≡ stores.items) }
    {
        desk.is_sound();
        desk.core().is_sound();
        desk.work().is_named();
        match no_attempts(alloc, desk.work().get().limits().executors) {
            Ok(held) => Ok(World { desk, stores, held }),
            Err(_) => Err(NoRoom { desk, stores }),
        }
    }

    /// The driver's desk.
    pub fn desk(&self) -> &Desk<W>
        ensures { result.now ≡ self.now.desk }
    {
        &self.desk
    }

    /// The stores of the executors, in the order of their numbers.
    pub fn stores(&self) -> &[Store<W>]
        ensures { result.now ≡ self.now.stores }
    {
        self.stores.as_slice()
    }

    /// How far the attempt is that an executor may have out.
    pub fn phase(&self, exec: ExecId) -> AttemptState
        ensures { result ≡ phase_of (held_at self.now exec) }
    {
        match self.held.get(exec as usize) {
            Some(place) => place.phase(),
            None => AttemptState::Idle,
        }
    }

    /// Whether the job runs.
    pub fn runs(&self) -> bool
        ensures { result ≡ job_runs (core_in self.now) }
    {
        match self.desk.core().job() {
            sc_core::JobState::Running => true,
            sc_core::JobState::Done | sc_core::JobState::Aborted(_) => false,
        }
    }

    /// What every world keeps.
    pub fn is_sound(&self)
        ensures { IsSoundWorld W.work self.now }
    {
        let _ = &self.held;
    }

    /// The same, with what its parts are by their types.
    pub(crate) fn is_world(&self)
        ensures { IsWorld W.work self.now }
    {
        let _ = &self.held;
    }

    /// What every desk keeps, of its own.
    pub(crate) fn has_sound_desk(&self)
        ensures { IsSoundDesk W.work self.now.desk }
    {
        self.is_world();
    }

    /// The desk and the stores as they are. What executors have out is let go.
    pub fn into_parts(self) -> (Desk<W>, Vec<Store<W>>)
        ensures desk { result.0 ≡ self.desk }
        ensures stores { result.1.items ≡ self.stores }
    {
        (self.desk, self.stores)
    }

    /// How the job went, with what goes on to the next one, and the stores, which are ready for it.
    /// It takes no memory.
    pub fn close(self) -> (Closed<W>, Vec<Store<W>>)
        ensures opening { result.0.history.opening ≡ self.desk.journal.opening }
        ensures entries { result.0.history.entries.items ≡ self.desk.journal.entries }
        ensures end { result.0.history.end ≡ core_in self }
        ensures replays { Replays result.0.history.opening result.0.history.entries.items
            result.0.history.end }
        ensures results { result.0.results.items ≡ self.desk.results }
        ensures carried { result.0.passed.carried ≡ self.desk.carried }
        ensures ordered { result.0.passed.ordered ≡ self.desk.ordered }
        ensures job { result.0.job ≡ self.desk.job }
        ensures whole { (core_in self).job ≡ Done
            → AreAllResults W.work result.0.job result.0.results.items }
        ensures fits { FitsLast W.work (Some result.0.history.end) }
        ensures passed { IsPassedFor W.work result.0.passed }
        ensures evidence { (is : Replays result.0.history.opening result.0.history.entries.items
            result.0.history.end) → AreEvident W.work result.0.job result.0.history.opening
            result.0.history.entries.items result.0.history.end is }
        ensures stores { result.1.items ≡ self.stores }
        ensures ready { AreReady W.work result.1.items result.0.history.end.dag.tracker
            result.0.history.end.told }
    {
        let World { desk, stores, .. } = self;
        (desk.close(), stores)
    }
}

/// Places for so many executors, without an attempt.
fn no_attempts<W: Naming>(alloc: Global, executors: u32) -> Result<Vec<Place<W>>, AllocError>
    ensures { IfOk result (λ v. v.items ≡ replicate executors None) }
{
    let mut held = Vec::with_capacity(alloc, executors as usize)?;
    for _ in 0..executors {
        held.push(Place::empty())?;
    }
    Ok(held)
}
