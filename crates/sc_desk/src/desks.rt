//! The desk.
#![tactic(auto)]

ghost use Rattle.std.specs.Prelude.{◌≡◌, All};
ghost use Rattle.sc_tracker.specs.TrackerData.{trust_of};
ghost use Rattle.sc_core.specs.Posts.{is_save};
ghost use Rattle.sc_jobs.specs.JobData.{saves};
ghost use Rattle.sc_desk.specs.DeskData.{core_of};
ghost use Rattle.sc_desk.specs.Files.{HasReplay};
ghost use Rattle.sc_desk.specs.Leaving.{IsOwnLeave};
ghost use Rattle.sc_desk.specs.Sound.{IsSoundDesk};

use crate::journals::DeskJournal;
use crate::orders::Orders;
use sc_compute::TaskResult;
use sc_core::{Core, Entry};
use sc_ids::{ExecId, Generation};
use sc_jobs::Job;
use sc_net::{Report, ShelvedReport};
use sc_stagecut::Carried;
use sc_work::{Naming, SharedWork};
use std::marker::Model;

/// What the driver keeps of the job that runs: its journal, the results that are there, the reports
/// that are to be told later, and what goes on to the next job.
#[derive(Drop)]
pub struct Desk<W: Naming> {
    pub(crate) work: SharedWork<W>,
    pub(crate) job: Job<W>,
    pub(crate) carried: Carried,
    pub(crate) journal: DeskJournal,
    pub(crate) results: Vec<Option<TaskResult>>,
    pub(crate) shelf: Vec<ShelvedReport<Report<W>>>,
    pub(crate) ordered: Orders,
}

impl<W: Naming> Model for Desk<W> {
    ghost use Rattle.sc_desk.specs.DeskData.{DeskData, desk_code, desk_data};
    ghost use Rattle.sc_desk.specs.Sound.{IsSoundDesk};

    ghost Value = { DeskData };

    ghost coded = { desk_code };

    ghost view = { λ d.
        desk_data d.job d.carried d.journal.0 d.results.items d.shelf.items d.ordered };

    ghost invariant = { λ d. IsSoundDesk W.work
        (desk_data d.job d.carried d.journal.0 d.results.items d.shelf.items d.ordered) };
}

impl<W: Naming> Desk<W> {
    /// The work.
    pub fn work(&self) -> &SharedWork<W>
        ensures { result.now ≡ W.work }
    {
        self.work.is_named();
        &self.work
    }

    /// The job that runs.
    pub fn job(&self) -> &Job<W>
        ensures { result.now ≡ self.now.job }
    {
        &self.job
    }

    /// The core as it is now.
    pub fn core(&self) -> &Core
        ensures { result.now ≡ core_of self.now }
    {
        self.journal.core()
    }

    /// What happened so far, in order.
    pub fn entries(&self) -> &[Entry]
        ensures { result.now ≡ self.now.journal.entries }
    {
        self.journal.entries()
    }

    /// For each partition what was handed over of its result, where it has one.
    pub fn results(&self) -> &[Option<TaskResult>]
        ensures { result.now ≡ self.now.results }
    {
        self.results.as_slice()
    }

    /// The reports that are to be told later, by rising keys.
    pub fn shelf(&self) -> &[ShelvedReport<Report<W>>]
        ensures { result.now ≡ self.now.shelf }
    {
        self.shelf.as_slice()
    }

    /// The greatest generation of an executor's store that was seen.
    pub fn seen(&self, exec: ExecId) -> Generation
        ensures { result ≡ (trust_of (core_of self.now).dag.tracker exec).seen }
    {
        self.core().seen(exec)
    }

    /// What every desk keeps.
    pub fn is_sound(&self)
        ensures { IsSoundDesk W.work self.now }
    {
        let _ = &self.journal;
    }

    /// Its core is what the entries leave of how the job began.
    pub fn is_replay(&self)
        ensures { HasReplay self.now }
    {
        self.journal.is_replay();
    }

    /// Its core has places for those who may commit exactly where the goal of its job saves.
    pub fn saves_by_goal(&self)
        ensures { is_save (core_of self.now).committers ≡ saves W.work self.now.job.goal }
    {
        self.journal.is_replay();
    }

    /// Each executor that left said so itself.
    pub fn leaves_are_own(&self)
        ensures { All IsOwnLeave self.now.journal.entries }
    {
        self.journal.leaves_are_own();
    }
}
