//! The core.
#![tactic(auto)]

ghost use Rattle.std.specs.Prelude.{◌≡◌, IfOk, IfSome, OnErr, Some, false, true};
ghost use Rattle.std.specs.Option.{option_map};
ghost use Rattle.sc_commit.specs.CommitLaws.{winner_of};
ghost use Rattle.sc_dag.specs.DagData.{stage_at};
ghost use Rattle.sc_dag.specs.Openings.{FitsJob, IsJob};
ghost use Rattle.sc_core.specs.CoreData.{job_runs, result_stage};
ghost use Rattle.sc_core.specs.Openings.{IsOpening, tracker_behind, unregistered_core};
ghost use Rattle.sc_core.specs.Owners.{IsThrice};
ghost use Rattle.sc_core.specs.Sound.{HasLive, IsSoundCore};
ghost use Rattle.sc_core.specs.Steps.{Steps, is_enabled};
ghost use Rattle.sc_core.specs.declared.answers.NotEnabled.{NotEnabled};

use crate::answers::{JobState, NotEnabled, Stepped};
use crate::events::{Event, SideEvent};
use crate::running::{Running, Shelved};
use crate::states::State;
use sc_base::OrMemory;
use sc_ids::{AttemptId, Limits, StageGraph, StageId};
use sc_plan::Plan;
use std::alloc::{AllocError, Global};
use std::marker::Model;

/// The scheduler of one job. Contracts see its data; what holds of every core is kept by its type.
#[derive(Drop)]
pub struct Core {
    pub(crate) state: State,
}

impl Model for Core {
    ghost use Rattle.sc_core.specs.CoreData.{CoreData};
    ghost use Rattle.sc_core.specs.Sound.{IsSoundCore};

    ghost Value = { CoreData };

    ghost view = { λ c. c.state.0 };

    ghost invariant = { λ c. IsSoundCore c.state.0 };
}

impl Core {
    /// The core of a job with these stages, in a run under this plan, behind another job of the run
    /// or none; `saves` says whether its result tasks commit. What that one's tracker knows of
    /// shuffles is carried on, and so is its plan. Some executor wasn't told lost.
    pub fn open(
        alloc: Global,
        graph: &StageGraph,
        limits: Limits,
        saves: bool,
        plan: &Plan,
        last: Option<&Core>,
    ) -> Result<Core, AllocError>
        requires job { IsJob graph.now }
        requires fits { FitsJob (tracker_behind (option_map (λ l. l.now) last) limits) graph.now }
        requires live { HasLive (tracker_behind (option_map (λ l. l.now) last) limits) }
        ensures { IfOk result
            (λ c. IsOpening graph.now limits saves plan.now (option_map (λ l. l.now) last.entry)
            c) }
    {
        let state = State::open(alloc, graph, limits, saves, plan, state_behind(last))?;
        Ok(Core { state })
    }

    /// The core of a job that is run again, behind another one of the run whose outputs are gone
    /// with their stores: nothing is registered, and all else is carried on. Some executor wasn't
    /// told lost.
    pub fn open_again(
        alloc: Global,
        graph: &StageGraph,
        limits: Limits,
        saves: bool,
        plan: &Plan,
        last: &Core,
    ) -> Result<Core, AllocError>
        requires job { IsJob graph.now }
        requires live { HasLive last.now.dag.tracker }
        ensures { IfOk result
            (λ c. IsOpening graph.now limits saves plan.now (Some (unregistered_core last.now)) c) }
    {
        let state = State::open_again(alloc, graph, limits, saves, plan, &last.state)?;
        Ok(Core { state })
    }

    /// One event. Where memory is wanting, or the event isn't enabled, nothing changes.
    pub fn step(&mut self, event: &Event) -> Result<Stepped, OrMemory<NotEnabled>>
        ensures answered { IfOk result (λ s. Steps self.old event.now s.answer self.new) }
        ensures thrice { IfOk result (λ s. IsThrice s s.answer) }
        ensures not_enabled { (fault : NotEnabled) → result ≡ Err (OrMemory.Fault fault)
            → is_enabled self.old event.now ≡ false }
        ensures enabled { IfOk result (λ s. is_enabled self.old event.now ≡ true) }
        ensures unchanged { OnErr result (self.new ≡ self.old) }
    {
        match *event {
            Event::Take { exec } => Ok(self.state.take(exec)?),
            Event::Post { attempt, outcome } => self.state.post(attempt, outcome),
            Event::Release { key } => self.state.release_key(key),
            Event::TellLost { exec } => self.state.tell_lost(exec),
            Event::Side(side) => Ok(self.state.step_aside(side)),
        }
    }

    /// Something happens beside the reports. It takes no memory.
    pub fn step_aside(&mut self, event: SideEvent) -> Stepped
        ensures answered { Steps self.old (Event.Side event) result.answer self.new }
        ensures thrice { IsThrice result result.answer }
    {
        self.state.step_aside(event)
    }

    /// How far the job is.
    pub fn job(&self) -> JobState
        ensures { result ≡ self.now.job }
    {
        self.state.job
    }

    /// How many reports were told in the run so far, while the count fits.
    pub fn told(&self) -> u64
        ensures { result ≡ self.now.told }
    {
        self.state.told
    }

    /// How many tasks were handed out in this job.
    pub fn handed(&self) -> u32
        ensures { result ≡ self.now.handed }
    {
        self.state.handed
    }

    /// The limits of the run.
    pub fn limits(&self) -> Limits
        ensures { result ≡ self.now.dag.limits }
    {
        self.state.stages.dag().limits()
    }

    /// The attempts that run, the one handed out first in front.
    pub fn running(&self) -> &[Running]
        ensures { result.now ≡ self.now.running }
    {
        self.state.running.as_slice()
    }

    /// The reports that are to be told later, by rising keys.
    pub fn shelf(&self) -> &[Shelved]
        ensures { result.now ≡ self.now.shelf }
    {
        self.state.shelf.as_slice()
    }

    /// The number of the result stage.
    pub fn result_stage(&self) -> StageId
        ensures { result ≡ result_stage self.now.dag }
    {
        self.state.stages.dag().last_stage()
    }

    /// How many tasks a stage has.
    pub fn tasks(&self, stage: StageId) -> u32
        ensures { result ≡ (stage_at self.now.dag stage).tasks }
    {
        self.state.stages.dag().tasks(stage)
    }

    /// The attempt of a save that has won a partition: its part is the one that counts.
    pub fn winner(&self, partition: u32) -> Option<AttemptId>
        ensures { result ≡ winner_of self.now.committers partition }
    {
        self.state.commit.winner(partition)
    }

    /// What every core keeps.
    pub fn is_sound(&self)
        ensures { IsSoundCore self.now }
    {
        let _ = &self.state;
    }
}

/// The state of the job before.
fn state_behind(last: Option<&Core>) -> Option<&State>
    ensures state { option_map (λ s. s.now.0) result ≡ option_map (λ l. l.now) last.entry }
    ensures sound { IfSome (option_map (λ l. l.now) last.entry) IsSoundCore }
{
    match last {
        Some(core) => Some(&core.state),
        None => None,
    }
}
