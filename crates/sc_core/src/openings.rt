//! The core of a job that begins.
#![tactic(auto)]

ghost use Rattle.std.specs.Prelude.{◌≡◌, IfOk, Some};
ghost use Rattle.std.specs.Option.{option_map};
ghost use Rattle.sc_dag.specs.Openings.{FitsJob, IsJob};
ghost use Rattle.sc_core.specs.Openings.{BeginsBehind, BeginsWith, IsOpening, committers_for, now_before, plan_behind, told_before, tracker_behind, unregistered_core};

use crate::answers::JobState;
use crate::stages::Stages;
use crate::states::State;
use sc_commit::Commit;
use sc_ids::{Limits, StageGraph};
use sc_plan::Plan;
use sc_tracker::Tracker;
use std::alloc::{AllocError, Global};

impl State {
    /// A job that begins with its result stage submitted, behind another one or none; `saves` says
    /// whether its result tasks commit.
    pub fn open(
        alloc: Global,
        graph: &StageGraph,
        limits: Limits,
        saves: bool,
        plan: &Plan,
        last: Option<&State>,
    ) -> Result<State, AllocError>
        requires job { IsJob graph.now }
        requires fits { FitsJob (tracker_behind (option_map (λ l. l.now.0) last) limits)
            graph.now }
        ensures { IfOk result
            (λ s. IsOpening graph.now limits saves plan.now
            (option_map (λ l. l.now.0) last.entry) s.0) }
    {
        let tracker = tracker_behind(alloc, limits, last)?;
        State::open_with(alloc, graph, limits, saves, plan, last, tracker)
    }

    /// A job that is run again, behind another one of whose outputs none is registered any more.
    pub fn open_again(
        alloc: Global,
        graph: &StageGraph,
        limits: Limits,
        saves: bool,
        plan: &Plan,
        last: &State,
    ) -> Result<State, AllocError>
        requires { IsJob graph.now }
        ensures { IfOk result
            (λ s. IsOpening graph.now limits saves plan.now
            (Some (unregistered_core last.now.0)) s.0) }
    {
        let tracker = last.stages.dag().tracker().without_outputs()?;
        State::open_with(alloc, graph, limits, saves, plan, Some(last), tracker)
    }

    /// The same with this tracker in place of the one that is carried on.
    fn open_with(
        alloc: Global,
        graph: &StageGraph,
        limits: Limits,
        saves: bool,
        plan: &Plan,
        last: Option<&State>,
        tracker: Tracker,
    ) -> Result<State, AllocError>
        requires job { IsJob graph.now }
        requires fits { FitsJob tracker graph.now }
        ensures { IfOk result
            (λ s. BeginsBehind graph.now limits saves plan.now
            (option_map (λ l. l.now.0) last.entry) tracker s.0) }
    {
        let told = told_before(last);
        let tick = now_before(last);
        let plan = plan_behind(plan, last).copied(alloc)?;
        let stages = submitted(alloc, graph, limits, last, tracker)?;
        let commit = commit_for(alloc, saves, &stages)?;
        Ok(State {
            told,
            tick,
            handed: 0,
            job: JobState::Running,
            left_first: None,
            running: Vec::new(alloc),
            shelf: Vec::new(alloc),
            next_key: 0,
            commit,
            stages,
            plan,
        })
    }
}

/// A coordinator with nobody granted: a job that saves has a place for each result task.
fn commit_for(alloc: Global, saves: bool, stages: &Stages) -> Result<Commit, AllocError>
    ensures { IfOk result (λ c. c ≡ committers_for saves stages.now.0) }
{
    let dag = stages.dag();
    let tasks = if saves {
        dag.tasks(dag.last_stage())
    } else {
        0
    };
    Commit::begin(alloc, tasks)
}

/// The stages with the result stage submitted.
fn submitted(
    alloc: Global,
    graph: &StageGraph,
    limits: Limits,
    last: Option<&State>,
    tracker: Tracker,
) -> Result<Stages, AllocError>
    requires job { IsJob graph.now }
    requires fits { FitsJob tracker graph.now }
    ensures { IfOk result (λ s. BeginsWith graph.now limits
        (option_map (λ l. l.now.0.dag) last.entry) tracker s.0) }
{
    let mut stages = Stages::open(alloc, graph, stages_behind(last), tracker, limits)?;
    stages.prepare()?;
    stages.submit_result();
    Ok(stages)
}

/// The stages of the job before.
fn stages_behind(last: Option<&State>) -> Option<&Stages>
    ensures { option_map (λ s. s.now.0) result ≡ option_map (λ l. l.now.0.dag) last.entry }
{
    match last {
        Some(state) => Some(&state.stages),
        None => None,
    }
}

/// The tracker that is carried on from the job before, or a new one.
fn tracker_behind(
    alloc: Global,
    limits: Limits,
    last: Option<&State>,
) -> Result<Tracker, AllocError>
    ensures { IfOk result
        (λ t. t ≡ tracker_behind (option_map (λ l. l.now.0) last.entry) limits) }
{
    match last {
        Some(state) => state.stages.dag().tracker().copied(),
        None => Tracker::new(alloc, limits.executors),
    }
}

/// The plan of the run, which is carried on from the job before.
fn plan_behind<'a>(plan: &'a Plan, last: Option<&'a State>) -> &'a Plan
    ensures { result.now ≡ plan_behind (option_map (λ l. l.now.0) last.entry) plan.now }
{
    match last {
        Some(state) => &state.plan,
        None => plan,
    }
}

/// How many reports were told before.
fn told_before(last: Option<&State>) -> u64
    ensures { result ≡ told_before (option_map (λ l. l.now.0) last.entry) }
{
    match last {
        Some(state) => state.told,
        None => 0,
    }
}

/// The greatest tick before.
fn now_before(last: Option<&State>) -> u64
    ensures { result ≡ now_before (option_map (λ l. l.now.0) last.entry) }
{
    match last {
        Some(state) => state.tick,
        None => 0,
    }
}
