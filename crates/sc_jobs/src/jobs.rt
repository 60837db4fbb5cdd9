//! Jobs.
#![tactic(auto)]

ghost use Rattle.std.specs.Prelude.{◌≡◌, ◌↔◌, IfOk, IfSome, IsTrue, OnErr, is_some, true};
ghost use Rattle.std.specs.Cmp.{partial_equiv_from_equiv};
ghost use Rattle.std.specs.Option.{option_map};
ghost use Rattle.sc_compute.specs.Stages.{bounds_at, node_at};
ghost use Rattle.sc_compute.specs.Tasks.{IsTargetOf, target_data_of};
ghost use Rattle.sc_lineage.specs.Views.{action_data_of};
ghost use Rattle.sc_stagecut.specs.Carrying.{AreRightBounds, HasBounds, IsCarriedFor, after_job, is_sort};
ghost use Rattle.sc_stagecut.specs.Cuts.{IsCut};
ghost use Rattle.sc_jobs.specs.Equality.{jobs_are_equal, same_job};
ghost use Rattle.sc_jobs.specs.JobData.{HasTask, IsGoal, goal_action, goal_node, is_saving, saves, stage_in, target_by, target_of};
ghost use Rattle.sc_jobs.specs.Plans.{GivesResults, IsJobFor, MapsInto};

use crate::goals::Goal;
use crate::known::known_bounds;
use crate::nodes::{goal_is_known, goal_node};
use crate::same::same_graph;
use sc_compute::TaskTarget;
use sc_ids::{Stage, StageGraph, StageId};
use sc_lineage::{Action, NodeId};
use sc_part::Bounds;
use sc_stagecut::{Carried, cut};
use sc_work::{Naming, SharedWork};
use std::alloc::{AllocError, Global};
use std::marker::{Model, PhantomData};
use std::sync::Arc;

/// What the owners of a job share.
#[derive(Drop)]
struct Plan {
    goal: Goal,
    graph: StageGraph,
    /// The bounds of each sort, where they were found.
    bounds: Vec<Option<Bounds>>,
    /// What is done with the rows of a sort's parent.
    collect: Action,
}

/// A job of the work that `W` stands for: what it is for, its stages, and the bounds of their
/// sorts. To share it copies nothing.
#[derive(Drop)]
pub struct Job<W: Naming> {
    plan: Arc<Plan, Global>,
    of: PhantomData<W>,
}

impl<W: Naming> Model for Job<W> {
    ghost use Rattle.std.specs.Arc.{arc_value};
    ghost use Rattle.std.specs.Prelude.{◌≡◌};
    ghost use Rattle.sc_lineage.specs.ScriptData.{collect_action};
    ghost use Rattle.sc_lineage.specs.Views.{action_data_of};
    ghost use Rattle.sc_jobs.specs.JobData.{JobData, goal_node, job_code, job_data};
    ghost use Rattle.sc_jobs.specs.Plans.{IsJobFor, KnowsBounds};

    ghost Value = { JobData };

    ghost coded = { job_code };

    ghost view = { λ j. job_data (arc_value j.plan).goal (arc_value j.plan).graph };

    ghost invariant = { λ j.
        IsJobFor W.work (job_data (arc_value j.plan).goal (arc_value j.plan).graph)
        × KnowsBounds W.work (arc_value j.plan).graph (arc_value j.plan).bounds.items
        × (action_data_of (arc_value j.plan).collect
        ≡ collect_action (goal_node W.work (arc_value j.plan).goal)) };
}

impl<W: Naming> Job<W> {
    /// The job of a goal, behind what is carried; its new map stages are carried on. A refused call
    /// changes nothing.
    pub fn plan(
        alloc: Global,
        work: &SharedWork<W>,
        carried: &mut Carried,
        goal: Goal,
    ) -> Result<Job<W>, AllocError>
        requires goal { IsGoal W.work goal }
        requires carried { IsCarriedFor W.work.script.nodes carried.old }
        requires bounds { HasBounds W.work.script.nodes carried.old (goal_node W.work goal) }
        requires right { AreRightBounds W.work carried.old }
        ensures goal { IfOk result (λ j. j.goal ≡ goal) }
        ensures graph { IfOk result (λ j.
            IsCut W.work carried.old (goal_node W.work goal) j.graph) }
        ensures carried { IfOk result (λ j. carried.new ≡ after_job carried.old j.graph) }
        ensures refused { OnErr result (carried.new ≡ carried.old) }
        ensures carried_on { IsCarriedFor W.work.script.nodes carried.new }
        ensures still_right { AreRightBounds W.work carried.new }
    {
        work.is_named();
        let work = work.get();
        work.is_sound();
        goal_is_known(work, goal);
        let node = goal_node(work, goal);
        let graph = cut(alloc, work, node, carried)?;
        let bounds = known_bounds(alloc, work.script(), carried)?;
        let collect = Action::Collect { node };
        let plan = Arc::new(
            alloc,
            Plan {
                goal,
                graph,
                bounds,
                collect,
            },
        )?;
        carried.keep(&plan.graph)?;
        Ok(Job {
            plan,
            of: PhantomData,
        })
    }

    /// The same job again, which copies nothing of it.
    pub fn share(&self) -> Result<Job<W>, AllocError>
        ensures { IfOk result (λ j. j ≡ self.now) }
    {
        Ok(Job {
            plan: Arc::try_clone(&self.plan)?,
            of: PhantomData,
        })
    }

    /// What it is for.
    pub fn goal(&self) -> Goal
        ensures { result ≡ self.now.goal }
    {
        self.plan.goal
    }

    /// Its stages, in the order of their numbers.
    pub fn graph(&self) -> &StageGraph
        ensures { result.now ≡ self.now.graph }
    {
        &self.plan.graph
    }

    /// The stage of a number, where it has one.
    pub fn stage(&self, stage: StageId) -> Option<&Stage>
        ensures { option_map (λ s. s.now) result ≡ stage_in self.now.graph stage }
    {
        self.graph().stages().iter().find(|s| s.id() == stage)
    }

    /// The bounds of a node, where it is a sort and they were found: those of each sort that has a
    /// map stage in the job were.
    pub fn bounds(&self, node: NodeId) -> Option<&Bounds>
        ensures right { IfSome result (λ bounds. bounds.now ≡ bounds_at W.work node) }
        ensures known { is_sort (node_at W.work node) ≡ true → MapsInto self.now.graph node
            → is_some result ≡ true }
    {
        match self.plan.bounds.get(node as usize) {
            Some(Some(bounds)) => Some(bounds),
            _ => None,
        }
    }

    /// What it is by its type: a job of the work.
    pub fn is_job(&self)
        ensures { IsJobFor W.work self.now }
    {
        let _ = &self.plan;
    }

    /// The stage whose tasks give its results: the last one.
    pub fn result_stage(&self) -> &Stage
        ensures { GivesResults W.work self.now result.now }
    {
        self.is_job();
        let stages = self.graph().stages();
        &stages[stages.len() - 1]
    }

    /// What is done with the node that it is for.
    pub fn action<'a>(&'a self, work: &'a SharedWork<W>) -> &'a Action
        ensures { action_data_of result.now ≡ goal_action W.work self.now.goal }
    {
        work.is_named();
        match self.plan.goal {
            Goal::Action { number } => &work.get().script().actions()[number as usize],
            Goal::Bounds { .. } => &self.plan.collect,
        }
    }

    /// Whether it saves.
    pub fn saves(&self, work: &SharedWork<W>) -> bool
        ensures { result ≡ saves W.work self.now.goal }
    {
        is_saving(self.action(work))
    }

    /// What the task of a partition of a stage is to compute.
    pub fn task_target<'a>(
        &'a self,
        work: &'a SharedWork<W>,
        stage: StageId,
        partition: u32,
    ) -> TaskTarget<'a>
        requires task { HasTask self.now.graph stage partition }
        ensures target { target_data_of result ≡ target_of W.work self.now stage partition }
        ensures known { IsTargetOf W.work (target_data_of result) }
    {
        self.knows_target(work, stage, partition);
        match self.stage(stage) {
            Some(stage) => self.target_by(work, stage.target(), partition),
            None => TaskTarget::Result {
                action: self.action(work),
                partition,
            },
        }
    }

    /// What a task that makes part of a stage's target is to compute.
    fn target_by<'a>(
        &'a self,
        work: &'a SharedWork<W>,
        target: sc_ids::Target,
        partition: u32,
    ) -> TaskTarget<'a>
        ensures { target_data_of result ≡ target_by W.work self.now.goal target partition }
    {
        match target {
            sc_ids::Target::Map(shuffle) => TaskTarget::Map {
                node: shuffle.node,
                side: shuffle.side,
                map: partition,
            },
            sc_ids::Target::Result { .. } => TaskTarget::Result {
                action: self.action(work),
                partition,
            },
        }
    }

    /// What its tasks are to compute is there. A call does nothing.
    fn knows_target(&self, work: &SharedWork<W>, stage: StageId, partition: u32)
        requires { HasTask self.now.graph stage partition }
        ensures { IsTargetOf W.work (target_of W.work self.now stage partition) }
    {
        self.is_job();
        work.is_named();
        work.get().is_sound();
    }

    /// Whether another job is for the same, by the same stages.
    fn is_same(&self, other: &Job<W>) -> bool
        ensures { result ≡ same_job self.now other.now }
    {
        self.plan.goal == other.plan.goal && same_graph(self.graph(), other.graph())
    }
}

impl<W: Naming> PartialEq for Job<W> {
    ghost eq = { same_job };

    ghost laws = { partial_equiv_from_equiv jobs_are_equal };

    /// Whether two jobs are for the same, by the same stages. No bounds are compared: by their type
    /// they are of one work.
    fn eq(&self, other: &Job<W>) -> bool
        ensures value { result ≡ same_job self.now other.now }
        ensures same { IsTrue result ↔ (self.now ≡ other.now) }
    {
        self.is_same(other)
    }
}

/// Whether an action saves.
fn is_saving(action: &Action) -> bool
    ensures { result ≡ is_saving (action_data_of action.now) }
{
    matches!(action, Action::Save { .. })
}
