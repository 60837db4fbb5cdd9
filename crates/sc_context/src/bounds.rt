//! The bounds that an action needs.
#![tactic(auto)]

ghost use Rattle.std.specs.Prelude.{◌≡◌, ◌<◌, IfErr, IfOk, Some, length};
ghost use Rattle.sc_compute.specs.Stages.{bounds_at};
ghost use Rattle.sc_context.specs.Bounding.{Finds, FindsAll, parts_of};
ghost use Rattle.sc_context.specs.Contexts.{Stops};
ghost use Rattle.sc_context.specs.Jobs.{AreResultsFor};
ghost use Rattle.sc_context.specs.Progress.{next_node};
ghost use Rattle.sc_context.specs.Records.{AreKept, histories_of};
ghost use Rattle.sc_jobs.specs.JobData.{IsGoal};
ghost use Rattle.sc_jobs.specs.declared.goals.Goal.TheVariants as goals;
ghost use Rattle.sc_lineage.specs.ScriptData.{node_of_action};
ghost use Rattle.sc_lineage.specs.Views.{action_data_of, node_data_of};
ghost use Rattle.sc_stagecut.specs.Carrying.{IsFirstLacking};

use crate::context::Context;
use crate::endings::Ended;
use crate::stops::Stopped;
use sc_clock::Clock;
use sc_compute::bounds_of_results;
use sc_exec::Gate;
use sc_files::Files;
use sc_jobs::Goal;
use sc_lineage::{Action, Node, NodeId};
use sc_part::Bounds;
use sc_stagecut::unbounded_sort;
use sc_work::Naming;
use std::alloc::{AllocError, Global};
use std::sync::{Mutex, Wait};
use std::thread::Threads;
use std::time;

impl<W: Naming + Send + Sync, F: Files + Send> Context<W, F> {
    /// Runs the jobs that find the bounds which the next action needs and that weren't found yet.
    pub(crate) fn find_all_bounds<
        G: Gate + Sync,
        C: Clock + Send,
        R: Threads + Wait + time::Clock + Sync,
    >(self, rt: &R, alloc: Global, gate: &G, clock: &Mutex<C>) -> Result<Context<W, F>, Stopped<F>>
        requires within { self.progress.actions < length W.work.script.actions }
        ensures finds { IfOk result (FindsAll W.work self) }
        ensures stops { IfErr result (λ s. Stops W.work self s.why s.records.histories.items
            (histories_of s.records.gave_up.items) (F.state s.files)) }
        ensures kept { IfErr result (λ s. AreKept W.work s.records) }
    {
        let mut context = self;
        loop {
            context.is_sound();
            match context.next_sort(alloc) {
                Ok(Some(sort)) => context = context.find_bounds(rt, alloc, gate, clock, sort)?,
                Ok(None) => return Ok(context),
                Err(_) => return Err(context.without_memory()),
            }
        }
    }

    /// The first sort that the next action reads and whose bounds weren't found, where there is
    /// one.
    fn next_sort(&self, alloc: Global) -> Result<Option<NodeId>, AllocError>
        requires within { self.now.progress.actions < length W.work.script.actions }
        ensures { IfOk result (IsFirstLacking W.work.script.nodes self.now.progress.carried
            (next_node W.work self.now.progress)) }
    {
        self.work.is_named();
        let number = self.actions();
        let work = self.work.get();
        work.is_sound();
        let node = node_of(&work.script().actions()[number as usize]);
        unbounded_sort(alloc, work, node, &self.passed.carried)
    }

    /// Runs the job that finds the bounds of a sort, which comes next.
    fn find_bounds<G: Gate + Sync, C: Clock + Send, R: Threads + Wait + time::Clock + Sync>(
        self,
        rt: &R,
        alloc: Global,
        gate: &G,
        clock: &Mutex<C>,
        sort: NodeId,
    ) -> Result<Context<W, F>, Stopped<F>>
        requires within { self.progress.actions < length W.work.script.actions }
        requires next { IsFirstLacking W.work.script.nodes self.progress.carried
            (next_node W.work self.progress) (Some sort) }
        ensures finds { IfOk result (Finds W.work self sort) }
        ensures stops { IfErr result (λ s. Stops W.work self s.why s.records.histories.items
            (histories_of s.records.gave_up.items) (F.state s.files)) }
        ensures kept { IfErr result (λ s. AreKept W.work s.records) }
    {
        self.is_sound();
        let ended = self.run_job(rt, alloc, gate, clock, Goal::Bounds { sort })?;
        let Ok(bounds) = ended.bounds(alloc, sort) else {
            return Err(Stopped::without_memory(ended.records, ended.files));
        };
        let Ended {
            work,
            mut passed,
            stores,
            records,
            actions,
            files,
            ..
        } = ended;
        passed.carried.set_bounds(sort, bounds);
        Ok(Context {
            work,
            passed,
            stores,
            records,
            actions,
            files,
        })
    }
}

impl<W: Naming, F: Files> Ended<W, F> {
    /// The bounds of a sort, whose parent's rows its results are.
    fn bounds(&self, alloc: Global, sort: NodeId) -> Result<Bounds, AllocError>
        requires sort { IsGoal W.work (goals.Bounds sort) }
        requires results { AreResultsFor W.work (goals.Bounds sort) self.now.results.items }
        ensures { IfOk result (λ b. b ≡ bounds_at W.work sort) }
    {
        self.work.is_named();
        let parts = most_partitions(&self.work.get().script().nodes()[sort as usize]);
        bounds_of_results(alloc, parts, self.results.as_slice())
    }
}

/// The number of partitions that a shuffle asks for.
fn most_partitions(node: &Node) -> u32
    ensures { result ≡ parts_of (node_data_of node.now) }
{
    match node {
        Node::Shuffle { partitions, .. } => *partitions,
        _ => 0,
    }
}

/// The node of an action.
fn node_of(action: &Action) -> NodeId
    ensures { result ≡ node_of_action (action_data_of action.now) }
{
    match action {
        Action::Collect { node } => *node,
        Action::Count { node } => *node,
        Action::Reduce { node, .. } | Action::Save { node, .. } => *node,
    }
}
