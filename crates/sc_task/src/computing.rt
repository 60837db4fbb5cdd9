//! What a task leaves, computed from what was read.
#![tactic(auto)]

ghost use Rattle.std.specs.Prelude.{◌≡◌, ◌<◌, All, IfOk, OnErr, OnOk, Some, ℕ, length};
ghost use Rattle.sc_compute.specs.Asking.{place_taken};
ghost use Rattle.sc_compute.specs.Caching.{IsCachedPart, IsOwnPart};
ghost use Rattle.sc_compute.specs.Inputs.{HasInputs, IsSame, IsUnmade};
ghost use Rattle.sc_compute.specs.Needs.{AreFresh, places_in};
ghost use Rattle.sc_compute.specs.Stages.{AreRight, HasBounds, HasMade, HasOutputs, mapped_in, node_at};
ghost use Rattle.sc_compute.specs.Tasks.{HasAll, IsSideOf, IsTargetOf, Leaves, target_data_of};
ghost use Rattle.sc_jobs.specs.JobData.{blocks_left};
ghost use Rattle.sc_jobs.specs.Plans.{MapsInto};
ghost use Rattle.sc_lineage.specs.ScriptData.{node_of_action};
ghost use Rattle.sc_lineage.specs.Views.{action_data_of};
ghost use Rattle.sc_net.specs.Tasks.{target_of_task};
ghost use Rattle.sc_task.specs.Handing.{AreHanded, AreHandedIn, IsHanded, IsOfWork};
ghost use Rattle.sc_task.specs.States.{AreOf, HasReadAll};

use crate::cursors::parents_of;
use sc_compute::{CachedPart, ShuffleInputs, TaskOutput, TaskTarget, compute_cached};
use sc_ids::{Stage, Target};
use sc_lineage::{Action, Node, NodeId, Work};
use sc_net::Task;
use sc_shuffle::MapOutput;
use sc_work::Naming;
use std::alloc::{AllocError, Global};

/// What a task leaves, computed from what was read of its blocks, where some partitions are known
/// that aren't computed, and beside it the partitions of cache nodes that were.
pub(crate) fn left_by<W: Naming>(
    alloc: Global,
    task: &Task<W>,
    got: &[MapOutput],
    known: &[CachedPart],
) -> Result<(TaskOutput, Vec<CachedPart>), AllocError>
    requires all { HasReadAll W.work task.now got.now }
    requires known { All (IsOwnPart W.work) known.now }
    ensures leaves { IfOk result (λ both. Leaves W.work (target_of_task W.work task.now) both.0) }
    ensures own { IfOk result (λ both. All (IsCachedPart W.work) both.1.items) }
    ensures fresh { IfOk result (λ both. AreFresh W.work (places_in known.now)
        (place_taken W.work (target_of_task W.work task.now)) (places_in both.1.items)) }
{
    task.is_task();
    let attempt = task.attempt();
    let shared = task.work();
    let work = shared.get();
    let target = task
        .job()
        .task_target(shared, attempt.stage, attempt.partition);
    let stages = made_for(alloc, work, task, got, target)?;
    compute_cached(alloc, work, &stages, known, target)
}

/// What has to be made before a target of a task's job can be computed: its shuffles are read from
/// what was read of the task's blocks, and from nothing else.
pub(crate) fn made_for<W: Naming>(
    alloc: Global,
    work: &Work,
    task: &Task<W>,
    got: &[MapOutput],
    target: TaskTarget<'_>,
) -> Result<ShuffleInputs, AllocError>
    requires named { work.now ≡ W.work }
    requires all { HasReadAll work.now task.now got.now }
    requires target { target_data_of target ≡ target_of_task work.now task.now }
    requires known { IsTargetOf work.now (target_data_of target) }
    ensures right { IfOk result (AreRight work.now) }
    ensures has { IfOk result (λ s. HasAll work.now s (target_data_of target.entry)) }
    ensures handed { IfOk result (AreHandedIn task.now got.now) }
{
    task.is_task();
    task.job().is_job();
    let mut stages = handed(alloc, work, task, got)?;
    match target {
        TaskTarget::Map { node, side, .. } => made_to_map(alloc, work, task, stages, node, side),
        TaskTarget::Result { action, .. } => {
            stages.prepare(alloc, work, node_of(action))?;
            Ok(stages)
        }
    }
}

/// What was handed in, and beside it all that is to be made before what goes into a side of a node
/// can be computed.
fn made_to_map<W: Naming>(
    alloc: Global,
    work: &Work,
    task: &Task<W>,
    mut stages: ShuffleInputs,
    node: NodeId,
    side: u8,
) -> Result<ShuffleInputs, AllocError>
    requires named { work.now ≡ W.work }
    requires right { AreRight work.now stages }
    requires known { node < length work.now.script.nodes }
    requires side { IsSideOf (node_at work.now node) side }
    requires inputs { HasInputs work.now stages (mapped_in (node_at work.now node) side) }
    requires maps { MapsInto task.now.job.graph node }
    ensures right { IfOk result (AreRight work.now) }
    ensures made { IfOk result (λ s. HasMade s (mapped_in (node_at work.now node) side)) }
    ensures told { IfOk result (λ s. HasBounds s node (node_at work.now node)) }
    ensures handed { IfOk result (λ s. s.handed ≡ stages.handed) }
{
    work.is_sound();
    stages.prepare(alloc, work, mapped_by(work, node, side))?;
    tell_bounds(work, task, &mut stages, node)?;
    Ok(stages)
}

/// What was read of a task's blocks, handed in for the shuffles that they are of: for each that the
/// task reads.
fn handed<W: Naming>(
    alloc: Global,
    work: &Work,
    task: &Task<W>,
    got: &[MapOutput],
) -> Result<ShuffleInputs, AllocError>
    requires named { work.now ≡ W.work }
    requires all { HasReadAll work.now task.now got.now }
    ensures right { IfOk result (AreRight work.now) }
    ensures handed { IfOk result (AreHanded task.now) }
    ensures got { IfOk result (AreHandedIn task.now got.now) }
{
    task.job().is_job();
    let mut stages = ShuffleInputs::new(alloc, work)?;
    let mut rest = got;
    for parent in parents_of(task) {
        let Some(stage) = task.job().stage(*parent) else {
            continue;
        };
        let (outputs, others) = rest.split_at(count_left(stage));
        hand_in(alloc, work, &mut stages, stage, outputs)?;
        rest = others;
    }
    Ok(stages)
}

/// How many blocks a stage leaves.
fn count_left(stage: &Stage) -> usize
    ensures { result ≡ length (blocks_left (Some stage.now)) }
{
    match stage.target() {
        Target::Map(_) => stage.tasks() as usize,
        Target::Result { .. } => 0,
    }
}

/// Hands in what the tasks of a stage left. A refused call changes nothing.
fn hand_in(
    alloc: Global,
    work: &Work,
    stages: &mut ShuffleInputs,
    stage: &Stage,
    outputs: &[MapOutput],
) -> Result<(), AllocError>
    requires right { AreRight work.now stages.old }
    requires unmade { IsUnmade stages.old }
    requires stage { IsOfWork work.now stage.now }
    requires of { AreOf work.now (blocks_left (Some stage.now)) outputs.now }
    ensures right { AreRight work.now stages.new }
    ensures unmade { IsUnmade stages.new }
    ensures handed { OnOk result (IsHanded stages.new stage.now) }
    ensures kept { OnOk result ((k side : ℕ) → HasOutputs stages.old k side
        → HasOutputs stages.new k side) }
    ensures refused { OnErr result (IsSame stages.old stages.new) }
{
    match stage.target() {
        Target::Map(shuffle) => {
            let outputs = shared(alloc, outputs)?;
            stages.hand_in(work, shuffle.node, shuffle.side, outputs)
        }
        Target::Result { .. } => Ok(()),
    }
}

/// The same outputs again, of which nothing is copied.
fn shared(alloc: Global, outputs: &[MapOutput]) -> Result<Vec<MapOutput>, AllocError>
    ensures { IfOk result (λ v. v.items ≡ outputs.now) }
{
    let mut out = Vec::with_capacity(alloc, outputs.len())?;
    for output in outputs {
        out.push(output.share()?)?;
    }
    Ok(out)
}

/// Tells the bounds of a node that a map stage of the job deals out for, where it is a sort. A
/// refused call changes nothing.
fn tell_bounds<W: Naming>(
    work: &Work,
    task: &Task<W>,
    stages: &mut ShuffleInputs,
    node: NodeId,
) -> Result<(), AllocError>
    requires named { work.now ≡ W.work }
    requires right { AreRight work.now stages.old }
    requires maps { MapsInto task.now.job.graph node }
    ensures right { AreRight work.now stages.new }
    ensures told { OnOk result (HasBounds stages.new node (node_at work.now node)) }
    ensures kept { (k : ℕ) → HasMade stages.old k → HasMade stages.new k }
    ensures handed { OnOk result (stages.new.handed ≡ stages.old.handed) }
    ensures refused { OnErr result (IsSame stages.old stages.new) }
{
    match task.job().bounds(node) {
        Some(bounds) => stages.tell_bounds(work, node, bounds.share()?),
        None => Ok(()),
    }
}

/// The node whose partitions go into a side of a node.
fn mapped_by(work: &Work, node: NodeId, side: u8) -> NodeId
    requires known { node < length work.now.script.nodes }
    requires side { IsSideOf (node_at work.now node) side }
    ensures { result ≡ mapped_in (node_at work.now node) side }
{
    match &work.script().nodes()[node as usize] {
        Node::Shuffle { parent, .. } => *parent,
        Node::Meet { left, right, .. } => { if side == 0 { *left } else { *right } }
        _ => unreachable!(),
    }
}

/// The node of an action.
fn node_of(action: &Action) -> NodeId
    ensures { result ≡ node_of_action (action_data_of action.now) }
{
    match action {
        Action::Collect { node } => *node,
        Action::Count { node } => *node,
        Action::Reduce { node, .. } | Action::Save { node, .. } => *node,
    }
}
