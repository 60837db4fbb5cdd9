//! What is computed as one task, and what a task leaves.
#![tactic(auto)]

ghost use Rattle.std.specs.Prelude.{◌≡◌, All, IfOk, OnOk};
ghost use Rattle.sc_lineage.specs.Actions.{result_of};
ghost use Rattle.sc_lineage.specs.ScriptData.{node_of_action};
ghost use Rattle.sc_lineage.specs.Views.{action_data_of};
ghost use Rattle.sc_compute.specs.Caching.{AreOwn, IsCachedPart, IsOwnPart};
ghost use Rattle.sc_compute.specs.Asking.{place_taken};
ghost use Rattle.sc_compute.specs.Needs.{AreFresh, Notes, places_in};
ghost use Rattle.sc_compute.specs.Stages.{AreRight};
ghost use Rattle.sc_compute.specs.Tasks.{HasAll, IsTargetOf, Leaves, target_data_of};

use crate::caching::{CachedPart, Caching};
use crate::handing::SideId;
use crate::mapping::map_output;
use crate::partitions::cached_stream;
use crate::stages::ShuffleInputs;
use sc_expr::Raise;
use sc_lineage::{Action, NodeId, Place, Stream, Work};
use sc_ops::fold_stream;
use sc_shuffle::MapOutput;
use std::alloc::{AllocError, Global};

/// What is to be computed.
#[derive(Clone, Copy)]
pub enum TaskTarget<'a> {
    /// What goes into a shuffle from a map partition.
    Map {
        /// The node that reads the shuffle.
        node: NodeId,
        /// Its side: 0 for the only or left parent, 1 for the right.
        side: u8,
        /// The number of the parent's partition, from 0.
        map: u32,
    },
    /// The result of a partition for an action.
    Result {
        /// The action.
        action: &'a Action,
        /// The number of the partition, from 0.
        partition: u32,
    },
}

/// What a task leaves.
#[derive(Drop)]
pub enum TaskOutput {
    /// What goes into a shuffle from a map partition, by bucket.
    Output(MapOutput),
    /// The first raise of what goes into a shuffle from a map partition.
    Raised(Raise),
    /// The result of a partition for an action.
    Result(Stream),
}

/// What a task leaves: what its target is to have computed. All that the target needs was made:
/// [`ShuffleInputs::prepare`] makes it, by what was handed in.
pub fn compute(
    alloc: Global,
    work: &Work,
    stages: &ShuffleInputs,
    target: TaskTarget<'_>,
) -> Result<TaskOutput, AllocError>
    requires target { IsTargetOf work.now (target_data_of target) }
    requires right { AreRight work.now stages.now }
    requires made { HasAll work.now stages.now (target_data_of target) }
    ensures { IfOk result (Leaves work.now (target_data_of target.entry)) }
{
    let none = Vec::new(alloc);
    let (computed, _) = compute_cached(alloc, work, stages, &none, target)?;
    Ok(computed)
}

/// The same, where some partitions are known that are then not computed again, and beside it the
/// partitions of cache nodes that were computed on the way, of which none raises: exactly those
/// that the target needs, where no other that is known stands between.
pub fn compute_cached(
    alloc: Global,
    work: &Work,
    stages: &ShuffleInputs,
    known: &[CachedPart],
    target: TaskTarget<'_>,
) -> Result<(TaskOutput, Vec<CachedPart>), AllocError>
    requires target { IsTargetOf work.now (target_data_of target) }
    requires right { AreRight work.now stages.now }
    requires made { HasAll work.now stages.now (target_data_of target) }
    requires known { All (IsOwnPart work.now) known.now }
    ensures leaves { IfOk result (λ both. Leaves work.now (target_data_of target.entry) both.0) }
    ensures own { IfOk result (λ both. All (IsCachedPart work.now) both.1.items) }
    ensures fresh { IfOk result (λ both. AreFresh work.now (places_in known.now)
        (place_taken work.now (target_data_of target.entry)) (places_in both.1.items)) }
{
    let mut caching = Caching::new(alloc, known);
    let computed = left_by(alloc, work, stages, &mut caching, target)?;
    Ok((computed, caching.fresh()))
}

/// What a task leaves, where some partitions are known.
fn left_by(
    alloc: Global,
    work: &Work,
    stages: &ShuffleInputs,
    caching: &mut Caching<'_>,
    target: TaskTarget<'_>,
) -> Result<TaskOutput, AllocError>
    requires target { IsTargetOf work.now (target_data_of target) }
    requires right { AreRight work.now stages.now }
    requires made { HasAll work.now stages.now (target_data_of target) }
    requires own { AreOwn work.now caching.old }
    ensures own { AreOwn work.now caching.new }
    ensures notes { OnOk result (Notes work.now
        (place_taken work.now (target_data_of target.entry)) caching.old caching.new) }
    ensures leaves { IfOk result (Leaves work.now (target_data_of target.entry)) }
{
    match target {
        TaskTarget::Map { node, side, map } => {
            map_output(alloc, work, stages, caching, SideId { node, side }, map)
        }
        TaskTarget::Result { action, partition } => {
            let node = node_of(action);
            let at = Place { node, partition };
            let stream = cached_stream(alloc, work, stages, caching, at)?;
            Ok(TaskOutput::Result(result(alloc, action, stream)?))
        }
    }
}

/// The node of an action.
pub fn node_of(action: &Action) -> NodeId
    ensures { result ≡ node_of_action (action_data_of action.now) }
{
    match action {
        Action::Collect { node } => *node,
        Action::Count { node } => *node,
        Action::Reduce { node, .. } | Action::Save { node, .. } => *node,
    }
}

/// What an action makes of a partition before the results are put together.
fn result(alloc: Global, action: &Action, stream: Stream) -> Result<Stream, AllocError>
    ensures { IfOk result (λ s. s ≡ result_of (action_data_of action.now) stream) }
{
    match action {
        Action::Collect { .. } | Action::Count { .. } | Action::Save { .. } => Ok(stream),
        Action::Reduce { expr, .. } => fold_stream(alloc, expr, &stream),
    }
}
