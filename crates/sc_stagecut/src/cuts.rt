//! The cut of a job into stages.
#![tactic(auto)]

ghost use Rattle.std.specs.Prelude.{◌<◌, IfOk, length};
ghost use Rattle.sc_stagecut.specs.Carrying.{AreRightBounds, HasBounds, IsCarriedFor};
ghost use Rattle.sc_stagecut.specs.Cuts.{IsCut};

use crate::carried::Carried;
use crate::counts::counts;
use crate::numbers::{numbers, stage_id};
use crate::stages::{in_side_order, map_stages, stage};
use sc_ids::{StageGraph, Target};
use sc_lineage::{NodeId, Work};
use std::alloc::{AllocError, Global};

/// The stages of a job that begins at a node of the work: a map stage for each shuffle that the
/// node reaches, in the order of their numbers, and then the result stage. Shuffles that have a
/// stage keep it; [`Carried::keep`] notes the others'.
///
/// It looks at each node once for each stage, and for each shuffle at the stages that are carried.
pub fn cut(
    alloc: Global,
    work: &Work,
    node: NodeId,
    carried: &Carried,
) -> Result<StageGraph, AllocError>
    requires node { node < length work.now.script.nodes }
    requires carried { IsCarriedFor work.now.script.nodes carried.now }
    requires bounds { HasBounds work.now.script.nodes carried.now node }
    requires right { AreRightBounds work.now carried.now }
    ensures { IfOk result (λ graph. IsCut work.now carried.now node graph) }
{
    work.is_sound();
    let script = work.script();
    let counted = counts(alloc, script, carried)?;
    let counts = counted.as_slice();
    let numbered = numbers(alloc, script, node, carried)?;
    let numbers = numbered.stages.as_slice();
    let ordered = in_side_order(alloc, node, numbers)?;
    let read = ordered.as_slice();
    let mut graph = map_stages(alloc, script, counts, numbers, read)?;
    let id = stage_id(numbered.next)?;
    let target = Target::Result { node };
    graph.push(stage(alloc, script, counts, read, id, target, node)?)?;
    Ok(graph)
}
