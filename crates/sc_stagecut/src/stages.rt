//! The stages of a job.
#![tactic(auto)]

ghost use Rattle.std.specs.Prelude.{◌≡◌, ◌<◌, ◌+◌, ◌++◌, IfOk, OnOk, filter, length, map, true};
ghost use Rattle.std.specs.List.{All, AllZip};
ghost use Rattle.sc_base.specs.Lists.{at_or};
ghost use Rattle.sc_lineage.specs.ScriptData.{IsSoundScript};
ghost use Rattle.sc_stagecut.specs.Cuts.{IsStage};
ghost use Rattle.sc_stagecut.specs.Counting.{IsCountedStage};
ghost use Rattle.sc_stagecut.specs.Marking.{is_marked};
ghost use Rattle.sc_stagecut.specs.Numbering.{in_side_order, is_of, is_shuffle};

use crate::carried::Numbered;
use crate::numbers::mapped_node;
use crate::reached::{is_marked, reached};
use crate::reads::Follow;
use sc_ids::{ShuffleId, Stage, StageGraph, StageId, Target};
use sc_lineage::{NodeId, Script, count_at};
use std::alloc::{AllocError, Global};

/// The map stages of numbered shuffles, where `counts` has the number of partitions of each node,
/// and `ordered` the numbered shuffles in the order of node and side.
pub(crate) fn map_stages(
    alloc: Global,
    script: &Script,
    counts: &[u32],
    numbers: &[Numbered],
    ordered: &[Numbered],
) -> Result<StageGraph, AllocError>
    requires sound { IsSoundScript script.now }
    requires shuffles { All (λ n. is_shuffle script.now.nodes n.shuffle ≡ true) numbers.now }
    ensures { IfOk result (λ graph. AllZip
        (IsCountedStage script.now.nodes counts.now ordered.now) numbers.now graph) }
{
    let mut graph = StageGraph::new(alloc);
    for numbered in numbers {
        let target = Target::Map(numbered.shuffle);
        let node = mapped_node(script, numbered.shuffle);
        graph.push(stage(alloc, script, counts, ordered, numbered.stage, target, node)?)?;
    }
    Ok(graph)
}

/// A stage whose tasks take the partitions of a node. Its parents are those of the numbered
/// shuffles that the node reads with no other shuffle between, in the order of these.
pub(crate) fn stage(
    alloc: Global,
    script: &Script,
    counts: &[u32],
    numbers: &[Numbered],
    id: StageId,
    target: Target,
    node: NodeId,
) -> Result<Stage, AllocError>
    requires { node < length script.now.nodes }
    ensures { IfOk result (λ s.
        IsStage script.now.nodes numbers.now id target node (at_or counts.now node 0) s) }
{
    let marks = reached(alloc, script, node, Follow::Narrow)?;
    let parents = marked_stages(alloc, numbers, marks.as_slice())?;
    Ok(Stage::new(id, target, count_at(counts, node), parents))
}

/// Numbered shuffles of the nodes up to one, in the order of node and side.
pub(crate) fn in_side_order(
    alloc: Global,
    last: NodeId,
    numbers: &[Numbered],
) -> Result<Vec<Numbered>, AllocError>
    ensures { IfOk result (λ v. v.items ≡ in_side_order (last + 1) numbers.now) }
{
    let mut ordered = Vec::with_capacity(alloc, numbers.len())?;
    for node in 0..u64::from(last) + 1 {
        let node = node as u32;
        push_side(&mut ordered, alloc, numbers, ShuffleId { node, side: 0 })?;
        push_side(&mut ordered, alloc, numbers, ShuffleId { node, side: 1 })?;
    }
    Ok(ordered)
}

/// Adds those of some numbered shuffles that are of a side behind others.
fn push_side(
    ordered: &mut Vec<Numbered>,
    alloc: Global,
    numbers: &[Numbered],
    side: ShuffleId,
) -> Result<(), AllocError>
    ensures { OnOk result (ordered.new.items
        ≡ ordered.old.items ++ filter (is_of side) numbers.now) }
{
    let mut those = of_side(alloc, numbers, side)?;
    ordered.append(&mut those)?;
    Ok(())
}

/// Those of some numbered shuffles that are of a side.
fn of_side(
    alloc: Global,
    numbers: &[Numbered],
    side: ShuffleId,
) -> Result<Vec<Numbered>, AllocError>
    ensures { IfOk result (λ v. v.items ≡ filter (is_of side) numbers.now) }
{
    let mut those = Vec::new(alloc);
    for one in numbers {
        if one.is_of(side) {
            those.push(*one)?;
        }
    }
    Ok(those)
}

/// The stages of those of some numbered shuffles whose nodes are marked.
fn marked_stages(
    alloc: Global,
    numbers: &[Numbered],
    marks: &[bool],
) -> Result<Vec<StageId>, AllocError>
    ensures { IfOk result (λ v. v.items
        ≡ map (λ n. n.stage) (filter (λ n. is_marked marks.now n.shuffle.node) numbers.now)) }
{
    let mut stages = Vec::new(alloc);
    for numbered in numbers {
        if is_marked(marks, numbered.shuffle.node as usize) {
            stages.push(numbered.stage)?;
        }
    }
    Ok(stages)
}
