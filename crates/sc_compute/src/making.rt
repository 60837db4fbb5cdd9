//! What is made for one node.
#![tactic(auto)]

ghost use Rattle.std.specs.Prelude.{◌≡◌, ◌<◌, ◌^◌, [], All, IfOk, None, length, true};
ghost use Rattle.sc_base.specs.Lists.{at_or};
ghost use Rattle.sc_lineage.specs.Meaning.{bounds_of_shuffle, local_streams, parts_of_shuffle};
ghost use Rattle.sc_lineage.specs.Partitioners.{partitioner_of_shuffle};
ghost use Rattle.sc_lineage.specs.Views.{shuffling_data_of};
ghost use Rattle.sc_combine.specs.Outputs.{dealing_in};
ghost use Rattle.sc_compute.specs.Inputs.{HasSides};
ghost use Rattle.sc_compute.specs.Stages.{AreReadOf, AreRight, AreSides, HasMade, IsInput, IsReadOf, IsSideFor, handed_in, lies_so, local_count, node_at, parents_left};

use crate::counting::narrow_count;
use crate::handing::SideId;
use crate::nodes::node_in;
use crate::stages::{Input, ShuffleInputs, Sides};
use sc_lineage::{Node, NodeId, Shuffling, Work};
use sc_shuffle::MapOutput;
use std::alloc::{AllocError, Global};

/// The number of partitions of a node, and what its sides are read from, where the outputs of its
/// shuffles were handed in, and the same was made for its other parents.
pub fn make(
    alloc: Global,
    work: &Work,
    stages: &ShuffleInputs,
    node: NodeId,
) -> Result<(u32, Sides), AllocError>
    requires known { node < length work.now.script.nodes }
    requires right { AreRight work.now stages.now }
    requires parents { All (HasMade stages.now)
        (parents_left stages.now node (node_at work.now node)) }
    requires sides { HasSides work.now stages.now node }
    ensures count { IfOk result (λ made. made.0 ≡ local_count work.now node) }
    ensures are { IfOk result (λ made. AreSides work.now (node_at work.now node) made.1) }
    ensures read { IfOk result (λ made. AreReadOf (handed_in stages.now node) made.1) }
{
    work.is_sound();
    match node_in(work, node) {
        Node::Shuffle {
            kind,
            parent,
            partitions,
        } => {
            let at = SideId { node, side: 0 };
            let (count, input) = input_of(alloc, work, stages, at, kind, *parent, *partitions)?;
            Ok((count, Sides::One(input)))
        }
        Node::Meet {
            left,
            right,
            partitions,
            ..
        } => {
            let passed = Shuffling::GroupByKey;
            let at = SideId { node, side: 0 };
            let (_, first) = input_of(alloc, work, stages, at, &passed, *left, *partitions)?;
            let at = SideId { node, side: 1 };
            let (_, second) = input_of(alloc, work, stages, at, &passed, *right, *partitions)?;
            Ok((*partitions, Sides::Two(first, second)))
        }
        narrow => Ok((narrow_count(stages.counts(), narrow), Sides::Narrow)),
    }
}

/// What a side of a shuffle reads of a parent, and how many partitions the shuffle has: the outputs
/// that were handed in, or the parent's own partition where the rows already lie so.
fn input_of(
    alloc: Global,
    work: &Work,
    stages: &ShuffleInputs,
    at: SideId,
    kind: &Shuffling,
    parent: NodeId,
    n: u32,
) -> Result<(u32, Input), AllocError>
    requires known { parent < length work.now.script.nodes }
    requires right { AreRight work.now stages.now }
    requires side { IsSideFor (node_at work.now at.node) at.side
        (shuffling_data_of kind.now) parent n }
    requires lies { handed_in stages.now at.node at.side ≡ None
        → lies_so work.now (partitioner_of_shuffle (shuffling_data_of kind.now) n) parent ≡ true }
    requires some_partitions { 0 < n }
    ensures count { IfOk result (λ made. made.0 ≡ parts_of_shuffle (shuffling_data_of kind.now) n
        (bounds_of_shuffle (shuffling_data_of kind.now) (local_streams work.now parent) n)) }
    ensures input { IfOk result (λ made. IsInput work.now (shuffling_data_of kind.now)
        (dealing_in work.now (shuffling_data_of kind.now) parent n)
        (partitioner_of_shuffle (shuffling_data_of kind.now) n) parent made.1) }
    ensures read { IfOk result (λ made. IsReadOf (handed_in stages.now at.node at.side) made.1) }
{
    work.is_sound();
    match stages.handed(at) {
        Some(outputs) => {
            let dealt = shared(alloc, outputs)?;
            Ok((parts_handed(outputs), Input::Dealt(dealt)))
        }
        None => Ok((n, Input::Own)),
    }
}

/// The same outputs again, of which nothing is copied.
fn shared(alloc: Global, outputs: &[MapOutput]) -> Result<Vec<MapOutput>, AllocError>
    ensures { IfOk result (λ v. v.items ≡ outputs.now) }
{
    let mut out = Vec::with_capacity(alloc, outputs.len())?;
    for output in outputs {
        out.push(output.share()?)?;
    }
    Ok(out)
}

/// How many partitions a shuffle has, by what its tasks left: as many as there are buckets.
fn parts_handed(outputs: &[MapOutput]) -> u32
    requires few { length (at_or outputs.now 0 []) < 2 ^ 32 }
    ensures { result ≡ length (at_or outputs.now 0 []) }
{
    match outputs.first() {
        Some(first) => first.len() as u32,
        None => 0,
    }
}
