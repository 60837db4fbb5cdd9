//! The stream of a partition, by the kind of its node.
#![tactic(auto)]

ghost use Rattle.std.specs.Prelude.{◌≡◌, ◌<◌, IfOk, Some, length, slice_get};
ghost use Rattle.sc_lineage.specs.Narrow.{narrow_stream};
ghost use Rattle.sc_lineage.specs.NodeData.{NodeData};
ghost use Rattle.sc_lineage.specs.Views.{node_data_of};

use crate::each::each_stream;
use crate::joins::joined;
use crate::slices::{literal_slice, text_slice};
use crate::streams::{ended, share};
use sc_lineage::{Node, NodeId, Stream, Work};
use std::alloc::{AllocError, Global};

/// The stream of partition `p` of a narrow node, where `inputs` are the streams of the parents'
/// partitions that it reads, in order. A node that is made by a shuffle has nothing here.
pub fn run_node(
    alloc: Global,
    work: &Work,
    node: NodeId,
    p: u32,
    inputs: &[Stream],
) -> Result<Stream, AllocError>
    requires known_node { node < length work.now.script.nodes }
    ensures { (kind : NodeData) → slice_get work.now.script.nodes node ≡ Some kind
        → IfOk result (λ s. s ≡ narrow_stream work.now.inputs kind p inputs.now) }
{
    run(
        alloc,
        work,
        &work.script().nodes()[node as usize],
        p,
        inputs,
    )
}

/// The same for a node that need not be the work's.
fn run(
    alloc: Global,
    work: &Work,
    node: &Node,
    p: u32,
    inputs: &[Stream],
) -> Result<Stream, AllocError>
    ensures { IfOk result
        (λ s. s ≡ narrow_stream work.now.inputs (node_data_of node.now) p inputs.now) }
{
    match node {
        Node::Text { input, slices } => text_slice(alloc, work, input, *slices, p),
        Node::Parallelize { literals, slices } => literal_slice(alloc, literals, *slices, p),
        Node::Each { kind, expr, .. } => match inputs.first() {
            Some(input) => each_stream(alloc, *kind, expr, input),
            None => ended(alloc, None),
        },
        Node::Union { .. } => joined(alloc, inputs),
        Node::Coalesce { .. } => joined(alloc, inputs),
        Node::Cache { .. } => match inputs.first() {
            Some(input) => share(input),
            None => ended(alloc, None),
        },
        Node::Shuffle { .. } | Node::Meet { .. } => ended(alloc, None),
    }
}
