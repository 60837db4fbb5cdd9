//! The nodes of a work.
#![tactic(auto)]

ghost use Rattle.std.specs.Prelude.{◌≡◌, ◌<◌, Some, length, slice_get};
ghost use Rattle.sc_lineage.specs.Views.{node_data_of};
ghost use Rattle.sc_compute.specs.Stages.{node_at};

use sc_lineage::{Node, NodeId, Work};

/// The node of a number.
pub fn node_in(work: &Work, node: NodeId) -> &Node
    requires known { node < length work.now.script.nodes }
    ensures at { node_data_of result.now ≡ node_at work.now node }
    ensures found { slice_get work.now.script.nodes node ≡ Some (node_data_of result.now) }
{
    &work.script().nodes()[node as usize]
}
