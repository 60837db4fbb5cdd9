//! Numbers of partitions of narrow nodes.
#![tactic(auto)]

ghost use Rattle.std.specs.Prelude.{◌≡◌, ◌<◌, ◌^◌};
ghost use Rattle.sc_lineage.specs.Dependencies.{IsNarrow};
ghost use Rattle.sc_lineage.specs.ScriptData.{count_step};
ghost use Rattle.sc_lineage.specs.Views.{node_data_of};

use sc_lineage::{Node, count_at};

/// The number of partitions of a narrow node, where `counts` has those of its parents.
pub fn narrow_count(counts: &[u32], node: &Node) -> u32
    requires narrow { IsNarrow (node_data_of node.now) }
    requires fits { count_step counts.now (node_data_of node.now) < 2 ^ 32 }
    ensures { result ≡ count_step counts.now (node_data_of node.now) }
{
    match node {
        Node::Text { slices, .. } | Node::Parallelize { slices, .. } => *slices,
        Node::Each { parent, .. } | Node::Cache { parent } => count_at(counts, *parent),
        Node::Union { left, right } => count_at(counts, *left) + count_at(counts, *right),
        Node::Coalesce { parent, partitions } => count_at(counts, *parent).min(*partitions),
        Node::Shuffle { .. } | Node::Meet { .. } => unreachable!(),
    }
}
