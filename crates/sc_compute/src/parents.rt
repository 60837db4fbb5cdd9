//! The parents of a node.
#![tactic(auto)]

ghost use Rattle.std.specs.Prelude.{◌≡◌, None, Some, slice_get};
ghost use Rattle.sc_lineage.specs.Dependencies.{parents_of as parents_in};
ghost use Rattle.sc_lineage.specs.Views.{node_data_of};

use sc_lineage::{Node, NodeId};

/// The nodes that a node reads, in order.
#[derive(Clone, Copy)]
pub struct Parents {
    /// The only one, or the left one.
    pub first: Option<NodeId>,
    /// The right one.
    pub second: Option<NodeId>,
}

/// The nodes that a node reads.
pub fn parents_of(node: &Node) -> Parents
    ensures first { result.first ≡ slice_get (parents_in (node_data_of node.now)) 0 }
    ensures second { result.second ≡ slice_get (parents_in (node_data_of node.now)) 1 }
{
    match node {
        Node::Text { .. } | Node::Parallelize { .. } => Parents {
            first: None,
            second: None,
        },
        Node::Each { parent, .. } => one(*parent),
        Node::Coalesce { parent, .. } => one(*parent),
        Node::Cache { parent } => one(*parent),
        Node::Shuffle { parent, .. } => one(*parent),
        Node::Union { left, right } => two(*left, *right),
        Node::Meet { left, right, .. } => two(*left, *right),
    }
}

/// One parent.
fn one(parent: NodeId) -> Parents
    ensures first { result.first ≡ Some parent }
    ensures second { result.second ≡ None }
{
    Parents {
        first: Some(parent),
        second: None,
    }
}

/// Two parents.
fn two(left: NodeId, right: NodeId) -> Parents
    ensures first { result.first ≡ Some left }
    ensures second { result.second ≡ Some right }
{
    Parents {
        first: Some(left),
        second: Some(right),
    }
}
