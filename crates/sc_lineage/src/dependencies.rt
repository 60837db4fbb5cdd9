//! What the partitions of a node read.
#![tactic(auto)]

ghost use Rattle.std.specs.Prelude.{◌≡◌, ◌<◌, ◌≤◌, [], ◌∷◌, IfOk, map};
ghost use Rattle.sc_base.specs.Lists.{at_or};
ghost use Rattle.sc_lineage.specs.Dependencies.{IsNarrow, parents_of, place, places_from, reads_of};
ghost use Rattle.sc_lineage.specs.ScriptData.{count_step};
ghost use Rattle.sc_lineage.specs.Views.{node_data_of, place_data_of};

use crate::nodes::{Node, NodeId};
use sc_input::slice;
use std::alloc::{AllocError, Global};

/// A partition of a node.
#[derive(Clone, Copy, Debug, PartialEq, Eq)]
pub struct Place {
    /// The node.
    pub node: NodeId,
    /// The number of the partition, from 0.
    pub partition: u32,
}

/// The partitions that partition `p` of a narrow node reads, in order, where `counts` has the
/// number of partitions of each node before it. The node has more than `p` partitions.
///
/// After `getParents` of Spark's narrow dependencies.
pub fn reads(alloc: Global, node: &Node, counts: &[u32], p: u32) -> Result<Vec<Place>, AllocError>
    requires narrow { IsNarrow (node_data_of node.now) }
    requires partition { p < count_step counts.now (node_data_of node.now) }
    ensures { IfOk result (λ v. map place_data_of v.items
        ≡ reads_of (λ parent. at_or counts.now parent 0) (node_data_of node.now) p) }
{
    match node {
        Node::Text { .. } | Node::Parallelize { .. } => Ok(Vec::new(alloc)),
        Node::Each { parent, .. } | Node::Cache { parent } => one_place(alloc, *parent, p),
        Node::Union { left, right } => {
            let first = count_at(counts, *left);
            if p < first {
                one_place(alloc, *left, p)
            } else {
                one_place(alloc, *right, p - first)
            }
        }
        Node::Coalesce { parent, partitions } => {
            let count = count_at(counts, *parent);
            let runs = count.min(*partitions);
            let (from, to) = slice(u64::from(count), u64::from(runs), u64::from(p));
            run_of_places(alloc, *parent, from as u32, to as u32)
        }
        Node::Shuffle { .. } | Node::Meet { .. } => unreachable!(),
    }
}

/// The nodes that a node reads, in order.
pub(crate) fn parents(alloc: Global, node: &Node) -> Result<Vec<NodeId>, AllocError>
    ensures { IfOk result (λ v. v.items ≡ parents_of (node_data_of node.now)) }
{
    match node {
        Node::Text { .. } | Node::Parallelize { .. } => Ok(Vec::new(alloc)),
        Node::Each { parent, .. } | Node::Coalesce { parent, .. } => one_parent(alloc, *parent),
        Node::Cache { parent } | Node::Shuffle { parent, .. } => one_parent(alloc, *parent),
        Node::Union { left, right } | Node::Meet { left, right, .. } => {
            two_parents(alloc, *left, *right)
        }
    }
}

/// One node.
fn one_parent(alloc: Global, parent: NodeId) -> Result<Vec<NodeId>, AllocError>
    ensures { IfOk result (λ v. v.items ≡ parent ∷ []) }
{
    let mut parents = Vec::with_capacity(alloc, 1)?;
    parents.push(parent)?;
    Ok(parents)
}

/// Two nodes.
fn two_parents(alloc: Global, left: NodeId, right: NodeId) -> Result<Vec<NodeId>, AllocError>
    ensures { IfOk result (λ v. v.items ≡ left ∷ right ∷ []) }
{
    let mut parents = Vec::with_capacity(alloc, 2)?;
    parents.push(left)?;
    parents.push(right)?;
    Ok(parents)
}

/// The number of partitions of a node, where `counts` has it; else none.
pub fn count_at(counts: &[u32], node: NodeId) -> u32
    ensures { result ≡ at_or counts.now node 0 }
{
    match counts.get(node as usize) {
        Some(count) => *count,
        None => 0,
    }
}

/// One partition of a node.
fn one_place(alloc: Global, node: NodeId, partition: u32) -> Result<Vec<Place>, AllocError>
    ensures { IfOk result (λ v. map place_data_of v.items ≡ place node partition ∷ []) }
{
    let mut places = Vec::with_capacity(alloc, 1)?;
    places.push(Place { node, partition })?;
    Ok(places)
}

/// The partitions of a node from one to another.
fn run_of_places(alloc: Global, node: NodeId, from: u32, to: u32) -> Result<Vec<Place>, AllocError>
    requires { from ≤ to }
    ensures { IfOk result (λ v. map place_data_of v.items ≡ places_from node from to) }
{
    let mut places = Vec::with_capacity(alloc, (to - from) as usize)?;
    for partition in from..to {
        places.push(Place { node, partition })?;
    }
    Ok(places)
}
