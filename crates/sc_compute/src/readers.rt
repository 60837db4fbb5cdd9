//! How often nodes are read.
#![tactic(auto)]

ghost use Rattle.std.specs.Prelude.{◌≡◌, IfOk, length, vec_len};

use sc_lineage::{Node, NodeId, Partitioner, Script, is_parted_by};
use std::alloc::{AllocError, Global};

/// For each node of a script, how many dependencies read its partitions as they are, of those nodes
/// that a target needs. The target itself counts as read once, and a node that isn't needed as not
/// read. A shuffle reads a node as it is where the rows already lie so.
pub fn readers(alloc: Global, script: &Script, target: NodeId) -> Result<Vec<u32>, AllocError>
    ensures { IfOk result (λ v. vec_len v ≡ length script.now.nodes) }
{
    let nodes = script.nodes();
    let mut readers = vec![in alloc; 0; nodes.len()]?;
    count(&mut readers, target);
    let mut node = nodes.len();
    while node > 0 {
        node -= 1;
        if readers[node] > 0 {
            count_parents(script, &nodes[node], &mut readers);
        }
    }
    Ok(readers)
}

/// Counts that a node reads its parents.
fn count_parents(script: &Script, node: &Node, readers: &mut [u32])
    ensures { length readers.new ≡ length readers.old }
{
    match node {
        Node::Text { .. } => {}
        Node::Parallelize { .. } => {}
        Node::Each { parent, .. } => count(readers, *parent),
        Node::Union { left, right } => {
            count(readers, *left);
            count(readers, *right);
        }
        Node::Coalesce { parent, .. } => count(readers, *parent),
        Node::Cache { parent } => count(readers, *parent),
        Node::Shuffle {
            kind,
            parent,
            partitions,
        } => count_lying(script, kind.partitioner(*partitions), *parent, readers),
        Node::Meet {
            left,
            right,
            partitions,
            ..
        } => {
            let wanted = Partitioner::Hash(*partitions);
            count_lying(script, wanted, *left, readers);
            count_lying(script, wanted, *right, readers);
        }
    }
}

/// Counts that a shuffle reads a parent, where the rows already lie as it asks.
fn count_lying(script: &Script, wanted: Partitioner, parent: NodeId, readers: &mut [u32])
    ensures { length readers.new ≡ length readers.old }
{
    if let Some(lies) = script.partitioners().get(parent as usize)
        && is_parted_by(wanted, *lies)
    {
        count(readers, parent);
    }
}

/// Counts that a node is read.
fn count(readers: &mut [u32], node: NodeId)
    ensures { length readers.new ≡ length readers.old }
{
    let node = node as usize;
    if node < readers.len() {
        readers[node] = readers[node].saturating_add(1);
    }
}
