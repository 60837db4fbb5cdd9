//! Sorts whose bounds weren't found yet.
#![tactic(auto)]

ghost use Rattle.std.specs.Prelude.{◌≡◌, ◌<◌, IfOk, None, length, slice_get};
ghost use Rattle.sc_base.specs.Lists.{at_or};
ghost use Rattle.sc_lineage.specs.Views.{node_data_of};
ghost use Rattle.sc_stagecut.specs.Carrying.{IsFirstLacking, is_sort, is_unbounded};

use crate::carried::Carried;
use crate::reached::{is_marked, reached};
use crate::reads::Follow;
use sc_lineage::{Node, NodeId, Script, Shuffling, Work};
use std::alloc::{AllocError, Global};

/// The first sort that a node reaches and whose bounds weren't found yet, if there is one. A job
/// can be cut once there is none.
pub fn unbounded_sort(
    alloc: Global,
    work: &Work,
    node: NodeId,
    carried: &Carried,
) -> Result<Option<NodeId>, AllocError>
    requires { node < length work.now.script.nodes }
    ensures { IfOk result (IsFirstLacking work.now.script.nodes carried.now node) }
{
    work.is_sound();
    let script = work.script();
    let marks = reached(alloc, script, node, Follow::Every)?;
    for sort in 0..u64::from(node) + 1 {
        let sort = sort as u32;
        if is_marked(marks.as_slice(), sort as usize) && is_unbounded(script, carried, sort) {
            return Ok(Some(sort));
        }
    }
    Ok(None)
}

/// Whether a node is a sort whose bounds weren't found.
fn is_unbounded(script: &Script, carried: &Carried, node: NodeId) -> bool
    ensures { result ≡ is_unbounded (slice_get script.now.nodes node)
        (at_or carried.now.bounds node None) }
{
    match script.nodes().get(node as usize) {
        Some(found) => is_sort(found) && carried.bounds(node as usize).is_none(),
        None => false,
    }
}

/// Whether a node is a sort.
fn is_sort(node: &Node) -> bool
    ensures { result ≡ is_sort (node_data_of node.now) }
{
    match node {
        Node::Shuffle {
            kind: Shuffling::SortByKey,
            ..
        } => true,
        _ => false,
    }
}
