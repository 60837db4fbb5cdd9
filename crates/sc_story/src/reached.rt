//! Which nodes are read, one by another.
#![tactic(auto)]

use crate::sides::side_of;
use sc_lineage::{Action, NodeId, Script};
use std::alloc::{AllocError, Global};

/// The node of an action.
pub(crate) fn node_of(action: &Action) -> NodeId {
    match action {
        Action::Collect { node } | Action::Count { node } => *node,
        Action::Reduce { node, .. } | Action::Save { node, .. } => *node,
    }
}

/// A mark for each node, where none is marked yet.
pub(crate) fn no_marks(alloc: Global, script: &Script) -> Result<Vec<bool>, AllocError> {
    let mut marks = Vec::new(alloc);
    for _ in script.nodes() {
        marks.push(false)?;
    }
    Ok(marks)
}

/// Marks a node and all that it reads. Parents stand before their nodes, so that one pass down
/// finds them all.
pub(crate) fn mark_from(script: &Script, marks: &mut Vec<bool>, node: NodeId) {
    mark(marks, node as usize);
    for back in 0..script.nodes().len() {
        let at = script.nodes().len().saturating_sub(back).saturating_sub(1);
        if is_marked(marks.as_slice(), at) {
            mark_parents(script, marks, at);
        }
    }
}

/// Marks what a node reads.
fn mark_parents(script: &Script, marks: &mut Vec<bool>, node: usize) {
    if let Ok(node) = u32::try_from(node) {
        for side in 0..2 {
            if let Some(read) = side_of(script, node, side) {
                mark(marks, read.parent as usize);
            }
        }
    }
}

/// Marks a node.
pub(crate) fn mark(marks: &mut Vec<bool>, node: usize) {
    if node < marks.len() {
        marks[node] = true;
    }
}

/// Whether a node is marked.
pub(crate) fn is_marked(marks: &[bool], node: usize) -> bool {
    match marks.get(node) {
        Some(mark) => *mark,
        None => false,
    }
}
