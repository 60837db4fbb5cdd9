//! Which stages read what others make.
#![tactic(auto)]

use crate::jobs::JobPlaces;
use crate::numbering::StagePlace;
use crate::reached::{is_marked, mark, no_marks};
use crate::sides::side_of;
use sc_ids::StageId;
use sc_lineage::Script;
use std::alloc::{AllocError, Global};

/// A stage reads what another one makes.
#[derive(Clone, Copy)]
pub struct Edge {
    /// The stage that makes it.
    pub from: StageId,
    /// The stage that reads it.
    pub to: StageId,
}

/// The edges between the stages of a script's jobs, in the order of the stages that read.
pub fn edges_of(
    alloc: Global,
    script: &Script,
    places: &JobPlaces,
) -> Result<Vec<Edge>, AllocError> {
    let mut edges = Vec::new(alloc);
    for stage in places.stages() {
        push_edges(alloc, &mut edges, script, places, *stage)?;
    }
    Ok(edges)
}

/// The edges to a stage.
fn push_edges(
    alloc: Global,
    edges: &mut Vec<Edge>,
    script: &Script,
    places: &JobPlaces,
    stage: StagePlace,
) -> Result<(), AllocError> {
    let mut marks = no_marks(alloc, script)?;
    mark_within(script, &mut marks, stage.node as usize);
    for other in places.stages() {
        if is_read(*other, marks.as_slice()) {
            edges.push(Edge {
                from: other.stage,
                to: stage.stage,
            })?;
        }
    }
    Ok(())
}

/// Whether one of the nodes that are marked reads what a stage makes.
fn is_read(stage: StagePlace, marks: &[bool]) -> bool {
    match stage.reader {
        Some(reader) => is_marked(marks, reader.node as usize),
        None => false,
    }
}

/// Marks a node and all that it reads without a shuffle.
pub(crate) fn mark_within(script: &Script, marks: &mut Vec<bool>, node: usize) {
    mark(marks, node);
    for back in 0..script.nodes().len() {
        let at = script.nodes().len().saturating_sub(back).saturating_sub(1);
        if is_marked(marks.as_slice(), at) {
            mark_narrow(script, marks, at);
        }
    }
}

/// Marks what a node reads without a shuffle.
fn mark_narrow(script: &Script, marks: &mut Vec<bool>, node: usize) {
    if let Ok(node) = u32::try_from(node) {
        for side in 0..2 {
            if let Some(read) = side_of(script, node, side) {
                if !read.is_shuffled {
                    mark(marks, read.parent as usize);
                }
            }
        }
    }
}
