//! Definitions of more partitions than serve.
#![tactic(auto)]

use crate::again::write_count;
use crate::reached::{is_marked, mark_from, no_marks};
use crate::sources::ScriptText;
use sc_lineage::{Node, NodeId, Script};
use std::alloc::{AllocError, Global};

/// Up to how many partitions nothing is said of a definition.
const SERVE: u32 = 64;

/// Whether a definition of a script makes so many partitions that it matters how many rows its
/// inputs have.
pub fn has_many(script: &Script) -> bool {
    for node in script.nodes() {
        if partitions_of(node) > SERVE {
            return true;
        }
    }
    false
}

/// Writes a line for each definition that makes more than 64 partitions, and more than its inputs
/// have rows. For a node that reads an input `sizes` has how many lines that has, where it's known;
/// of what reads one of which it isn't known nothing is said.
pub fn write_crowded(
    alloc: Global,
    out: &mut String,
    text: &ScriptText,
    sizes: &[Option<u64>],
) -> Result<(), AllocError> {
    for at in 0..text.script().nodes().len() {
        let partitions = partitions_at(text.script(), at);
        if partitions > SERVE {
            match rows_below(alloc, text.script(), at, sizes)? {
                Some(rows) if rows < u64::from(partitions) => {
                    write_definition(out, text, at, partitions, rows)?;
                }
                _ => {}
            }
        }
    }
    Ok(())
}

/// The number of partitions that the definition at a place makes itself.
fn partitions_at(script: &Script, at: usize) -> u32 {
    match script.nodes().get(at) {
        Some(node) => partitions_of(node),
        None => 0,
    }
}

/// The number of partitions that a definition makes itself; none where they are those of others.
fn partitions_of(node: &Node) -> u32 {
    match node {
        Node::Text { slices, .. } | Node::Parallelize { slices, .. } => *slices,
        Node::Shuffle { partitions, .. } | Node::Meet { partitions, .. } => *partitions,
        Node::Each { .. } | Node::Union { .. } | Node::Coalesce { .. } | Node::Cache { .. } => 0,
    }
}

/// How many rows all have together that a definition begins from, where that is known.
fn rows_below(
    alloc: Global,
    script: &Script,
    at: usize,
    sizes: &[Option<u64>],
) -> Result<Option<u64>, AllocError> {
    let mut marks = no_marks(alloc, script)?;
    if let Ok(node) = NodeId::try_from(at) {
        mark_from(script, &mut marks, node);
    }
    let mut rows: u64 = 0;
    for (at, node) in script.nodes().iter().enumerate() {
        if is_marked(marks.as_slice(), at) {
            match rows_in(node, at, sizes) {
                Some(more) => rows = rows.saturating_add(more),
                None => return Ok(None),
            }
        }
    }
    Ok(Some(rows))
}

/// How many rows the node at a place begins with, where that is known.
fn rows_in(node: &Node, at: usize, sizes: &[Option<u64>]) -> Option<u64> {
    match node {
        Node::Text { .. } => match sizes.get(at) {
            Some(size) => *size,
            None => None,
        },
        Node::Parallelize { literals, .. } => Some(literals.len() as u64),
        _ => Some(0),
    }
}

/// Writes that a definition makes more partitions than its inputs have rows.
fn write_definition(
    out: &mut String,
    text: &ScriptText,
    at: usize,
    partitions: u32,
    rows: u64,
) -> Result<(), AllocError> {
    match text.nth_definition(at) {
        Some(known) => {
            let line = known.line;
            let name = known.name.as_str();
            write!(
                out,
                "  line {line} makes {partitions} partitions of `{name}`, and its inputs have "
            )?;
            write_count(out, rows, "row")?;
            out.push_str(": 4 to 8 serve\n")
        }
        None => Ok(()),
    }
}
