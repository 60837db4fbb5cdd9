//! Definitions that no action reads.
#![tactic(auto)]

use crate::reached::{is_marked, mark_from, no_marks, node_of};
use crate::sources::ScriptText;
use std::alloc::{AllocError, Global};

/// Writes a line for each definition that no action reads.
pub fn write_unread(alloc: Global, out: &mut String, text: &ScriptText) -> Result<(), AllocError> {
    let mut marks = no_marks(alloc, &text.script)?;
    for action in text.script.actions() {
        mark_from(&text.script, &mut marks, node_of(action));
    }
    for at in 0..marks.len() {
        if !is_marked(marks.as_slice(), at) {
            write_definition(out, at, text)?;
        }
    }
    Ok(())
}

/// Writes that no action reads the definition of a node.
fn write_definition(out: &mut String, node: usize, text: &ScriptText) -> Result<(), AllocError> {
    match text.nth_definition(node) {
        Some(known) => {
            let line = known.line;
            let name = known.name.as_str();
            writeln!(out, "  line {line} defines `{name}`, which no action reads")
        }
        None => Ok(()),
    }
}
