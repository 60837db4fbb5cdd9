//! The lines of a fault plan as they are written.
#![tactic(auto)]

use sc_base::OrMemory;
use sc_value::{Octets, Texts, lines, nth_word};
use std::alloc::{AllocError, Global};

/// A line of a plan that isn't skipped.
#[derive(Drop)]
pub struct Lined {
    /// The number of the line, from 1.
    pub line: usize,
    /// What stands there.
    pub text: String,
}

/// The lines of a plan that aren't skipped, in order.
pub fn lined_plan(alloc: Global, bytes: &Octets) -> Result<Vec<Lined>, AllocError> {
    match lines(alloc, bytes) {
        Ok(lines) => unskipped(alloc, &lines),
        Err(OrMemory::Fault(_)) => Ok(Vec::new(alloc)),
        Err(OrMemory::OutOfMemory) => Err(AllocError),
    }
}

/// The same of its lines.
fn unskipped(alloc: Global, lines: &Texts) -> Result<Vec<Lined>, AllocError> {
    let mut found = Vec::new(alloc);
    for i in 0..lines.len() {
        if !is_skipped(lines.get(i)) {
            let text = String::from_str(alloc, lines.get(i))?;
            let line = i.saturating_add(1);
            found.push(Lined { line, text })?;
        }
    }
    Ok(found)
}

/// Whether a line has no words, or its first word begins with `#`.
fn is_skipped(line: &str) -> bool {
    match nth_word(line, 0) {
        Some(word) => word.starts_with('#'),
        None => true,
    }
}
