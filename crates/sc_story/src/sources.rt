//! The script of a run as it is written.
#![tactic(auto)]

use sc_base::OrMemory;
use sc_lineage::{Action, Node, NodeId, Script};
use sc_pieces::{Known, known_lines, write_excerpt};
use sc_script::parse;
use sc_value::{Octets, Texts, lines};
use std::alloc::{AllocError, Global};

/// A script, with its lines and what each of them defines.
#[derive(Drop)]
pub struct ScriptText {
    pub(crate) script: Script,
    written: Written,
}

/// The lines of a script, and what each of them defines.
#[derive(Drop)]
struct Written {
    lines: Texts,
    known: Vec<Known>,
}

/// The script that bytes are, where they are one.
pub fn script_text(alloc: Global, bytes: &Octets) -> Result<Option<ScriptText>, AllocError> {
    match parse(alloc, bytes) {
        Ok(script) => match lines_of(alloc, bytes) {
            Ok(Some(written)) => Ok(Some(ScriptText { script, written })),
            Ok(None) => {
                drop(script);
                Ok(None)
            }
            Err(error) => {
                drop(script);
                Err(error)
            }
        },
        Err(OrMemory::Fault(_)) => Ok(None),
        Err(OrMemory::OutOfMemory) => Err(AllocError),
    }
}

/// The lines of a script, where its bytes are text.
fn lines_of(alloc: Global, bytes: &Octets) -> Result<Option<Written>, AllocError> {
    match lines(alloc, bytes) {
        Ok(lines) => Ok(Some(with_known(alloc, lines)?)),
        Err(OrMemory::Fault(_)) => Ok(None),
        Err(OrMemory::OutOfMemory) => Err(AllocError),
    }
}

/// Lines, with what each of them defines.
fn with_known(alloc: Global, lines: Texts) -> Result<Written, AllocError> {
    let known = known_lines(alloc, &lines, usize::MAX)?;
    Ok(Written { lines, known })
}

impl ScriptText {
    /// The script.
    pub fn script(&self) -> &Script {
        &self.script
    }

    /// Writes the line of an action.
    pub fn write_action(&self, out: &mut String, action: usize) -> Result<(), AllocError> {
        match self.action(action) {
            Some(known) => {
                let line = known.line;
                writeln!(out, "  the action of line {line}")?;
                self.write_line(out, known)
            }
            None => Ok(()),
        }
    }

    /// Writes the line of the action that saves to a path.
    pub fn write_save(&self, out: &mut String, path: &str) -> Result<(), AllocError> {
        match self.saver_of(path) {
            Some(action) => self.write_action(out, action),
            None => Ok(()),
        }
    }

    /// The number of the action in whose directory a path is, of several the innermost.
    fn saver_of(&self, path: &str) -> Option<usize> {
        let mut found = None;
        let mut longest = 0;
        for (at, action) in self.script.actions().iter().enumerate() {
            let dir = directory_of(action);
            if dir.len() > longest && is_within(path, dir) {
                longest = dir.len();
                found = Some(at);
            }
        }
        found
    }

    /// Writes the first line that reads an input of a name.
    pub fn write_input(&self, out: &mut String, name: &str) -> Result<(), AllocError> {
        match self.reader_of(name) {
            Some(known) => {
                let line = known.line;
                writeln!(out, "  line {line} reads it")?;
                self.write_line(out, known)
            }
            None => Ok(()),
        }
    }

    /// The first line that reads an input of a name.
    fn reader_of(&self, name: &str) -> Option<&Known> {
        for (at, node) in self.script.nodes().iter().enumerate() {
            if reads_input(node, name) {
                return nth_of(self.written.known.as_slice(), true, at);
            }
        }
        None
    }

    /// The line that defines a node.
    pub fn definition(&self, node: NodeId) -> Option<&Known> {
        self.nth_definition(node as usize)
    }

    /// The line that defines the node at a place.
    pub(crate) fn nth_definition(&self, node: usize) -> Option<&Known> {
        nth_of(self.written.known.as_slice(), true, node)
    }

    /// The line of an action.
    pub fn action(&self, action: usize) -> Option<&Known> {
        nth_of(self.written.known.as_slice(), false, action)
    }

    /// Writes a line.
    pub(crate) fn write_line(&self, out: &mut String, known: &Known) -> Result<(), AllocError> {
        write_excerpt(out, self.content(known), None)
    }

    /// What stands in a line.
    pub fn content(&self, known: &Known) -> &str {
        let at = (known.line as usize).saturating_sub(1);
        if at < self.written.lines.len() {
            self.written.lines.get(at)
        } else {
            ""
        }
    }
}

/// The directory that an action saves to, or nothing.
fn directory_of(action: &Action) -> &str {
    match action.saves_to() {
        Some(dir) => dir.as_str(),
        None => "",
    }
}

/// Whether a path is a directory or in it.
fn is_within(path: &str, dir: &str) -> bool {
    match path.strip_prefix(dir) {
        Some(rest) => rest.is_empty() || rest.starts_with('/'),
        None => false,
    }
}

/// Whether a node is the lines of an input of a name.
fn reads_input(node: &Node, name: &str) -> bool {
    match node {
        Node::Text { input, .. } => input.as_str() == name,
        _ => false,
    }
}

/// The definition, or the action, of a number among lines.
fn nth_of(known: &[Known], is_definition: bool, number: usize) -> Option<&Known> {
    let mut at: usize = 0;
    for one in known {
        if one.is_definition == is_definition {
            if at == number {
                return Some(one);
            }
            at = at.saturating_add(1);
        }
    }
    None
}
