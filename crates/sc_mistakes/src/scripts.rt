//! Faults of scripts.
#![tactic(auto)]

use crate::limits::{first_place, limit_fault};
use crate::names::name_fault;
use crate::shapes::shape_fault;
use crate::tokens::token_fault;
use crate::trees::form_fault;
use crate::typed_lines::type_fault;
use sc_pieces::{
    Found, Known, Note, Piece, definition_of, known_lines, lines_or_told, pieces_of, write_note,
};
use sc_script::{FaultKind, ScriptFault};
use sc_value::{Octets, Texts};
use std::alloc::{AllocError, Global};

/// What is wrong with the script of a name, where its parser gave a fault: the line, with marks
/// under the place where that shows, and what is wanted there.
pub fn explain_script(
    alloc: Global,
    name: &str,
    bytes: &Octets,
    fault: ScriptFault,
) -> Result<String, AllocError> {
    let mut out = String::new(alloc);
    if fault.line == 0 && fault.kind == FaultKind::Limit {
        let len = bytes.len();
        writeln!(out, "  {name} has {len} bytes, and a script at most 65536")?;
        return Ok(out);
    }
    if let Some(lines) = lines_or_told(alloc, &mut out, name, bytes)? {
        explain_line(alloc, &mut out, name, &lines, fault)?;
    }
    Ok(out)
}

/// Tells of a line.
fn explain_line(
    alloc: Global,
    out: &mut String,
    name: &str,
    lines: &Texts,
    fault: ScriptFault,
) -> Result<(), AllocError> {
    let end = fault.line as usize;
    let place = end.saturating_sub(1);
    if place >= lines.len() {
        return Ok(());
    }
    let line = lines.get(place);
    let pieces = pieces_of(alloc, line)?;
    let note = match find_note(alloc, line, pieces.as_slice(), lines, fault)? {
        Some(note) => note,
        None => Note::of_line(String::from_str(alloc, meaning_of(fault.kind))?),
    };
    write_note(out, name, line, fault.line, &note)
}

/// Where a fault of this kind shows in a line.
fn find_note(
    alloc: Global,
    line: &str,
    pieces: &[Piece],
    lines: &Texts,
    fault: ScriptFault,
) -> Found {
    let end = fault.line as usize;
    let before = known_lines(alloc, lines, end)?;
    let known = before.as_slice();
    match fault.kind {
        FaultKind::NotText => Ok(None),
        FaultKind::Limit => limit_fault(alloc, line, pieces, known),
        FaultKind::Syntax => syntax_fault(alloc, line, pieces),
        FaultKind::UnknownName => {
            let all = known_lines(alloc, lines, usize::MAX)?;
            name_fault(alloc, line, pieces, known, all.as_slice())
        }
        FaultKind::Twice => twice_fault(alloc, line, pieces, known),
        FaultKind::IllTyped => type_fault(alloc, line, pieces, lines, known, end),
    }
}

/// Where a line isn't of the grammar.
fn syntax_fault(alloc: Global, line: &str, pieces: &[Piece]) -> Found {
    let found = token_fault(alloc, line, pieces)?;
    if found.is_some() {
        return Ok(found);
    }
    let found = form_fault(alloc, line, pieces)?;
    if found.is_some() {
        return Ok(found);
    }
    shape_fault(alloc, line, pieces)
}

/// The line that defines the name already.
fn twice_fault(alloc: Global, line: &str, pieces: &[Piece], known: &[Known]) -> Found {
    let Some(place) = first_place(pieces) else {
        return Ok(None);
    };
    let name = place.part(line);
    match definition_of(known, name) {
        Some(before) => {
            let number = before.line;
            let text = format!(in alloc;
                "line {number} defines `{name}` already: each definition has a name of its own"
            )?;
            Ok(Some(Note::at(place, text)))
        }
        None => Ok(None),
    }
}

/// What a kind of fault means.
fn meaning_of(kind: FaultKind) -> &'static str {
    match kind {
        FaultKind::NotText => "the script isn't UTF-8",
        FaultKind::Limit => "something is too long, too many, too deep or too large",
        FaultKind::Syntax => "a line is NAME = OPERATION ARGUMENT.., or ACTION ARGUMENT..",
        FaultKind::UnknownName => "a name isn't known here",
        FaultKind::Twice => "the name is defined already",
        FaultKind::IllTyped => "the rows of this line have no type",
    }
}
