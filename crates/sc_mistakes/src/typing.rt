//! Types, as the parser finds them.
#![tactic(auto)]

use crate::rows::write_value;
use sc_base::OrMemory;
use sc_lineage::{Script, row_type};
use sc_pieces::{Argument, Piece, PieceKind};
use sc_script::parse;
use sc_value::{Octets, Texts, Ty};
use std::alloc::{AllocError, Global};

/// The types of the rows that the lines before one define, where they are a script.
pub(crate) fn types_before(
    alloc: Global,
    lines: &Texts,
    end: usize,
) -> Result<Vec<Ty>, AllocError> {
    let mut text = String::new(alloc);
    for i in 0..lines.len() {
        if i.saturating_add(1) < end {
            text.push_str(lines.get(i))?;
            text.push('\n')?;
        }
    }
    types_of_text(alloc, text.as_str())
}

/// The types of the rows that a script defines; none where it is no script.
fn types_of_text(alloc: Global, text: &str) -> Result<Vec<Ty>, AllocError> {
    let bytes = Octets::copy_of(alloc, text.as_bytes())?;
    types_of_bytes(alloc, &bytes)
}

/// The same of a script as bytes.
fn types_of_bytes(alloc: Global, bytes: &Octets) -> Result<Vec<Ty>, AllocError> {
    match parse(alloc, bytes) {
        Ok(script) => {
            let types = types_of(alloc, &script);
            drop(script);
            types
        }
        Err(OrMemory::Fault(_)) => Ok(Vec::new(alloc)),
        Err(OrMemory::OutOfMemory) => Err(AllocError),
    }
}

/// The types of the rows of a script's nodes.
fn types_of(alloc: Global, script: &Script) -> Result<Vec<Ty>, AllocError> {
    let mut types = Vec::new(alloc);
    for node in script.nodes() {
        match row_type(alloc, types.as_slice(), node) {
            Ok(ty) => types.push(ty)?,
            Err(error) => match error {
                OrMemory::Fault(_) => return Ok(types),
                OrMemory::OutOfMemory => return Err(AllocError),
            },
        }
    }
    Ok(types)
}

/// The type that an argument has as an expression over a row of a type, where it has one.
pub(crate) fn type_over(
    alloc: Global,
    row: &Ty,
    line: &str,
    pieces: &[Piece],
    argument: Argument,
) -> Result<Option<Ty>, AllocError> {
    let mut text = String::from_str(alloc, "p = parallelize 1 1\nq = map p ")?;
    write_value(&mut text, row)?;
    text.push_str("\nr = map q")?;
    write_over_row(&mut text, line, pieces, argument)?;
    text.push('\n')?;
    let mut types = types_of_text(alloc, text.as_str())?;
    if types.len() == 3 {
        Ok(types.pop())
    } else {
        Ok(None)
    }
}

/// Writes an argument as an expression over a row: two values are two of that type.
fn write_over_row(
    out: &mut String,
    line: &str,
    pieces: &[Piece],
    argument: Argument,
) -> Result<(), AllocError> {
    let mut is_head = false;
    for (at, piece) in pieces.iter().enumerate() {
        if argument.first <= at && at <= argument.last {
            let text = piece.text(line);
            out.push(' ')?;
            match text {
                "a" | "b" if !is_head => out.push_str("x")?,
                _ => out.push_str(text)?,
            }
        }
        is_head = piece.kind == PieceKind::Open;
    }
    Ok(())
}
