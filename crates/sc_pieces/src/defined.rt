//! The names that lines define, as they are written.
#![tactic(auto)]

use crate::pieces::{Piece, pieces_of, word_at};
use crate::places::Place;
use sc_value::Texts;
use std::alloc::{AllocError, Global};

/// A line that isn't skipped: what it defines, or an action.
#[derive(Drop)]
pub struct Known {
    /// The number of the line, from 1.
    pub line: u32,
    /// Whether it defines a name.
    pub is_definition: bool,
    /// The name that it defines, or that of the action.
    pub name: String,
    /// Where that stands in the line.
    pub place: Place,
}

/// The lines up to, not including, the one of a number that aren't skipped.
pub fn known_lines(alloc: Global, lines: &Texts, end: usize) -> Result<Vec<Known>, AllocError> {
    let mut known = Vec::new(alloc);
    for i in 0..lines.len() {
        if i.saturating_add(1) < end {
            let pieces = pieces_of(alloc, lines.get(i))?;
            push_known(alloc, &mut known, i, lines.get(i), pieces.as_slice())?;
        }
    }
    Ok(known)
}

/// Adds what a line defines, where it is none that is skipped.
fn push_known(
    alloc: Global,
    known: &mut Vec<Known>,
    i: usize,
    line: &str,
    pieces: &[Piece],
) -> Result<(), AllocError> {
    let Some(first) = pieces.first() else {
        return Ok(());
    };
    let name = first.text(line);
    if name.starts_with('#') {
        return Ok(());
    }
    known.push(Known {
        line: number_of(i),
        is_definition: is_definition(line, pieces),
        name: String::from_str(alloc, name)?,
        place: first.place,
    })?;
    Ok(())
}

/// The number of a line that stands behind so many.
fn number_of(before: usize) -> u32 {
    match u32::try_from(before) {
        Ok(before) => before.saturating_add(1),
        Err(_) => u32::MAX,
    }
}

/// Whether the second piece is `=`.
pub fn is_definition(line: &str, pieces: &[Piece]) -> bool {
    match word_at(line, pieces, 1) {
        Some(word) => word == "=",
        None => false,
    }
}

/// The piece behind which the arguments of a line stand.
pub fn operation_place(line: &str, pieces: &[Piece]) -> usize {
    if is_definition(line, pieces) { 2 } else { 0 }
}

/// The first definition of a name among lines.
pub fn definition_of<'a>(known: &'a [Known], name: &str) -> Option<&'a Known> {
    for one in known {
        if one.is_definition && one.name.as_str() == name {
            return Some(one);
        }
    }
    None
}

/// The names that lines define, with blanks between them.
pub fn names_in(alloc: Global, known: &[Known]) -> Result<String, AllocError> {
    let mut names = String::new(alloc);
    for one in known {
        if one.is_definition {
            names.push_str(one.name.as_str())?;
            names.push(' ')?;
        }
    }
    Ok(names)
}

/// Whether a piece is a word, as the grammar has it.
pub fn is_word(piece: &str) -> bool {
    let is_start = piece.starts_with(|c: char| c.is_ascii_alphabetic() || c == '_');
    is_start && piece.chars().all(|c| c.is_ascii_alphanumeric() || c == '_')
}
