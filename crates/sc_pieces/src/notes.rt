//! What an explanation says of a line.
#![tactic(auto)]

use crate::characters::{first_strange, meaning_of};
use crate::excerpts::write_excerpt;
use crate::places::Place;
use sc_base::OrMemory;
use sc_value::{Octets, Texts, lines};
use std::alloc::{AllocError, Global};
use std::str;

/// What is wrong, and where in the line that shows.
#[derive(Drop)]
pub struct Note {
    /// Where, or nowhere.
    pub place: Option<Place>,
    /// What is wrong.
    pub text: String,
}

/// Where an explanation looks for a fault: what it found, or nothing.
pub type Found = Result<Option<Note>, AllocError>;

impl Note {
    /// A note about a place.
    pub fn at(place: Place, text: String) -> Note {
        Note {
            place: Some(place),
            text,
        }
    }

    /// A note about the whole line.
    pub fn of_line(text: String) -> Note {
        Note { place: None, text }
    }
}

/// Writes a note about a line of a file.
pub fn write_note(
    out: &mut String,
    name: &str,
    line: &str,
    number: u32,
    note: &Note,
) -> Result<(), AllocError> {
    write!(out, "  {name}, line {number}")?;
    write_column(out, line, note.place)?;
    write_excerpt(out, line, note.place)?;
    let text = note.text.as_str();
    writeln!(out, "  {text}")
}

/// Ends a line that names a line of a file: with the column, where there is a place.
fn write_column(out: &mut String, line: &str, place: Option<Place>) -> Result<(), AllocError> {
    match place {
        Some(place) => {
            let column = place.column(line);
            writeln!(out, ", column {column}")
        }
        None => out.push('\n'),
    }
}

/// The lines of a file, where it is text. Where it is none this is told, and there are no lines.
pub fn lines_or_told(
    alloc: Global,
    out: &mut String,
    name: &str,
    bytes: &Octets,
) -> Result<Option<Texts>, AllocError> {
    match lines(alloc, bytes) {
        Ok(lines) => Ok(Some(lines)),
        Err(error) => match error {
            OrMemory::Fault(_) => {
                write_no_text(out, name, bytes.as_slice())?;
                Ok(None)
            }
            OrMemory::OutOfMemory => Err(AllocError),
        },
    }
}

/// Tells where bytes are no text.
fn write_no_text(out: &mut String, name: &str, bytes: &[u8]) -> Result<(), AllocError> {
    let at = text_len(bytes);
    let line = line_of(bytes, at);
    let more = if is_like_utf16(bytes) {
        "\n  it looks like UTF-16: save it as UTF-8"
    } else {
        ""
    };
    writeln!(
        out,
        "  {name}, line {line}: byte {at} of the file is none of UTF-8{more}"
    )
}

/// How many bytes are text before the first that is none.
fn text_len(bytes: &[u8]) -> usize {
    match str::from_utf8(bytes) {
        Ok(_) => bytes.len(),
        Err(error) => error.valid_up_to(),
    }
}

/// The number of the line in which a byte stands, from 1.
fn line_of(bytes: &[u8], at: usize) -> u64 {
    let mut line: u64 = 1;
    for byte in bytes.iter().take(at) {
        if *byte == b'\n' {
            line = line.saturating_add(1);
        }
    }
    line
}

/// Whether bytes begin with a mark of UTF-16.
fn is_like_utf16(bytes: &[u8]) -> bool {
    match (bytes.first(), bytes.get(1)) {
        (Some(first), Some(second)) => matches!((*first, *second), (0xFF, 0xFE) | (0xFE, 0xFF)),
        _ => false,
    }
}

/// A note about the first character of a word that looks like another or can't be seen, where
/// there is one. The word stands at this place in its line.
pub fn strange_in(alloc: Global, word: &str, at: usize) -> Found {
    match first_strange(word) {
        Some(strange) => {
            let place = Place {
                from: at.saturating_add(strange.place.from),
                to: at.saturating_add(strange.place.to),
            };
            Ok(Some(Note::at(place, strange_text(alloc, strange.c)?)))
        }
        None => Ok(None),
    }
}

/// What a character is that looks like another or can't be seen, and what is to be written.
fn strange_text(alloc: Global, c: char) -> Result<String, AllocError> {
    let (name, remedy) = meaning_of(c);
    let code = u32::from(c);
    format!(in alloc; "here stands {name} (U+{code:04X}): {remedy}")
}
