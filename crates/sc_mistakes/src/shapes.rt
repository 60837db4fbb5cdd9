//! Lines whose arguments don't have the number and shape wanted.
#![tactic(auto)]

use crate::tables::{Wanted, action_wants, head_wants, operation_wants, write_form};
use sc_pieces::{
    Argument, Found, Note, Piece, PieceKind, arguments_from, is_definition, operation_place,
    word_at,
};
use sc_value::is_number;
use std::alloc::{AllocError, Global};

/// Where the arguments of a line don't have the number and shape wanted, and why.
pub(crate) fn shape_fault(alloc: Global, line: &str, pieces: &[Piece]) -> Found {
    let start = operation_place(line, pieces);
    let name = word_at(line, pieces, start).unwrap_or("");
    let wants = if is_definition(line, pieces) {
        operation_wants(name)
    } else {
        action_wants(name)
    };
    let found = wanted_fault(alloc, line, pieces, start, wants)?;
    if found.is_some() {
        return Ok(found);
    }
    head_fault(alloc, line, pieces)
}

/// Where the arguments of a head don't have the number and shape wanted, and why.
fn head_fault(alloc: Global, line: &str, pieces: &[Piece]) -> Found {
    for (at, piece) in pieces.iter().enumerate() {
        if piece.kind == PieceKind::Open {
            let name = at.saturating_add(1);
            let wants = head_wants(word_at(line, pieces, name).unwrap_or(""));
            let found = wanted_fault(alloc, line, pieces, name, wants)?;
            if found.is_some() {
                return Ok(found);
            }
        }
    }
    Ok(None)
}

/// The same of the arguments behind one name, where it is known what that takes.
fn wanted_fault(
    alloc: Global,
    line: &str,
    pieces: &[Piece],
    name: usize,
    wants: Option<&[Wanted]>,
) -> Found {
    match wants {
        Some(wants) => {
            let form = Form {
                line,
                pieces,
                name,
                wants,
            };
            form.fault(alloc)
        }
        None => Ok(None),
    }
}

/// A name with arguments, and what is wanted of them.
#[derive(Clone, Copy)]
struct Form<'a> {
    line: &'a str,
    pieces: &'a [Piece],
    /// The piece that is the name.
    name: usize,
    wants: &'a [Wanted],
}

impl<'a> Form<'a> {
    /// Where the arguments don't have the number and shape wanted, and why.
    fn fault(&self, alloc: Global) -> Found {
        let found = arguments_from(alloc, self.pieces, self.name.saturating_add(1))?;
        let found = found.as_slice();
        for (at, argument) in found.iter().enumerate() {
            if !self.is_fit(found, at, *argument) {
                return self.unfit(alloc, *argument, wanted_at(self.wants, at));
            }
        }
        self.missing(alloc, found.len())
    }

    /// Whether the argument at a place among those found is as wanted.
    fn is_fit(&self, found: &[Argument], at: usize, argument: Argument) -> bool {
        match wanted_at(self.wants, at) {
            Some(wanted) => {
                let first = found.get(self.wants.len().saturating_sub(1));
                fits(self.line, self.pieces, argument, wanted)
                    && (!matches!(wanted, Wanted::Literals)
                        || is_like(self.pieces, first, argument))
            }
            None => false,
        }
    }

    /// An argument that isn't what is wanted there, or one more than there may be.
    fn unfit(&self, alloc: Global, argument: Argument, wanted: Option<Wanted>) -> Found {
        let mut text = self.begun(alloc)?;
        let place = argument.place(self.pieces);
        match wanted {
            Some(wanted) => {
                write_wanted(&mut text, wanted, "is wanted here")?;
                if place.part(self.line).contains('\0') {
                    text.push_str("; it has no character of code 0")?;
                }
            }
            None => text.push_str("here is one argument more")?,
        }
        Ok(Some(Note::at(place, text)))
    }

    /// The argument that isn't there behind so many, where one is wanted.
    fn missing(&self, alloc: Global, count: usize) -> Found {
        let Some(wanted) = missing_of(self.wants, count) else {
            return Ok(None);
        };
        let mut text = self.begun(alloc)?;
        write_wanted(&mut text, wanted, "is missing")?;
        match self.pieces.get(self.name) {
            Some(piece) => Ok(Some(Note::at(piece.place, text))),
            None => Ok(Some(Note::of_line(text))),
        }
    }

    /// The beginning of a sentence about arguments: the form that is wanted.
    fn begun(&self, alloc: Global) -> Result<String, AllocError> {
        let mut text = String::from_str(alloc, "it is `")?;
        let name = word_at(self.line, self.pieces, self.name).unwrap_or("");
        write_form(&mut text, name, self.wants)?;
        text.push_str("`: ")?;
        Ok(text)
    }
}

/// Writes that what is wanted is wanted here, or is missing.
fn write_wanted(text: &mut String, wanted: Wanted, what: &str) -> Result<(), AllocError> {
    let sign = wanted.sign();
    let meaning = wanted.meaning();
    write!(text, "{sign} {what}: {meaning}")
}

/// What is wanted behind so many arguments: nothing where more expressions may stand.
fn missing_of(wants: &[Wanted], count: usize) -> Option<Wanted> {
    let last = wants.len().saturating_sub(1);
    match wants.get(count) {
        Some(Wanted::Exprs) if count == last => None,
        Some(wanted) => Some(*wanted),
        None => None,
    }
}

/// Whether a literal is a text where the first one is, and none where that is none.
fn is_like(pieces: &[Piece], first: Option<&Argument>, literal: Argument) -> bool {
    match first {
        Some(first) => {
            let is_text = first.kind(pieces) == PieceKind::Text;
            is_text == (literal.kind(pieces) == PieceKind::Text)
        }
        None => true,
    }
}

/// What is wanted at a place among arguments: what repeats is wanted to the end.
fn wanted_at(wants: &[Wanted], at: usize) -> Option<Wanted> {
    match wants.get(at) {
        Some(wanted) => Some(*wanted),
        None => match wants.last() {
            Some(last) if last.repeats() => Some(*last),
            _ => None,
        },
    }
}

/// Whether an argument is as wanted.
fn fits(line: &str, pieces: &[Piece], argument: Argument, wanted: Wanted) -> bool {
    let text = argument.place(pieces).part(line);
    match argument.kind(pieces) {
        PieceKind::Open => matches!(wanted, Wanted::Expr | Wanted::Exprs),
        PieceKind::Text => match wanted {
            Wanted::Input => is_name(text),
            Wanted::Directory => is_name(text) && !text.ends_with("/\""),
            Wanted::Character => is_character(text),
            Wanted::Literals | Wanted::Expr | Wanted::Exprs => true,
            Wanted::Count | Wanted::Node => false,
        },
        _ if is_number(text.as_bytes()) => matches!(
            wanted,
            Wanted::Count | Wanted::Literals | Wanted::Expr | Wanted::Exprs
        ),
        _ => matches!(wanted, Wanted::Node | Wanted::Expr | Wanted::Exprs),
    }
}

/// Whether a quoted text isn't empty and has no character of code 0.
fn is_name(quoted: &str) -> bool {
    quoted != "\"\"" && !quoted.contains('\0')
}

/// Whether a quoted text is one character, or one escape.
fn is_character(quoted: &str) -> bool {
    let count = quoted.chars().count();
    count == 3 || (count == 4 && quoted.starts_with("\"\\"))
}
