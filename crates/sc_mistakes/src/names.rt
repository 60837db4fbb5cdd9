//! Names that aren't known where they stand.
#![tactic(auto)]

use crate::signs::{head_for, operation_for};
use crate::tables::{
    ACTIONS, HEADS, OPERATIONS, Wanted, action_wants, head_wants, operation_wants,
};
use sc_pieces::{
    Argument, Found, Known, Note, Piece, PieceKind, arguments_from, definition_of, is_among,
    is_definition, is_word, names_in, operation_place, word_at, write_near,
};
use std::alloc::{AllocError, Global};

/// What of a line isn't known, where `known` are the lines before and `all` those of the script.
pub(crate) fn name_fault(
    alloc: Global,
    line: &str,
    pieces: &[Piece],
    known: &[Known],
    all: &[Known],
) -> Found {
    let start = operation_place(line, pieces);
    let is_definition = is_definition(line, pieces);
    let name = word_at(line, pieces, start).unwrap_or("");
    let wants = if is_definition {
        operation_wants(name)
    } else {
        action_wants(name)
    };
    let Some(wants) = wants else {
        return unknown_operation(alloc, pieces, start, name, is_definition);
    };
    let found = unknown_head(alloc, line, pieces)?;
    if found.is_some() {
        return Ok(found);
    }
    let named = NamedLine {
        line,
        pieces,
        name,
        known,
        all,
    };
    named.argument_fault(alloc, start.saturating_add(1), wants)
}

/// A line whose operation is known.
#[derive(Clone, Copy)]
struct NamedLine<'a> {
    line: &'a str,
    pieces: &'a [Piece],
    /// The operation or action.
    name: &'a str,
    /// The lines before it.
    known: &'a [Known],
    /// Those of the script.
    all: &'a [Known],
}

impl<'a> NamedLine<'a> {
    /// The first argument with a name that isn't known, where arguments stand from a piece on.
    fn argument_fault(&self, alloc: Global, from: usize, wants: &[Wanted]) -> Found {
        let arguments = arguments_from(alloc, self.pieces, from)?;
        for (at, argument) in arguments.as_slice().iter().enumerate() {
            let found = match wants.get(at) {
                Some(Wanted::Node) => self.unknown_node(alloc, *argument)?,
                Some(Wanted::Expr) => self.unknown_variable(alloc, *argument)?,
                _ => None,
            };
            if found.is_some() {
                return Ok(found);
            }
        }
        Ok(None)
    }

    /// A node that isn't known.
    fn unknown_node(&self, alloc: Global, argument: Argument) -> Found {
        let place = argument.place(self.pieces);
        let name = place.part(self.line);
        if definition_of(self.known, name).is_some() {
            return Ok(None);
        }
        let mut text = format!(in alloc; "no line above defines `{name}`")?;
        match definition_of(self.all, name) {
            Some(later) => {
                let number = later.line;
                write!(text, ": line {number} does, and it has to stand before")?;
            }
            None => write_near_among(alloc, &mut text, name, self.known)?,
        }
        Ok(Some(Note::at(place, text)))
    }

    /// The first word of an expression that is no variable there.
    fn unknown_variable(&self, alloc: Global, argument: Argument) -> Found {
        let is_two = matches!(self.name, "reduce" | "reduceByKey");
        match no_variable(self.line, self.pieces, argument, is_two) {
            Some(piece) => {
                let text = variable_text(alloc, piece.text(self.line), is_two, self.all)?;
                Ok(Some(Note::at(piece.place, text)))
            }
            None => Ok(None),
        }
    }
}

/// Writes which of the names that lines define is near to one.
fn write_near_among(
    alloc: Global,
    text: &mut String,
    name: &str,
    known: &[Known],
) -> Result<(), AllocError> {
    let names = names_in(alloc, known)?;
    write_near(alloc, text, name, names.as_str())
}

/// The first word of an expression, but for heads, that is no variable.
fn no_variable(line: &str, pieces: &[Piece], argument: Argument, is_two: bool) -> Option<Piece> {
    let mut is_head = false;
    for (at, piece) in pieces.iter().enumerate() {
        let name = piece.text(line);
        let is_within = argument.first <= at && at <= argument.last && !is_head;
        if is_within && is_word(name) && !is_variable(is_two, name) {
            return Some(*piece);
        }
        is_head = piece.kind == PieceKind::Open;
    }
    None
}

/// An operation or an action that isn't known.
fn unknown_operation(
    alloc: Global,
    pieces: &[Piece],
    at: usize,
    name: &str,
    is_definition: bool,
) -> Found {
    let Some(piece) = pieces.get(at) else {
        return Ok(None);
    };
    let mut text = String::new(alloc);
    if is_definition {
        write_operation(alloc, &mut text, name)?;
    } else {
        write_action(alloc, &mut text, name)?;
    }
    Ok(Some(Note::at(piece.place, text)))
}

/// Writes what is wrong with an operation that isn't known.
fn write_operation(alloc: Global, text: &mut String, name: &str) -> Result<(), AllocError> {
    write!(text, "there is no operation `{name}`")?;
    if is_among(name, ACTIONS) {
        return text.push_str(": it is an action, which stands alone and defines no name");
    }
    write_other(alloc, text, name, OPERATIONS)
}

/// Writes what is wrong with an action that isn't known.
fn write_action(alloc: Global, text: &mut String, name: &str) -> Result<(), AllocError> {
    write!(text, "there is no action `{name}`")?;
    if is_among(name, OPERATIONS) {
        text.push_str(": it is an operation, and what it gives needs a name, as in NAME = ")?;
        return write!(text, "{name} ..");
    }
    write_other(alloc, text, name, ACTIONS)
}

/// Writes how a name of Spark is written here, or else which of some names is near.
fn write_other(
    alloc: Global,
    text: &mut String,
    name: &str,
    names: &str,
) -> Result<(), AllocError> {
    match operation_for(name) {
        Some(why) => write!(text, "; {why}"),
        None => {
            write_near(alloc, text, name, names)?;
            write!(text, "\n  there are {names}")
        }
    }
}

/// The first head that isn't known.
fn unknown_head(alloc: Global, line: &str, pieces: &[Piece]) -> Found {
    match no_head(line, pieces) {
        Some(piece) => {
            let text = head_text(alloc, piece.text(line))?;
            Ok(Some(Note::at(piece.place, text)))
        }
        None => Ok(None),
    }
}

/// The first word right behind a parenthesis that is no head.
fn no_head(line: &str, pieces: &[Piece]) -> Option<Piece> {
    let mut is_head = false;
    for piece in pieces {
        let name = piece.text(line);
        if is_head && is_word(name) && head_wants(name).is_none() {
            return Some(*piece);
        }
        is_head = piece.kind == PieceKind::Open;
    }
    None
}

/// What is wrong with a head that isn't known.
fn head_text(alloc: Global, name: &str) -> Result<String, AllocError> {
    let mut text = format!(in alloc; "there is no head `{name}`")?;
    match head_for(name) {
        Some(why) => write!(text, "; {why}")?,
        None => {
            write_near(alloc, &mut text, name, HEADS)?;
            write!(text, "\n  there are {HEADS}, and signs")?;
        }
    }
    Ok(text)
}

/// Whether a word is a variable, or a truth value.
fn is_variable(is_two: bool, word: &str) -> bool {
    match word {
        "true" | "false" => true,
        "x" => !is_two,
        "a" | "b" => is_two,
        _ => false,
    }
}

/// What is wrong with a word of an expression that is no variable.
fn variable_text(
    alloc: Global,
    name: &str,
    is_two: bool,
    all: &[Known],
) -> Result<String, AllocError> {
    let variables = if is_two {
        "the two values are called `a` and `b` here"
    } else {
        "the row is called `x` here"
    };
    let mut text = format!(in alloc; "`{name}` is no variable: {variables}")?;
    if head_wants(name).is_some() {
        write!(text, "\n  it is a head, and stands behind a (: ({name} ..)")?;
    } else if definition_of(all, name).is_some() {
        text.push_str(
            "\n  an expression sees no other definition: use join to bring rows together",
        )?;
    }
    Ok(text)
}
