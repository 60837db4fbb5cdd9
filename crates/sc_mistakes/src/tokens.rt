//! Pieces of a line that are no tokens.
#![tactic(auto)]

use crate::signs::sign_for;
use crate::tables::{ACTIONS, OPERATIONS, SIGNS};
use sc_pieces::{Found, Note, Piece, PieceKind, Place, is_among, is_word, strange_in};
use sc_value::is_number;
use std::alloc::{AllocError, Global};

/// The first piece of a line that is no token, and why.
pub(crate) fn token_fault(alloc: Global, line: &str, pieces: &[Piece]) -> Found {
    let mut before: Option<Piece> = None;
    for piece in pieces {
        let found = match piece.kind {
            PieceKind::Open | PieceKind::Close => None,
            PieceKind::OpenText => Some(open_text(alloc, *piece)?),
            PieceKind::Text => text_fault(alloc, line, *piece, before)?,
            PieceKind::Other => piece_fault(alloc, line, *piece, before)?,
        };
        if found.is_some() {
            return Ok(found);
        }
        before = Some(*piece);
    }
    Ok(None)
}

/// A text without its closing quote.
fn open_text(alloc: Global, piece: Piece) -> Result<Note, AllocError> {
    let place = Place {
        from: piece.place.from,
        to: piece.place.from.saturating_add(1),
    };
    let text = String::from_str(
        alloc,
        "the text that begins here has no closing double quote",
    )?;
    Ok(Note::at(place, text))
}

/// What is wrong with a text in quotes, if anything is.
fn text_fault(alloc: Global, line: &str, piece: Piece, before: Option<Piece>) -> Found {
    if stands_right_behind(piece, before) {
        return Ok(Some(joined(alloc, piece)?));
    }
    let mut is_escape = false;
    for (at, c) in piece.text(line).char_indices() {
        if is_escape && !matches!(c, 'n' | 't' | '\\' | '"') {
            let from = piece.place.from.saturating_add(at).saturating_sub(1);
            let to = from.saturating_add(1).saturating_add(c.len_utf8());
            return Ok(Some(bad_escape(alloc, Place { from, to }, c)?));
        }
        is_escape = c == '\\' && !is_escape;
    }
    Ok(None)
}

/// An escape that is none.
fn bad_escape(alloc: Global, place: Place, c: char) -> Result<Note, AllocError> {
    let text = format!(in alloc;
        "\\{c} is no escape: there are \\n, \\t, \\\\ and \\\"; in a path write / or \\\\"
    )?;
    Ok(Note::at(place, text))
}

/// Whether a piece stands right behind a text, with no blank between them.
fn stands_right_behind(piece: Piece, before: Option<Piece>) -> bool {
    match before {
        Some(before) => before.kind == PieceKind::Text && before.place.to == piece.place.from,
        None => false,
    }
}

/// A piece right behind a text.
fn joined(alloc: Global, piece: Piece) -> Result<Note, AllocError> {
    let text = String::from_str(alloc, "a blank is wanted behind the text that ends here")?;
    Ok(Note::at(piece.place, text))
}

/// What is wrong with another piece, if anything is.
fn piece_fault(alloc: Global, line: &str, piece: Piece, before: Option<Piece>) -> Found {
    let text = piece.text(line);
    if stands_right_behind(piece, before) {
        return Ok(Some(joined(alloc, piece)?));
    }
    if is_token(text) {
        return Ok(None);
    }
    let found = strange_in(alloc, text, piece.place.from)?;
    if found.is_some() {
        return Ok(found);
    }
    let why = match sign_for(text) {
        Some(why) => String::from_str(alloc, why)?,
        None => match method_fault(alloc, text)? {
            Some(why) => why,
            None => other_fault(alloc, text)?,
        },
    };
    Ok(Some(Note::at(piece.place, why)))
}

/// Why a piece is no token that calls an operation on a node, as other languages do. The name of a
/// file may end in `.text`.
fn method_fault(alloc: Global, piece: &str) -> Result<Option<String>, AllocError> {
    match piece.rsplit_once('.') {
        Some((node, name)) if is_word(node) && name != "text" && is_done(name) => {
            let why = format!(in alloc;
                "`{name}` stands before the node that it reads: {name} {node}"
            )?;
            Ok(Some(why))
        }
        _ => Ok(None),
    }
}

/// Whether a word is an operation or an action.
fn is_done(word: &str) -> bool {
    is_among(word, OPERATIONS) || is_among(word, ACTIONS)
}

/// Whether a piece that isn't quoted is a token.
fn is_token(piece: &str) -> bool {
    is_word(piece) || is_number(piece.as_bytes()) || is_among(piece, SIGNS) || piece == "="
}

/// Why a piece of ASCII is no token.
fn other_fault(alloc: Global, piece: &str) -> Result<String, AllocError> {
    let why = if piece.starts_with('#') {
        "a comment has a line of its own, which begins with #"
    } else if piece.contains('"') {
        "a blank is wanted before the quote that begins a text"
    } else if piece.contains('\'') {
        "texts stand in double quotes"
    } else if piece.contains(',') {
        "arguments stand apart by blanks, and not by commas"
    } else if piece.ends_with(':') {
        "a function is its expression alone, with `x` for the row"
    } else if piece.starts_with('+') {
        "a number has no plus sign, and a sign stands apart from what it takes"
    } else if is_decimal(piece) {
        "numbers are whole: there are no decimal places"
    } else if piece.contains('.') || piece.contains('/') {
        "the name of a file stands in double quotes, and other names have letters, digits and _"
    } else if piece.contains('=') {
        "the = of a definition stands between blanks"
    } else if piece.starts_with(|c: char| c.is_ascii_digit()) {
        "a name begins with a letter or _, and a number has digits alone"
    } else {
        "this is no word, number, sign or text: a word has letters, digits and _"
    };
    String::from_str(alloc, why)
}

/// Whether a piece is digits with points among them.
fn is_decimal(piece: &str) -> bool {
    piece.contains('.')
        && piece
            .chars()
            .all(|c| c.is_ascii_digit() || c == '.' || c == '-')
}
