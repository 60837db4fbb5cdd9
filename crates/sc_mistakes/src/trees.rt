//! Lines of tokens that have no form.
#![tactic(auto)]

use crate::tables::SIGNS;
use sc_pieces::{
    Found, Note, Piece, PieceKind, Place, is_among, is_word, operation_place, word_at,
};
use std::alloc::Global;

/// Where a line of tokens has no form, and why.
pub(crate) fn form_fault(alloc: Global, line: &str, pieces: &[Piece]) -> Found {
    let start = operation_place(line, pieces);
    if !is_word_at(line, pieces, 0) {
        note_at(alloc, pieces, 0, "a line begins with a name or an action")
    } else if start >= pieces.len() {
        let text = String::from_str(alloc, "an operation is wanted behind the =")?;
        Ok(Some(Note::at(end_of(line), text)))
    } else if !is_word_at(line, pieces, start) {
        note_at(alloc, pieces, start, "an operation is wanted here")
    } else {
        tree_fault(alloc, line, pieces, start.saturating_add(1))
    }
}

/// Whether a piece is a word.
fn is_word_at(line: &str, pieces: &[Piece], at: usize) -> bool {
    match word_at(line, pieces, at) {
        Some(word) => is_word(word),
        None => false,
    }
}

/// Where parentheses, signs and `=` stand wrong among arguments, and why.
fn tree_fault(alloc: Global, line: &str, pieces: &[Piece], from: usize) -> Found {
    let mut depth: usize = 0;
    let mut is_head = false;
    for (at, piece) in pieces.iter().enumerate() {
        if at >= from {
            if let Some(why) = why_wrong(line, *piece, is_head, depth) {
                return note_at(alloc, pieces, at, why);
            }
            is_head = piece.kind == PieceKind::Open;
            depth = piece.kind.depth_behind(depth);
        }
    }
    if depth == 0 {
        return Ok(None);
    }
    let text = format!(in alloc; "{depth} more ) wanted at the end of the line")?;
    Ok(Some(Note::at(end_of(line), text)))
}

/// Why a piece may not stand behind what opens a list, or behind so many open parentheses, if it
/// may not.
fn why_wrong(line: &str, piece: Piece, is_head: bool, depth: usize) -> Option<&'static str> {
    if is_head {
        if is_head_token(line, piece) {
            return None;
        }
        return Some("behind ( a head is wanted, as in (len x)");
    }
    match piece.kind {
        PieceKind::Close if depth == 0 => Some("this ) closes nothing"),
        PieceKind::Other => misplaced(piece.text(line)),
        _ => None,
    }
}

/// Why a piece that is no head may not stand among arguments, if it may not.
fn misplaced(piece: &str) -> Option<&'static str> {
    if is_among(piece, SIGNS) {
        return Some("a sign stands right behind a (, before what it takes, as in (+ x 1)");
    }
    if piece == "=" {
        return Some("the = stands behind the name that a line defines, and nowhere else");
    }
    None
}

/// Whether a piece may be a head.
fn is_head_token(line: &str, piece: Piece) -> bool {
    let text = piece.text(line);
    piece.kind == PieceKind::Other && (is_word(text) || is_among(text, SIGNS))
}

/// A note about a piece.
fn note_at(alloc: Global, pieces: &[Piece], at: usize, why: &str) -> Found {
    let text = String::from_str(alloc, why)?;
    match pieces.get(at) {
        Some(piece) => Ok(Some(Note::at(piece.place, text))),
        None => Ok(Some(Note::of_line(text))),
    }
}

/// The place behind the last character of a line.
fn end_of(line: &str) -> Place {
    Place {
        from: line.len(),
        to: line.len().saturating_add(1),
    }
}
