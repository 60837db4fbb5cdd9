//! Lines that pass a limit.
#![tactic(auto)]

use sc_pieces::{Found, Known, Note, Piece, Place, is_word, operation_place, word_at};
use sc_value::is_number;
use std::alloc::{AllocError, Global};

/// The most bytes of a line, characters of a word, and parentheses in one another.
const LINE_LIMIT: usize = 4096;

const WORD_LIMIT: usize = 64;

const DEPTH_LIMIT: usize = 32;

/// The most partitions, definitions and actions.
const PARTITION_LIMIT: i64 = 1024;

const NODE_LIMIT: usize = 256;

const ACTION_LIMIT: usize = 64;

/// What passes a limit in a line, where `known` are the lines before.
pub(crate) fn limit_fault(alloc: Global, line: &str, pieces: &[Piece], known: &[Known]) -> Found {
    if line.len() > LINE_LIMIT {
        return Ok(Some(Note::of_line(line_text(alloc, line.len())?)));
    }
    let found = piece_limit(alloc, line, pieces)?;
    if found.is_some() {
        return Ok(found);
    }
    number_limit(alloc, line, pieces, known)
}

/// How long a line may be, and how long one is.
fn line_text(alloc: Global, len: usize) -> Result<String, AllocError> {
    format!(in alloc; "a line has at most {LINE_LIMIT} bytes, and this one {len}")
}

/// The first piece that is too long, too large or too deep.
fn piece_limit(alloc: Global, line: &str, pieces: &[Piece]) -> Found {
    let mut depth: usize = 0;
    for piece in pieces {
        depth = piece.kind.depth_behind(depth);
        if let Some(why) = limit_text(alloc, piece.text(line), depth)? {
            return Ok(Some(Note::at(piece.place, why)));
        }
    }
    Ok(None)
}

/// Which limit a piece passes behind which so many parentheses are open, where it passes one.
fn limit_text(alloc: Global, piece: &str, depth: usize) -> Result<Option<String>, AllocError> {
    if depth > DEPTH_LIMIT {
        return Ok(Some(format!(in alloc; "parentheses stand at most {DEPTH_LIMIT} deep")?));
    }
    if is_word(piece) && piece.len() > WORD_LIMIT {
        return Ok(Some(word_text(alloc, piece.len())?));
    }
    if is_number(piece.as_bytes()) && piece.parse::<i64>().is_err() {
        let why = "numbers have 64 bits: from -9223372036854775808 to 9223372036854775807";
        return Ok(Some(String::from_str(alloc, why)?));
    }
    Ok(None)
}

/// How long a word may be, and how long one is.
fn word_text(alloc: Global, len: usize) -> Result<String, AllocError> {
    format!(in alloc; "a word has at most {WORD_LIMIT} characters, this {len}")
}

/// A number of partitions that isn't in its range, or else what passes a limit where no piece of a
/// line does.
fn number_limit(alloc: Global, line: &str, pieces: &[Piece], known: &[Known]) -> Found {
    match first_number(line, pieces) {
        Some(piece) if is_outside(piece.text(line)) => {
            let why = "a number of partitions is from 1 to 1024";
            Ok(Some(Note::at(piece.place, String::from_str(alloc, why)?)))
        }
        _ => {
            let operation = word_at(line, pieces, operation_place(line, pieces)).unwrap_or("");
            let why = too_many(known, operation);
            Ok(Some(Note::of_line(String::from_str(alloc, why)?)))
        }
    }
}

/// The first number of a line that isn't in parentheses: that of partitions. Behind it the literals
/// of parallelize stand.
fn first_number(line: &str, pieces: &[Piece]) -> Option<Piece> {
    let mut depth: usize = 0;
    for piece in pieces {
        depth = piece.kind.depth_behind(depth);
        if depth == 0 && is_number(piece.text(line).as_bytes()) {
            return Some(*piece);
        }
    }
    None
}

/// Whether a number is none of partitions.
fn is_outside(number: &str) -> bool {
    match number.parse::<i64>() {
        Ok(n) => n < 1 || n > PARTITION_LIMIT,
        Err(_) => false,
    }
}

/// What there is too much of where no piece of a line shows it: one definition or action too many,
/// or more partitions or a larger type than a definition may have.
fn too_many(known: &[Known], operation: &str) -> &'static str {
    let nodes = known.iter().filter(|one| one.is_definition).count();
    if nodes >= NODE_LIMIT {
        "a script has at most 256 definitions"
    } else if known.len().saturating_sub(nodes) >= ACTION_LIMIT {
        "a script has at most 64 actions"
    } else if operation == "union" {
        "a union has at most 1024 partitions in all"
    } else {
        "the type of a row is written with at most 256 words, as Int, Pair and List"
    }
}

/// The place of the first piece of a line.
pub(crate) fn first_place(pieces: &[Piece]) -> Option<Place> {
    match pieces.first() {
        Some(piece) => Some(piece.place),
        None => None,
    }
}
