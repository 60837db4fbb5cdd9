//! Arguments: one piece each, or a list in parentheses.
#![tactic(auto)]

use crate::pieces::{Piece, PieceKind};
use crate::places::Place;
use std::alloc::{AllocError, Global};

/// An argument: its first piece and its last.
#[derive(Clone, Copy)]
pub struct Argument {
    pub first: usize,
    pub last: usize,
}

impl Argument {
    /// Where it stands.
    pub fn place(self, pieces: &[Piece]) -> Place {
        let from = match pieces.get(self.first) {
            Some(piece) => piece.place.from,
            None => 0,
        };
        let to = match pieces.get(self.last) {
            Some(piece) => piece.place.to,
            None => from,
        };
        Place { from, to }
    }

    /// What its first piece is.
    pub fn kind(self, pieces: &[Piece]) -> PieceKind {
        match pieces.get(self.first) {
            Some(piece) => piece.kind,
            None => PieceKind::Other,
        }
    }
}

/// The arguments from a piece on, up to a parenthesis that closes what was opened before.
pub fn arguments_from(
    alloc: Global,
    pieces: &[Piece],
    from: usize,
) -> Result<Vec<Argument>, AllocError> {
    let mut found = Vec::new(alloc);
    let mut depth: usize = 0;
    let mut first = from;
    for (at, piece) in pieces.iter().enumerate() {
        if at < from {
            continue;
        }
        if depth == 0 {
            if piece.kind == PieceKind::Close {
                return Ok(found);
            }
            first = at;
        }
        depth = piece.kind.depth_behind(depth);
        if depth == 0 {
            found.push(Argument { first, last: at })?;
        }
    }
    Ok(found)
}
