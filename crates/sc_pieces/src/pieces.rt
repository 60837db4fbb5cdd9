//! The pieces of a line, whether they are tokens or not.
#![tactic(auto)]

use crate::places::Place;
use std::alloc::{AllocError, Global};

/// What a piece is.
#[derive(Clone, Copy, PartialEq)]
pub enum PieceKind {
    /// `(`
    Open,
    /// `)`
    Close,
    /// A text in quotes.
    Text,
    /// A text that has no closing quote.
    OpenText,
    /// What else stands between blanks and parentheses.
    Other,
}

impl PieceKind {
    /// How many parentheses are open behind a piece of this kind, where so many were open before.
    pub fn depth_behind(self, depth: usize) -> usize {
        match self {
            PieceKind::Open => depth.saturating_add(1),
            PieceKind::Close => depth.saturating_sub(1),
            _ => depth,
        }
    }
}

/// A piece of a line, its quotes included.
#[derive(Clone, Copy)]
pub struct Piece {
    pub kind: PieceKind,
    pub place: Place,
}

impl Piece {
    /// What stands there in its line.
    pub fn text(self, line: &str) -> &str {
        self.place.part(line)
    }
}

/// Where the reading of a line is.
#[derive(Clone, Copy)]
enum Within {
    Nothing,
    Other,
    Text,
    Escape,
}

/// The pieces so far.
#[derive(Drop)]
struct Cutter {
    pieces: Vec<Piece>,
    within: Within,
    from: usize,
}

impl Cutter {
    /// Ends a piece.
    fn end(&mut self, kind: PieceKind, to: usize) -> Result<(), AllocError> {
        let place = Place {
            from: self.from,
            to,
        };
        self.within = Within::Nothing;
        self.pieces.push(Piece { kind, place })?;
        Ok(())
    }

    /// Reads the first character of a piece, or a blank.
    fn begin(&mut self, at: usize, c: char) -> Result<(), AllocError> {
        self.from = at;
        match c {
            ' ' | '\t' => {}
            '(' => self.end(PieceKind::Open, at.saturating_add(1))?,
            ')' => self.end(PieceKind::Close, at.saturating_add(1))?,
            '"' => self.within = Within::Text,
            _ => self.within = Within::Other,
        }
        Ok(())
    }

    /// Reads a character.
    fn read(&mut self, at: usize, c: char) -> Result<(), AllocError> {
        match self.within {
            Within::Nothing => self.begin(at, c),
            Within::Escape => {
                self.within = Within::Text;
                Ok(())
            }
            Within::Text => self.read_in_text(at, c),
            Within::Other => {
                if matches!(c, ' ' | '\t' | '(' | ')') {
                    self.end(PieceKind::Other, at)?;
                    self.begin(at, c)?;
                }
                Ok(())
            }
        }
    }

    /// Reads a character of a text.
    fn read_in_text(&mut self, at: usize, c: char) -> Result<(), AllocError> {
        match c {
            '"' => self.end(PieceKind::Text, at.saturating_add(1))?,
            '\\' => self.within = Within::Escape,
            _ => {}
        }
        Ok(())
    }

    /// Ends the line.
    fn finish(mut self, len: usize) -> Result<Vec<Piece>, AllocError> {
        match self.within {
            Within::Nothing => {}
            Within::Other => self.end(PieceKind::Other, len)?,
            Within::Text | Within::Escape => self.end(PieceKind::OpenText, len)?,
        }
        Ok(self.pieces)
    }
}

/// The pieces of a line.
pub fn pieces_of(alloc: Global, line: &str) -> Result<Vec<Piece>, AllocError> {
    let mut cutter = Cutter {
        pieces: Vec::new(alloc),
        within: Within::Nothing,
        from: 0,
    };
    for (at, c) in line.char_indices() {
        cutter.read(at, c)?;
    }
    cutter.finish(line.len())
}

/// The piece at a place among pieces, where there is one that isn't quoted: its text.
pub fn word_at<'a>(line: &'a str, pieces: &[Piece], at: usize) -> Option<&'a str> {
    match pieces.get(at) {
        Some(piece) => match piece.kind {
            PieceKind::Other => Some(piece.text(line)),
            _ => None,
        },
        None => None,
    }
}

/// Whether a piece opens a list.
pub fn opens(pieces: &[Piece], at: usize) -> bool {
    match pieces.get(at) {
        Some(piece) => piece.kind == PieceKind::Open,
        None => false,
    }
}

/// The piece that closes the list which one opens.
pub fn closing(pieces: &[Piece], open: usize) -> usize {
    let mut depth: usize = 0;
    for (at, piece) in pieces.iter().enumerate() {
        if at >= open {
            depth = piece.kind.depth_behind(depth);
            if depth == 0 && piece.kind == PieceKind::Close {
                return at;
            }
        }
    }
    pieces.len()
}
