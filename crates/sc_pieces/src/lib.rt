//! Lines as an explanation reads them: cut into pieces, whether these are tokens or not, and shown
//! with marks under a place.
//!
//! [`pieces_of`] cuts a line where the grammar of scripts does, but loses nothing where it is
//! wrong, and [`arguments_from`] groups pieces by parentheses. [`known_lines`] has the names that
//! lines define, [`nearest`] the name that is near to a wrong one, and [`strange_in`] tells of the
//! first character that looks like another or can't be seen. A [`Note`] is what is said of a place;
//! [`write_note`] writes it below its line.
//!
//! Nothing is refused here. `sc_mistakes`, `sc_misuse` and `sc_story` stand on it.
#![tactic(auto)]

mod arguments;
mod characters;
mod defined;
mod excerpts;
mod near;
mod notes;
mod pieces;
mod places;

pub use arguments::{Argument, arguments_from};
pub use defined::{
    Known, definition_of, is_definition, is_word, known_lines, names_in, operation_place,
};
pub use excerpts::write_excerpt;
pub use near::{is_among, nearest, write_near};
pub use notes::{Found, Note, lines_or_told, strange_in, write_note};
pub use pieces::{Piece, PieceKind, closing, opens, pieces_of, word_at};
pub use places::Place;
