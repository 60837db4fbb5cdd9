//! Columns of values that are evaluated.
#![tactic(auto)]

ghost use Rattle.std.specs.Prelude.{◌≡◌, IfOk, length, map};
ghost use Rattle.sc_value.specs.Views.{datum_of};
ghost use Rattle.sc_lineage.specs.Streams.{each_until_raise};
ghost use Rattle.sc_batch.specs.Made.{rows_made, stream_of};

use crate::pieces::Pieces;
use sc_columns::Rows;
use sc_expr::Raise;
use sc_lineage::Stream;
use sc_value::Texts;
use std::alloc::{AllocError, Global};

/// A value for each row. Lists of texts may not have been made yet, since what asks for their
/// length or for one of their items doesn't need them.
#[derive(Drop)]
pub(crate) enum Column {
    /// The values as rows.
    Rows(Rows),
    /// The words of each text.
    Words(Texts),
    /// The pieces of each text between the occurrences of a character.
    Pieces(Pieces),
}

/// A column up to the first raise.
#[derive(Drop)]
pub(crate) struct Evaluated {
    /// The values before the raise.
    pub column: Column,
    /// What ended them, where something did.
    pub raise: Option<Raise>,
}

impl Evaluated {
    /// Rows and what ended them.
    pub(crate) fn of(stream: Stream) -> Evaluated
        ensures { stream_of result ≡ stream }
    {
        Evaluated {
            column: Column::Rows(stream.rows),
            raise: stream.raise,
        }
    }

    /// How many rows there are.
    pub(crate) fn len(&self) -> usize
        ensures { result ≡ length (rows_made self.now.column) }
    {
        match &self.column {
            Column::Rows(rows) => rows.len(),
            Column::Words(texts) => texts.len(),
            Column::Pieces(pieces) => pieces.texts.len(),
        }
    }

    /// The rows, made, and what ended them.
    pub(crate) fn stream(self, alloc: Global) -> Result<Stream, AllocError>
        ensures { IfOk result (λ s. s ≡ stream_of self) }
    {
        Ok(Stream {
            rows: made(alloc, self.column)?,
            raise: self.raise,
        })
    }
}

/// The values of a column as rows.
pub(crate) fn made(alloc: Global, column: Column) -> Result<Rows, AllocError>
    ensures { IfOk result (λ r. r ≡ rows_made column) }
{
    match column {
        Column::Rows(rows) => Ok(rows),
        Column::Words(texts) => Rows::words(alloc, &texts),
        Column::Pieces(pieces) => Rows::cut(alloc, &pieces.texts, pieces.separator),
    }
}
