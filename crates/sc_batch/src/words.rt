//! The words and the pieces of columns of texts.
#![tactic(auto)]

ghost use Rattle.std.specs.Prelude.{◌≡◌, ◌<◌, [], ◌∷◌, IfOk, IfSome, map, replicate};
ghost use Rattle.sc_value.specs.Datum.{text as text_datum};
ghost use Rattle.sc_columns.specs.Columns.{zip_with};
ghost use Rattle.sc_expr.specs.declared.exprs.Head.TheVariants as heads;
ghost use Rattle.sc_batch.specs.Made.{rows_made, stream_of};
ghost use Rattle.sc_batch.specs.Outcomes.{of_one, of_two, until_raise};
ghost use Rattle.sc_batch.specs.Texts.{texts_in};
ghost use Rattle.sc_batch.specs.Cuts.{IsSeparator};

use crate::by_rows::{AtRows, by_rows};
use crate::columns::{Column, Evaluated, made};
use crate::pieces::Pieces;
use crate::texts::{TextColumn, texts_of};
use sc_columns::Rows;
use sc_expr::{Head, Raise};
use sc_value::Texts;
use std::alloc::{AllocError, Global};

/// The words of each text.
pub(crate) fn words(alloc: Global, input: Evaluated) -> Result<Evaluated, AllocError>
    ensures { IfOk result (λ v. stream_of v
        ≡ until_raise (map (of_one heads.Words) (rows_made input.column)) input.raise) }
{
    let rows = made(alloc, input.column)?;
    match rows.as_texts() {
        Some(texts) => Ok(Evaluated {
            column: Column::Words(texts.share()?),
            raise: input.raise,
        }),
        None => {
            let stream = by_rows(alloc, AtRows::One(Head::Words, &rows), input.raise)?;
            Ok(Evaluated::of(stream))
        }
    }
}

/// The pieces of each text between the occurrences of another.
pub(crate) fn cut(
    alloc: Global,
    first: Rows,
    second: &Rows,
    end: Option<Raise>,
) -> Result<Evaluated, AllocError>
    ensures { IfOk result (λ v. stream_of v
        ≡ until_raise (zip_with (of_two heads.Cut) first second.now) end) }
{
    match first.as_texts() {
        Some(texts) => match separator_of(second) {
            Some(separator) => cut_at_one(texts, separator, end),
            None => cut_by_rows(alloc, &first, second, end),
        },
        None => cut_by_rows(alloc, &first, second, end),
    }
}

/// The same row by row.
fn cut_by_rows(
    alloc: Global,
    first: &Rows,
    second: &Rows,
    end: Option<Raise>,
) -> Result<Evaluated, AllocError>
    ensures { IfOk result (λ v. stream_of v
        ≡ until_raise (zip_with (of_two heads.Cut) first.now second.now) end) }
{
    let stream = by_rows(alloc, AtRows::Two(Head::Cut, first, second), end)?;
    Ok(Evaluated::of(stream))
}

/// One ASCII character at so many rows.
#[derive(Clone, Copy)]
struct Separator {
    byte: u8,
    rows: usize,
}

/// The character that each row is, where it is one of ASCII and held once for all.
fn separator_of(rows: &Rows) -> Option<Separator>
    ensures { IfSome result (IsSeparator rows.now) }
{
    match texts_of(rows) {
        Some(TextColumn::Same(text, rows)) => match text.as_bytes() {
            [byte] if *byte < 128 => Some(Separator { byte: *byte, rows }),
            _ => None,
        },
        _ => None,
    }
}

/// The pieces of each text between the occurrences of one ASCII character, not made yet.
fn cut_at_one(
    texts: &Texts,
    separator: Separator,
    end: Option<Raise>,
) -> Result<Evaluated, AllocError>
    requires { separator.byte < 128 }
    ensures { IfOk result (λ v. stream_of v ≡ until_raise (zip_with (of_two heads.Cut)
        (map text_datum texts.now)
        (replicate separator.rows (text_datum (separator.byte ∷ [])))) end) }
{
    let count = texts.len().min(separator.rows);
    let pieces = Pieces {
        texts: texts.part(0, count)?,
        separator: separator.byte,
    };
    Ok(Evaluated {
        column: Column::Pieces(pieces),
        raise: end,
    })
}
