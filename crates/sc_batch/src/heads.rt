//! Heads over columns: a way through the whole column for each head that has one, and row by row
//! for the others.
#![tactic(auto)]

ghost use Rattle.std.specs.Prelude.{◌≡◌, IfOk, IfSome, map};
ghost use Rattle.sc_columns.specs.Columns.{zip_with};
ghost use Rattle.sc_batch.specs.Made.{rows_made, stream_of};
ghost use Rattle.sc_batch.specs.Outcomes.{of_one, of_two, until_raise};

use crate::by_rows::{AtRows, by_rows};
use crate::columns::{Column, Evaluated, made};
use crate::items::ints_of;
use crate::lists::{lens, sums};
use crate::numbers::two_ints;
use crate::picks::nth;
use crate::texts::{texts_of, two_texts};
use crate::unary::{firsts, numbers, opposites, printed, seconds};
use crate::words::{cut, words};
use sc_columns::Rows;
use sc_expr::{Head, Raise};
use sc_lineage::Stream;
use std::alloc::{AllocError, Global};

/// A head of one argument over a column of it.
pub(crate) fn one_column(
    alloc: Global,
    head: Head,
    input: Evaluated,
) -> Result<Evaluated, AllocError>
    ensures { IfOk result (λ v. stream_of v
        ≡ until_raise (map (of_one head) (rows_made input.column)) input.raise) }
{
    match head {
        Head::Words => words(alloc, input),
        Head::Len => Ok(Evaluated::of(lens(alloc, input)?)),
        _ => {
            let rows = made(alloc, input.column)?;
            Ok(Evaluated::of(one_rows(alloc, head, &rows, input.raise)?))
        }
    }
}

/// The same over rows.
fn one_rows(
    alloc: Global,
    head: Head,
    rows: &Rows,
    end: Option<Raise>,
) -> Result<Stream, AllocError>
    ensures { IfOk result (λ s. s ≡ until_raise (map (of_one head) rows.now) end) }
{
    match head {
        Head::Not => opposites(alloc, rows, end),
        Head::Fst => firsts(alloc, rows, end),
        Head::Snd => seconds(alloc, rows, end),
        Head::Sum => sums(alloc, rows, end),
        Head::Int => numbers(alloc, rows, end),
        Head::Text => printed(alloc, rows, end),
        _ => by_rows(alloc, AtRows::One(head, rows), end),
    }
}

/// A head of two arguments over columns of them, up to the end of the shorter.
pub(crate) fn two_columns(
    alloc: Global,
    head: Head,
    first: Column,
    second: Rows,
    end: Option<Raise>,
) -> Result<Evaluated, AllocError>
    ensures { IfOk result (λ v. stream_of v
        ≡ until_raise (zip_with (of_two head) (rows_made first) second) end) }
{
    match head {
        Head::Nth => Ok(Evaluated::of(nth(alloc, first, &second, end)?)),
        Head::Cut => cut(alloc, made(alloc, first)?, &second, end),
        Head::Pair => {
            let rows = Rows::pairs(alloc, made(alloc, first)?, second)?;
            Ok(Evaluated::of(Stream { rows, raise: end }))
        }
        _ => {
            let rows = made(alloc, first)?;
            Ok(Evaluated::of(two_rows(alloc, head, &rows, &second, end)?))
        }
    }
}

/// The same over rows.
fn two_rows(
    alloc: Global,
    head: Head,
    first: &Rows,
    second: &Rows,
    end: Option<Raise>,
) -> Result<Stream, AllocError>
    ensures { IfOk result (λ s. s
        ≡ until_raise (zip_with (of_two head) first.now second.now) end) }
{
    if let Some(stream) = rows_of_ints(alloc, head, first, second, end)? {
        return Ok(stream);
    }
    if let Some(stream) = rows_of_texts(alloc, head, first, second, end)? {
        return Ok(stream);
    }
    by_rows(alloc, AtRows::Two(head, first, second), end)
}

/// The same over rows that are held as numbers, where the head is one of numbers.
fn rows_of_ints(
    alloc: Global,
    head: Head,
    first: &Rows,
    second: &Rows,
    end: Option<Raise>,
) -> Result<Option<Stream>, AllocError>
    ensures { IfOk result (λ o. IfSome o (λ s. s
        ≡ until_raise (zip_with (of_two head) first.now second.now) end)) }
{
    match (ints_of(first), ints_of(second)) {
        (Some(m), Some(n)) => two_ints(alloc, head, m, n, end),
        _ => Ok(None),
    }
}

/// The same over rows that are held as texts, where the head is one of texts.
fn rows_of_texts(
    alloc: Global,
    head: Head,
    first: &Rows,
    second: &Rows,
    end: Option<Raise>,
) -> Result<Option<Stream>, AllocError>
    ensures { IfOk result (λ o. IfSome o (λ s. s
        ≡ until_raise (zip_with (of_two head) first.now second.now) end)) }
{
    match (texts_of(first), texts_of(second)) {
        (Some(a), Some(b)) => two_texts(alloc, head, a, b, end),
        _ => Ok(None),
    }
}
