//! Heads over columns of one kind.
#![tactic(auto)]

ghost use Rattle.std.specs.Prelude.{◌≡◌, IfOk, map};
ghost use Rattle.sc_expr.specs.declared.exprs.Head.TheVariants as heads;
ghost use Rattle.sc_batch.specs.Outcomes.{of_one, until_raise};

use crate::by_rows::{AtRows, by_rows};
use crate::choices::opposite;
use crate::items::truths;
use crate::parsing::parsed;
use crate::texts::texts;
use sc_columns::Rows;
use sc_expr::{Head, Raise};
use sc_lineage::Stream;
use std::alloc::{AllocError, Global};

/// Whether each truth value doesn't hold.
pub(crate) fn opposites(
    alloc: Global,
    rows: &Rows,
    end: Option<Raise>,
) -> Result<Stream, AllocError>
    ensures { IfOk result (λ s. s ≡ until_raise (map (of_one heads.Not) rows.now) end) }
{
    match rows.as_bools() {
        Some(marks) => truths(alloc, opposite(alloc, marks)?, end),
        None => by_rows(alloc, AtRows::One(Head::Not, rows), end),
    }
}

/// The first part of each pair.
pub(crate) fn firsts(alloc: Global, rows: &Rows, end: Option<Raise>) -> Result<Stream, AllocError>
    ensures { IfOk result (λ s. s ≡ until_raise (map (of_one heads.Fst) rows.now) end) }
{
    match rows.as_pairs(alloc)? {
        Some(both) => Ok(Stream {
            rows: both.first,
            raise: end,
        }),
        None => by_rows(alloc, AtRows::One(Head::Fst, rows), end),
    }
}

/// The second part of each pair.
pub(crate) fn seconds(alloc: Global, rows: &Rows, end: Option<Raise>) -> Result<Stream, AllocError>
    ensures { IfOk result (λ s. s ≡ until_raise (map (of_one heads.Snd) rows.now) end) }
{
    match rows.as_pairs(alloc)? {
        Some(both) => Ok(Stream {
            rows: both.second,
            raise: end,
        }),
        None => by_rows(alloc, AtRows::One(Head::Snd, rows), end),
    }
}

/// The number that each text writes.
pub(crate) fn numbers(alloc: Global, rows: &Rows, end: Option<Raise>) -> Result<Stream, AllocError>
    ensures { IfOk result (λ s. s ≡ until_raise (map (of_one heads.Int) rows.now) end) }
{
    match rows.as_texts() {
        Some(texts) => parsed(alloc, texts, end),
        None => by_rows(alloc, AtRows::One(Head::Int, rows), end),
    }
}

/// The printed text of each value; a text is its own.
pub(crate) fn printed(alloc: Global, rows: &Rows, end: Option<Raise>) -> Result<Stream, AllocError>
    ensures { IfOk result (λ s. s ≡ until_raise (map (of_one heads.Text) rows.now) end) }
{
    match rows.as_texts() {
        Some(_) => Ok(Stream {
            rows: rows.share()?,
            raise: end,
        }),
        None => texts(alloc, rows.printed_rows(alloc)?, end),
    }
}
