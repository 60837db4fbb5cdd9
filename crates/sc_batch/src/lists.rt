//! Heads over columns of lists.
#![tactic(auto)]

ghost use Rattle.std.specs.Prelude.{◌≡◌, ◌-◌, IfOk, length, map};
ghost use Rattle.std.specs.List.{All};
ghost use Rattle.sc_value.specs.Datum.{number};
ghost use Rattle.sc_columns.specs.Parts.{IsRange};
ghost use Rattle.sc_expr.specs.Heads.{sum_onto};
ghost use Rattle.sc_expr.specs.declared.exprs.Head.TheVariants as heads;
ghost use Rattle.sc_batch.specs.Lists.{count_of_words, span_len, span_sum, sum_of as numbers_sum};
ghost use Rattle.sc_batch.specs.Made.{rows_made};
ghost use Rattle.sc_batch.specs.Outcomes.{of_one, until_raise};

use crate::by_rows::{AtRows, by_rows};
use crate::columns::{Column, Evaluated};
use crate::items::{ints, item_at};
use sc_columns::Rows;
use sc_expr::{Head, Raise};
use sc_lineage::Stream;
use sc_value::{Span, Texts, word_count};
use std::alloc::{AllocError, Global};

/// How many items each list has. The words of texts are counted where they are.
pub(crate) fn lens(alloc: Global, input: Evaluated) -> Result<Stream, AllocError>
    ensures { IfOk result (λ s. s
        ≡ until_raise (map (of_one heads.Len) (rows_made input.column)) input.raise) }
{
    let Evaluated { column, raise } = input;
    match column {
        Column::Words(texts) => word_counts(alloc, &texts, raise),
        Column::Rows(rows) => lens_of_rows(alloc, &rows, raise),
        Column::Pieces(pieces) => {
            let rows = Rows::cut(alloc, &pieces.texts, pieces.separator)?;
            lens_of_rows(alloc, &rows, raise)
        }
    }
}

/// How many words each text has.
fn word_counts(alloc: Global, texts: &Texts, end: Option<Raise>) -> Result<Stream, AllocError>
    ensures { IfOk result (λ s. s
        ≡ record { rows = map number (map count_of_words texts.now); raise = end }) }
{
    let mut out = Vec::with_capacity(alloc, texts.len())?;
    for i in 0..texts.len() {
        let count = word_count(texts.get(i));
        if count > i64::MAX as usize {
            return Err(AllocError);
        }
        out.push(count as i64)?;
    }
    ints(alloc, out, end)
}

/// How many items each row has.
fn lens_of_rows(alloc: Global, rows: &Rows, end: Option<Raise>) -> Result<Stream, AllocError>
    ensures { IfOk result (λ s. s ≡ until_raise (map (of_one heads.Len) rows.now) end) }
{
    match rows.as_lists()? {
        Some(lists) => span_lens(alloc, lists.spans.as_slice(), end),
        None => by_rows(alloc, AtRows::One(Head::Len, rows), end),
    }
}

/// How many items each range has.
fn span_lens(alloc: Global, spans: &[Span], end: Option<Raise>) -> Result<Stream, AllocError>
    ensures { IfOk result (λ s. s
        ≡ record { rows = map number (map span_len spans.now); raise = end }) }
{
    let mut out = Vec::with_capacity(alloc, spans.len())?;
    for i in 0..spans.len() {
        out.push(i64::from(len_of(item_at(spans, i))))?;
    }
    ints(alloc, out, end)
}

/// How many items a range has.
fn len_of(span: Span) -> u32
    ensures { result ≡ span.to - span.from }
{
    span.to.saturating_sub(span.from)
}

/// The sum of each list of numbers.
pub(crate) fn sums(alloc: Global, rows: &Rows, end: Option<Raise>) -> Result<Stream, AllocError>
    ensures { IfOk result (λ s. s ≡ until_raise (map (of_one heads.Sum) rows.now) end) }
{
    match rows.as_lists()? {
        Some(lists) => match lists.items.as_ints() {
            Some(items) => span_sums(alloc, lists.spans.as_slice(), items, end),
            None => by_rows(alloc, AtRows::One(Head::Sum, rows), end),
        },
        None => by_rows(alloc, AtRows::One(Head::Sum, rows), end),
    }
}

/// The sum of the numbers of each range.
fn span_sums(
    alloc: Global,
    spans: &[Span],
    items: &[i64],
    end: Option<Raise>,
) -> Result<Stream, AllocError>
    requires { All (IsRange (length items.now)) spans.now }
    ensures { IfOk result (λ s. s
        ≡ record { rows = map number (map (span_sum items.now) spans.now); raise = end }) }
{
    let mut out = Vec::with_capacity(alloc, spans.len())?;
    for i in 0..spans.len() {
        let span = spans[i];
        out.push(sum_of(&items[span.from as usize..span.to as usize]))?;
    }
    ints(alloc, out, end)
}

/// The sum of numbers, which wraps at 64 bits.
fn sum_of(items: &[i64]) -> i64
    ensures { result ≡ numbers_sum items.now }
{
    let mut sum: i64 = 0;
    for item in items {
        sum = sum.wrapping_add(*item);
    }
    sum
}
