//! The chosen of two branches at each row.
#![tactic(auto)]

ghost use Rattle.std.specs.Prelude.{◌≡◌, not, IfOk, IfSome, map};
ghost use Rattle.sc_value.specs.Views.{datum_of};
ghost use Rattle.sc_expr.specs.Heads.{truth_in as truth_of};
ghost use Rattle.sc_batch.specs.Choices.{merged, stream_from};

use crate::by_rows::finished;
use crate::items::{ints, ints_of, truths, truths_of};
use crate::merges::{Merged, merge, merge_texts};
use crate::texts::texts_of;
use sc_columns::{Rows, RowsBuilder};
use sc_expr::Raise;
use sc_lineage::Stream;
use sc_value::Value;
use std::alloc::{AllocError, Global};

/// Which rows hold.
pub(crate) fn marks_of(alloc: Global, rows: &Rows) -> Result<Vec<bool>, AllocError>
    ensures { IfOk result (λ v. v.items ≡ map truth_of rows.now) }
{
    match rows.as_bools() {
        Some(all) => Ok(Vec::from_slice(alloc, all)?),
        None => each_mark(alloc, rows),
    }
}

/// Which rows hold, row by row.
fn each_mark(alloc: Global, rows: &Rows) -> Result<Vec<bool>, AllocError>
    ensures { IfOk result (λ v. v.items ≡ map truth_of rows.now) }
{
    let mut out = Vec::with_capacity(alloc, rows.len())?;
    for i in 0..rows.len() {
        let row = rows.row(alloc, i)?;
        out.push(truth_in(&row))?;
    }
    Ok(out)
}

/// The truth value that a value is, or else false.
pub(crate) fn truth_in(value: &Value) -> bool
    ensures { result ≡ truth_of (datum_of value.now) }
{
    match value {
        Value::Bool(b) => *b,
        _ => false,
    }
}

/// The other rows.
pub(crate) fn opposite(alloc: Global, marks: &[bool]) -> Result<Vec<bool>, AllocError>
    ensures { IfOk result (λ v. v.items ≡ map not marks.now) }
{
    let mut out = Vec::with_capacity(alloc, marks.len())?;
    for i in 0..marks.len() {
        out.push(!marks[i])?;
    }
    Ok(out)
}

/// By marks the next row of one stream or of another, up to where that one has no more.
pub(crate) fn choose(
    alloc: Global,
    marks: &[bool],
    yes: &Stream,
    no: &Stream,
    end: Option<Raise>,
) -> Result<Stream, AllocError>
    ensures { IfOk result (λ s. s ≡ stream_from (merged marks.now yes.now.rows yes.now.raise
        no.now.rows no.now.raise end)) }
{
    if let Some(stream) = choose_ints(alloc, marks, yes, no, end)? {
        return Ok(stream);
    }
    if let Some(stream) = choose_truths(alloc, marks, yes, no, end)? {
        return Ok(stream);
    }
    if let Some(stream) = choose_texts(alloc, marks, yes, no, end)? {
        return Ok(stream);
    }
    choose_rows(alloc, marks, yes, no, end)
}

/// The same where both are numbers.
fn choose_ints(
    alloc: Global,
    marks: &[bool],
    yes: &Stream,
    no: &Stream,
    end: Option<Raise>,
) -> Result<Option<Stream>, AllocError>
    ensures { IfOk result (λ o. IfSome o (λ s. s ≡ stream_from (merged marks.now
        yes.now.rows yes.now.raise no.now.rows no.now.raise end))) }
{
    match (ints_of(&yes.rows), ints_of(&no.rows)) {
        (Some(first), Some(second)) => {
            let merged = merge(alloc, marks, first, yes.raise, second, no.raise, end)?;
            let Merged { items, raise } = merged;
            Ok(Some(ints(alloc, items, raise)?))
        }
        _ => Ok(None),
    }
}

/// The same where both are truth values.
fn choose_truths(
    alloc: Global,
    marks: &[bool],
    yes: &Stream,
    no: &Stream,
    end: Option<Raise>,
) -> Result<Option<Stream>, AllocError>
    ensures { IfOk result (λ o. IfSome o (λ s. s ≡ stream_from (merged marks.now
        yes.now.rows yes.now.raise no.now.rows no.now.raise end))) }
{
    match (truths_of(&yes.rows), truths_of(&no.rows)) {
        (Some(first), Some(second)) => {
            let merged = merge(alloc, marks, first, yes.raise, second, no.raise, end)?;
            let Merged { items, raise } = merged;
            Ok(Some(truths(alloc, items, raise)?))
        }
        _ => Ok(None),
    }
}

/// The same where both are texts.
fn choose_texts(
    alloc: Global,
    marks: &[bool],
    yes: &Stream,
    no: &Stream,
    end: Option<Raise>,
) -> Result<Option<Stream>, AllocError>
    ensures { IfOk result (λ o. IfSome o (λ s. s ≡ stream_from (merged marks.now
        yes.now.rows yes.now.raise no.now.rows no.now.raise end))) }
{
    match (texts_of(&yes.rows), texts_of(&no.rows)) {
        (Some(first), Some(second)) => {
            let stream = merge_texts(alloc, marks, first, yes.raise, second, no.raise, end)?;
            Ok(Some(stream))
        }
        _ => Ok(None),
    }
}

/// The same row by row.
fn choose_rows(
    alloc: Global,
    marks: &[bool],
    yes: &Stream,
    no: &Stream,
    end: Option<Raise>,
) -> Result<Stream, AllocError>
    ensures { IfOk result (λ s. s ≡ stream_from (merged marks.now yes.now.rows yes.now.raise
        no.now.rows no.now.raise end)) }
{
    let mut out = RowsBuilder::new(alloc);
    let mut from_yes = 0;
    let mut from_no = 0;
    for i in 0..marks.len() {
        if marks[i] {
            if from_yes >= yes.rows.len() {
                return finished(alloc, out, yes.raise);
            }
            out.push(alloc, &yes.rows.row(alloc, from_yes)?)?;
            from_yes += 1;
        } else {
            if from_no >= no.rows.len() {
                return finished(alloc, out, no.raise);
            }
            out.push(alloc, &no.rows.row(alloc, from_no)?)?;
            from_no += 1;
        }
    }
    finished(alloc, out, end)
}
