//! Ranges of columns behind others.
#![tactic(auto)]

ghost use Rattle.std.specs.Prelude.{◌≡◌, ◌++◌, if◌then◌else◌, IfOk, map, slice_range};
ghost use Rattle.sc_value.specs.Datum.{number, text, truth};
ghost use Rattle.sc_columns.specs.Columns.{rows_in};
ghost use Rattle.sc_columns.specs.Runs.{is_yes, run_rows};

use crate::columns::Column;
use crate::joins::LONG_LEN;
use crate::runs::{Run, is_level};
use crate::text_runs::TextRun;
use sc_value::{Held, Texts};
use std::alloc::AllocError;

/// Adds the rows of a column from one place up to, not including, another behind a run of their
/// kind, or answers that they have to be a column of their own for that. Nothing is made of rows
/// that are copied, so that it costs little to add a few rows of many columns.
pub fn extend_range(
    column: &Column,
    from: usize,
    to: usize,
    run: &mut Run,
) -> Result<bool, AllocError>
    ensures { run_rows run.new ≡ (if is_yes result
        then run_rows run.old ++ slice_range (rows_in column.now) from to else run_rows run.old) }
{
    match run {
        Run::Ints(out) => add_ints(column, from, to, out),
        Run::Bools(out) => add_bools(column, from, to, out),
        Run::Texts(out) => add_texts(column, from, to, out),
        Run::Pairs(first, second) => match column {
            Column::Pairs(a, b) => {
                if !is_level(first, second) {
                    return Ok(false);
                }
                match extend_range(a, from, to, first) {
                    Ok(done) => {
                        if done {
                            extend_range(b, from, to, second)
                        } else {
                            Ok(false)
                        }
                    }
                    Err(e) => Err(e),
                }
            }
            _ => Ok(false),
        },
        Run::Empty | Run::Lone(_) | Run::Values(_) => Ok(false),
    }
}

/// Adds a range of numbers, or answers that the column holds none.
fn add_ints(column: &Column, from: usize, to: usize, out: &mut Vec<i64>) -> Result<bool, AllocError>
    ensures { map number out.new.items ≡ (if is_yes result
        then map number out.old.items ++ slice_range (rows_in column.now) from to
        else map number out.old.items) }
{
    match column {
        Column::Ints(v) => {
            out.extend_from_slice(range_of(v, from, to))?;
            Ok(true)
        }
        _ => Ok(false),
    }
}

/// Adds a range of truth values, or answers that the column holds none.
fn add_bools(
    column: &Column,
    from: usize,
    to: usize,
    out: &mut Vec<bool>,
) -> Result<bool, AllocError>
    ensures { map truth out.new.items ≡ (if is_yes result
        then map truth out.old.items ++ slice_range (rows_in column.now) from to
        else map truth out.old.items) }
{
    match column {
        Column::Bools(v) => {
            out.extend_from_slice(range_of(v, from, to))?;
            Ok(true)
        }
        _ => Ok(false),
    }
}

/// Adds a range of texts, or answers that the column holds none, or that they are too many to be
/// copied.
fn add_texts(column: &Column, from: usize, to: usize, out: &mut TextRun) -> Result<bool, AllocError>
    ensures { map text out.new ≡ (if is_yes result
        then map text out.old ++ slice_range (rows_in column.now) from to
        else map text out.old) }
{
    match column {
        Column::Texts(t) => {
            if to.saturating_sub(from) >= LONG_LEN {
                return Ok(false);
            }
            out.append(&texts_of(t, from, to)?)?;
            Ok(true)
        }
        _ => Ok(false),
    }
}

/// The items from one place up to, not including, another, as far as there are items.
fn range_of<T: Drop>(held: &Held<T>, from: usize, to: usize) -> &[T]
    ensures { result.now ≡ slice_range held.now from to }
{
    let end = to.min(held.len());
    &held.as_slice()[from.min(end)..end]
}

/// The texts from one place up to, not including, another, as far as there are texts.
pub fn texts_of(texts: &Texts, from: usize, to: usize) -> Result<Texts, AllocError>
    ensures { IfOk result (λ t. t ≡ slice_range texts.now from to) }
{
    let end = to.min(texts.len());
    texts.part(from.min(end), end)
}
