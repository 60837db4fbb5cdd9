//! Whole columns behind one another.
#![tactic(auto)]

ghost use Rattle.std.specs.Arc.{arc_value};
ghost use Rattle.std.specs.Prelude.{◌≡◌, ◌++◌, if◌then◌else◌, IfOk, IfSome};
ghost use Rattle.sc_columns.specs.Columns.{rows_in};
ghost use Rattle.sc_columns.specs.Runs.{is_yes, run_rows};

use crate::adds::{add_bools, add_ints, add_texts};
use crate::columns::{Column, Shared, len, same};
use crate::growing::{put, settle};
use crate::runs::{Run, is_level};
use sc_value::is_same;
use std::alloc::{AllocError, Global};
use std::sync::Arc;

/// From how many rows on a column is long: to hold it by itself costs less than to copy it.
pub const LONG_LEN: usize = 1024;

/// Adds the rows of a column behind a run, unless one of them is long and would be copied for that,
/// or answers that they don't go together.
pub fn extend_short(alloc: Global, column: &Shared, run: &mut Run) -> Result<bool, AllocError>
    ensures { run_rows run.new ≡ (if is_yes result
        then run_rows run.old ++ rows_in (arc_value column.now) else run_rows run.old) }
{
    if copies_long(column, run) {
        merges(alloc, column, run)
    } else {
        extend(alloc, column, run)
    }
}

/// Whether a column or a run is long, and copied where the column is added behind the run.
fn copies_long(column: &Column, run: &Run) -> bool {
    match run {
        Run::Empty => false,
        Run::Lone(held) => is_long(column) || is_long(held),
        _ => is_long(column),
    }
}

/// Whether a column has many rows. Numbers and truth values are never too many: to copy them costs
/// less than to hold them in pieces.
fn is_long(column: &Column) -> bool {
    match column {
        Column::Ints(_) | Column::Bools(_) => false,
        Column::Pairs(a, b) => is_long(a) || is_long(b),
        _ => len(column) >= LONG_LEN,
    }
}

/// Adds the rows of a column behind a run, or answers that they don't go together.
pub fn extend(alloc: Global, column: &Shared, run: &mut Run) -> Result<bool, AllocError>
    ensures { run_rows run.new ≡ (if is_yes result
        then run_rows run.old ++ rows_in (arc_value column.now) else run_rows run.old) }
{
    if merges(alloc, column, run)? {
        return Ok(true);
    }
    settle(alloc, run)?;
    match run {
        Run::Empty => {
            put(run, Run::Lone(Arc::try_clone(column)?));
            Ok(true)
        }
        Run::Ints(out) => add_ints(column, out),
        Run::Bools(out) => add_bools(column, out),
        Run::Texts(out) => add_texts(alloc, column, out),
        Run::Pairs(first, second) => match &**column {
            Column::Pairs(a, b) => {
                if !is_level(first, second) {
                    return Ok(false);
                }
                match extend(alloc, a, first) {
                    Ok(done) => {
                        if done {
                            extend(alloc, b, second)
                        } else {
                            Ok(false)
                        }
                    }
                    Err(e) => Err(e),
                }
            }
            _ => Ok(false),
        },
        Run::Lone(_) | Run::Values(_) => Ok(false),
    }
}

/// Joins a value that is held once for many rows with the same value.
fn merges(alloc: Global, column: &Column, run: &mut Run) -> Result<bool, AllocError>
    ensures { run_rows run.new ≡ (if is_yes result
        then run_rows run.old ++ rows_in column.now else run_rows run.old) }
{
    match run {
        Run::Lone(lone) => match merged(alloc, lone, column)? {
            Some(both) => {
                put(run, Run::Lone(both));
                Ok(true)
            }
            None => Ok(false),
        },
        _ => Ok(false),
    }
}

fn merged(alloc: Global, first: &Column, second: &Column) -> Result<Option<Shared>, AllocError>
    ensures { IfOk result (λ o. IfSome o
        (λ c. rows_in (arc_value c) ≡ rows_in first.now ++ rows_in second.now)) }
{
    match first {
        Column::Same(v, n) => match second {
            Column::Same(w, m) => {
                if !is_same(v, w) || *m > usize::MAX - *n {
                    return Ok(None);
                }
                Ok(Some(same(alloc, Arc::try_clone(v)?, *n + *m)?))
            }
            _ => Ok(None),
        },
        _ => Ok(None),
    }
}
