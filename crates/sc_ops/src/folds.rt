//! Rows put together.
#![tactic(auto)]

ghost use Rattle.std.specs.Prelude.{◌≡◌, IfOk, drop};
ghost use Rattle.std.specs.Option.{option_map};
ghost use Rattle.sc_base.specs.Answers.{Answers};
ghost use Rattle.sc_value.specs.Views.{datum_of};
ghost use Rattle.sc_expr.specs.Views.{expr_data_of};
ghost use Rattle.sc_lineage.specs.Actions.{folded, folded_stream, row_of_outcome};
ghost use Rattle.sc_ops.specs.Folds.{fold_of};

use crate::batches::{BATCH_ROWS, batches};
use crate::int_folds::fold_as_ints;
use crate::streams::ended;
use sc_base::OrMemory;
use sc_batch::{Stop, put_next};
use sc_columns::{Rows, RowsBuilder};
use sc_expr::{EvalError, Expr, Raise};
use sc_lineage::Stream;
use sc_value::Value;
use std::alloc::{AllocError, Global};

/// A partition folded from the left to one row at most, by an expression over two values. A raise
/// of the fold, or the one at the end of the rows, is all that is left.
pub fn fold_stream(alloc: Global, expr: &Expr, input: &Stream) -> Result<Stream, AllocError>
    ensures { IfOk result
        (λ s. s ≡ folded_stream (expr_data_of expr.now) input.now.rows input.now.raise) }
{
    match fold_rows(alloc, expr, &input.rows) {
        Ok(Some(value)) => one_row(alloc, &value, input.raise),
        Ok(None) => ended(alloc, input.raise),
        Err(error) => match error {
            OrMemory::Fault(raise) => ended(alloc, Some(raise)),
            OrMemory::OutOfMemory => Err(AllocError),
        },
    }
}

/// One row before the end of a stream, or else the raise there.
fn one_row(alloc: Global, value: &Value, end: Option<Raise>) -> Result<Stream, AllocError>
    ensures { IfOk result (λ s. s ≡ row_of_outcome (Ok (datum_of value.now)) end) }
{
    if end.is_some() {
        return ended(alloc, end);
    }
    let mut rows = RowsBuilder::new(alloc);
    rows.push(alloc, value)?;
    Ok(Stream {
        rows: rows.finish(alloc)?,
        raise: None,
    })
}

/// Rows folded from the left by an expression over two values: nothing where there are none.
///
/// # Errors
///
/// The first raise, unless memory runs out.
pub fn fold_rows(alloc: Global, expr: &Expr, rows: &Rows) -> Result<Option<Value>, EvalError>
    ensures { Answers (option_map datum_of) (λ r. r) result
        (fold_of (expr_data_of expr.now) rows.now) }
{
    if rows.is_empty() {
        return Ok(None);
    }
    let first = rows.row(alloc, 0)?;
    let value = fold_behind(alloc, expr, first, rows)?;
    Ok(Some(value))
}

/// The rows behind the first put together with a value.
fn fold_behind(alloc: Global, expr: &Expr, first: Value, rows: &Rows) -> Result<Value, EvalError>
    ensures { Answers datum_of (λ r. r) result
        (folded (expr_data_of expr.now) (datum_of first) (drop 1 rows.now)) }
{
    let rest = batches(alloc, &rows.part(alloc, 1, rows.len())?, BATCH_ROWS)?;
    let mut value = first;
    for i in 0..rest.len() {
        value = fold_batch(alloc, expr, value, &rest[i])?;
    }
    Ok(value)
}

/// The rows of a batch put together with a value: numbers in one loop, where the expression stays
/// among numbers, else row by row.
fn fold_batch(alloc: Global, expr: &Expr, value: Value, batch: &Rows) -> Result<Value, EvalError>
    ensures { Answers datum_of (λ r. r) result
        (folded (expr_data_of expr.now) (datum_of value) batch.now) }
{
    match fold_as_ints(expr, &value, batch) {
        Ok(n) => Ok(Value::Int(n)),
        Err(stop) => match stop {
            Stop::Raised(raise) => Err(OrMemory::Fault(raise)),
            Stop::Beyond => fold_each(alloc, expr, value, batch),
        },
    }
}

/// Rows put together with a value, one by one.
fn fold_each(alloc: Global, expr: &Expr, value: Value, rows: &Rows) -> Result<Value, EvalError>
    ensures { Answers datum_of (λ r. r) result
        (folded (expr_data_of expr.now) (datum_of value) rows.now) }
{
    let mut value = value;
    for i in 0..rows.len() {
        let row = rows.row(alloc, i)?;
        put_next(alloc, expr, &mut value, &row)?;
    }
    Ok(value)
}
