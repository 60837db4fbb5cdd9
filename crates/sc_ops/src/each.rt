//! An operation on each row of a stream.
#![tactic(auto)]

ghost use Rattle.std.specs.Prelude.{◌≡◌, ◌<◌, IfOk, map};
ghost use Rattle.sc_value.specs.Kept.{kept};
ghost use Rattle.sc_value.specs.Views.{datum_of};
ghost use Rattle.sc_expr.specs.Heads.{truth_in};
ghost use Rattle.sc_expr.specs.Views.{expr_data_of};
ghost use Rattle.sc_lineage.specs.Narrow.{at_row, each_stream as stream_of_each, element_of, given_of};
ghost use Rattle.sc_lineage.specs.Streams.{each_gives};
ghost use Rattle.sc_lineage.specs.declared.nodes.Elementwise.TheVariants.{Filter, FlatMap};

use crate::batches::{BATCH_ROWS, RUN_ROWS, batches};
use crate::keyed::{flat_map_values, map_values};
use crate::streams::finished;
use sc_batch::eval_rows;
use sc_columns::{Rows, RowsBuilder};
use sc_expr::{Expr, Raise};
use sc_lineage::{Elementwise, Stream};
use sc_value::Value;
use std::alloc::{AllocError, Global};

/// An operation with an expression on each row of a stream, up to the first raise.
pub fn each_stream(
    alloc: Global,
    kind: Elementwise,
    expr: &Expr,
    input: &Stream,
) -> Result<Stream, AllocError>
    ensures { IfOk result (λ s. s ≡ stream_of_each kind (expr_data_of expr.now) input.now) }
{
    let rows = &input.rows;
    if rows.len() <= BATCH_ROWS {
        return each_batch(alloc, kind, expr, &rows.joined(alloc)?, input.raise);
    }
    let batches = batches(alloc, rows, rows_at_once(expr))?;
    let mut out = RowsBuilder::new(alloc);
    for i in 0..batches.len() {
        let given = each_batch(alloc, kind, expr, &batches[i], None)?;
        out.append(alloc, &given.rows)?;
        if given.raise.is_some() {
            return finished(alloc, out, given.raise);
        }
    }
    finished(alloc, out, input.raise)
}

/// How many rows are taken at a time: many where each goes through one head, which makes no column
/// in between.
fn rows_at_once(expr: &Expr) -> usize
    ensures { 0 < result }
{
    match expr {
        Expr::Call(_, args) if args.iter().any(|arg| is_call(arg)) => BATCH_ROWS,
        _ => RUN_ROWS,
    }
}

/// Whether an expression is a head with arguments.
fn is_call(expr: &Expr) -> bool {
    match expr {
        Expr::Call(_, _) => true,
        _ => false,
    }
}

/// An operation on each row of a batch, which ends with this raise or none.
pub fn each_batch(
    alloc: Global,
    kind: Elementwise,
    expr: &Expr,
    batch: &Rows,
    end: Option<Raise>,
) -> Result<Stream, AllocError>
    ensures { IfOk result (λ s. s ≡ each_gives (given_of kind)
        (λ d. at_row (expr_data_of expr.now) (element_of kind d)) batch.now end) }
{
    match kind {
        Elementwise::Map => eval_rows(alloc, expr, batch, end),
        Elementwise::Filter => filter(alloc, expr, batch, end),
        Elementwise::FlatMap => flat_map(alloc, expr, batch, end),
        Elementwise::MapValues => map_values(alloc, expr, batch, end),
        Elementwise::FlatMapValues => flat_map_values(alloc, expr, batch, end),
    }
}

/// The rows of a batch where an expression holds.
fn filter(
    alloc: Global,
    expr: &Expr,
    batch: &Rows,
    end: Option<Raise>,
) -> Result<Stream, AllocError>
    ensures { IfOk result (λ s. s ≡ each_gives (given_of Filter)
        (λ d. at_row (expr_data_of expr.now) d) batch.now end) }
{
    let truths = eval_rows(alloc, expr, batch, end)?;
    Ok(Stream {
        rows: kept_rows(alloc, batch, &truths.rows)?,
        raise: truths.raise,
    })
}

/// The rows beside which a truth value holds.
fn kept_rows(alloc: Global, rows: &Rows, truths: &Rows) -> Result<Rows, AllocError>
    ensures { IfOk result (λ r. r ≡ kept (map truth_in truths.now) rows.now) }
{
    match truths.as_bools() {
        Some(marks) => rows.filter(alloc, marks),
        None => rows.filter(alloc, &marks_of(alloc, truths)?),
    }
}

/// The truth values that rows are, read one by one.
fn marks_of(alloc: Global, rows: &Rows) -> Result<Vec<bool>, AllocError>
    ensures { IfOk result (λ v. v.items ≡ map truth_in rows.now) }
{
    let mut marks = Vec::with_capacity(alloc, rows.len())?;
    for i in 0..rows.len() {
        let row = rows.row(alloc, i)?;
        marks.push(truth_of(&row))?;
    }
    Ok(marks)
}

/// The truth value that a value is, or else false.
fn truth_of(value: &Value) -> bool
    ensures { result ≡ truth_in (datum_of value.now) }
{
    match value {
        Value::Bool(b) => *b,
        Value::Int(_) | Value::Text(_) | Value::Pair(_, _) | Value::List(_) => false,
    }
}

/// The items of the lists that an expression gives.
fn flat_map(
    alloc: Global,
    expr: &Expr,
    batch: &Rows,
    end: Option<Raise>,
) -> Result<Stream, AllocError>
    ensures { IfOk result (λ s. s ≡ each_gives (given_of FlatMap)
        (λ d. at_row (expr_data_of expr.now) d) batch.now end) }
{
    let lists = eval_rows(alloc, expr, batch, end)?;
    Ok(Stream {
        rows: lists.rows.flat(alloc)?,
        raise: lists.raise,
    })
}
