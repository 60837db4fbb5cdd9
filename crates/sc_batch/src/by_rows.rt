//! Rows one by one, where no column serves.
#![tactic(auto)]

ghost use Rattle.std.specs.Prelude.{◌≡◌, ◌<◌, IfOk, IfSome, length, slice_get};
ghost use Rattle.sc_base.specs.Answers.{Answers};
ghost use Rattle.sc_value.specs.Views.{datum_of};
ghost use Rattle.sc_batch.specs.Outcomes.{AddsOutcome, outcomes_at, until_raise};

use sc_base::OrMemory;
use sc_columns::{Rows, RowsBuilder};
use sc_expr::{Env, EvalError, Expr, Head, Raise, apply, eval};
use sc_lineage::Stream;
use sc_value::Value;
use std::alloc::{AllocError, Global};

/// What is evaluated at each row.
#[derive(Clone, Copy)]
pub(crate) enum AtRows<'a> {
    /// An expression over the rows.
    Expr(&'a Expr, &'a Rows),
    /// A head over the rows.
    One(Head, &'a Rows),
    /// A head over two columns row by row, up to the end of the shorter.
    Two(Head, &'a Rows, &'a Rows),
}

impl AtRows<'_> {
    /// How many rows there are.
    fn len(self) -> usize
        ensures { result ≡ length (outcomes_at self.entry) }
    {
        match self {
            AtRows::Expr(_, rows) => rows.len(),
            AtRows::One(_, rows) => rows.len(),
            AtRows::Two(_, first, second) => first.len().min(second.len()),
        }
    }

    /// What is evaluated at one row.
    fn at(self, alloc: Global, i: usize) -> Result<Value, EvalError>
        requires { i < length (outcomes_at self) }
        ensures { IfSome (slice_get (outcomes_at self.entry) i) (Answers datum_of (λ r. r) result) }
    {
        match self {
            AtRows::Expr(expr, rows) => {
                let row = rows.row(alloc, i)?;
                eval(alloc, expr, Env::One(&row))
            }
            AtRows::One(head, rows) => {
                let values = [rows.row(alloc, i)?];
                apply(alloc, head, &values)
            }
            AtRows::Two(head, first, second) => {
                let a = first.row(alloc, i)?;
                let b = second.row(alloc, i)?;
                let values = [a, b];
                apply(alloc, head, &values)
            }
        }
    }
}

/// What is evaluated at each row, up to the first raise.
pub(crate) fn by_rows(
    alloc: Global,
    what: AtRows<'_>,
    end: Option<Raise>,
) -> Result<Stream, AllocError>
    ensures { IfOk result (λ s. s ≡ until_raise (outcomes_at what.entry) end) }
{
    let mut out = RowsBuilder::new(alloc);
    for i in 0..what.len() {
        let raised = add(alloc, what, i, &mut out)?;
        if raised.is_some() {
            return finished(alloc, out, raised);
        }
    }
    finished(alloc, out, end)
}

/// Adds what is evaluated at one row behind other rows, or else gives what it raised.
fn add(
    alloc: Global,
    what: AtRows<'_>,
    i: usize,
    out: &mut RowsBuilder,
) -> Result<Option<Raise>, AllocError>
    requires { i < length (outcomes_at what) }
    ensures { IfOk result (λ raised.
        IfSome (slice_get (outcomes_at what.entry) i) (AddsOutcome out.old out.new raised)) }
{
    match what.at(alloc, i) {
        Ok(value) => {
            out.push(alloc, &value)?;
            Ok(None)
        }
        Err(error) => match error {
            OrMemory::Fault(raise) => Ok(Some(raise)),
            OrMemory::OutOfMemory => Err(AllocError),
        },
    }
}

/// Rows that are done, with what ended them.
pub(crate) fn finished(
    alloc: Global,
    rows: RowsBuilder,
    raise: Option<Raise>,
) -> Result<Stream, AllocError>
    ensures { IfOk result (λ s. s ≡ record { rows = rows; raise = raise }) }
{
    Ok(Stream {
        rows: rows.finish(alloc)?,
        raise,
    })
}
