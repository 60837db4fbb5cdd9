//! Operations one after the other, some thousand rows at a time.
#![tactic(auto)]

ghost use Rattle.std.specs.Prelude.{◌≡◌, IfOk, None};
ghost use Rattle.sc_ops.specs.Chains.{chain_stream};

use crate::batches::{BATCH_ROWS, batches};
use crate::each::{each_batch, each_stream};
use crate::streams::{finished, share};
use sc_columns::{Rows, RowsBuilder};
use sc_expr::Expr;
use sc_lineage::{Elementwise, Stream};
use std::alloc::{AllocError, Global};

/// An operation on each row, with its expression.
#[derive(Clone, Copy)]
pub struct Step<'a> {
    /// What it does with a row.
    pub kind: Elementwise,
    /// The expression.
    pub expr: &'a Expr,
}

/// Operations on each row of a stream, one after the other. Some thousand rows go through all of
/// them before the next, so that no more is held in between.
pub fn run_chain(alloc: Global, steps: &[Step<'_>], input: &Stream) -> Result<Stream, AllocError>
    ensures { IfOk result (λ s. s ≡ chain_stream steps.now input.now) }
{
    match steps {
        [] => share(input),
        [only] => each_stream(alloc, only.kind, only.expr, input),
        _ => run_batches(alloc, steps, input),
    }
}

/// The same, batch by batch.
fn run_batches(alloc: Global, steps: &[Step<'_>], input: &Stream) -> Result<Stream, AllocError>
    ensures { IfOk result (λ s. s ≡ chain_stream steps.now input.now) }
{
    let batches = batches(alloc, &input.rows, BATCH_ROWS)?;
    let mut out = RowsBuilder::new(alloc);
    for i in 0..batches.len() {
        let given = run_steps(alloc, steps, &batches[i])?;
        out.append(alloc, &given.rows)?;
        if given.raise.is_some() {
            return finished(alloc, out, given.raise);
        }
    }
    finished(alloc, out, input.raise)
}

/// What a batch gives.
fn run_steps(alloc: Global, steps: &[Step<'_>], batch: &Rows) -> Result<Stream, AllocError>
    ensures { IfOk result
        (λ s. s ≡ chain_stream steps.now (record { rows = batch.now; raise = None })) }
{
    let mut stream = Stream {
        rows: batch.share()?,
        raise: None,
    };
    for step in steps {
        stream = each_batch(alloc, step.kind, step.expr, &stream.rows, stream.raise)?;
    }
    Ok(stream)
}
