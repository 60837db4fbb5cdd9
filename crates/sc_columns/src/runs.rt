//! Columns that are still open.
#![tactic(auto)]

ghost use Rattle.std.specs.Arc.{arc_value};
ghost use Rattle.std.specs.List.{flat_map};
ghost use Rattle.std.specs.Prelude.{◌≡◌, ◌-◌, ◌^◌, IfOk, IsTrue, length, min};
ghost use Rattle.sc_columns.specs.Columns.{rows_in, shared_rows};
ghost use Rattle.sc_columns.specs.Runs.{run_rows};

use crate::columns::{Shared, bools, ints, len, pairs, texts, values};
use crate::text_runs::TextRun;
use sc_value::{Held, Value};
use std::alloc::{AllocError, Global};

/// Rows of one kind, behind which more may come.
#[derive(Drop)]
pub enum Run {
    /// No rows yet.
    Empty,
    /// A column that others may hold too.
    Lone(Shared),
    /// Numbers.
    Ints(Vec<i64>),
    /// Truth values.
    Bools(Vec<bool>),
    /// Texts.
    Texts(TextRun),
    /// Pairs, up to the end of the shorter side.
    Pairs(Box<Run>, Box<Run>),
    /// Values of any kind.
    Values(Vec<Value>),
}

/// How many rows there are, or else the greatest number.
pub fn run_len(run: &Run) -> usize
    ensures { result ≡ min (length (run_rows run.now)) (2 ^ 64 - 1) }
{
    match run {
        Run::Empty => 0,
        Run::Lone(column) => len(column),
        Run::Ints(v) => v.len(),
        Run::Bools(v) => v.len(),
        Run::Texts(t) => t.len(),
        Run::Pairs(a, b) => run_len(a).min(run_len(b)),
        Run::Values(v) => v.len(),
    }
}

/// Whether two sides have one length.
pub fn is_level(first: &Run, second: &Run) -> bool
    ensures { IsTrue result → length (run_rows first.now) ≡ length (run_rows second.now) }
{
    let n = run_len(first);
    n < usize::MAX && n == run_len(second)
}

/// The rows as a column, to be shared.
pub fn closed(alloc: Global, run: Run) -> Result<Shared, AllocError>
    ensures { IfOk result (λ c. rows_in (arc_value c) ≡ run_rows run) }
{
    match run {
        Run::Empty => ints(alloc, Held::new(alloc, Vec::new(alloc))?),
        Run::Lone(column) => Ok(column),
        Run::Ints(v) => ints(alloc, Held::new(alloc, v)?),
        Run::Bools(v) => bools(alloc, Held::new(alloc, v)?),
        Run::Texts(t) => texts(alloc, t.finish(alloc)?),
        Run::Pairs(a, b) => {
            let first = closed(alloc, Box::into_inner(a))?;
            let second = closed(alloc, Box::into_inner(b))?;
            pairs(alloc, first, second)
        }
        Run::Values(v) => values(alloc, Held::new(alloc, v)?),
    }
}

/// The rows of each run as a column, to be shared.
pub fn closed_all(alloc: Global, runs: Vec<Run>) -> Result<Vec<Shared>, AllocError>
    ensures { IfOk result (λ v. flat_map shared_rows v.items ≡ flat_map run_rows runs.items) }
{
    let mut out = Vec::with_capacity(alloc, runs.len() + 1)?;
    for run in runs {
        out.push(closed(alloc, run)?)?;
    }
    Ok(out)
}
