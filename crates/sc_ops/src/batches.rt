//! Rows some thousand at a time.
#![tactic(auto)]

ghost use Rattle.std.specs.List.{flat_map};
ghost use Rattle.std.specs.Prelude.{◌≡◌, ◌<◌, ◌++◌, IfOk, OnOk};

use sc_columns::Rows;
use std::alloc::{AllocError, Global};

/// How many rows are evaluated at a time where columns are made in between: few enough for these to
/// stay in a processor's cache.
pub const BATCH_ROWS: usize = 4096;

/// How many rows are evaluated at a time where no column is made in between, so that what they give
/// lies in few pieces.
pub const RUN_ROWS: usize = 262_144;

/// Rows as so many at a time at most, each batch as a part of one run. Short runs are put together,
/// so that the batches are few.
pub fn batches(alloc: Global, rows: &Rows, most: usize) -> Result<Vec<Rows>, AllocError>
    requires { 0 < most }
    ensures { IfOk result (λ v. flat_map (λ batch. batch) v.items ≡ rows.now) }
{
    let runs = rows.runs(alloc)?;
    let mut out = Vec::with_capacity(alloc, runs.len())?;
    for i in 0..runs.len() {
        add_batches(alloc, &runs[i], most, &mut out)?;
    }
    Ok(out)
}

/// Adds a run of rows as so many at a time at most.
fn add_batches(
    alloc: Global,
    run: &Rows,
    most: usize,
    out: &mut Vec<Rows>,
) -> Result<(), AllocError>
    requires { 0 < most }
    ensures { OnOk result (flat_map (λ batch. batch) out.new.items
        ≡ flat_map (λ batch. batch) out.old.items ++ run.now) }
{
    let mut from = 0;
    while from < run.len() {
        let to = from + most.min(run.len() - from);
        out.push(run.part(alloc, from, to)?)?;
        from = to;
    }
    Ok(())
}
