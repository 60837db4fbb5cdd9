//! Columns in several runs, and in one.
#![tactic(auto)]

ghost use Rattle.std.specs.Arc.{arc_value};
ghost use Rattle.std.specs.Prelude.{◌≡◌, ◌++◌, IfOk, OnOk};
ghost use Rattle.std.specs.List.{flat_map};
ghost use Rattle.sc_columns.specs.Columns.{rows_in, shared_rows};

use crate::builder::RowsBuilder;
use crate::columns::{Column, Shared, chained, ints, lists, pairs};
use crate::rows::Rows;
use sc_value::Held;
use std::alloc::{AllocError, Global};
use std::sync::Arc;

impl Rows {
    /// The same rows in one run: a copy where they are held in several.
    pub fn joined(&self, alloc: Global) -> Result<Rows, AllocError>
        ensures { IfOk result (λ r. r ≡ self.now) }
    {
        Rows::of_column(joined(alloc, self.column())?)
    }

    /// The same rows as they are held, run by run. Short runs are put together, for which they are
    /// copied, so that there are few.
    pub fn runs(&self, alloc: Global) -> Result<Vec<Rows>, AllocError>
        ensures { IfOk result (λ v. flat_map (λ run. run) v.items ≡ self.now) }
    {
        let mut out = RowsBuilder::new(alloc);
        add_runs(alloc, self.column(), &mut out)?;
        out.runs(alloc)
    }
}

/// Adds the rows of each run of a column, of which long ones stay by themselves.
fn add_runs(alloc: Global, column: &Shared, out: &mut RowsBuilder) -> Result<(), AllocError>
    ensures { OnOk result (out.new ≡ out.old ++ shared_rows column.now) }
{
    match &**column {
        Column::Chain(a, b) => {
            add_runs(alloc, a, out)?;
            add_runs(alloc, b, out)
        }
        _ => out.add_or_share(alloc, column),
    }
}

/// Columns behind one another. The chain is no deeper than it must be.
pub fn chain_of(alloc: Global, runs: &[Shared]) -> Result<Shared, AllocError>
    ensures { IfOk result (λ c. shared_rows c ≡ flat_map shared_rows runs.now) }
{
    match runs {
        [] => ints(alloc, Held::new(alloc, Vec::new(alloc))?),
        [one] => Arc::try_clone(one),
        _ => {
            let (left, right) = runs.split_at(runs.len() / 2);
            let first = chain_of(alloc, left)?;
            let second = chain_of(alloc, right)?;
            chained(alloc, first, second)
        }
    }
}

/// The same rows in one run: a copy where they are held in several.
#[cycle(joins)]
pub fn joined(alloc: Global, column: &Shared) -> Result<Shared, AllocError>
    ensures { IfOk result (λ c. shared_rows c ≡ shared_rows column.now) }
{
    if !has_runs(column) {
        return Arc::try_clone(column);
    }
    match &**column {
        Column::Pairs(a, b) => {
            let first = joined(alloc, a)?;
            let second = joined(alloc, b)?;
            pairs(alloc, first, second)
        }
        Column::Lists(spans, items) => {
            let items = joined(alloc, items)?;
            lists(alloc, spans.share()?, items)
        }
        Column::Chain(a, b) => {
            let mut out = RowsBuilder::new(alloc);
            gather(alloc, a, &mut out)?;
            gather(alloc, b, &mut out)?;
            out.close(alloc)
        }
        _ => Arc::try_clone(column),
    }
}

/// Adds the rows of each run of a column.
#[cycle(joins)]
fn gather(alloc: Global, column: &Shared, out: &mut RowsBuilder) -> Result<(), AllocError>
    ensures { OnOk result (out.new ≡ out.old ++ shared_rows column.now) }
{
    match &**column {
        Column::Chain(a, b) => {
            gather(alloc, a, out)?;
            gather(alloc, b, out)
        }
        _ => {
            let one = joined(alloc, column)?;
            out.add(alloc, &one)
        }
    }
}

/// Whether the rows, or what they are made of, are held in several runs.
fn has_runs(column: &Column) -> bool {
    match column {
        Column::Chain(_, _) => true,
        Column::Pairs(a, b) => has_runs(a) || has_runs(b),
        Column::Lists(_, items) => has_runs(items),
        _ => false,
    }
}
