//! Rows that are being made.
#![tactic(auto)]

ghost use Rattle.std.specs.Arc.{arc_value};
ghost use Rattle.std.specs.List.{flat_map};
ghost use Rattle.std.specs.Prelude.{◌≡◌, ◌++◌, [], ◌∷◌, if◌then◌else◌, IfOk, is_ok, slice_range};
ghost use Rattle.sc_value.specs.Views.{datum_of};
ghost use Rattle.sc_columns.specs.Columns.{rows_in, shared_rows};
ghost use Rattle.sc_columns.specs.Runs.{run_rows};

use crate::chains::{chain_of, joined};
use crate::columns::Shared;
use crate::joins::{extend, extend_short};
use crate::parts::part;
use crate::pushes::{one_row, push};
use crate::ranges::extend_range;
use crate::rows::Rows;
use crate::runs::{Run, closed as closed_run, closed_all};
use sc_value::Value;
use std::alloc::{AllocError, Global};
use std::marker::Model;
use std::mem;
use std::sync::Arc;

/// Rows that are being made one after another, or column by column.
///
/// Numbers, truth values, texts and pairs of these are gathered as columns of their own; where a
/// row of another kind comes, a new run of rows begins. What is refused for want of memory changes
/// nothing.
#[derive(Drop)]
pub struct RowsBuilder {
    closed: Vec<Run>,
    last: Run,
}

impl Model for RowsBuilder {
    ghost use Rattle.std.specs.Prelude.{◌++◌, List};
    ghost use Rattle.std.specs.List.{flat_map};
    ghost use Rattle.std.specs.Coded.{coded_list};
    ghost use Rattle.sc_value.specs.Datum.{Datum};
    ghost use Rattle.sc_value.specs.DatumCode.{datum_code};
    ghost use Rattle.sc_columns.specs.Runs.{run_rows};

    ghost Value = { List Datum };

    ghost coded = { coded_list datum_code };

    ghost view = { λ b. flat_map run_rows b.closed.items ++ run_rows b.last };
}

impl RowsBuilder {
    /// No rows.
    pub fn new(alloc: Global) -> RowsBuilder
        ensures { result ≡ [] }
    {
        RowsBuilder {
            closed: Vec::new(alloc),
            last: Run::Empty,
        }
    }

    /// Adds a copy of a value as the last row.
    pub fn push(&mut self, alloc: Global, value: &Value) -> Result<(), AllocError>
        ensures { self.new
            ≡ (if is_ok result then self.old ++ datum_of value.now ∷ [] else self.old) }
    {
        if push(alloc, value, &mut self.last)? {
            return Ok(());
        }
        self.begin(one_row(alloc, value)?)
    }

    /// Adds rows behind those that are there. Many rows are shared, as a run of their own; few, and
    /// numbers and truth values, are copied behind those before them, where they are of their kind.
    pub fn append(&mut self, alloc: Global, rows: &Rows) -> Result<(), AllocError>
        ensures { self.new ≡ (if is_ok result then self.old ++ rows.now else self.old) }
    {
        if rows.is_empty() {
            return Ok(());
        }
        self.add_or_share(alloc, rows.column())
    }

    /// Adds the rows from one place up to, not including, another, as far as there are rows. It is
    /// [`RowsBuilder::append`] of [`Rows::part`], and makes no rows of their own of a few.
    pub fn append_part(
        &mut self,
        alloc: Global,
        rows: &Rows,
        from: usize,
        to: usize,
    ) -> Result<(), AllocError>
        ensures { self.new
            ≡ (if is_ok result then self.old ++ slice_range rows.now from to else self.old) }
    {
        if to <= from || extend_range(rows.column(), from, to, &mut self.last)? {
            return Ok(());
        }
        self.add_or_share(alloc, &part(alloc, rows.column(), from, to)?)
    }

    /// The rows, to be shared.
    pub fn finish(self, alloc: Global) -> Result<Rows, AllocError>
        ensures { IfOk result (λ r. r ≡ self) }
    {
        Rows::of_column(self.close(alloc)?)
    }

    /// The rows, run by run.
    pub(crate) fn runs(self, alloc: Global) -> Result<Vec<Rows>, AllocError>
        ensures { IfOk result (λ v. flat_map (λ run. run) v.items ≡ self) }
    {
        rows_of_each(alloc, &self.columns(alloc)?)
    }

    /// Adds the rows of a column, which are shared where they are many and dear to copy.
    pub(crate) fn add_or_share(&mut self, alloc: Global, column: &Shared) -> Result<(), AllocError>
        ensures { self.new ≡ (if is_ok result
            then self.old ++ rows_in (arc_value column.now) else self.old) }
    {
        let column = joined(alloc, column)?;
        if extend_short(alloc, &column, &mut self.last)? {
            return Ok(());
        }
        self.begin(Run::Lone(column))
    }

    /// Adds the rows of a column in the run of those before it, where they are of one kind.
    pub(crate) fn add(&mut self, alloc: Global, column: &Shared) -> Result<(), AllocError>
        ensures { self.new ≡ (if is_ok result
            then self.old ++ rows_in (arc_value column.now) else self.old) }
    {
        if extend(alloc, column, &mut self.last)? {
            return Ok(());
        }
        self.begin(Run::Lone(Arc::try_clone(column)?))
    }

    /// Begins a new run of rows.
    fn begin(&mut self, next: Run) -> Result<(), AllocError>
        ensures { self.new ≡ (if is_ok result then self.old ++ run_rows next else self.old) }
    {
        let last = mem::replace(&mut self.last, next);
        match self.closed.push(last) {
            Ok(()) => Ok(()),
            Err(failed) => {
                self.last = failed.value;
                Err(AllocError)
            }
        }
    }

    /// The rows as a column.
    pub(crate) fn close(self, alloc: Global) -> Result<Shared, AllocError>
        ensures { IfOk result (λ c. rows_in (arc_value c) ≡ self) }
    {
        chain_of(alloc, &self.columns(alloc)?)
    }

    /// The rows as a column for each run.
    fn columns(self, alloc: Global) -> Result<Vec<Shared>, AllocError>
        ensures { IfOk result (λ v. flat_map shared_rows v.items ≡ self) }
    {
        let RowsBuilder { closed, last } = self;
        let mut columns = closed_all(alloc, closed)?;
        columns.push(closed_run(alloc, last)?)?;
        Ok(columns)
    }
}

/// Each of some columns as rows.
fn rows_of_each(alloc: Global, columns: &[Shared]) -> Result<Vec<Rows>, AllocError>
    ensures { IfOk result
        (λ v. flat_map (λ run. run) v.items ≡ flat_map shared_rows columns.now) }
{
    let mut out = Vec::with_capacity(alloc, columns.len())?;
    for i in 0..columns.len() {
        out.push(Rows::of_column(Arc::try_clone(&columns[i])?)?)?;
    }
    Ok(out)
}
