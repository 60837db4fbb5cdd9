//! Columns as runs that can grow.
#![tactic(auto)]

ghost use Rattle.std.specs.Arc.{arc_value};
ghost use Rattle.std.specs.Prelude.{◌≡◌, IfOk, IfSome, box_value, replicate};
ghost use Rattle.sc_value.specs.Views.{datum_of};
ghost use Rattle.sc_columns.specs.Columns.{rows_in};
ghost use Rattle.sc_columns.specs.Runs.{run_rows};

use crate::adds::push_copies;
use crate::columns::{Column, Shared, same};
use crate::runs::Run;
use crate::text_runs::TextRun;
use sc_value::{Value, copy};
use std::alloc::{AllocError, Global};
use std::sync::Arc;

/// Makes a run that others hold one that can grow, where its form has one.
pub fn settle(alloc: Global, run: &mut Run) -> Result<(), AllocError>
    ensures { run_rows run.new ≡ run_rows run.old }
{
    match run {
        Run::Lone(column) => match growing(alloc, column)? {
            Some(next) => {
                put(run, next);
                Ok(())
            }
            None => Ok(()),
        },
        _ => Ok(()),
    }
}

/// Puts a run in the place of another.
pub fn put(run: &mut Run, next: Run)
    ensures { run.new ≡ next }
{
    *run = next;
}

/// The rows of a column as a run that can grow, where its form has one.
fn growing(alloc: Global, column: &Column) -> Result<Option<Run>, AllocError>
    ensures { IfOk result (λ o. IfSome o (λ r. run_rows r ≡ rows_in column.now)) }
{
    match column {
        Column::Ints(v) => Ok(Some(Run::Ints(Vec::from_slice(alloc, v.as_slice())?))),
        Column::Bools(v) => Ok(Some(Run::Bools(Vec::from_slice(alloc, v.as_slice())?))),
        Column::Texts(t) => {
            let mut out = TextRun::new(alloc);
            out.append(t)?;
            Ok(Some(Run::Texts(out)))
        }
        Column::Pairs(a, b) => {
            let first = lone(alloc, Arc::try_clone(a)?)?;
            let second = lone(alloc, Arc::try_clone(b)?)?;
            Ok(Some(Run::Pairs(first, second)))
        }
        Column::Same(value, n) => copies(alloc, value, *n),
        Column::Lists(_, _) | Column::Values(_) | Column::Chain(_, _) => Ok(None),
    }
}

/// One value so many times, as a run that can grow, where its form has one.
fn copies(alloc: Global, value: &Value, n: usize) -> Result<Option<Run>, AllocError>
    ensures { IfOk result (λ o. IfSome o (λ r. run_rows r ≡ replicate n (datum_of value.now))) }
{
    match value {
        Value::Int(k) => {
            let mut out = Vec::new(alloc);
            push_copies(*k, n, &mut out)?;
            Ok(Some(Run::Ints(out)))
        }
        Value::Bool(b) => {
            let mut out = Vec::new(alloc);
            push_copies(*b, n, &mut out)?;
            Ok(Some(Run::Bools(out)))
        }
        Value::Text(t) => {
            let mut out = TextRun::new(alloc);
            out.push_copies(alloc, t.as_str(), n)?;
            Ok(Some(Run::Texts(out)))
        }
        Value::Pair(a, b) => {
            let a = Arc::new(alloc, copy(alloc, a)?)?;
            let b = Arc::new(alloc, copy(alloc, b)?)?;
            let first = lone(alloc, same(alloc, a, n)?)?;
            let second = lone(alloc, same(alloc, b, n)?)?;
            Ok(Some(Run::Pairs(first, second)))
        }
        Value::List(_) => Ok(None),
    }
}

fn lone(alloc: Global, column: Shared) -> Result<Box<Run>, AllocError>
    ensures { IfOk result (λ r. run_rows (box_value r) ≡ rows_in (arc_value column)) }
{
    Ok(Box::new(alloc, Run::Lone(column))?)
}
