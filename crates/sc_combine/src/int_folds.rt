//! Numbers put together by group.
#![tactic(auto)]

ghost use Rattle.std.specs.Prelude.{◌≡◌, IfOk, Ok, Err, [], length, map};
ghost use Rattle.sc_base.specs.declared.refusals.OrMemory.TheVariants.{Fault};
ghost use Rattle.sc_value.specs.Datum.{number};
ghost use Rattle.sc_expr.specs.ExprData.{ExprData};
ghost use Rattle.sc_expr.specs.Views.{expr_data_of};
ghost use Rattle.sc_batch.specs.IntFolds.{FoldsInts};
ghost use Rattle.sc_lineage.specs.Keyed.{Side};
ghost use Rattle.sc_combine.specs.Combining.{folded_by, put_at, step_of};
ghost use Rattle.sc_combine.specs.IntFolds.{AreFound, FindsRows};
ghost use Rattle.sc_combine.specs.declared.combining.Taken.TheVariants.{Values};

use sc_base::OrMemory;
use sc_batch::{IntFold, Stop, TwoInts, int_at, int_fold};
use sc_columns::Rows;
use sc_expr::{EvalError, Expr};
use std::alloc::{AllocError, Global};

/// The values of each group put together, where they are held as numbers and the expression stays
/// among numbers.
///
/// # Errors
///
/// The first raise, unless memory runs out.
pub fn fold_as_ints(
    alloc: Global,
    expr: &Expr,
    numbers: &[u32],
    values: &Rows,
) -> Result<Option<Rows>, EvalError>
    requires level { length values.now ≡ length numbers.now }
    ensures { FindsRows (folded_by (step_of Values (expr_data_of expr.now)) [] numbers.now
        values.now) result }
{
    let Some(items) = values.as_ints() else {
        return Ok(None);
    };
    match int_fold(expr) {
        Some(kind) => {
            let folded = fold_ints(alloc, kind, numbers, items)?;
            let rows = Rows::of_ints(alloc, folded)?;
            Ok(Some(rows))
        }
        None => found_rows(alloc, found_ints(alloc, expr, numbers, items)),
    }
}

/// Numbers that were found as rows; nothing where they couldn't be.
fn found_rows(
    alloc: Global,
    found: Result<Vec<i64>, OrMemory<Stop>>,
) -> Result<Option<Rows>, EvalError>
    ensures { (whole : Side) → AreFound (λ v. v.items) whole found → FindsRows whole result }
{
    match found {
        Ok(folded) => {
            let rows = Rows::of_ints(alloc, folded)?;
            Ok(Some(rows))
        }
        Err(error) => match error {
            OrMemory::Fault(stop) => unless_beyond(stop),
            OrMemory::OutOfMemory => Err(OrMemory::OutOfMemory),
        },
    }
}

/// The raise that stopped numbers from being found; nothing where it was none.
fn unless_beyond(stop: Stop) -> Result<Option<Rows>, EvalError>
    ensures { (whole : Side) → AreFound {X = Unit {0}} (λ _. []) whole (Err (Fault stop))
        → FindsRows whole result }
{
    match stop {
        Stop::Raised(raise) => Err(OrMemory::Fault(raise)),
        Stop::Beyond => Ok(None),
    }
}

/// The numbers of each group put together by an expression, found with numbers alone.
///
/// # Errors
///
/// The first raise, or `Beyond` where the expression goes beyond numbers, unless memory runs out.
fn found_ints(
    alloc: Global,
    expr: &Expr,
    numbers: &[u32],
    items: &[i64],
) -> Result<Vec<i64>, OrMemory<Stop>>
    requires level { length items.now ≡ length numbers.now }
    ensures { AreFound (λ v. v.items) (folded_by (step_of Values (expr_data_of expr.now)) []
        numbers.now (map number items.now)) result }
{
    let mut found = Vec::new(alloc);
    for i in 0..items.len() {
        put_int(expr, numbers[i] as usize, items[i], &mut found)?;
    }
    Ok(found)
}

/// One number more, whose group has a number.
fn put_int(expr: &Expr, group: usize, item: i64, found: &mut Vec<i64>) -> Result<(), OrMemory<Stop>>
    ensures { AreFound (λ _. found.new.items) (put_at (step_of Values (expr_data_of expr.now))
        (map number found.old.items) group (number item)) result }
{
    if group >= found.len() {
        found.push(item)?;
        return Ok(());
    }
    let a = found[group];
    match int_at(expr, TwoInts { a, b: item }) {
        Ok(n) => {
            found[group] = n;
            Ok(())
        }
        Err(stop) => Err(OrMemory::Fault(stop)),
    }
}

/// The numbers of each group put together.
fn fold_ints(
    alloc: Global,
    kind: IntFold,
    numbers: &[u32],
    items: &[i64],
) -> Result<Vec<i64>, AllocError>
    requires level { length items.now ≡ length numbers.now }
    ensures { IfOk result (λ v. (e : ExprData) → FoldsInts e kind
        → folded_by (step_of Values e) [] numbers.now (map number items.now)
        ≡ Ok (map number v.items)) }
{
    let mut folded = Vec::new(alloc);
    for i in 0..items.len() {
        let group = numbers[i] as usize;
        if group < folded.len() {
            folded[group] = kind.put(folded[group], items[i]);
        } else {
            folded.push(items[i])?;
        }
    }
    Ok(folded)
}
