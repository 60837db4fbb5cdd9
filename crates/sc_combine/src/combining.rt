//! Values put together under their keys.
#![tactic(auto)]

ghost use Rattle.std.specs.Prelude.{◌≡◌, IfOk, IfSome, [], length, map, replicate};
ghost use Rattle.sc_base.specs.Answers.{Answers};
ghost use Rattle.sc_columns.specs.Columns.{zip_with};
ghost use Rattle.sc_expr.specs.Heads.{first_of as first_part, second_of as second_part};
ghost use Rattle.sc_expr.specs.Views.{expr_data_of};
ghost use Rattle.sc_lineage.specs.Keyed.{combined as combined_of};
ghost use Rattle.sc_value.specs.Datum.{number, pair};
ghost use Rattle.sc_value.specs.Views.{datum_of};
ghost use Rattle.sc_combine.specs.Combining.{folded_by, put_at, step_of};
ghost use Rattle.sc_combine.specs.declared.combining.Taken.TheVariants.{Rows as WholeRows, Values};

use crate::grouping::group;
use crate::int_folds::fold_as_ints;
use crate::runs::pairs_of_runs;
use sc_base::OrMemory;
use sc_batch::{halves, put_next};
use sc_columns::{Both, Rows, RowsBuilder};
use sc_expr::{Env, EvalError, Expr, Raise, eval};
use sc_value::{Value, copy};
use std::alloc::{AllocError, Global};

/// What is put together.
#[derive(Clone, Copy, Debug, PartialEq, Eq)]
pub enum Taken {
    /// Values.
    Values,
    /// Whole rows: their values, beside the key of the first.
    Rows,
}

/// Each key once, in order of first appearance, with its values put together from the left.
///
/// # Errors
///
/// The first raise in the order of the rows, unless memory runs out.
pub fn combined(alloc: Global, expr: &Expr, rows: &Rows) -> Result<Rows, OrMemory<Raise>>
    ensures { Answers (λ r. r) (λ r. r) result (combined_of (expr_data_of expr.now) rows.now) }
{
    match pairs_of_runs(alloc, rows)? {
        Some(both) => combined_columns(alloc, expr, both),
        None => {
            let rows = rows.joined(alloc)?;
            combined_rows(alloc, expr, &rows)
        }
    }
}

/// The same, where the rows are held as pairs.
fn combined_columns(alloc: Global, expr: &Expr, both: Both) -> Result<Rows, EvalError>
    requires level { length both.second ≡ length both.first }
    ensures { Answers (λ r. r) (λ r. r) result
        (combined_of (expr_data_of expr.now) (zip_with pair both.first both.second)) }
{
    let groups = group(alloc, &both.first)?;
    let values = combined_values(alloc, expr, &groups.numbers, &both.second)?;
    Ok(Rows::pairs(alloc, groups.keys, values)?)
}

/// The same, where the rows are held in another way.
fn combined_rows(alloc: Global, expr: &Expr, rows: &Rows) -> Result<Rows, EvalError>
    ensures { Answers (λ r. r) (λ r. r) result (combined_of (expr_data_of expr.now) rows.now) }
{
    let both = halves(alloc, rows)?;
    let groups = group(alloc, &both.first)?;
    let kept = kept_items(alloc, expr, Taken::Rows, &groups.numbers, rows)?;
    Ok(rows_of(alloc, &kept)?)
}

/// The values of each group put together: numbers in one loop, where the expression is simple, else
/// value by value.
fn combined_values(
    alloc: Global,
    expr: &Expr,
    numbers: &[u32],
    values: &Rows,
) -> Result<Rows, EvalError>
    requires level { length values.now ≡ length numbers.now }
    ensures { Answers (λ r. r) (λ r. r) result
        (folded_by (step_of Values (expr_data_of expr.now)) [] numbers.now values.now) }
{
    let values = written_out(alloc, values)?;
    match fold_as_ints(alloc, expr, numbers, &values)? {
        Some(rows) => Ok(rows),
        None => {
            let kept = kept_items(alloc, expr, Taken::Values, numbers, &values)?;
            Ok(rows_of(alloc, &kept)?)
        }
    }
}

/// The same values in one run, where a number that is held once for all rows is written out for
/// each.
fn written_out(alloc: Global, values: &Rows) -> Result<Rows, AllocError>
    ensures { IfOk result (λ rows. rows ≡ values.now) }
{
    match repeated_number(values) {
        Some(n) => Rows::of_ints(alloc, vec![in alloc; n; values.len()]?),
        None => values.joined(alloc),
    }
}

/// The number that all rows are, where they are held so. None is always a right answer.
fn repeated_number(values: &Rows) -> Option<i64>
    ensures { IfSome result (λ n. values.now ≡ replicate (length values.now) (number n)) }
{
    match values.as_repeated() {
        Some(Value::Int(n)) => Some(*n),
        Some(_) | None => None,
    }
}

/// The items of each group put together, one by one.
fn kept_items(
    alloc: Global,
    expr: &Expr,
    taken: Taken,
    numbers: &[u32],
    items: &Rows,
) -> Result<Vec<Value>, EvalError>
    requires level { length items.now ≡ length numbers.now }
    ensures { Answers (λ v. map datum_of v.items) (λ r. r) result
        (folded_by (step_of taken (expr_data_of expr.now)) [] numbers.now items.now) }
{
    let mut kept = Vec::new(alloc);
    for i in 0..items.len() {
        let item = items.row(alloc, i)?;
        put_item(alloc, expr, taken, numbers[i] as usize, item, &mut kept)?;
    }
    Ok(kept)
}

/// One item more, whose group has a number.
fn put_item(
    alloc: Global,
    expr: &Expr,
    taken: Taken,
    group: usize,
    item: Value,
    kept: &mut Vec<Value>,
) -> Result<(), EvalError>
    ensures { Answers (λ _. map datum_of kept.new.items) (λ r. r) result
        (put_at (step_of taken (expr_data_of expr.now)) (map datum_of kept.old.items) group
        (datum_of item)) }
{
    if group >= kept.len() {
        kept.push(item)?;
        return Ok(());
    }
    put_beside(alloc, expr, taken, &mut kept[group], &item)
}

/// Puts in place of an item what it gives with the next one of its group.
fn put_beside(
    alloc: Global,
    expr: &Expr,
    taken: Taken,
    kept: &mut Value,
    next: &Value,
) -> Result<(), EvalError>
    ensures { Answers (λ _. datum_of kept.new) (λ r. r) result
        (step_of taken (expr_data_of expr.now) (datum_of kept.old) (datum_of next.now)) }
{
    match taken {
        Taken::Values => put_next(alloc, expr, kept, next),
        Taken::Rows => {
            let row = row_together(alloc, expr, kept, next)?;
            *kept = row;
            Ok(())
        }
    }
}

/// The row that two rows of one key give together.
fn row_together(alloc: Global, expr: &Expr, kept: &Value, next: &Value) -> Result<Value, EvalError>
    ensures { Answers datum_of (λ r. r) result
        (step_of WholeRows (expr_data_of expr.now) (datum_of kept.now) (datum_of next.now)) }
{
    let first = second_of(alloc, kept)?;
    let second = second_of(alloc, next)?;
    let value = eval(alloc, expr, Env::Two(&first, &second))?;
    let key = first_of(alloc, kept)?;
    Ok(pair_of(alloc, key, value)?)
}

/// A pair of two values.
fn pair_of(alloc: Global, first: Value, second: Value) -> Result<Value, AllocError>
    ensures { IfOk result (λ v. datum_of v ≡ pair (datum_of first) (datum_of second)) }
{
    Ok(Value::Pair(Box::new(alloc, first)?, Box::new(alloc, second)?))
}

/// A copy of the first part of a pair; of another value it is false.
fn first_of(alloc: Global, value: &Value) -> Result<Value, AllocError>
    ensures { IfOk result (λ v. datum_of v ≡ first_part (datum_of value.now)) }
{
    match value {
        Value::Pair(first, _) => copy(alloc, first),
        Value::Int(_) | Value::Bool(_) | Value::Text(_) | Value::List(_) => Ok(Value::Bool(false)),
    }
}

/// A copy of the second part of a pair; of another value it is false.
fn second_of(alloc: Global, value: &Value) -> Result<Value, AllocError>
    ensures { IfOk result (λ v. datum_of v ≡ second_part (datum_of value.now)) }
{
    match value {
        Value::Pair(_, second) => copy(alloc, second),
        Value::Int(_) | Value::Bool(_) | Value::Text(_) | Value::List(_) => Ok(Value::Bool(false)),
    }
}

/// Values as rows.
fn rows_of(alloc: Global, values: &[Value]) -> Result<Rows, AllocError>
    ensures { IfOk result (λ r. r ≡ map datum_of values.now) }
{
    let mut out = RowsBuilder::new(alloc);
    for value in values {
        out.push(alloc, value)?;
    }
    out.finish(alloc)
}
