//! Numbers put together.
#![tactic(auto)]

ghost use Rattle.std.specs.Prelude.{◌≡◌, fold, map};
ghost use Rattle.sc_value.specs.Datum.{number};
ghost use Rattle.sc_value.specs.Views.{datum_of};
ghost use Rattle.sc_expr.specs.Views.{expr_data_of};
ghost use Rattle.sc_lineage.specs.Actions.{folded};
ghost use Rattle.sc_batch.specs.AtInts.{Gives};
ghost use Rattle.sc_batch.specs.IntFolds.{put_together};

use sc_batch::{IntFold, Stop, TwoInts, int_at, int_fold};
use sc_columns::Rows;
use sc_expr::Expr;
use sc_value::Value;

/// Rows put together with a value, where they are held as numbers and the expression stays among
/// numbers.
///
/// # Errors
///
/// The first raise, or `Beyond` where nothing is said.
pub fn fold_as_ints(expr: &Expr, value: &Value, rows: &Rows) -> Result<i64, Stop>
    ensures { Gives number result
        (folded (expr_data_of expr.now) (datum_of value.now) rows.now) }
{
    let Some(items) = rows.as_ints() else {
        return Err(Stop::Beyond);
    };
    match value {
        Value::Int(n) => fold_numbers(expr, *n, items),
        Value::Bool(_) | Value::Text(_) | Value::Pair(_, _) | Value::List(_) => Err(Stop::Beyond),
    }
}

/// Numbers put together with another from the left by an expression.
fn fold_numbers(expr: &Expr, first: i64, items: &[i64]) -> Result<i64, Stop>
    ensures { Gives number result
        (folded (expr_data_of expr.now) (number first) (map number items.now)) }
{
    match int_fold(expr) {
        Some(kind) => Ok(fold_ints(kind, first, items)),
        None => found_int(expr, first, items),
    }
}

/// Numbers put together with another from the left.
fn fold_ints(kind: IntFold, first: i64, items: &[i64]) -> i64
    ensures { result ≡ fold (put_together kind) first items.now }
{
    let mut n = first;
    for item in items {
        n = kind.put(n, *item);
    }
    n
}

/// The same by an expression of any form, as far as it stays among numbers.
fn found_int(expr: &Expr, first: i64, items: &[i64]) -> Result<i64, Stop>
    ensures { Gives number result
        (folded (expr_data_of expr.now) (number first) (map number items.now)) }
{
    let mut n = first;
    for i in 0..items.len() {
        let b = items[i];
        n = int_at(expr, TwoInts { a: n, b })?;
    }
    Ok(n)
}
