//! Pairs as two columns.
#![tactic(auto)]

ghost use Rattle.std.specs.Prelude.{◌≡◌, ◌++◌, ◌∷◌, [], IfOk, OnOk, map};
ghost use Rattle.sc_value.specs.Views.{datum_of};
ghost use Rattle.sc_expr.specs.Heads.{first_of, second_of};

use sc_columns::{Both, Rows, RowsBuilder};
use sc_value::Value;
use std::alloc::{AllocError, Global};

/// The first and the second parts of rows, in one run each. A row that isn't a pair counts as a
/// pair of false and false.
pub fn halves(alloc: Global, rows: &Rows) -> Result<Both, AllocError>
    ensures first { IfOk result (λ both. both.first ≡ map first_of rows.now) }
    ensures second { IfOk result (λ both. both.second ≡ map second_of rows.now) }
{
    let rows = rows.joined(alloc)?;
    match rows.as_pairs(alloc)? {
        Some(both) => Ok(both),
        None => parts_of_each(alloc, &rows),
    }
}

/// The same, row by row.
fn parts_of_each(alloc: Global, rows: &Rows) -> Result<Both, AllocError>
    ensures first { IfOk result (λ both. both.first ≡ map first_of rows.now) }
    ensures second { IfOk result (λ both. both.second ≡ map second_of rows.now) }
{
    let mut first = RowsBuilder::new(alloc);
    let mut second = RowsBuilder::new(alloc);
    for i in 0..rows.len() {
        let row = rows.row(alloc, i)?;
        push_parts(alloc, &row, &mut first, &mut second)?;
    }
    let first = first.finish(alloc)?;
    let second = second.finish(alloc)?;
    Ok(Both { first, second })
}

/// Adds the first part of a value to some rows, and the second to others.
fn push_parts(
    alloc: Global,
    value: &Value,
    first: &mut RowsBuilder,
    second: &mut RowsBuilder,
) -> Result<(), AllocError>
    ensures first { OnOk result (first.new ≡ first.old ++ first_of (datum_of value.now) ∷ []) }
    ensures second { OnOk result (second.new ≡ second.old ++ second_of (datum_of value.now) ∷ []) }
{
    match value {
        Value::Pair(a, b) => {
            first.push(alloc, a)?;
            second.push(alloc, b)?;
        }
        Value::Int(_) | Value::Bool(_) | Value::Text(_) | Value::List(_) => {
            first.push(alloc, &Value::Bool(false))?;
            second.push(alloc, &Value::Bool(false))?;
        }
    }
    Ok(())
}
