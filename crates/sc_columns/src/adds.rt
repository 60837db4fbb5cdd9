//! Columns of one kind behind others.
#![tactic(auto)]

ghost use Rattle.std.specs.Prelude.{◌≡◌, ◌++◌, if◌then◌else◌, is_ok, map, replicate};
ghost use Rattle.sc_value.specs.Datum.{number, text, truth};
ghost use Rattle.sc_columns.specs.Columns.{rows_in};
ghost use Rattle.sc_columns.specs.Runs.{is_yes};

use crate::columns::Column;
use crate::text_runs::TextRun;
use sc_value::Value;
use std::alloc::{AllocError, Global};

/// Adds a column behind numbers, or answers that it holds none.
pub fn add_ints(column: &Column, out: &mut Vec<i64>) -> Result<bool, AllocError>
    ensures { map number out.new.items ≡ (if is_yes result
        then map number out.old.items ++ rows_in column.now else map number out.old.items) }
{
    match column {
        Column::Ints(v) => {
            out.extend_from_slice(v.as_slice())?;
            Ok(true)
        }
        Column::Same(value, n) => match &**value {
            Value::Int(k) => {
                push_copies(*k, *n, out)?;
                Ok(true)
            }
            _ => Ok(false),
        },
        _ => Ok(false),
    }
}

/// Adds a column behind truth values, or answers that it holds none.
pub fn add_bools(column: &Column, out: &mut Vec<bool>) -> Result<bool, AllocError>
    ensures { map truth out.new.items ≡ (if is_yes result
        then map truth out.old.items ++ rows_in column.now else map truth out.old.items) }
{
    match column {
        Column::Bools(v) => {
            out.extend_from_slice(v.as_slice())?;
            Ok(true)
        }
        Column::Same(value, n) => match &**value {
            Value::Bool(b) => {
                push_copies(*b, *n, out)?;
                Ok(true)
            }
            _ => Ok(false),
        },
        _ => Ok(false),
    }
}

/// Adds a column behind texts, or answers that it holds none.
pub fn add_texts(alloc: Global, column: &Column, out: &mut TextRun) -> Result<bool, AllocError>
    ensures { map text out.new ≡ (if is_yes result
        then map text out.old ++ rows_in column.now else map text out.old) }
{
    match column {
        Column::Texts(t) => {
            out.append(t)?;
            Ok(true)
        }
        Column::Same(value, n) => match &**value {
            Value::Text(t) => {
                out.push_copies(alloc, t.as_str(), *n)?;
                Ok(true)
            }
            _ => Ok(false),
        },
        _ => Ok(false),
    }
}

/// Adds an item so many times.
pub fn push_copies<T: Copy>(item: T, n: usize, out: &mut Vec<T>) -> Result<(), AllocError>
    ensures { out.new.items
        ≡ (if is_ok result then out.old.items ++ replicate n item else out.old.items) }
{
    if n > usize::MAX - out.len() {
        return Err(AllocError);
    }
    out.resize(out.len() + n, item)
}
