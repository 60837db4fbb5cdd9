//! Single rows behind others.
#![tactic(auto)]

ghost use Rattle.std.specs.Prelude.{◌≡◌, ◌++◌, [], ◌∷◌, if◌then◌else◌, IfOk, map};
ghost use Rattle.sc_value.specs.Datum.{number, text, truth};
ghost use Rattle.sc_value.specs.Views.{datum_of};
ghost use Rattle.sc_columns.specs.Runs.{is_yes, run_rows};

use crate::growing::{put, settle};
use crate::runs::{Run, is_level};
use crate::text_runs::TextRun;
use sc_value::{Value, copy};
use std::alloc::{AllocError, Global};

/// Adds a copy of a value behind a run, or answers that they don't go together.
pub fn push(alloc: Global, value: &Value, run: &mut Run) -> Result<bool, AllocError>
    ensures { run_rows run.new ≡ (if is_yes result
        then run_rows run.old ++ datum_of value.now ∷ [] else run_rows run.old) }
{
    settle(alloc, run)?;
    begin(alloc, value, run)?;
    match run {
        Run::Ints(out) => push_int(value, out),
        Run::Bools(out) => push_bool(value, out),
        Run::Texts(out) => push_text(value, out),
        Run::Pairs(first, second) => match value {
            Value::Pair(a, b) => {
                if !is_level(first, second) {
                    return Ok(false);
                }
                match push(alloc, a, first) {
                    Ok(done) => {
                        if done {
                            push(alloc, b, second)
                        } else {
                            Ok(false)
                        }
                    }
                    Err(e) => Err(e),
                }
            }
            _ => Ok(false),
        },
        Run::Values(out) => {
            out.push(copy(alloc, value)?)?;
            Ok(true)
        }
        Run::Empty | Run::Lone(_) => Ok(false),
    }
}

/// A copy of a value as the only row of a run.
pub fn one_row(alloc: Global, value: &Value) -> Result<Run, AllocError>
    ensures { IfOk result (λ r. run_rows r ≡ datum_of value.now ∷ []) }
{
    let mut run = Run::Empty;
    if push(alloc, value, &mut run)? {
        return Ok(run);
    }
    let mut values = Vec::new(alloc);
    values.push(copy(alloc, value)?)?;
    Ok(Run::Values(values))
}

/// Makes a run without rows one that takes a value.
fn begin(alloc: Global, value: &Value, run: &mut Run) -> Result<(), AllocError>
    ensures { run_rows run.new ≡ run_rows run.old }
{
    match run {
        Run::Empty => {
            put(run, empty_for(alloc, value)?);
            Ok(())
        }
        _ => Ok(()),
    }
}

/// No rows, as a run that takes a value.
fn empty_for(alloc: Global, value: &Value) -> Result<Run, AllocError>
    ensures { IfOk result (λ r. run_rows r ≡ []) }
{
    match value {
        Value::Int(_) => Ok(Run::Ints(Vec::new(alloc))),
        Value::Bool(_) => Ok(Run::Bools(Vec::new(alloc))),
        Value::Text(_) => Ok(Run::Texts(TextRun::new(alloc))),
        Value::Pair(_, _) => {
            let first = Box::new(alloc, Run::Empty)?;
            let second = Box::new(alloc, Run::Empty)?;
            Ok(Run::Pairs(first, second))
        }
        Value::List(_) => Ok(Run::Values(Vec::new(alloc))),
    }
}

fn push_int(value: &Value, out: &mut Vec<i64>) -> Result<bool, AllocError>
    ensures { map number out.new.items ≡ (if is_yes result
        then map number out.old.items ++ datum_of value.now ∷ [] else map number out.old.items) }
{
    match value {
        Value::Int(n) => {
            out.push(*n)?;
            Ok(true)
        }
        _ => Ok(false),
    }
}

fn push_bool(value: &Value, out: &mut Vec<bool>) -> Result<bool, AllocError>
    ensures { map truth out.new.items ≡ (if is_yes result
        then map truth out.old.items ++ datum_of value.now ∷ [] else map truth out.old.items) }
{
    match value {
        Value::Bool(b) => {
            out.push(*b)?;
            Ok(true)
        }
        _ => Ok(false),
    }
}

fn push_text(value: &Value, out: &mut TextRun) -> Result<bool, AllocError>
    ensures { map text out.new ≡ (if is_yes result
        then map text out.old ++ datum_of value.now ∷ [] else map text out.old) }
{
    match value {
        Value::Text(t) => {
            out.push(t.as_str())?;
            Ok(true)
        }
        _ => Ok(false),
    }
}
