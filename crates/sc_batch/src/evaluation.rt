//! An expression over the rows of a batch.
#![tactic(auto)]

ghost use Rattle.std.specs.Prelude.{◌≡◌, IfOk, IfSome, None, map};
ghost use Rattle.sc_expr.specs.ExprData.{call_expr, exprs_of};
ghost use Rattle.sc_expr.specs.Heads.{head_value};
ghost use Rattle.sc_expr.specs.Meaning.{all_values, outcome_at, strict_outcome};
ghost use Rattle.sc_expr.specs.Views.{expr_data_of};
ghost use Rattle.sc_lineage.specs.Narrow.{at_row};
ghost use Rattle.sc_lineage.specs.Streams.{each_until_raise};
ghost use Rattle.sc_batch.specs.Choices.{branch_outcome, chosen_branch, outcomes_in};
ghost use Rattle.sc_batch.specs.Made.{stream_of};

use crate::by_rows::{AtRows, by_rows};
use crate::choices::{choose, marks_of, opposite};
use crate::columns::Evaluated;
use crate::constants::{constant, variable};
use crate::heads::{one_column, two_columns};
use sc_columns::Rows;
use sc_expr::{Expr, Head, Raise, is_lazy};
use sc_lineage::Stream;
use sc_value::Value;
use std::alloc::{AllocError, Global};

/// What a head gives that doesn't evaluate all its arguments.
#[derive(Clone, Copy)]
pub(crate) enum Branch {
    /// The argument at a place; one that isn't there counts as false.
    Argument(usize),
    /// A truth value.
    Truth(bool),
}

/// The value of an expression at each row, up to the first raise: one of these, or the one that the
/// rows end with.
pub fn eval_rows(
    alloc: Global,
    expr: &Expr,
    rows: &Rows,
    end: Option<Raise>,
) -> Result<Stream, AllocError>
    ensures { IfOk result
        (λ s. s ≡ each_until_raise (at_row (expr_data_of expr.now)) rows.now end) }
{
    match rows.as_runs()? {
        Some(_) => {
            let run = rows.joined(alloc)?;
            eval_stream(alloc, expr, &run, end)
        }
        None => eval_stream(alloc, expr, rows, end),
    }
}

/// The same, where the rows lie in one run.
#[cycle(evaluating)]
fn eval_stream(
    alloc: Global,
    expr: &Expr,
    rows: &Rows,
    end: Option<Raise>,
) -> Result<Stream, AllocError>
    ensures { IfOk result
        (λ s. s ≡ each_until_raise (at_row (expr_data_of expr.now)) rows.now end) }
{
    eval_column(alloc, expr, rows, end)?.stream(alloc)
}

/// The same as a column.
#[cycle(evaluating)]
fn eval_column(
    alloc: Global,
    expr: &Expr,
    rows: &Rows,
    end: Option<Raise>,
) -> Result<Evaluated, AllocError>
    ensures { IfOk result
        (λ v. stream_of v ≡ each_until_raise (at_row (expr_data_of expr.now)) rows.now end) }
{
    match expr {
        Expr::Int(n) => Ok(Evaluated::of(constant(alloc, Value::Int(*n), rows, end)?)),
        Expr::Bool(b) => Ok(Evaluated::of(constant(alloc, Value::Bool(*b), rows, end)?)),
        Expr::Text(t) => {
            let text = Value::Text(t.copy(alloc)?);
            Ok(Evaluated::of(constant(alloc, text, rows, end)?))
        }
        Expr::Variable(v) => Ok(Evaluated::of(variable(alloc, *v, rows, end)?)),
        Expr::Call(head, args) => match eval_call(alloc, *head, args, rows, end)? {
            Some(given) => Ok(given),
            None => Ok(Evaluated::of(by_rows(alloc, AtRows::Expr(expr, rows), end)?)),
        },
    }
}

/// A call at each row, where its arguments can be evaluated column by column.
#[cycle(evaluating)]
fn eval_call(
    alloc: Global,
    head: Head,
    args: &Vec<Expr>,
    rows: &Rows,
    end: Option<Raise>,
) -> Result<Option<Evaluated>, AllocError>
    ensures { IfOk result (λ o. IfSome o (λ v. stream_of v ≡ each_until_raise
        (at_row (call_expr head (exprs_of (map expr_data_of args.now.items)))) rows.now end)) }
{
    match head {
        Head::And => {
            let (yes, no) = (Branch::Argument(1), Branch::Truth(false));
            Ok(Some(eval_chosen(alloc, args, yes, no, rows, end)?))
        }
        Head::Or => {
            let (yes, no) = (Branch::Truth(true), Branch::Argument(1));
            Ok(Some(eval_chosen(alloc, args, yes, no, rows, end)?))
        }
        Head::If => {
            let (yes, no) = (Branch::Argument(1), Branch::Argument(2));
            Ok(Some(eval_chosen(alloc, args, yes, no, rows, end)?))
        }
        _ => {
            if is_lazy(head) {
                return Ok(None);
            }
            eval_strict(alloc, head, args, rows, end)
        }
    }
}

/// A head over the columns of its arguments, where these are one or two: each is evaluated over the
/// rows that the one before it left, and ends as that one ended.
#[cycle(evaluating)]
fn eval_strict(
    alloc: Global,
    head: Head,
    args: &Vec<Expr>,
    rows: &Rows,
    end: Option<Raise>,
) -> Result<Option<Evaluated>, AllocError>
    ensures { IfOk result (λ o. IfSome o (λ v. stream_of v ≡ each_until_raise
        (λ d. strict_outcome (head_value head) (all_values (outcomes_in args.now.items d)))
        rows.now end)) }
{
    match args.as_slice() {
        [only] => {
            let input = eval_column(alloc, only, rows, end)?;
            Ok(Some(one_column(alloc, head, input)?))
        }
        [first, second] => {
            let first = eval_column(alloc, first, rows, end)?;
            let rest = rows.part(alloc, 0, first.len())?;
            let second = eval_stream(alloc, second, &rest, first.raise)?;
            let (rows, raise) = (second.rows, second.raise);
            Ok(Some(two_columns(alloc, head, first.column, rows, raise)?))
        }
        _ => Ok(None),
    }
}

/// One of two branches at each row, by the first argument. Each is evaluated over its own rows.
#[cycle(evaluating)]
fn eval_chosen(
    alloc: Global,
    args: &Vec<Expr>,
    yes: Branch,
    no: Branch,
    rows: &Rows,
    end: Option<Raise>,
) -> Result<Evaluated, AllocError>
    ensures { IfOk result (λ v. stream_of v ≡ each_until_raise
        (λ d. chosen_branch yes no (outcomes_in args.now.items d)) rows.now end) }
{
    let test = eval_at(alloc, args, 0, rows, end)?;
    let rest = rows.part(alloc, 0, test.rows.len())?;
    let marks = marks_of(alloc, &test.rows)?;
    let others = opposite(alloc, &marks)?;
    let yes = eval_branch(alloc, args, yes, &rest.filter(alloc, &marks)?)?;
    let no = eval_branch(alloc, args, no, &rest.filter(alloc, &others)?)?;
    Ok(Evaluated::of(choose(alloc, &marks, &yes, &no, test.raise)?))
}

/// A branch at each row.
#[cycle(evaluating)]
fn eval_branch(
    alloc: Global,
    args: &Vec<Expr>,
    branch: Branch,
    rows: &Rows,
) -> Result<Stream, AllocError>
    ensures { IfOk result (λ s. s ≡ each_until_raise
        (λ d. branch_outcome branch (outcomes_in args.now.items d)) rows.now None) }
{
    match branch {
        Branch::Argument(i) => eval_at(alloc, args, i, rows, None),
        Branch::Truth(b) => constant(alloc, Value::Bool(b), rows, None),
    }
}

/// An argument at each row; one that isn't there counts as false.
#[cycle(evaluating)]
fn eval_at(
    alloc: Global,
    args: &Vec<Expr>,
    at: usize,
    rows: &Rows,
    end: Option<Raise>,
) -> Result<Stream, AllocError>
    ensures { IfOk result (λ s. s ≡ each_until_raise
        (λ d. outcome_at (outcomes_in args.now.items d) at) rows.now end) }
{
    match args.get(at) {
        Some(expr) => eval_stream(alloc, expr, rows, end),
        None => constant(alloc, Value::Bool(false), rows, end),
    }
}
