//! Values that grow by an expression over them and the next value.
#![tactic(auto)]

ghost use Rattle.std.specs.Prelude.{◌≡◌, [], ◌∷◌, ◌++◌, IfOk, OnOk, map};
ghost use Rattle.sc_base.specs.Answers.{Answers};
ghost use Rattle.sc_expr.specs.ExprData.{exprs_of};
ghost use Rattle.sc_expr.specs.Heads.{head_value, text_in as text_in_datum};
ghost use Rattle.sc_expr.specs.Meaning.{call_outcome, outcomes_of, two_values, value_of_expr};
ghost use Rattle.sc_expr.specs.Views.{expr_data_of};
ghost use Rattle.sc_expr.specs.declared.exprs.Head.TheVariants.{Concat, If};
ghost use Rattle.sc_value.specs.Datum.{text as text_datum};
ghost use Rattle.sc_value.specs.Views.{datum_of};
ghost use Rattle.sc_batch.specs.Growing.{FindsGiven, given_value};

use crate::choices::truth_in;
use sc_expr::{Env, EvalError, Expr, Head, Variable, apply, eval};
use sc_value::{Text, Value};
use std::alloc::{AllocError, Global};

/// What an expression gives of a value and the next.
#[derive(Drop)]
pub(crate) enum Growth {
    /// The first of them itself.
    Same,
    /// The text that the first of them is, with more behind it.
    Behind(Text),
    /// A value.
    Whole(Value),
}

/// Puts in place of a value what an expression gives of it and the next. Where that is the text
/// that the value is with others behind it, the text grows in place: as by `(concat a b)`, by
/// `(concat (concat a ",") b)`, and by choices between such expressions.
///
/// # Errors
///
/// The raise of the expression, unless memory runs out.
pub fn put_next(alloc: Global, expr: &Expr, kept: &mut Value, next: &Value) -> Result<(), EvalError>
    ensures { Answers (λ _. datum_of kept.new) (λ r. r) result
        (value_of_expr (two_values (datum_of kept.old) (datum_of next.now))
        (expr_data_of expr.now)) }
{
    let found = given(alloc, expr, kept, next)?;
    replace(kept, found)?;
    Ok(())
}

/// What an expression gives of two values.
#[cycle(giving)]
fn given(alloc: Global, expr: &Expr, kept: &Value, next: &Value) -> Result<Growth, EvalError>
    ensures { Answers (given_value (datum_of kept.now)) (λ r. r) result
        (value_of_expr (two_values (datum_of kept.now) (datum_of next.now))
        (expr_data_of expr.now)) }
{
    match expr {
        Expr::Variable(Variable::A) => Ok(Growth::Same),
        Expr::Call(head, args) => match given_by(alloc, *head, args, kept, next)? {
            Some(found) => Ok(found),
            None => whole(alloc, expr, kept, next),
        },
        Expr::Int(_) | Expr::Bool(_) | Expr::Text(_) | Expr::Variable(_) => {
            whole(alloc, expr, kept, next)
        }
    }
}

/// What a head gives, where it may put a text behind the first of two values.
#[cycle(giving)]
fn given_by(
    alloc: Global,
    head: Head,
    args: &Vec<Expr>,
    kept: &Value,
    next: &Value,
) -> Result<Option<Growth>, EvalError>
    ensures { FindsGiven (datum_of kept.now) (call_outcome head
        (outcomes_of (two_values (datum_of kept.now) (datum_of next.now))
        (exprs_of (map expr_data_of args.now.items)))) result }
{
    match head {
        Head::Concat => given_joined(alloc, args, kept, next),
        Head::If => given_chosen(alloc, args, kept, next),
        _ => Ok(None),
    }
}

/// What an argument gives, with the text of another behind it.
#[cycle(giving)]
fn given_joined(
    alloc: Global,
    args: &Vec<Expr>,
    kept: &Value,
    next: &Value,
) -> Result<Option<Growth>, EvalError>
    ensures { FindsGiven (datum_of kept.now) (call_outcome Concat
        (outcomes_of (two_values (datum_of kept.now) (datum_of next.now))
        (exprs_of (map expr_data_of args.now.items)))) result }
{
    match args.as_slice() {
        [first, second] => {
            let front = given(alloc, first, kept, next)?;
            let more = eval(alloc, second, Env::Two(kept, next))?;
            Ok(Some(joined(alloc, kept, front, more)?))
        }
        _ => Ok(None),
    }
}

/// What one of two arguments gives, by a test before them.
#[cycle(giving)]
fn given_chosen(
    alloc: Global,
    args: &Vec<Expr>,
    kept: &Value,
    next: &Value,
) -> Result<Option<Growth>, EvalError>
    ensures { FindsGiven (datum_of kept.now) (call_outcome If
        (outcomes_of (two_values (datum_of kept.now) (datum_of next.now))
        (exprs_of (map expr_data_of args.now.items)))) result }
{
    match args.as_slice() {
        [test, first, second] => {
            let test = eval(alloc, test, Env::Two(kept, next))?;
            if truth_in(&test) {
                Ok(Some(given(alloc, first, kept, next)?))
            } else {
                Ok(Some(given(alloc, second, kept, next)?))
            }
        }
        _ => Ok(None),
    }
}

/// The value of an expression.
fn whole(alloc: Global, expr: &Expr, kept: &Value, next: &Value) -> Result<Growth, EvalError>
    ensures { Answers (given_value (datum_of kept.now)) (λ r. r) result
        (value_of_expr (two_values (datum_of kept.now) (datum_of next.now))
        (expr_data_of expr.now)) }
{
    let value = eval(alloc, expr, Env::Two(kept, next))?;
    Ok(Growth::Whole(value))
}

/// What was given, with the text of a value behind it.
fn joined(alloc: Global, kept: &Value, front: Growth, more: Value) -> Result<Growth, EvalError>
    ensures { Answers (given_value (datum_of kept.now)) (λ r. r) result (head_value Concat
        (given_value (datum_of kept.now) front ∷ datum_of more ∷ [])) }
{
    match front {
        Growth::Same => Ok(Growth::Behind(into_text(alloc, more)?)),
        Growth::Behind(text) => {
            let mut text = text;
            text.push(text_of(&more))?;
            Ok(Growth::Behind(text))
        }
        Growth::Whole(value) => {
            let values = [value, more];
            Ok(Growth::Whole(apply(alloc, Head::Concat, &values)?))
        }
    }
}

/// The text that a value is, or else the empty one.
fn text_of(value: &Value) -> &str
    ensures { result.now ≡ text_in_datum (datum_of value.now) }
{
    match value {
        Value::Text(text) => text.as_str(),
        _ => "",
    }
}

/// The text that a value is, or else the empty one, taken out of the value.
fn into_text(alloc: Global, value: Value) -> Result<Text, AllocError>
    ensures { IfOk result (λ text. text ≡ text_in_datum (datum_of value)) }
{
    match value {
        Value::Text(text) => Ok(text),
        _ => Text::new(alloc, ""),
    }
}

/// Puts what was given of a value in its place.
fn replace(kept: &mut Value, found: Growth) -> Result<(), AllocError>
    ensures { OnOk result (datum_of kept.new ≡ given_value (datum_of kept.old) found) }
{
    match found {
        Growth::Same => Ok(()),
        Growth::Behind(more) => grow(kept, more),
        Growth::Whole(value) => {
            *kept = value;
            Ok(())
        }
    }
}

/// Puts a text behind that which a value is; another value counts as the empty one.
fn grow(kept: &mut Value, more: Text) -> Result<(), AllocError>
    ensures { OnOk result
        (datum_of kept.new ≡ text_datum (text_in_datum (datum_of kept.old) ++ more)) }
{
    match kept {
        Value::Text(text) => text.push(more.as_str()),
        _ => {
            *kept = Value::Text(more);
            Ok(())
        }
    }
}
