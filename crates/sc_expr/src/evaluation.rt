//! The value of an expression.
#![tactic(auto)]

ghost use Rattle.std.specs.Prelude.{◌≡◌, true, [], ◌∷◌, map};
ghost use Rattle.sc_base.specs.Answers.{Answers};
ghost use Rattle.sc_value.specs.Views.{datum_of};
ghost use Rattle.sc_expr.specs.Heads.{head_value, is_lazy as lazy};
ghost use Rattle.sc_expr.specs.Meaning.{value_of_expr, outcomes_of, all_values, strict_outcome, lazy_outcome, outcome_at, variable_value};
ghost use Rattle.sc_expr.specs.ExprData.{exprs_of};
ghost use Rattle.sc_expr.specs.Views.{argument_of, expr_data_of, env_data_of};

use crate::arguments::{Argument, truth_in};
use crate::exprs::{Expr, Head, Raise, Variable};
use crate::heads::{apply_all, apply_one, apply_two, is_lazy};
use sc_base::OrMemory;
use sc_value::Value;
use std::alloc::Global;

/// The values of the variables of a place.
#[derive(Clone, Copy)]
pub enum Env<'a> {
    /// The value of `x`.
    One(&'a Value),
    /// The values of `a` and `b`.
    Two(&'a Value, &'a Value),
}

/// Why an evaluation gave no value.
pub type EvalError = OrMemory<Raise>;

/// The value of an expression, or its first raise from the left.
///
/// # Errors
///
/// `Raise` exactly where the expression raises, unless memory runs out.
#[cycle(evaluating)]
pub fn eval(alloc: Global, expr: &Expr, env: Env<'_>) -> Result<Value, EvalError>
    ensures { Answers datum_of (λ r. r) result
        (value_of_expr (env_data_of env.entry) (expr_data_of expr.now)) }
{
    match expr {
        Expr::Int(n) => Ok(Value::Int(*n)),
        Expr::Bool(b) => Ok(Value::Bool(*b)),
        Expr::Text(t) => Ok(Value::Text(t.copy(alloc)?)),
        Expr::Variable(v) => Ok(lookup(env, *v).into_value(alloc)?),
        Expr::Call(head, args) => {
            if is_lazy(*head) {
                eval_lazy(alloc, *head, args, env)
            } else {
                eval_strict(alloc, *head, args, env)
            }
        }
    }
}

/// The value of a head that evaluates all its arguments.
#[cycle(evaluating)]
fn eval_strict(
    alloc: Global,
    head: Head,
    args: &Vec<Expr>,
    env: Env<'_>,
) -> Result<Value, EvalError>
    ensures { Answers datum_of (λ r. r) result (strict_outcome (head_value head) (all_values
        (outcomes_of (env_data_of env.entry) (exprs_of (map expr_data_of args.now.items))))) }
{
    match args.as_slice() {
        [first, second] => {
            let first = eval_argument(alloc, first, env)?;
            let second = eval_argument(alloc, second, env)?;
            apply_two(alloc, head, first, second)
        }
        [only] => eval_one(alloc, head, only, env),
        _ => eval_many(alloc, head, args, env),
    }
}

/// The value of a head at one argument.
#[cycle(evaluating)]
fn eval_one(alloc: Global, head: Head, only: &Expr, env: Env<'_>) -> Result<Value, EvalError>
    ensures { Answers datum_of (λ r. r) result (strict_outcome (head_value head) (all_values
        (value_of_expr (env_data_of env.entry) (expr_data_of only.now) ∷ []))) }
{
    let only = eval_argument(alloc, only, env)?;
    apply_one(alloc, head, only)
}

/// The value of a head at any number of arguments.
#[cycle(evaluating)]
fn eval_many(alloc: Global, head: Head, args: &Vec<Expr>, env: Env<'_>) -> Result<Value, EvalError>
    ensures { Answers datum_of (λ r. r) result (strict_outcome (head_value head) (all_values
        (outcomes_of (env_data_of env.entry) (exprs_of (map expr_data_of args.now.items))))) }
{
    let values = eval_all(alloc, args, env)?;
    apply_all(alloc, head, values)
}

/// The value of a head that doesn't evaluate all its arguments.
#[cycle(evaluating)]
fn eval_lazy(alloc: Global, head: Head, args: &Vec<Expr>, env: Env<'_>) -> Result<Value, EvalError>
    requires { lazy head ≡ true }
    ensures { Answers datum_of (λ r. r) result (lazy_outcome head
        (outcomes_of (env_data_of env.entry) (exprs_of (map expr_data_of args.now.items)))) }
{
    let first = eval_at(alloc, args, 0, env)?;
    let holds = truth_in(&first);
    match head {
        Head::And => {
            if holds {
                eval_at(alloc, args, 1, env)
            } else {
                Ok(Value::Bool(false))
            }
        }
        Head::Or => {
            if holds {
                Ok(Value::Bool(true))
            } else {
                eval_at(alloc, args, 1, env)
            }
        }
        Head::If => {
            if holds {
                eval_at(alloc, args, 1, env)
            } else {
                eval_at(alloc, args, 2, env)
            }
        }
        _ => unreachable!(),
    }
}

/// The value of an argument; one that isn't there counts as false.
#[cycle(evaluating)]
fn eval_at(alloc: Global, args: &Vec<Expr>, at: usize, env: Env<'_>) -> Result<Value, EvalError>
    ensures { Answers datum_of (λ r. r) result (outcome_at
        (outcomes_of (env_data_of env.entry) (exprs_of (map expr_data_of args.now.items))) at) }
{
    match args.get(at) {
        Some(expr) => eval(alloc, expr, env),
        None => Ok(Value::Bool(false)),
    }
}

/// The value of an argument, which a variable lends.
#[cycle(evaluating)]
fn eval_argument<'a>(alloc: Global, expr: &Expr, env: Env<'a>) -> Result<Argument<'a>, EvalError>
    ensures { Answers argument_of (λ r. r) result
        (value_of_expr (env_data_of env.entry) (expr_data_of expr.now)) }
{
    match expr {
        Expr::Variable(v) => Ok(lookup(env, *v)),
        _ => Ok(Argument::Own(eval(alloc, expr, env)?)),
    }
}

/// The values of expressions, or their first raise from the left.
#[cycle(evaluating)]
fn eval_all(alloc: Global, exprs: &Vec<Expr>, env: Env<'_>) -> Result<Vec<Value>, EvalError>
    ensures { Answers (λ v. map datum_of v.items) (λ r. r) result (all_values
        (outcomes_of (env_data_of env.entry) (exprs_of (map expr_data_of exprs.now.items)))) }
{
    let mut values = Vec::new(alloc);
    for expr in exprs.iter() {
        values.push(eval(alloc, expr, env)?)?;
    }
    Ok(values)
}

/// The value of a variable; one that the place doesn't have counts as false.
fn lookup<'a>(env: Env<'a>, variable: Variable) -> Argument<'a>
    ensures { argument_of result ≡ variable_value (env_data_of env.entry) variable }
{
    match (env, variable) {
        (Env::One(x), Variable::X) => Argument::Lent(x),
        (Env::Two(a, _), Variable::A) => Argument::Lent(a),
        (Env::Two(_, b), Variable::B) => Argument::Lent(b),
        _ => Argument::Own(Value::Bool(false)),
    }
}
