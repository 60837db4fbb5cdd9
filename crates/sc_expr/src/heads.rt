//! The values of heads at values.
#![tactic(auto)]

ghost use Rattle.std.specs.Prelude.{◌≡◌, [], ◌∷◌, false, IsTrue, Ok, map};
ghost use Rattle.sc_base.specs.Answers.{Answers};
ghost use Rattle.sc_value.specs.Datum.{truth};
ghost use Rattle.sc_value.specs.Views.{datum_of};
ghost use Rattle.sc_expr.specs.HeadGroups.{is_arithmetic, is_keeper, is_reader, is_test};
ghost use Rattle.sc_expr.specs.Heads.{datum_at, head_value, is_lazy as lazy};
ghost use Rattle.sc_expr.specs.Views.{argument_of};

use crate::arguments::{Argument, int_in, text_in, truth_in};
use crate::comparisons::{are_equal, is_less, truth};
use crate::evaluation::EvalError;
use crate::exprs::Head;
use crate::lists::{fst, len, list_of_copies, list_of_one, list_of_two, nth, pair_of, snd, sum};
use crate::numbers::{divide, number, number_of, rest_of};
use crate::texts::{joined, pieces, printed, words};
use sc_value::Value;
use std::alloc::Global;

/// Whether a head doesn't evaluate all its arguments.
pub fn is_lazy(head: Head) -> bool
    ensures { result ≡ lazy head }
{
    matches!(head, Head::And | Head::Or | Head::If)
}

/// The value of a head at values; one that isn't there counts as false.
///
/// # Errors
///
/// `Raise` exactly where the head raises at these values, unless memory runs out.
pub fn apply(alloc: Global, head: Head, values: &[Value]) -> Result<Value, EvalError>
    ensures { Answers datum_of (λ r. r) result (head_value head (map datum_of values.now)) }
{
    if matches!(head, Head::List) {
        return list_of_copies(alloc, values);
    }
    let none = Value::Bool(false);
    let first = Argument::Lent(value_at(values, 0, &none));
    let second = Argument::Lent(value_at(values, 1, &none));
    apply_two(alloc, head, first, second)
}

/// The value of a head at values that it may take apart.
pub(crate) fn apply_all(alloc: Global, head: Head, values: Vec<Value>) -> Result<Value, EvalError>
    ensures { Answers datum_of (λ r. r) result (head_value head (map datum_of values.items)) }
{
    match head {
        Head::List => Ok(Value::List(values)),
        _ => apply(alloc, head, &values),
    }
}

/// The value of a head at one argument.
pub(crate) fn apply_one(alloc: Global, head: Head, only: Argument<'_>) -> Result<Value, EvalError>
    ensures { Answers datum_of (λ r. r) result (head_value head (argument_of only.entry ∷ [])) }
{
    match head {
        Head::List => list_of_one(alloc, only),
        _ => apply_two(alloc, head, only, Argument::Own(Value::Bool(false))),
    }
}

/// The value of a head at two arguments. It goes by groups of heads, each in a function of its own,
/// so that a call pays for the locals of its group alone.
pub(crate) fn apply_two(
    alloc: Global,
    head: Head,
    first: Argument<'_>,
    second: Argument<'_>,
) -> Result<Value, EvalError>
    ensures { Answers datum_of (λ r. r) result
        (head_value head (argument_of first.entry ∷ argument_of second.entry ∷ [])) }
{
    let x = first.as_value();
    let y = second.as_value();
    match head {
        Head::Add | Head::Sub | Head::Mul | Head::Div | Head::Rem => computed(head, x, y),
        Head::Eq | Head::Lt | Head::Le | Head::Not | Head::And | Head::Or | Head::If => {
            truth(holds(head, x, y))
        }
        Head::Pair | Head::Fst | Head::Snd | Head::List | Head::Nth => {
            kept(alloc, head, first, second)
        }
        Head::Len | Head::Sum | Head::Words | Head::Cut | Head::Int | Head::Text | Head::Concat =>
            read(alloc, head, x, y),
    }
}

/// The value of a head that computes from two numbers.
fn computed(head: Head, x: &Value, y: &Value) -> Result<Value, EvalError>
    requires { IsTrue (is_arithmetic head) }
    ensures { Answers datum_of (λ r. r) result
        (head_value head (datum_of x.now ∷ datum_of y.now ∷ [])) }
{
    let a = int_in(x);
    let b = int_in(y);
    match head {
        Head::Add => number(a.wrapping_add(b)),
        Head::Sub => number(a.wrapping_sub(b)),
        Head::Mul => number(a.wrapping_mul(b)),
        Head::Div => divide(a, b),
        _ => rest_of(a, b),
    }
}

/// The truth value that a head gives.
fn holds(head: Head, x: &Value, y: &Value) -> bool
    requires { IsTrue (is_test head) }
    ensures { head_value head (datum_of x.now ∷ datum_of y.now ∷ []) ≡ Ok (truth result) }
{
    match head {
        Head::Eq => are_equal(x, y),
        Head::Lt => is_less(x, y),
        Head::Le => is_less(x, y) || are_equal(x, y),
        Head::Not => !truth_in(x),
        _ => false,
    }
}

/// The value of a head that keeps its arguments or parts of them.
fn kept(
    alloc: Global,
    head: Head,
    first: Argument<'_>,
    second: Argument<'_>,
) -> Result<Value, EvalError>
    requires { IsTrue (is_keeper head) }
    ensures { Answers datum_of (λ r. r) result
        (head_value head (argument_of first.entry ∷ argument_of second.entry ∷ [])) }
{
    match head {
        Head::Pair => pair_of(alloc, first, second),
        Head::Fst => fst(alloc, first),
        Head::Snd => snd(alloc, first),
        Head::List => list_of_two(alloc, first, second),
        _ => nth(alloc, first, int_in(second.as_value())),
    }
}

/// The value of a head that reads a text, a list or any value to its end.
fn read(alloc: Global, head: Head, x: &Value, y: &Value) -> Result<Value, EvalError>
    requires { IsTrue (is_reader head) }
    ensures { Answers datum_of (λ r. r) result
        (head_value head (datum_of x.now ∷ datum_of y.now ∷ [])) }
{
    match head {
        Head::Len => number(len(x)),
        Head::Sum => number(sum(x)),
        Head::Words => words(alloc, text_in(x)),
        Head::Cut => pieces(alloc, text_in(x), text_in(y)),
        Head::Int => number_of(text_in(x)),
        Head::Text => printed(alloc, x),
        _ => joined(alloc, text_in(x), text_in(y)),
    }
}

/// A value of several; one that isn't there counts as false.
fn value_at<'a>(values: &'a [Value], at: usize, none: &'a Value) -> &'a Value
    requires { datum_of none.now ≡ truth false }
    ensures { datum_of result.now ≡ datum_at (map datum_of values.now) at }
{
    match values.get(at) {
        Some(value) => value,
        None => none,
    }
}
