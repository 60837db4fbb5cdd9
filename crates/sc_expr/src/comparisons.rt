//! The heads that compare.
#![tactic(auto)]

ghost use Rattle.std.specs.Prelude.{◌≡◌, Ok};
ghost use Rattle.sc_base.specs.Answers.{Answers};
ghost use Rattle.sc_value.specs.Datum.{truth as truth_datum};
ghost use Rattle.sc_value.specs.Views.{datum_of};
ghost use Rattle.sc_expr.specs.Heads.{are_equal as equal, is_less as less};

use crate::evaluation::EvalError;
use sc_value::Value;

/// A truth value.
pub(crate) fn truth(b: bool) -> Result<Value, EvalError>
    ensures { Answers datum_of (λ r. r) result (Ok (truth_datum b)) }
{
    Ok(Value::Bool(b))
}

/// Whether two numbers, truth values or texts are equal.
pub(crate) fn are_equal(a: &Value, b: &Value) -> bool
    ensures { result ≡ equal (datum_of a.now) (datum_of b.now) }
{
    match (a, b) {
        (Value::Int(x), Value::Int(y)) => *x == *y,
        (Value::Bool(x), Value::Bool(y)) => *x == *y,
        (Value::Text(x), Value::Text(y)) => x == y,
        _ => false,
    }
}

/// Whether a number is less than another, or a text comes before another by their bytes.
pub(crate) fn is_less(a: &Value, b: &Value) -> bool
    ensures { result ≡ less (datum_of a.now) (datum_of b.now) }
{
    match (a, b) {
        (Value::Int(x), Value::Int(y)) => *x < *y,
        (Value::Text(x), Value::Text(y)) => x.as_str() < y.as_str(),
        _ => false,
    }
}
