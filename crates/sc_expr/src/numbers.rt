//! The heads that give numbers or raise.
#![tactic(auto)]

ghost use Rattle.std.specs.Prelude.{◌≡◌, Ok};
ghost use Rattle.sc_base.specs.Answers.{Answers};
ghost use Rattle.sc_value.specs.Datum.{number as number_datum};
ghost use Rattle.sc_value.specs.Numbers.{number_of_text};
ghost use Rattle.sc_value.specs.Views.{datum_of};
ghost use Rattle.sc_expr.specs.Heads.{number_value, quotient, raise_of_number, remainder};

use crate::evaluation::EvalError;
use crate::exprs::Raise;
use sc_base::OrMemory;
use sc_value::{NumberFault, Value, parse_int};

/// A number.
pub(crate) fn number(n: i64) -> Result<Value, EvalError>
    ensures { Answers datum_of (λ r. r) result (Ok (number_datum n)) }
{
    Ok(Value::Int(n))
}

/// The truncated quotient.
pub(crate) fn divide(a: i64, b: i64) -> Result<Value, EvalError>
    ensures { Answers datum_of (λ r. r) result (quotient a b) }
{
    if b == 0 {
        return Err(OrMemory::Fault(Raise::DivideByZero));
    }
    Ok(Value::Int(a.wrapping_div(b)))
}

/// The remainder, with the sign of the first.
pub(crate) fn rest_of(a: i64, b: i64) -> Result<Value, EvalError>
    ensures { Answers datum_of (λ r. r) result (remainder a b) }
{
    if b == 0 {
        return Err(OrMemory::Fault(Raise::DivideByZero));
    }
    Ok(Value::Int(a.wrapping_rem(b)))
}

/// The number that a text writes.
pub(crate) fn number_of(text: &str) -> Result<Value, EvalError>
    ensures { Answers datum_of (λ r. r) result (number_value (number_of_text text.now)) }
{
    match parse_int(text) {
        Ok(n) => number(n),
        Err(fault) => Err(OrMemory::Fault(raise_of(fault))),
    }
}

/// The raise of a text that writes no number of 64 bits.
fn raise_of(fault: NumberFault) -> Raise
    ensures { result ≡ raise_of_number fault }
{
    match fault {
        NumberFault::NotANumber => Raise::NotANumber,
        NumberFault::OutOfRange => Raise::OutOfRange,
    }
}
