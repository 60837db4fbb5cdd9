//! The arguments of heads: values that are lent or owned.
#![tactic(auto)]

ghost use Rattle.std.specs.Prelude.{◌≡◌, IfOk, map};
ghost use Rattle.sc_value.specs.Views.{datum_of};
ghost use Rattle.sc_expr.specs.Heads.{int_in as as_int, truth_in as as_truth, text_in as as_text, items_in as as_items};
ghost use Rattle.sc_expr.specs.Views.{argument_of};

use sc_value::{Value, copy};
use std::alloc::{AllocError, Global};

/// An argument of a head.
#[derive(Drop)]
pub(crate) enum Argument<'a> {
    /// A value that stays where it is, as that of a variable does.
    Lent(&'a Value),
    /// A value that the head may take apart.
    Own(Value),
}

impl Argument<'_> {
    /// The value, borrowed.
    pub(crate) fn as_value(&self) -> &Value
        ensures { datum_of result.now ≡ argument_of self.entry.now }
    {
        match self {
            Argument::Lent(value) => value,
            Argument::Own(value) => value,
        }
    }

    /// The value, copied where it is only lent.
    pub(crate) fn into_value(self, alloc: Global) -> Result<Value, AllocError>
        ensures { IfOk result (λ v. datum_of v ≡ argument_of self.entry) }
    {
        match self {
            Argument::Lent(value) => copy(alloc, value),
            Argument::Own(value) => Ok(value),
        }
    }
}

/// The number that a value is, or else 0.
pub(crate) fn int_in(value: &Value) -> i64
    ensures { result ≡ as_int (datum_of value.now) }
{
    match value {
        Value::Int(n) => *n,
        _ => 0,
    }
}

/// The truth value that a value is, or else false.
pub(crate) fn truth_in(value: &Value) -> bool
    ensures { result ≡ as_truth (datum_of value.now) }
{
    match value {
        Value::Bool(b) => *b,
        _ => false,
    }
}

/// The text that a value is, or else the empty one.
pub(crate) fn text_in(value: &Value) -> &str
    ensures { result.now ≡ as_text (datum_of value.now) }
{
    match value {
        Value::Text(t) => t.as_str(),
        _ => "",
    }
}

/// The items of the list that a value is, or else none.
pub(crate) fn items_in(value: &Value) -> &[Value]
    ensures { map datum_of result.now ≡ as_items (datum_of value.now) }
{
    match value {
        Value::List(items) => items.as_slice(),
        _ => &[],
    }
}
