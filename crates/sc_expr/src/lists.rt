//! The heads that make pairs and lists and take them apart.
#![tactic(auto)]

ghost use Rattle.std.specs.Prelude.{◌≡◌, [], ◌∷◌, Ok, map, pos, length};
ghost use Rattle.sc_base.specs.Answers.{Answers};
ghost use Rattle.sc_value.specs.Datum.{pair};
ghost use Rattle.sc_value.specs.Views.{datum_of};
ghost use Rattle.sc_expr.specs.Heads.{first_of, items_in as as_items, list_value, nth_value, second_of, sum_onto};
ghost use Rattle.sc_expr.specs.Views.{argument_of};

use crate::arguments::{Argument, int_in, items_in};
use crate::evaluation::EvalError;
use crate::exprs::Raise;
use sc_base::OrMemory;
use sc_value::{Value, copy};
use std::alloc::Global;

/// A pair.
pub(crate) fn pair_of(
    alloc: Global,
    first: Argument<'_>,
    second: Argument<'_>,
) -> Result<Value, EvalError>
    ensures { Answers datum_of (λ r. r) result
        (Ok (pair (argument_of first.entry) (argument_of second.entry))) }
{
    let first = first.into_value(alloc)?;
    let second = second.into_value(alloc)?;
    Ok(Value::Pair(Box::new(alloc, first)?, Box::new(alloc, second)?))
}

/// The first part of a pair.
pub(crate) fn fst(alloc: Global, argument: Argument<'_>) -> Result<Value, EvalError>
    ensures { Answers datum_of (λ r. r) result (Ok (first_of (argument_of argument.entry))) }
{
    match argument {
        Argument::Own(value) => match value {
            Value::Pair(a, _) => Ok(Box::into_inner(a)),
            _ => Ok(Value::Bool(false)),
        },
        Argument::Lent(value) => match value {
            Value::Pair(a, _) => Ok(copy(alloc, a)?),
            _ => Ok(Value::Bool(false)),
        },
    }
}

/// The second part of a pair.
pub(crate) fn snd(alloc: Global, argument: Argument<'_>) -> Result<Value, EvalError>
    ensures { Answers datum_of (λ r. r) result (Ok (second_of (argument_of argument.entry))) }
{
    match argument {
        Argument::Own(value) => match value {
            Value::Pair(_, b) => Ok(Box::into_inner(b)),
            _ => Ok(Value::Bool(false)),
        },
        Argument::Lent(value) => match value {
            Value::Pair(_, b) => Ok(copy(alloc, b)?),
            _ => Ok(Value::Bool(false)),
        },
    }
}

/// A list of one item.
pub(crate) fn list_of_one(alloc: Global, only: Argument<'_>) -> Result<Value, EvalError>
    ensures { Answers datum_of (λ r. r) result (Ok (list_value (argument_of only.entry ∷ []))) }
{
    let only = only.into_value(alloc)?;
    Ok(Value::List(vec![in alloc; only]?))
}

/// A list of two items.
pub(crate) fn list_of_two(
    alloc: Global,
    first: Argument<'_>,
    second: Argument<'_>,
) -> Result<Value, EvalError>
    ensures { Answers datum_of (λ r. r) result
        (Ok (list_value (argument_of first.entry ∷ argument_of second.entry ∷ []))) }
{
    let first = first.into_value(alloc)?;
    let second = second.into_value(alloc)?;
    Ok(Value::List(vec![in alloc; first, second]?))
}

/// A list of copies of values.
pub(crate) fn list_of_copies(alloc: Global, values: &[Value]) -> Result<Value, EvalError>
    ensures { Answers datum_of (λ r. r) result (Ok (list_value (map datum_of values.now))) }
{
    let mut items = Vec::with_capacity(alloc, values.len())?;
    for value in values {
        items.push(copy(alloc, value)?)?;
    }
    Ok(Value::List(items))
}

/// How many items a list has.
pub(crate) fn len(list: &Value) -> i64
    ensures { result ≡ pos (length (as_items (datum_of list.now))) }
{
    items_in(list).len() as i64
}

/// The sum of a list of numbers.
pub(crate) fn sum(list: &Value) -> i64
    ensures { result ≡ sum_onto (pos 0) (as_items (datum_of list.now)) }
{
    let mut total: i64 = 0;
    for item in items_in(list) {
        total = total.wrapping_add(int_in(item));
    }
    total
}

/// The item of a list at a place from 0.
pub(crate) fn nth(alloc: Global, list: Argument<'_>, at: i64) -> Result<Value, EvalError>
    ensures { Answers datum_of (λ r. r) result (nth_value (as_items (argument_of list.entry)) at) }
{
    match list {
        Argument::Lent(value) => nth_copied(alloc, items_in(value), at),
        Argument::Own(value) => match value {
            Value::List(items) => nth_taken(items, at),
            _ => Err(OrMemory::Fault(Raise::OutOfRange)),
        },
    }
}

/// A copy of the item at a place.
fn nth_copied(alloc: Global, items: &[Value], at: i64) -> Result<Value, EvalError>
    ensures { Answers datum_of (λ r. r) result (nth_value (map datum_of items.now) at) }
{
    if at < 0 {
        return Err(OrMemory::Fault(Raise::OutOfRange));
    }
    match items.get(at as usize) {
        Some(item) => Ok(copy(alloc, item)?),
        None => Err(OrMemory::Fault(Raise::OutOfRange)),
    }
}

/// The item at a place, taken out of the others.
fn nth_taken(mut items: Vec<Value>, at: i64) -> Result<Value, EvalError>
    ensures { Answers datum_of (λ r. r) result (nth_value (map datum_of items.items) at) }
{
    if at < 0 {
        return Err(OrMemory::Fault(Raise::OutOfRange));
    }
    let place = at as usize;
    if place < items.len() {
        Ok(items.swap_remove(place))
    } else {
        Err(OrMemory::Fault(Raise::OutOfRange))
    }
}
