//! Columns of numbers and of truth values.
#![tactic(auto)]

ghost use Rattle.std.specs.Prelude.{◌≡◌, ◌<◌, ◌≤◌, IfOk, IfSome, Some, length, map, slice_get, take};
ghost use Rattle.sc_value.specs.Datum.{number, truth};
ghost use Rattle.sc_value.specs.Views.{datum_of};
ghost use Rattle.sc_batch.specs.Items.{list_in};

use sc_columns::Rows;
use sc_expr::Raise;
use sc_lineage::Stream;
use sc_value::Value;
use std::alloc::{AllocError, Global};

/// A column of items of one type.
#[derive(Clone, Copy)]
pub(crate) enum Items<'a, T> {
    /// An item for each row.
    Each(&'a [T]),
    /// One item so many times.
    Same(&'a T, usize),
}

/// The numbers of rows, where they are held so. None is always a right answer.
pub(crate) fn ints_of(rows: &Rows) -> Option<Items<'_, i64>>
    ensures { IfSome result (λ v. rows.now ≡ map number (list_in v)) }
{
    match rows.as_ints() {
        Some(all) => Some(Items::Each(all)),
        None => match rows.as_repeated() {
            Some(value) => match int_in(value) {
                Some(n) => Some(Items::Same(n, rows.len())),
                None => None,
            },
            None => None,
        },
    }
}

/// The truth values of rows, where they are held so. None is always a right answer.
pub(crate) fn truths_of(rows: &Rows) -> Option<Items<'_, bool>>
    ensures { IfSome result (λ v. rows.now ≡ map truth (list_in v)) }
{
    match rows.as_bools() {
        Some(all) => Some(Items::Each(all)),
        None => match rows.as_repeated() {
            Some(value) => match truth_in(value) {
                Some(b) => Some(Items::Same(b, rows.len())),
                None => None,
            },
            None => None,
        },
    }
}

/// The number that a value is, where it is one.
fn int_in(value: &Value) -> Option<&i64>
    ensures { IfSome result (λ n. datum_of value.now ≡ number n.now) }
{
    match value {
        Value::Int(n) => Some(n),
        _ => None,
    }
}

/// The truth value that a value is, where it is one.
fn truth_in(value: &Value) -> Option<&bool>
    ensures { IfSome result (λ b. datum_of value.now ≡ truth b.now) }
{
    match value {
        Value::Bool(b) => Some(b),
        _ => None,
    }
}

impl<T: Copy> Items<'_, T> {
    /// How many items there are.
    #[inline(always)]
    pub(crate) fn len(self) -> usize
        ensures { result ≡ length (list_in self.entry) }
    {
        match self {
            Items::Each(all) => all.len(),
            Items::Same(_, n) => n,
        }
    }

    /// The item at a place.
    #[inline(always)]
    pub(crate) fn at(self, i: usize) -> T
        requires { i < length (list_in self) }
        ensures { slice_get (list_in self.entry) i ≡ Some result }
    {
        match self {
            Items::Each(all) => item_at(all, i),
            Items::Same(item, _) => *item,
        }
    }
}

impl Items<'_, i64> {
    /// The first so many numbers, written out.
    pub(crate) fn first(self, alloc: Global, count: usize) -> Result<Vec<i64>, AllocError>
        requires { count ≤ length (list_in self) }
        ensures { IfOk result (λ v. v.items ≡ take count (list_in self.entry)) }
    {
        match self {
            Items::Each(all) => Ok(Vec::from_slice(alloc, &all[..count])?),
            Items::Same(item, _) => Ok(vec![in alloc; *item; count]?),
        }
    }
}

/// The item at a place.
#[inline(always)]
pub(crate) fn item_at<T: Copy>(items: &[T], i: usize) -> T
    requires { i < length items.now }
    ensures { slice_get items.now i ≡ Some result }
{
    items[i]
}

/// Numbers as rows, and what ended them.
pub(crate) fn ints(
    alloc: Global,
    items: Vec<i64>,
    raise: Option<Raise>,
) -> Result<Stream, AllocError>
    ensures { IfOk result (λ s. s ≡ record { rows = map number items.items; raise = raise }) }
{
    Ok(Stream {
        rows: Rows::of_ints(alloc, items)?,
        raise,
    })
}

/// Truth values as rows, and what ended them.
pub(crate) fn truths(
    alloc: Global,
    items: Vec<bool>,
    raise: Option<Raise>,
) -> Result<Stream, AllocError>
    ensures { IfOk result (λ s. s ≡ record { rows = map truth items.items; raise = raise }) }
{
    Ok(Stream {
        rows: Rows::of_bools(alloc, items)?,
        raise,
    })
}
