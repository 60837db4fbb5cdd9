//! One row of a column.
#![tactic(auto)]

ghost use Rattle.std.specs.Prelude.{◌≡◌, IfOk, map, slice_get, slice_range};
ghost use Rattle.sc_value.specs.Datum.{number, pair, text, truth};
ghost use Rattle.sc_value.specs.Views.{datum_of};
ghost use Rattle.sc_columns.specs.Columns.{rows_in};
ghost use Rattle.sc_columns.specs.Finding.{IsFound};

use crate::columns::{Column, len};
use sc_value::{Span, Text, Texts, Value, copy};
use std::alloc::{AllocError, Global};

/// What a place in a column has.
#[derive(Drop)]
pub enum Found {
    /// A row.
    Row(Value),
    /// Nothing: it lies behind so many rows.
    Past(usize),
}

/// A copy of the row at a place, where there is one.
#[cycle(finds)]
pub fn find(alloc: Global, column: &Column, i: usize) -> Result<Found, AllocError>
    ensures { IfOk result (IsFound (rows_in column.now) i) }
{
    match column {
        Column::Ints(v) => Ok(find_int(v.as_slice(), i)),
        Column::Bools(v) => Ok(find_bool(v.as_slice(), i)),
        Column::Texts(t) => find_text(alloc, t, i),
        Column::Pairs(a, b) => match find(alloc, a, i)? {
            Found::Past(n) => Ok(Found::Past(n.min(len(b)))),
            Found::Row(first) => match find(alloc, b, i)? {
                Found::Past(n) => Ok(Found::Past(n)),
                Found::Row(second) => Ok(Found::Row(pair_of(alloc, first, second)?)),
            },
        },
        Column::Lists(spans, items) => match at(spans.as_slice(), i) {
            Some(span) => Ok(Found::Row(Value::List(list_at(alloc, items, span)?))),
            None => Ok(Found::Past(spans.len())),
        },
        Column::Values(v) => find_value(alloc, v.as_slice(), i),
        Column::Same(v, n) => {
            if i < *n {
                Ok(Found::Row(copy(alloc, v)?))
            } else {
                Ok(Found::Past(*n))
            }
        }
        Column::Chain(a, b) => match find(alloc, a, i)? {
            Found::Row(value) => Ok(Found::Row(value)),
            Found::Past(n) => match find(alloc, b, i - n)? {
                Found::Row(value) => Ok(Found::Row(value)),
                Found::Past(m) => Ok(Found::Past(n + m)),
            },
        },
    }
}

/// Copies of the items of a list.
#[cycle(finds)]
fn list_at(alloc: Global, items: &Column, span: Span) -> Result<Vec<Value>, AllocError>
    ensures { IfOk result
        (λ v. map datum_of v.items ≡ slice_range (rows_in items.now) span.from span.to) }
{
    let mut out = Vec::new(alloc);
    let end = span.to.max(span.from);
    for k in span.from..end {
        match find(alloc, items, k as usize)? {
            Found::Row(value) => out.push(value)?,
            Found::Past(_) => return Ok(out),
        }
    }
    Ok(out)
}

/// The item at a place, where there is one.
pub fn at<T: Copy>(items: &[T], i: usize) -> Option<T>
    ensures { result ≡ slice_get items.now i }
{
    if i < items.len() {
        Some(items[i])
    } else {
        None
    }
}

fn find_int(items: &[i64], i: usize) -> Found
    ensures { IsFound (map number items.now) i result }
{
    match at(items, i) {
        Some(n) => Found::Row(Value::Int(n)),
        None => Found::Past(items.len()),
    }
}

fn find_bool(items: &[bool], i: usize) -> Found
    ensures { IsFound (map truth items.now) i result }
{
    match at(items, i) {
        Some(b) => Found::Row(Value::Bool(b)),
        None => Found::Past(items.len()),
    }
}

fn find_text(alloc: Global, texts: &Texts, i: usize) -> Result<Found, AllocError>
    ensures { IfOk result (IsFound (map text texts.now) i) }
{
    if i < texts.len() {
        Ok(Found::Row(Value::Text(Text::new(alloc, texts.get(i))?)))
    } else {
        Ok(Found::Past(texts.len()))
    }
}

fn find_value(alloc: Global, values: &[Value], i: usize) -> Result<Found, AllocError>
    ensures { IfOk result (IsFound (map datum_of values.now) i) }
{
    if i < values.len() {
        Ok(Found::Row(copy(alloc, &values[i])?))
    } else {
        Ok(Found::Past(values.len()))
    }
}

fn pair_of(alloc: Global, first: Value, second: Value) -> Result<Value, AllocError>
    ensures { IfOk result (λ v. datum_of v ≡ pair (datum_of first) (datum_of second)) }
{
    Ok(Value::Pair(Box::new(alloc, first)?, Box::new(alloc, second)?))
}
