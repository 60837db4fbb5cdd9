//! The items of lists, one list's behind another's.
#![tactic(auto)]

ghost use Rattle.std.specs.Prelude.{◌≡◌, ◌++◌, [], ◌-◌, IfOk, IfSome, OnOk, length, map, min, replicate};
ghost use Rattle.std.specs.List.{flat_map, range_with_len};
ghost use Rattle.sc_value.specs.Views.{datum_of};
ghost use Rattle.sc_value.specs.Words.{range_of};
ghost use Rattle.sc_columns.specs.Columns.{rows_in, shared_rows};
ghost use Rattle.sc_columns.specs.Flat.{IsExtent, items_in, places_of};

use crate::builder::RowsBuilder;
use crate::chains::joined;
use crate::columns::{Column, Shared, chained, ints, len};
use crate::parts::part;
use crate::picks::picked;
use crate::rows::Rows;
use sc_value::{Held, Span, Value};
use std::alloc::{AllocError, Global};

impl Rows {
    /// The items of all rows that are lists, one row's behind another's.
    pub fn flat(&self, alloc: Global) -> Result<Rows, AllocError>
        ensures { IfOk result (λ r. r ≡ flat_map items_in self.now) }
    {
        Rows::of_column(flat(alloc, self.column())?)
    }
}

/// The items of all rows that are lists.
fn flat(alloc: Global, column: &Shared) -> Result<Shared, AllocError>
    ensures { IfOk result (λ c. shared_rows c ≡ flat_map items_in (shared_rows column.now)) }
{
    match &**column {
        Column::Lists(spans, items) => flat_lists(alloc, spans.as_slice(), items),
        Column::Chain(a, b) => {
            let first = flat(alloc, a)?;
            let second = flat(alloc, b)?;
            chained(alloc, first, second)
        }
        Column::Values(v) => flat_values(alloc, v.as_slice()),
        Column::Same(value, n) => flat_copies(alloc, value, *n),
        Column::Ints(_) => none(alloc),
        Column::Bools(_) => none(alloc),
        Column::Texts(_) => none(alloc),
        Column::Pairs(_, _) => none(alloc),
    }
}

fn none(alloc: Global) -> Result<Shared, AllocError>
    ensures { IfOk result (λ c. shared_rows c ≡ []) }
{
    ints(alloc, Held::new(alloc, Vec::new(alloc))?)
}

/// The items at each range: a range of them where the ranges lie together, which copies nothing.
fn flat_lists(alloc: Global, spans: &[Span], items: &Shared) -> Result<Shared, AllocError>
    ensures { IfOk result (λ c. shared_rows c
        ≡ flat_map (range_of (shared_rows items.now)) spans.now) }
{
    match extent(spans) {
        Some(all) => part(alloc, items, all.from as usize, all.to as usize),
        None => {
            let items = joined(alloc, items)?;
            let places = places_in(alloc, spans, &items)?;
            picked(alloc, &items, &places)
        }
    }
}

/// Where the ranges lie together, if each begins where the one before it ends.
fn extent(spans: &[Span]) -> Option<Span>
    ensures { IfSome result (λ s. IsExtent spans.now s) }
{
    let mut all = first_place(spans);
    for i in 0..spans.len() {
        let span = spans[i];
        if span.from != all.to || span.to < span.from {
            return None;
        }
        all.to = span.to;
    }
    Some(all)
}

/// No items, at the place where the first range begins.
fn first_place(spans: &[Span]) -> Span
    ensures { result.from ≡ result.to }
{
    match spans {
        [] => Span { from: 0, to: 0 },
        [first, ..] => Span {
            from: first.from,
            to: first.from,
        },
    }
}

/// The places of the items at each range, as far as there are items.
fn places_in(alloc: Global, spans: &[Span], items: &Column) -> Result<Vec<u32>, AllocError>
    ensures { IfOk result
        (λ v. v.items ≡ flat_map (places_of (length (rows_in items.now))) spans.now) }
{
    let mut out = Vec::new(alloc);
    for i in 0..spans.len() {
        let span = spans[i];
        push_range(span.from, end_in(items, span.to), &mut out)?;
    }
    Ok(out)
}

/// Where a range ends, as far as there are items.
fn end_in(items: &Column, to: u32) -> u32
    ensures { result ≡ min (length (rows_in items.now)) to }
{
    len(items).min(to as usize) as u32
}

/// Adds the numbers from one up to, not including, another.
fn push_range(from: u32, to: u32, out: &mut Vec<u32>) -> Result<(), AllocError>
    ensures { OnOk result (out.new.items ≡ out.old.items ++ range_with_len from (to - from)) }
{
    let end = to.max(from);
    for k in from..end {
        out.push(k)?;
    }
    Ok(())
}

/// The items of the values that are lists.
fn flat_values(alloc: Global, values: &[Value]) -> Result<Shared, AllocError>
    ensures { IfOk result (λ c. shared_rows c ≡ flat_map items_in (map datum_of values.now)) }
{
    let mut out = RowsBuilder::new(alloc);
    for i in 0..values.len() {
        push_items(alloc, &values[i], &mut out)?;
    }
    out.close(alloc)
}

/// The items of one value that is so many lists.
fn flat_copies(alloc: Global, value: &Value, n: usize) -> Result<Shared, AllocError>
    ensures { IfOk result
        (λ c. shared_rows c ≡ flat_map items_in (replicate n (datum_of value.now))) }
{
    let mut out = RowsBuilder::new(alloc);
    for _ in 0..n {
        push_items(alloc, value, &mut out)?;
    }
    out.close(alloc)
}

/// Adds the items of a value that is a list.
fn push_items(alloc: Global, value: &Value, out: &mut RowsBuilder) -> Result<(), AllocError>
    ensures { OnOk result (out.new ≡ out.old ++ items_in (datum_of value.now)) }
{
    match value {
        Value::List(items) => push_each(alloc, items.as_slice(), out),
        _ => Ok(()),
    }
}

fn push_each(alloc: Global, values: &[Value], out: &mut RowsBuilder) -> Result<(), AllocError>
    ensures { OnOk result (out.new ≡ out.old ++ map datum_of values.now) }
{
    for i in 0..values.len() {
        out.push(alloc, &values[i])?;
    }
    Ok(())
}
