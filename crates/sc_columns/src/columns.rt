//! Columns.
#![tactic(auto)]

ghost use Rattle.std.specs.Arc.{arc_value};
ghost use Rattle.std.specs.Prelude.{◌≡◌, ◌++◌, ◌-◌, ◌^◌, IfOk, length, map, min, replicate};
ghost use Rattle.sc_value.specs.Datum.{number, pair, text, truth};
ghost use Rattle.sc_value.specs.Views.{datum_of};
ghost use Rattle.sc_columns.specs.Columns.{group_at, rows_in, zip_with};

use sc_value::{Held, Span, Texts, Value};
use std::alloc::{AllocError, Global};
use std::sync::Arc;

/// Rows of one kind, or two runs of rows.
#[derive(Drop)]
pub enum Column {
    /// Numbers.
    Ints(Held<i64>),
    /// Truth values.
    Bools(Held<bool>),
    /// Texts.
    Texts(Texts),
    /// Pairs, up to the end of the shorter column.
    Pairs(Shared, Shared),
    /// Lists, each of them a range of the same items.
    Lists(Held<Span>, Shared),
    /// Values of any kind.
    Values(Held<Value>),
    /// One value so many times.
    Same(Arc<Value, Global>, usize),
    /// One column behind another.
    Chain(Shared, Shared),
}

/// A column that is shared and never changes.
pub type Shared = Arc<Column, Global>;

/// Numbers.
pub fn ints(alloc: Global, items: Held<i64>) -> Result<Shared, AllocError>
    ensures { IfOk result (λ c. rows_in (arc_value c) ≡ map number items) }
{
    Ok(Arc::new(alloc, Column::Ints(items))?)
}

/// Truth values.
pub fn bools(alloc: Global, items: Held<bool>) -> Result<Shared, AllocError>
    ensures { IfOk result (λ c. rows_in (arc_value c) ≡ map truth items) }
{
    Ok(Arc::new(alloc, Column::Bools(items))?)
}

/// Texts.
pub fn texts(alloc: Global, items: Texts) -> Result<Shared, AllocError>
    ensures { IfOk result (λ c. rows_in (arc_value c) ≡ map text items) }
{
    Ok(Arc::new(alloc, Column::Texts(items))?)
}

/// Pairs, up to the end of the shorter column.
pub fn pairs(alloc: Global, first: Shared, second: Shared) -> Result<Shared, AllocError>
    ensures { IfOk result (λ c. rows_in (arc_value c)
        ≡ zip_with pair (rows_in (arc_value first)) (rows_in (arc_value second))) }
{
    Ok(Arc::new(alloc, Column::Pairs(first, second))?)
}

/// Lists, each of them a range of the items.
pub fn lists(alloc: Global, spans: Held<Span>, items: Shared) -> Result<Shared, AllocError>
    ensures { IfOk result
        (λ c. rows_in (arc_value c) ≡ map (group_at (rows_in (arc_value items))) spans) }
{
    Ok(Arc::new(alloc, Column::Lists(spans, items))?)
}

/// Values of any kind.
pub fn values(alloc: Global, items: Held<Value>) -> Result<Shared, AllocError>
    ensures { IfOk result (λ c. rows_in (arc_value c) ≡ map datum_of items) }
{
    Ok(Arc::new(alloc, Column::Values(items))?)
}

/// One value so many times.
pub fn same(alloc: Global, value: Arc<Value, Global>, n: usize) -> Result<Shared, AllocError>
    ensures { IfOk result (λ c. rows_in (arc_value c) ≡ replicate n (datum_of (arc_value value))) }
{
    Ok(Arc::new(alloc, Column::Same(value, n))?)
}

/// One column behind another. An empty one leaves no trace.
pub fn chained(alloc: Global, first: Shared, second: Shared) -> Result<Shared, AllocError>
    ensures { IfOk result
        (λ c. rows_in (arc_value c) ≡ rows_in (arc_value first) ++ rows_in (arc_value second)) }
{
    if len(&first) == 0 {
        return Ok(second);
    }
    if len(&second) == 0 {
        return Ok(first);
    }
    Ok(Arc::new(alloc, Column::Chain(first, second))?)
}

/// How many rows there are, or else the greatest number.
pub fn len(column: &Column) -> usize
    ensures { result ≡ min (length (rows_in column.now)) (2 ^ 64 - 1) }
{
    match column {
        Column::Ints(v) => v.len(),
        Column::Bools(v) => v.len(),
        Column::Texts(t) => t.len(),
        Column::Pairs(a, b) => len(a).min(len(b)),
        Column::Lists(spans, _) => spans.len(),
        Column::Values(v) => v.len(),
        Column::Same(_, n) => *n,
        Column::Chain(a, b) => len(a).saturating_add(len(b)),
    }
}
