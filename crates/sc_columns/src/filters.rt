//! The rows of columns whose places are marked.
#![tactic(auto)]

ghost use Rattle.std.specs.Arc.{arc_value};
ghost use Rattle.std.specs.Prelude.{◌≡◌, IfOk, map, replicate};
ghost use Rattle.sc_value.specs.Datum.{Datum};
ghost use Rattle.sc_value.specs.Kept.{kept};
ghost use Rattle.sc_value.specs.Views.{datum_of};
ghost use Rattle.sc_columns.specs.Columns.{rows_in};

use crate::columns::{
    Column, Shared, bools, chained, ints, len, lists, pairs, same, texts, values,
};
use sc_value::{Held, Value, copy, kept_items};
use std::alloc::{AllocError, Global};
use std::sync::Arc;

/// The rows whose place is marked.
pub fn filtered(alloc: Global, column: &Column, marks: &[bool]) -> Result<Shared, AllocError>
    ensures { IfOk result (λ c. rows_in (arc_value c) ≡ kept marks.now (rows_in column.now)) }
{
    match column {
        Column::Ints(v) => ints(alloc, held_kept(alloc, v, marks)?),
        Column::Bools(v) => bools(alloc, held_kept(alloc, v, marks)?),
        Column::Texts(t) => texts(alloc, t.kept(alloc, marks)?),
        Column::Pairs(a, b) => {
            let first = filtered(alloc, a, marks)?;
            let second = filtered(alloc, b, marks)?;
            pairs(alloc, first, second)
        }
        Column::Lists(spans, items) => {
            let items = Arc::try_clone(items)?;
            lists(alloc, held_kept(alloc, spans, marks)?, items)
        }
        Column::Values(v) => {
            let items = kept_values(alloc, v.as_slice(), marks)?;
            values(alloc, Held::new(alloc, items)?)
        }
        Column::Same(v, n) => same(alloc, Arc::try_clone(v)?, marked_before(marks, *n)),
        Column::Chain(a, b) => {
            let n = len(a).min(marks.len());
            let (left, right) = marks.split_at(n);
            let first = filtered(alloc, a, left)?;
            let second = filtered(alloc, b, right)?;
            chained(alloc, first, second)
        }
    }
}

fn held_kept<T: Copy + Drop>(
    alloc: Global,
    held: &Held<T>,
    marks: &[bool],
) -> Result<Held<T>, AllocError>
    ensures { IfOk result (λ h. h ≡ kept marks.now held.now) }
{
    let items = kept_items(alloc, held.as_slice(), marks)?;
    Held::new(alloc, items)
}

/// Copies of the values whose place is marked.
fn kept_values(alloc: Global, values: &[Value], marks: &[bool]) -> Result<Vec<Value>, AllocError>
    ensures { IfOk result (λ v. map datum_of v.items ≡ kept marks.now (map datum_of values.now)) }
{
    let end = values.len().min(marks.len());
    let mut out = Vec::new(alloc);
    for i in 0..end {
        if marks[i] {
            out.push(copy(alloc, &values[i])?)?;
        }
    }
    Ok(out)
}

/// How many of the first places are marked.
fn marked_before(marks: &[bool], end: usize) -> usize
    ensures { (x : Datum) → replicate result x ≡ kept marks.now (replicate end x) }
{
    let mut count = 0;
    for i in 0..end.min(marks.len()) {
        if marks[i] {
            count += 1;
        }
    }
    count
}
