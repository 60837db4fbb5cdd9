//! The rows of columns at some places.
#![tactic(auto)]

ghost use Rattle.std.specs.Arc.{arc_value};
ghost use Rattle.std.specs.Prelude.{◌≡◌, IfOk, map};
ghost use Rattle.sc_value.specs.Picked.{ArePlaces, picked as items_picked};
ghost use Rattle.sc_value.specs.Views.{datum_of};
ghost use Rattle.sc_columns.specs.Columns.{rows_in};

use crate::columns::{Column, Shared, bools, ints, lists, pairs, same, texts, values};
use crate::gets::{Found, find};
use sc_value::{Held, Value, picked_items};
use std::alloc::{AllocError, Global};
use std::sync::Arc;

/// The rows at some places, of which each has one. Of a chain each row is looked up by itself: join
/// its runs first.
pub fn picked(alloc: Global, column: &Column, places: &[u32]) -> Result<Shared, AllocError>
    requires { ArePlaces (rows_in column.now) places.now }
    ensures { IfOk result
        (λ c. rows_in (arc_value c) ≡ items_picked (rows_in column.now) places.now) }
{
    match column {
        Column::Ints(v) => ints(alloc, held_picked(alloc, v, places)?),
        Column::Bools(v) => bools(alloc, held_picked(alloc, v, places)?),
        Column::Texts(t) => texts(alloc, t.picked(alloc, places)?),
        Column::Pairs(a, b) => {
            let first = picked(alloc, a, places)?;
            let second = picked(alloc, b, places)?;
            pairs(alloc, first, second)
        }
        Column::Lists(spans, items) => {
            let items = Arc::try_clone(items)?;
            lists(alloc, held_picked(alloc, spans, places)?, items)
        }
        Column::Same(v, _) => same(alloc, Arc::try_clone(v)?, places.len()),
        Column::Values(_) | Column::Chain(_, _) => {
            let items = picked_values(alloc, column, places)?;
            values(alloc, Held::new(alloc, items)?)
        }
    }
}

fn held_picked<T: Copy + Drop>(
    alloc: Global,
    held: &Held<T>,
    places: &[u32],
) -> Result<Held<T>, AllocError>
    requires { ArePlaces held.now places.now }
    ensures { IfOk result (λ h. h ≡ items_picked held.now places.now) }
{
    let items = picked_items(alloc, held.as_slice(), places)?;
    Held::new(alloc, items)
}

/// Copies of the rows at some places, of which each has one.
fn picked_values(alloc: Global, column: &Column, places: &[u32]) -> Result<Vec<Value>, AllocError>
    requires { ArePlaces (rows_in column.now) places.now }
    ensures { IfOk result
        (λ v. map datum_of v.items ≡ items_picked (rows_in column.now) places.now) }
{
    let mut out = Vec::with_capacity(alloc, places.len())?;
    for i in 0..places.len() {
        match find(alloc, column, places[i] as usize)? {
            Found::Row(value) => out.push(value)?,
            Found::Past(_) => unreachable!(),
        }
    }
    Ok(out)
}
