//! Ranges of columns.
#![tactic(auto)]

ghost use Rattle.std.specs.Arc.{arc_value};
ghost use Rattle.std.specs.Prelude.{◌≡◌, IfOk, slice_range};
ghost use Rattle.sc_columns.specs.Columns.{rows_in};

use crate::columns::{
    Column, Shared, bools, chained, ints, len, lists, pairs, same, texts, values,
};
use crate::ranges::texts_of;
use sc_value::Held;
use std::alloc::{AllocError, Global};
use std::sync::Arc;

/// The rows from one place up to, not including, another, as far as there are rows. None is copied.
pub fn part(alloc: Global, column: &Column, from: usize, to: usize) -> Result<Shared, AllocError>
    ensures { IfOk result (λ c. rows_in (arc_value c) ≡ slice_range (rows_in column.now) from to) }
{
    match column {
        Column::Ints(v) => ints(alloc, held_part(v, from, to)?),
        Column::Bools(v) => bools(alloc, held_part(v, from, to)?),
        Column::Texts(t) => texts(alloc, texts_of(t, from, to)?),
        Column::Pairs(a, b) => {
            let first = part(alloc, a, from, to)?;
            let second = part(alloc, b, from, to)?;
            pairs(alloc, first, second)
        }
        Column::Lists(spans, items) => {
            let items = Arc::try_clone(items)?;
            lists(alloc, held_part(spans, from, to)?, items)
        }
        Column::Values(v) => values(alloc, held_part(v, from, to)?),
        Column::Same(v, n) => {
            let count = to.min(*n).saturating_sub(from);
            same(alloc, Arc::try_clone(v)?, count)
        }
        Column::Chain(a, b) => {
            let n = len(a);
            if to <= n {
                return part(alloc, a, from, to);
            }
            let second = part(alloc, b, from.saturating_sub(n), to.saturating_sub(n))?;
            if from >= n {
                return Ok(second);
            }
            let first = part(alloc, a, from, n)?;
            chained(alloc, first, second)
        }
    }
}

fn held_part<T: Drop>(held: &Held<T>, from: usize, to: usize) -> Result<Held<T>, AllocError>
    ensures { IfOk result (λ h. h ≡ slice_range held.now from to) }
{
    let end = to.min(held.len());
    held.part(from.min(end), end)
}
