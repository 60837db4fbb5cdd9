//! Operations on the values of pairs.
#![tactic(auto)]

ghost use Rattle.std.specs.Prelude.{◌≡◌, ◌≤◌, IfOk, List, length, map};
ghost use Rattle.sc_base.specs.Limits.{count_limit};
ghost use Rattle.sc_value.specs.Datum.{Datum};
ghost use Rattle.sc_value.specs.Views.{datum_of};
ghost use Rattle.sc_columns.specs.Parts.{AreLists};
ghost use Rattle.sc_expr.specs.Heads.{second_of};
ghost use Rattle.sc_expr.specs.Views.{expr_data_of};
ghost use Rattle.sc_lineage.specs.Narrow.{at_row, given_of};
ghost use Rattle.sc_lineage.specs.Streams.{each_gives};
ghost use Rattle.sc_lineage.specs.declared.nodes.Elementwise.TheVariants.{MapValues, FlatMapValues};
ghost use Rattle.sc_ops.specs.Given.{item_count, numbers_times};

use sc_base::COUNT_LIMIT;
use sc_batch::{eval_rows, halves};
use sc_columns::{Lists, Rows};
use sc_expr::{Expr, Raise};
use sc_lineage::Stream;
use sc_value::Value;
use std::alloc::{AllocError, Global};

/// The keys of a batch's pairs, each with what an expression gives of its value.
pub fn map_values(
    alloc: Global,
    expr: &Expr,
    batch: &Rows,
    end: Option<Raise>,
) -> Result<Stream, AllocError>
    ensures { IfOk result (λ s. s ≡ each_gives (given_of MapValues)
        (λ d. at_row (expr_data_of expr.now) (second_of d)) batch.now end) }
{
    let both = halves(alloc, batch)?;
    let values = eval_rows(alloc, expr, &both.second, end)?;
    Ok(Stream {
        rows: Rows::pairs(alloc, both.first, values.rows)?,
        raise: values.raise,
    })
}

/// The keys of a batch's pairs, each with every item of the list that an expression gives of its
/// value.
pub fn flat_map_values(
    alloc: Global,
    expr: &Expr,
    batch: &Rows,
    end: Option<Raise>,
) -> Result<Stream, AllocError>
    ensures { IfOk result (λ s. s ≡ each_gives (given_of FlatMapValues)
        (λ d. at_row (expr_data_of expr.now) (second_of d)) batch.now end) }
{
    let both = halves(alloc, batch)?;
    let lists = eval_rows(alloc, expr, &both.second, end)?;
    let counts = item_counts(alloc, &lists.rows)?;
    let places = row_numbers(alloc, &counts)?;
    let keys = both.first.picked(alloc, &places)?;
    let items = lists.rows.flat(alloc)?;
    Ok(Stream {
        rows: Rows::pairs(alloc, keys, items)?,
        raise: lists.raise,
    })
}

/// How many items each of some lists has; what isn't a list has none.
fn item_counts(alloc: Global, lists: &Rows) -> Result<Vec<usize>, AllocError>
    ensures { IfOk result (λ v. v.items ≡ map item_count lists.now) }
{
    match lists.as_lists()? {
        Some(held) => span_lens(alloc, &held),
        None => list_lens(alloc, lists),
    }
}

/// How many items each of some lists has.
fn span_lens(alloc: Global, lists: &Lists) -> Result<Vec<usize>, AllocError>
    ensures { IfOk result (λ v. (rows : List Datum) → AreLists rows lists.now
        → v.items ≡ map item_count rows) }
{
    let spans = lists.spans.as_slice();
    let mut lens = Vec::with_capacity(alloc, spans.len())?;
    for span in spans {
        lens.push(span.to.saturating_sub(span.from) as usize)?;
    }
    Ok(lens)
}

/// How many items each row has, read one by one.
fn list_lens(alloc: Global, rows: &Rows) -> Result<Vec<usize>, AllocError>
    ensures { IfOk result (λ v. v.items ≡ map item_count rows.now) }
{
    let mut lens = Vec::with_capacity(alloc, rows.len())?;
    for i in 0..rows.len() {
        let row = rows.row(alloc, i)?;
        lens.push(list_len(&row))?;
    }
    Ok(lens)
}

/// How many items the list has that a value is; another value has none.
fn list_len(value: &Value) -> usize
    ensures { result ≡ item_count (datum_of value.now) }
{
    match value {
        Value::List(items) => items.len(),
        Value::Int(_) | Value::Bool(_) | Value::Text(_) | Value::Pair(_, _) => 0,
    }
}

/// The numbers from 0 on, each as often as the count at its place says. More than [`COUNT_LIMIT`]
/// numbers that differ are answered as want of memory, and so are more than 64 bits count.
fn row_numbers(alloc: Global, counts: &[usize]) -> Result<Vec<u32>, AllocError>
    ensures are { IfOk result (λ v. v.items ≡ numbers_times 0 counts.now) }
    ensures within { IfOk result (λ v. length counts.now ≤ count_limit) }
{
    if counts.len() > COUNT_LIMIT {
        return Err(AllocError);
    }
    let mut numbers = Vec::new(alloc);
    for i in 0..counts.len() {
        if numbers.len().checked_add(counts[i]).is_none() {
            return Err(AllocError);
        }
        numbers.resize(numbers.len() + counts[i], i as u32)?;
    }
    Ok(numbers)
}
