//! The bounds between ranges of keys.
#![tactic(auto)]

ghost use Rattle.std.specs.Prelude.{◌≡◌, [], IfOk, IfSome, map};
ghost use Rattle.std.specs.List.{flat_map, list_any};
ghost use Rattle.sc_expr.specs.Heads.{first_of};
ghost use Rattle.sc_lineage.specs.Meaning.{bounds_between as bounds_of_streams};
ghost use Rattle.sc_lineage.specs.Streams.{raises};
ghost use Rattle.sc_value.specs.Datum.{number};

use sc_batch::halves;
use sc_columns::{Rows, RowsBuilder};
use sc_keys::Keys;
use sc_lineage::Stream;
use sc_part::{Bounds, room_for};
use std::alloc::{AllocError, Global};

/// The bounds between `n` ranges of the keys of some partitions: none, where one of these raises.
pub fn bounds_between(alloc: Global, parts: &[Stream], n: u32) -> Result<Bounds, AllocError>
    ensures { IfOk result (λ b. b ≡ bounds_of_streams parts.now n) }
{
    if any_raises(parts) {
        return Bounds::none(alloc);
    }
    let firsts = all_firsts(alloc, parts)?;
    let keys = Keys::of(alloc, &firsts)?;
    let bounds = keys.bounds(alloc, n)?;
    Ok(bounds)
}

/// Whether one of some partitions raises.
fn any_raises(parts: &[Stream]) -> bool
    ensures { result ≡ list_any raises parts.now }
{
    for part in parts {
        if part.raise.is_some() {
            return true;
        }
    }
    false
}

/// The first parts of the rows of some partitions, in order.
fn all_firsts(alloc: Global, parts: &[Stream]) -> Result<Rows, AllocError>
    ensures { IfOk result (λ r. r ≡ map first_of (flat_map (λ s. s.rows) parts.now)) }
{
    let firsts = each_firsts(alloc, parts)?;
    match numbers_in(alloc, &firsts)? {
        Some(numbers) => Rows::of_ints(alloc, numbers),
        None => together(alloc, &firsts),
    }
}

/// The first parts of the rows of each of some partitions.
fn each_firsts(alloc: Global, parts: &[Stream]) -> Result<Vec<Rows>, AllocError>
    ensures { IfOk result (λ v. flat_map (λ run. run) v.items
        ≡ map first_of (flat_map (λ s. s.rows) parts.now)) }
{
    let mut out = Vec::with_capacity(alloc, parts.len())?;
    for part in parts {
        let both = halves(alloc, &part.rows)?;
        out.push(both.first)?;
    }
    Ok(out)
}

/// The numbers that all rows of some runs are, where they are held so. None is always a right
/// answer.
fn numbers_in(alloc: Global, runs: &[Rows]) -> Result<Option<Vec<i64>>, AllocError>
    ensures { IfOk result
        (λ o. IfSome o (λ v. map number v.items ≡ flat_map (λ run. run) runs.now)) }
{
    let mut numbers = room_for_rows(alloc, runs)?;
    for run in runs {
        match run.as_ints() {
            Some(ints) => numbers.extend_from_slice(ints)?,
            None => return Ok(None),
        }
    }
    Ok(Some(numbers))
}

/// No numbers, with room for one a row.
fn room_for_rows(alloc: Global, runs: &[Rows]) -> Result<Vec<i64>, AllocError>
    ensures { IfOk result (λ v. v.items ≡ []) }
{
    let mut rows = 0_usize;
    for run in runs {
        rows = rows.saturating_add(run.len());
    }
    room_for(alloc, rows)
}

/// The rows of some runs, one run behind the other.
fn together(alloc: Global, runs: &[Rows]) -> Result<Rows, AllocError>
    ensures { IfOk result (λ r. r ≡ flat_map (λ run. run) runs.now) }
{
    let mut out = RowsBuilder::new(alloc);
    for run in runs {
        out.append(alloc, run)?;
    }
    out.finish(alloc)
}
