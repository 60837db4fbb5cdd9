//! Values gathered under their keys.
#![tactic(auto)]

ghost use Rattle.std.specs.Prelude.{◌≡◌, ◌<◌, ◌≤◌, ◌+◌, ◌++◌, IfOk, OnOk, List, length, map};
ghost use Rattle.std.specs.List.{flat_map};
ghost use Rattle.sc_base.specs.Limits.{count_limit};
ghost use Rattle.sc_expr.specs.Heads.{first_of};
ghost use Rattle.sc_lineage.specs.Keyed.{grouped as grouped_of};
ghost use Rattle.sc_value.specs.Datum.{Datum};
ghost use Rattle.sc_combine.specs.Groupings.{AreLed, IsGrouping, firsts_from};

use crate::sides::Side;
use sc_base::COUNT_LIMIT;
use sc_batch::halves;
use sc_columns::{Rows, RowsBuilder};
use sc_keys::Keys;
use sc_value::picked_items;
use std::alloc::{AllocError, Global};

/// How many rows of a run are looked at to find out whether few keys recur.
const SAMPLES: usize = 1024;

/// How many rows of these there are at least for each key, where few do.
const SAMPLES_EACH: usize = 16;

/// The groups of rows of one key, in order of first appearance.
#[derive(Drop)]
pub struct Grouping {
    /// What stands as key in the first row of each group.
    pub keys: Rows,
    /// The number of each row's group.
    pub numbers: Vec<u32>,
    /// How many groups there are.
    pub count: u32,
}

/// Each key once, in order of first appearance, with its values in order.
pub fn grouped(alloc: Global, rows: &Rows) -> Result<Rows, AllocError>
    ensures { IfOk result (λ r. r ≡ grouped_of rows.now) }
{
    let both = halves(alloc, rows)?;
    let groups = group(alloc, &both.first)?;
    let side = Side::of(alloc, both.second, &groups.numbers, groups.count)?;
    let lists = side.lists(alloc)?;
    let rows = Rows::pairs(alloc, groups.keys, lists)?;
    Ok(rows)
}

/// The groups of rows, by what stands as key in each.
///
/// Where few keys recur, rows in several runs are grouped run by run, and then what stands first in
/// the groups of all runs is: so no more keys are copied than those.
pub fn group(alloc: Global, firsts: &Rows) -> Result<Grouping, AllocError>
    ensures { IfOk result
        (λ g. (rows : List Datum) → firsts.now ≡ map first_of rows → IsGrouping rows g) }
{
    let runs = firsts.runs(alloc)?;
    if recur(alloc, &runs)? {
        group_runs(alloc, &runs, firsts.len())
    } else {
        let firsts = firsts.joined(alloc)?;
        group_run(alloc, &firsts)
    }
}

/// Whether few keys recur in several runs, by some rows of the first: a guess, by which no answer
/// is wrong.
fn recur(alloc: Global, runs: &[Rows]) -> Result<bool, AllocError> {
    match runs {
        [first, _, ..] => {
            let some = first.part(alloc, 0, SAMPLES)?;
            let groups = group_run(alloc, &some)?;
            Ok(groups.count as usize <= some.len() / SAMPLES_EACH)
        }
        _ => Ok(false),
    }
}

/// The groups of rows in several runs, of so many rows in all.
fn group_runs(alloc: Global, runs: &[Rows], len: usize) -> Result<Grouping, AllocError>
    ensures { IfOk result (λ g. (rows : List Datum)
        → flat_map (λ run. run) runs.now ≡ map first_of rows → IsGrouping rows g) }
{
    let led = led_of_runs(alloc, runs, len)?;
    let groups = group_run(alloc, &led.firsts)?;
    let numbers = picked_items(alloc, &groups.numbers, &led.numbers)?;
    Ok(Grouping {
        keys: groups.keys,
        numbers,
        count: groups.count,
    })
}

/// What stands first in the groups of several runs of rows, and among these the place of what
/// stands first in the group of each row.
#[derive(Drop)]
struct Led {
    firsts: Rows,
    numbers: Vec<u32>,
}

/// What stands first in the groups of each run, one run after another, of so many rows in all.
fn led_of_runs(alloc: Global, runs: &[Rows], len: usize) -> Result<Led, AllocError>
    ensures { IfOk result (λ led. AreLed runs.now led.firsts led.numbers.items) }
{
    let mut firsts = RowsBuilder::new(alloc);
    let mut numbers = Vec::with_capacity(alloc, len)?;
    let mut count: u32 = 0;
    for i in 0..runs.len() {
        let groups = group_run(alloc, &runs[i])?;
        add_behind(&groups.numbers, count, &mut numbers)?;
        firsts.append(alloc, &groups.keys)?;
        count = sum(count, groups.count)?;
    }
    let firsts = firsts.finish(alloc)?;
    let firsts = firsts.joined(alloc)?;
    Ok(Led { firsts, numbers })
}

/// Adds numbers that are counted from another one on.
fn add_behind(numbers: &[u32], from: u32, out: &mut Vec<u32>) -> Result<(), AllocError>
    ensures { OnOk result (out.new.items ≡ out.old.items ++ map (λ n. from + n) numbers.now) }
{
    for i in 0..numbers.len() {
        let number = sum(from, numbers[i])?;
        out.push(number)?;
    }
    Ok(())
}

#[inline(always)]
fn sum(a: u32, b: u32) -> Result<u32, AllocError>
    ensures { IfOk result (λ n. n ≡ a + b) }
{
    a.checked_add(b).ok_or(AllocError)
}

/// The groups of rows in one run, by what stands as key in each.
fn group_run(alloc: Global, firsts: &Rows) -> Result<Grouping, AllocError>
    ensures { IfOk result
        (λ g. (rows : List Datum) → firsts.now ≡ map first_of rows → IsGrouping rows g) }
{
    let column = Keys::of(alloc, firsts)?;
    let groups = column.groups(alloc)?;
    let places = first_places(alloc, &groups.numbers)?;
    let keys = firsts.picked(alloc, &places)?;
    Ok(Grouping {
        keys,
        numbers: groups.numbers,
        count: groups.count,
    })
}

/// The place of the first row of each group. More than [`COUNT_LIMIT`] rows are answered as want of
/// memory.
fn first_places(alloc: Global, numbers: &[u32]) -> Result<Vec<u32>, AllocError>
    ensures are { IfOk result (λ v. v.items ≡ firsts_from 0 0 numbers.now) }
    ensures within { IfOk result (λ v. length numbers.now ≤ count_limit) }
{
    if numbers.len() > COUNT_LIMIT {
        return Err(AllocError);
    }
    let mut places = Vec::new(alloc);
    for i in 0..numbers.len() {
        if numbers[i] as usize == places.len() {
            places.push(i as u32)?;
        }
    }
    Ok(places)
}
