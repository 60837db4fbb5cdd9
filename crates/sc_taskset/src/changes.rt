//! Changes of the rows of a set.
#![tactic(auto)]

ghost use Rattle.std.specs.Prelude.{◌≡◌, ◌<◌, IfSome, OnOk, OnErr, List, length};
ghost use Rattle.std.specs.List.{find};
ghost use Rattle.sc_taskset.specs.declared.rows.Failure.{Failure};
ghost use Rattle.sc_taskset.specs.Lists.{IsOnFewer, IsOnOneMore};
ghost use Rattle.sc_taskset.specs.Lookups.{change_first, with_task};
ghost use Rattle.sc_taskset.specs.Offers.{handed_task};
ghost use Rattle.sc_taskset.specs.Reports.{ended_task, held_task, succeeded_task};
ghost use Rattle.sc_taskset.specs.Rows.{copies_of, is_row_of, tasks_of};

use crate::listed::ListedRows;
use crate::rows::Row;
use sc_ids::ExecId;
use std::alloc::AllocError;

/// Hands a partition out once more, unless the number of its attempts is at its type's end.
pub fn hand_in(
    rows: &mut ListedRows,
    partition: u32,
    exec: ExecId,
    now: u64,
) -> Result<(), AllocError>
    requires { IfSome (find (is_row_of partition) rows.old)
        (λ r. length (copies_of r) < 2) }
    ensures handed { (failures : List Failure)
        → OnOk result (tasks_of failures rows.new
        ≡ with_task partition (handed_task exec now) (tasks_of failures rows.old)) }
    ensures refused { OnErr result (rows.new ≡ rows.old) }
{
    match rows.row_of(partition) {
        Some(row) => match row.given.checked_add(1) {
            Some(given) => hand_over(rows, row.handed(exec, now, given), exec),
            None => Err(AllocError),
        },
        None => Ok(()),
    }
}

/// Ends an attempt of a partition.
pub fn end_in(rows: &mut ListedRows, partition: u32, nth: u32)
    ensures { (failures : List Failure) → tasks_of failures rows.new
        ≡ with_task partition (ended_task nth) (tasks_of failures rows.old) }
{
    match rows.row_of(partition) {
        Some(row) => replace(rows, row.ended(nth)),
        None => {}
    }
}

/// Notes a success of a partition.
pub fn succeed_in(rows: &mut ListedRows, partition: u32, nth: Option<u32>)
    ensures { (failures : List Failure) → tasks_of failures rows.new
        ≡ with_task partition (succeeded_task nth) (tasks_of failures rows.old) }
{
    match rows.row_of(partition) {
        Some(row) => replace(rows, row.succeeded(nth)),
        None => {}
    }
}

/// Notes whether a held grant has denied an attempt of a partition.
pub fn hold_in(rows: &mut ListedRows, partition: u32, denied: bool)
    ensures { (failures : List Failure) → tasks_of failures rows.new
        ≡ with_task partition (held_task denied) (tasks_of failures rows.old) }
{
    match rows.row_of(partition) {
        Some(row) => replace(rows, row.held(denied)),
        None => {}
    }
}

/// Puts a row in the place of the one of its partition, where it is on no more executors.
fn replace(rows: &mut ListedRows, row: Row)
    requires { IfSome (find (is_row_of row.partition) rows.old) (λ before. IsOnFewer before row) }
    ensures { rows.new ≡ change_first (is_row_of row.partition) (λ _. row) rows.old }
{
    let place = rows.place_of(row.partition);
    if place < rows.as_slice().len() {
        rows.put(place, row);
    }
}

/// Puts a row in the place of the one of its partition, where it is on one executor more.
fn hand_over(rows: &mut ListedRows, row: Row, exec: ExecId) -> Result<(), AllocError>
    requires { IfSome (find (is_row_of row.partition) rows.old)
        (λ before. IsOnOneMore exec before row) }
    ensures handed { OnOk result
        (rows.new ≡ change_first (is_row_of row.partition) (λ _. row) rows.old) }
    ensures refused { OnErr result (rows.new ≡ rows.old) }
{
    let place = rows.place_of(row.partition);
    if place < rows.as_slice().len() {
        rows.hand(place, row, exec)?;
    }
    Ok(())
}
