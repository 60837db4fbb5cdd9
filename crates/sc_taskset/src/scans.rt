//! Searches through the rows of a set, and through its failures.
#![tactic(auto)]

ghost use Rattle.std.specs.Prelude.{◌≡◌, ◌≤◌, ◌+◌, ◌&&◌, ◌||◌, not, List, None, count_by, length};
ghost use Rattle.std.specs.Option.{option_map};
ghost use Rattle.std.specs.List.{filter, find};
ghost use Rattle.sc_ids.specs.Failures.{is_counted};
ghost use Rattle.sc_taskset.specs.declared.rows.Failure.{Failure};
ghost use Rattle.sc_taskset.specs.Lookups.{are_finished, is_there_and, task_at};
ghost use Rattle.sc_taskset.specs.Looks.{words_for};
ghost use Rattle.sc_taskset.specs.Marks.{is_single_row};
ghost use Rattle.sc_taskset.specs.Offers.{is_copyable_task, is_pending_task};
ghost use Rattle.sc_taskset.specs.Paces.{slow_at};
ghost use Rattle.sc_taskset.specs.Reports.{duration_in, is_failure, is_first_success};
ghost use Rattle.sc_taskset.specs.Rows.{is_failure_of, is_row_of, offered_task, task_of, tasks_of};

use crate::listed::ListedRows;
use crate::paces::Pace;
use crate::rows::{Failure, Row};
use sc_base::Steps;
use sc_ids::{ExecId, FailureCause};
use std::sync::ledger::Ledger;

/// The row of a partition.
pub fn row_at(rows: &ListedRows, partition: u32) -> Option<Row>
    ensures { (failures : List Failure)
        → option_map (task_of failures) result ≡ task_at partition (tasks_of failures rows.now) }
{
    rows.row_of(partition)
}

/// The first row that is to be handed out.
fn first_pending(rows: &ListedRows) -> Option<Row>
    ensures { (failures : List Failure)
        → option_map (task_of failures) result ≡ find is_pending_task (tasks_of failures rows.now) }
{
    rows.first_pending()
}

/// The first row of which a second attempt may run on an executor, at a pace of the set.
fn first_copyable<L: Ledger>(
    rows: &ListedRows,
    exec: ExecId,
    pace: Pace<'_>,
    steps: &mut Steps<L>,
) -> Option<Row>
    ensures first { (failures : List Failure)
        → option_map (task_of failures) result
        ≡ find (is_copyable_task (slow_at pace.entry) exec) (tasks_of failures rows.now) }
    ensures looked { steps.new
        ≤ steps.old + words_for (length rows.now) + count_by is_single_row rows.now }
{
    rows.first_copyable(exec, pace, steps)
}

/// Whether all of them are finished.
pub fn are_finished(rows: &ListedRows) -> bool
    ensures { (failures : List Failure)
        → result ≡ are_finished (tasks_of failures rows.now) }
{
    rows.are_finished()
}

/// How many failures of a partition are among some.
pub fn failure_count(failures: &[Failure], partition: u32) -> usize
    ensures { result ≡ length (filter (is_failure_of partition) failures.now) }
{
    failures
        .iter()
        .filter(|failure| failure.partition == partition)
        .count()
}

/// The first row that is there for an executor, at a pace of the set. A step is a word of marks or
/// a row. Where one is to be handed out, none is taken.
pub fn offered<L: Ledger>(
    rows: &ListedRows,
    is_zombie: bool,
    speculation: bool,
    exec: ExecId,
    pace: Pace<'_>,
    steps: &mut Steps<L>,
) -> Option<Row>
    ensures row { (failures : List Failure) → option_map (task_of failures) result
        ≡ offered_task is_zombie speculation (slow_at pace.entry) exec
        (tasks_of failures rows.now) }
    ensures looked { steps.new
        ≤ steps.old + words_for (length rows.now) + count_by is_single_row rows.now }
    ensures pending { (failures : List Failure)
        → (find is_pending_task (tasks_of failures rows.now) ≡ None → ⊥)
        → steps.new ≡ steps.old }
{
    if is_zombie {
        return None;
    }
    match first_pending(rows) {
        Some(row) => Some(row),
        None => if speculation {
            first_copyable(rows, exec, pace, steps)
        } else {
            None
        },
    }
}

/// Whether a failure of an attempt counts: its cause does, the set is no zombie, and the attempt
/// runs.
pub fn fails_in(
    rows: &ListedRows,
    is_zombie: bool,
    partition: u32,
    nth: u32,
    cause: FailureCause,
) -> bool
    ensures { (failures : List Failure) → result
        ≡ is_there_and (is_failure (is_counted cause && not is_zombie) nth)
        (task_at partition (tasks_of failures rows.now)) }
{
    match row_at(rows, partition) {
        Some(row) => cause.is_counted() && !is_zombie && row.runs(nth),
        None => false,
    }
}

/// Whether a success is the first of its partition.
pub fn is_first_in(rows: &ListedRows, partition: u32, nth: Option<u32>) -> bool
    ensures { (failures : List Failure) → result
        ≡ is_there_and (is_first_success nth) (task_at partition (tasks_of failures rows.now)) }
{
    match row_at(rows, partition) {
        Some(row) => row.is_first_success(nth),
        None => false,
    }
}

/// How long a partition took, by its first success of an attempt of its set.
pub fn duration_in(rows: &ListedRows, partition: u32, nth: Option<u32>, now: u64) -> Option<u64>
    ensures { (failures : List Failure) → result
        ≡ duration_in nth now (task_at partition (tasks_of failures rows.now)) }
{
    match row_at(rows, partition) {
        Some(row) => row.duration(nth, now),
        None => None,
    }
}

/// Whether a set hands out nothing more: it was so before, or all its tasks are finished.
pub fn ends(is_zombie: bool, rows: &ListedRows) -> bool
    ensures { (failures : List Failure)
        → result ≡ (is_zombie || are_finished (tasks_of failures rows.now)) }
{
    is_zombie || are_finished(rows)
}
