//! The stages of a job, each told what becomes of it.
#![tactic(auto)]

ghost use Rattle.std.specs.Prelude.{◌≡◌, ◌↔◌, OnOk, OnErr, map, slice_get, true};
ghost use Rattle.sc_base.specs.Lists.{at_or};
ghost use Rattle.sc_ids.specs.Changes.{change_at};
ghost use Rattle.sc_taskset.specs.Offers.{handed};
ghost use Rattle.sc_taskset.specs.Reports.{after_failure};
ghost use Rattle.sc_dag.specs.Changes.{state_by};
ghost use Rattle.sc_dag.specs.DagData.{changed_newest, changed_set, newest_at, no_stage};
ghost use Rattle.sc_dag.specs.Losses.{without_executor};
ghost use Rattle.sc_dag.specs.Offers.{may_be_given_in};
ghost use Rattle.sc_dag.specs.Reports.{failed_count, reaches_limit_in, set_of};
ghost use Rattle.sc_dag.specs.Rows.{are_ready, dag_of, is_complete_in, ready_of, row_without_executor, stages_of, states_of};
ghost use Rattle.sc_tracker.specs.TrackerData.{TrackerData};
ghost use Rattle.sc_ids.specs.declared.limits.Limits.{Limits};

use crate::attempts::AttemptChange;
use crate::changes::RowChange;
use crate::rows::StageRow;
use sc_ids::{AttemptId, ExecId, FailureCause, StageId, Target};
use sc_taskset::Verdict;
use sc_tracker::Tracker;
use std::alloc::{AllocError, Global};

/// Whether all partitions of a stage are done.
pub(crate) fn is_complete_at(rows: &[StageRow], tracker: &Tracker, stage: StageId) -> bool
    ensures { result ≡ is_complete_in rows.now tracker.now stage }
{
    match rows.get(stage as usize) {
        Some(row) => row.is_complete(tracker),
        None => true,
    }
}

/// How many attempts of a stage failed since it was complete.
pub(crate) fn failed_count_at(rows: &[StageRow], stage: StageId) -> usize
    ensures { result ≡ failed_count (slice_get (states_of rows.now) stage) }
{
    match rows.get(stage as usize) {
        Some(row) => row.failed_count(),
        None => 0,
    }
}

/// What the tasks of a stage make: of one that isn't there, nothing.
pub(crate) fn target_at(rows: &[StageRow], stage: StageId) -> Target
    ensures { result ≡ (at_or (stages_of rows.now) stage no_stage).target }
{
    match rows.get(stage as usize) {
        Some(row) => row.stage().target(),
        None => Target::Result { node: 0 },
    }
}

/// The stages whose outputs a stage reads: of one that isn't there, none.
pub(crate) fn parents_at(rows: &[StageRow], stage: usize) -> &[StageId]
    ensures { result.now ≡ (at_or (stages_of rows.now) stage no_stage).parents }
{
    match rows.get(stage) {
        Some(row) => row.stage().parents(),
        None => &[],
    }
}

/// Makes room for one more attempt of each stage. Nothing that is seen of the stages changes.
pub(crate) fn prepare_all(rows: &mut Vec<StageRow>, alloc: Global) -> Result<(), AllocError>
    ensures states { states_of rows.new.items ≡ states_of rows.old.items }
    ensures stages { stages_of rows.new.items ≡ stages_of rows.old.items }
    ensures ready { OnOk result (are_ready rows.new.items ≡ true) }
{
    for k in 0..rows.len() {
        rows[k].prepare(alloc)?;
    }
    Ok(())
}

/// A task of a stage's newest attempt handed out.
pub(crate) fn give_at(
    rows: &mut Vec<StageRow>,
    a: AttemptId,
    exec: ExecId,
    now: u64,
) -> Result<(), AllocError>
    requires { (t : TrackerData) (limits : Limits)
        → may_be_given_in (newest_at (dag_of rows.old.items t limits) a.stage) exec now a.partition
        ≡ true }
    ensures given { OnOk result (states_of rows.new.items ≡ change_at (states_of rows.old.items)
        a.stage (changed_newest (λ set. handed set a.partition exec now))) }
    ensures refused { OnErr result (states_of rows.new.items ≡ states_of rows.old.items) }
    ensures stages { stages_of rows.new.items ≡ stages_of rows.old.items }
    ensures ready { ready_of rows.new.items ≡ ready_of rows.old.items }
{
    let stage = a.stage;
    if (stage as usize) < rows.len() {
        rows[stage as usize].give(a.partition, exec, now)
    } else {
        Ok(())
    }
}

/// Changes a stage.
pub(crate) fn change_row(rows: &mut Vec<StageRow>, stage: StageId, change: RowChange)
    ensures states { states_of rows.new.items ≡ change_at (states_of rows.old.items) stage
        (state_by change) }
    ensures stages { stages_of rows.new.items ≡ stages_of rows.old.items }
    ensures ready { ready_of rows.new.items ≡ ready_of rows.old.items }
{
    if (stage as usize) < rows.len() {
        rows[stage as usize].change(change);
    }
}

/// An attempt failed.
pub(crate) fn fail_at(rows: &mut Vec<StageRow>, a: AttemptId, cause: FailureCause) -> Verdict
    ensures limit { (t : TrackerData) (limits : Limits) → (result ≡ Verdict.Limit)
        ↔ (reaches_limit_in (set_of (dag_of rows.old.items t limits) a) a cause ≡ true) }
    ensures states { states_of rows.new.items ≡ change_at (states_of rows.old.items) a.stage
        (changed_set a.stage_attempt (λ set. after_failure set a.partition a.nth cause)) }
    ensures stages { stages_of rows.new.items ≡ stages_of rows.old.items }
    ensures ready { ready_of rows.new.items ≡ ready_of rows.old.items }
{
    let stage = a.stage;
    if (stage as usize) < rows.len() {
        rows[stage as usize].fail(a, cause)
    } else {
        Verdict::Again
    }
}

/// An executor is lost.
pub(crate) fn lose_all(rows: &mut Vec<StageRow>, exec: ExecId)
    ensures states { states_of rows.new.items
        ≡ map (without_executor exec) (states_of rows.old.items) }
    ensures stages { stages_of rows.new.items ≡ stages_of rows.old.items }
    ensures ready { ready_of rows.new.items ≡ ready_of rows.old.items }
{
    lose_each(rows.as_mut_slice(), exec);
}

fn lose_each(rows: &mut [StageRow], exec: ExecId)
    ensures { rows.new ≡ map (row_without_executor exec) rows.old }
{
    for row in rows.iter_mut() {
        row.change(RowChange::All(AttemptChange::Lost(exec)));
    }
}
