//! Submission: which stages are looked at, and which of them start.
#![tactic(auto)]

ghost use Rattle.std.specs.Prelude.{◌≡◌, ◌==◌, ◌+◌, ◌<◌, ◌≤◌, ◌^◌, ◌&&◌, drop, false, length, slice_get, Some, true};
ghost use Rattle.std.specs.List.{list_all, list_any};
ghost use Rattle.sc_base.specs.Lists.{at_or, numbers_below};
ghost use Rattle.sc_ids.specs.Changes.{change_at};
ghost use Rattle.sc_dag.specs.DagData.{no_stage};
ghost use Rattle.sc_dag.specs.Rows.{AreFates, AreOlder, SuitFates, are_ready, dag_of, fate_at, fate_for, fated, is_complete_in, is_looked_at, is_submitted, is_submitted_in, is_to_look_at, moves, outlook, ready_of, stages_of, states_of};
ghost use Rattle.sc_dag.specs.Submission.{IsSubmitted, by_number, is_idle_in, moved_if, waits_in};

use crate::changes::RowChange;
use crate::rows::StageRow;
use crate::stages::{is_complete_at, parents_at};
use sc_ids::{Limits, StageId};
use sc_tracker::Tracker;

/// What a submission makes of a stage.
#[derive(Clone, Copy, Debug, PartialEq, Eq)]
pub enum Fate {
    /// It stays as it is.
    Stays,
    /// It waits for its parents.
    Waits,
    /// It gets a new attempt.
    Starts,
}

/// What is submitted.
#[derive(Clone, Copy, Debug, PartialEq, Eq)]
pub enum Submitted {
    /// One stage.
    Stage(StageId),
    /// All stages that wait.
    Waiting,
}

impl Fate {
    /// Whether the stage is looked at.
    fn moves(self) -> bool
        ensures { result ≡ moves self }
    {
        match self {
            Fate::Stays => false,
            Fate::Waits => true,
            Fate::Starts => true,
        }
    }
}

/// Submits stages: those that are looked at start or wait. It takes no memory.
pub(crate) fn submit(
    rows: &mut Vec<StageRow>,
    fates: &mut Vec<Fate>,
    tracker: &Tracker,
    limits: Limits,
    submitted: Submitted,
)
    requires older { AreOlder (stages_of rows.old.items) }
    requires ready { are_ready rows.old.items ≡ true }
    requires fates { length fates.old.items ≡ length (stages_of rows.old.items) }
    requires few { length (stages_of rows.old.items) ≤ 2 ^ 32 }
    ensures submitted { IsSubmitted (dag_of rows.old.items tracker.now limits)
        (is_submitted submitted (dag_of rows.old.items tracker.now limits))
        (dag_of rows.new.items tracker.now limits) }
    ensures stages { stages_of rows.new.items ≡ stages_of rows.old.items }
    ensures fates { length fates.new.items ≡ length fates.old.items }
{
    note_fates(rows, tracker, submitted, fates);
    carry_out(rows, fates, tracker, limits);
}

/// Notes what a submission makes of each stage. Since parents have smaller numbers, a stage comes
/// behind all that may ask for it.
fn note_fates(rows: &[StageRow], tracker: &Tracker, submitted: Submitted, fates: &mut Vec<Fate>)
    requires older { AreOlder (stages_of rows.now) }
    requires fates { length fates.old.items ≡ length rows.now }
    requires few { length rows.now ≤ 2 ^ 32 }
    ensures are { AreFates (outlook rows.now tracker.now)
        (is_submitted submitted (outlook rows.now tracker.now)) fates.new.items }
    ensures fates { length fates.new.items ≡ length fates.old.items }
{
    let mut k = rows.len();
    while k > 0 {
        k -= 1;
        let fate = fate_of(rows, tracker, submitted, fates, k as u32);
        fates[k] = fate;
    }
}

/// What a submission makes of a stage, where it is known of those that may ask for it.
fn fate_of(
    rows: &[StageRow],
    tracker: &Tracker,
    submitted: Submitted,
    fates: &[Fate],
    stage: StageId,
) -> Fate
    ensures { result ≡ fate_for (outlook rows.now tracker.now)
        (is_submitted submitted (outlook rows.now tracker.now)) (is_looked_at fates.now) stage }
{
    if !is_to_look_at(rows, tracker, submitted, fates, stage) {
        Fate::Stays
    } else if has_inputs_at(rows, tracker, stage) {
        Fate::Starts
    } else {
        Fate::Waits
    }
}

/// Whether a stage is looked at.
fn is_to_look_at(
    rows: &[StageRow],
    tracker: &Tracker,
    submitted: Submitted,
    fates: &[Fate],
    stage: StageId,
) -> bool
    ensures { result ≡ is_to_look_at (outlook rows.now tracker.now)
        (is_submitted submitted (outlook rows.now tracker.now)) (is_looked_at fates.now) stage }
{
    !is_complete_at(rows, tracker, stage)
        && (is_submitted_at(rows, submitted, stage)
            || (is_idle_at(rows, stage) && is_asked_for_at(rows, fates, stage)))
}

/// Whether a stage is one of those that are submitted.
fn is_submitted_at(rows: &[StageRow], submitted: Submitted, stage: StageId) -> bool
    ensures { result ≡ is_submitted_in submitted stage (slice_get (states_of rows.now) stage) }
{
    match submitted {
        Submitted::Stage(s) => stage == s,
        Submitted::Waiting => waits_at(rows, stage),
    }
}

/// Whether a stage waits.
fn waits_at(rows: &[StageRow], stage: StageId) -> bool
    ensures { result ≡ waits_in (slice_get (states_of rows.now) stage) }
{
    match rows.get(stage as usize) {
        Some(row) => row.waits(),
        None => false,
    }
}

/// Whether a stage neither hands out tasks nor waits.
pub(crate) fn is_idle_at(rows: &[StageRow], stage: StageId) -> bool
    ensures { result ≡ is_idle_in (slice_get (states_of rows.now) stage) }
{
    match rows.get(stage as usize) {
        Some(row) => row.is_idle(),
        None => false,
    }
}

/// Whether a stage that is looked at reads outputs of this one.
fn is_asked_for_at(rows: &[StageRow], fates: &[Fate], stage: StageId) -> bool
    ensures { result ≡ list_any (λ child. is_looked_at fates.now child
        && list_any (λ p. p == stage) (at_or (stages_of rows.now) child no_stage).parents)
        (numbers_below (length (stages_of rows.now))) }
{
    (0..rows.len()).any(|child| fate_at(fates, child).moves() && reads_at(rows, child, stage))
}

/// Whether a stage reads outputs of another.
fn reads_at(rows: &[StageRow], child: usize, parent: StageId) -> bool
    ensures { result
        ≡ list_any (λ p. p == parent) (at_or (stages_of rows.now) child no_stage).parents }
{
    parents_at(rows, child).iter().any(|p| *p == parent)
}

/// Whether all stages whose outputs a stage reads are complete.
fn has_inputs_at(rows: &[StageRow], tracker: &Tracker, stage: StageId) -> bool
    ensures { result ≡ list_all (is_complete_in rows.now tracker.now)
        (at_or (stages_of rows.now) stage no_stage).parents }
{
    parents_at(rows, stage as usize)
        .iter()
        .all(|parent| is_complete_at(rows, tracker, *parent))
}

/// What a submission makes of a stage: of one that isn't there, nothing.
fn fate_at(fates: &[Fate], stage: usize) -> Fate
    ensures { result ≡ fate_at fates.now stage }
{
    match fates.get(stage) {
        Some(fate) => *fate,
        None => Fate::Stays,
    }
}

/// Makes of each stage what was noted. It takes no memory.
fn carry_out(rows: &mut Vec<StageRow>, fates: &[Fate], tracker: &Tracker, limits: Limits)
    requires ready { are_ready rows.old.items ≡ true }
    requires suit { SuitFates (dag_of rows.old.items tracker.now limits) fates.now }
    ensures states { states_of rows.new.items
        ≡ by_number (moved_if (dag_of rows.old.items tracker.now limits) (is_looked_at fates.now))
        0 (states_of rows.old.items) }
    ensures stages { stages_of rows.new.items ≡ stages_of rows.old.items }
{
    for k in 0..rows.len() {
        move_at(rows, k, fate_at(fates, k), tracker, limits);
    }
}

/// Makes of a stage what was noted of it.
fn move_at(rows: &mut Vec<StageRow>, k: usize, fate: Fate, tracker: &Tracker, limits: Limits)
    requires there { k < length rows.old.items }
    requires ready { fate ≡ Fate.Starts → slice_get (ready_of rows.old.items) k ≡ Some true }
    requires incomplete { fate ≡ Fate.Starts
        → is_complete_in rows.old.items tracker.now k ≡ false }
    ensures states { states_of rows.new.items ≡ change_at (states_of rows.old.items) k
        (fated fate tracker.now limits (at_or (stages_of rows.old.items) k no_stage)) }
    ensures stages { stages_of rows.new.items ≡ stages_of rows.old.items }
    ensures rest { drop (k + 1) rows.new.items ≡ drop (k + 1) rows.old.items }
    ensures len { length rows.new.items ≡ length rows.old.items }
{
    match fate {
        Fate::Stays => {}
        Fate::Waits => rows[k].change(RowChange::Waits),
        Fate::Starts => rows[k].start(tracker, limits),
    }
}
