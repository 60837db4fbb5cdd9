//! The stages of a job that begins.
#![tactic(auto)]

ghost use Rattle.std.specs.Prelude.{◌≡◌, ◌+◌, ◌-◌, ◌<◌, ◌≤◌, ◌^◌, ◌++◌, ◌∷◌, [], IfOk, OnOk, false, length, replicate, Some};
ghost use Rattle.std.specs.List.{AllPairs};
ghost use Rattle.std.specs.Option.{option_map};
ghost use Rattle.sc_dag.specs.DagData.{no_stage};
ghost use Rattle.sc_dag.specs.Openings.{AreNumbered, FitsJob, IsJob, Opens, attempts_so_far, blank_state, sized_by, sized_for_all};
ghost use Rattle.sc_dag.specs.Rows.{AreBlank, row_data, stages_of};

use crate::dags::Dag;
use crate::fates::Fate;
use crate::rows::StageRow;
use sc_ids::{Limits, Stage, StageGraph, StageId, Target};
use sc_tracker::Tracker;
use std::alloc::{AllocError, Global};

impl Dag {
    /// The stages of a job that begins, behind another job or none. What is carried on is the
    /// tracker, and how many attempts the stages had.
    pub fn open(
        alloc: Global,
        graph: &StageGraph,
        last: Option<&Dag>,
        tracker: Tracker,
        limits: Limits,
    ) -> Result<Dag, AllocError>
        requires job { IsJob graph.now }
        requires fits { FitsJob tracker graph.now }
        ensures opens { IfOk result (λ d. Opens graph.now (option_map (λ l. l.now.0) last.entry)
            tracker d.0) }
        ensures limits { IfOk result (λ d. d.0.limits ≡ limits) }
    {
        let mut tracker = tracker;
        size_all(&mut tracker, graph.stages())?;
        let rows = rows_of(alloc, graph.stages(), last)?;
        let fates = vec![in alloc; Fate::Stays; rows.len()]?;
        Ok(Dag {
            alloc,
            rows,
            fates,
            tracker,
            limits,
        })
    }

    /// How many attempts a stage had in all jobs so far.
    pub(crate) fn so_far(&self, stage: StageId) -> u64
        ensures { result ≡ attempts_so_far (Some self.now.0) stage }
    {
        match self.rows.get(stage as usize) {
            Some(row) => row.so_far(),
            None => 0,
        }
    }
}

/// Makes room for the outputs of all map stages.
fn size_all(tracker: &mut Tracker, graph: &[Stage]) -> Result<(), AllocError>
    ensures { OnOk result (tracker.new ≡ sized_for_all tracker.old graph.now) }
{
    for stage in graph {
        size_for(tracker, stage)?;
    }
    Ok(())
}

/// Makes room for the outputs of a stage, where it is one of map tasks.
fn size_for(tracker: &mut Tracker, stage: &Stage) -> Result<(), AllocError>
    ensures { OnOk result (tracker.new ≡ sized_by tracker.old stage.now) }
{
    match stage.target() {
        Target::Map(shuffle) => tracker.size_for(shuffle, stage.tasks()),
        Target::Result { .. } => Ok(()),
    }
}

/// Rows for the stages of a job by their numbers, and rows without tasks for the numbers between.
fn rows_of(alloc: Global, graph: &[Stage], last: Option<&Dag>) -> Result<Vec<StageRow>, AllocError>
    requires { AllPairs (λ a b. a.id < b.id) graph.now }
    ensures numbered { IfOk result (λ rows. AreNumbered graph.now (stages_of rows.items)) }
    ensures blank { IfOk result (λ rows. AreBlank (option_map (λ l. l.now.0) last.entry)
        rows.items) }
    ensures few { IfOk result (λ rows. length rows.items ≤ 2 ^ 32) }
{
    let mut rows = Vec::new(alloc);
    for stage in graph {
        fill(alloc, &mut rows, stage.id(), last)?;
        let copy = copied(alloc, stage)?;
        push(alloc, &mut rows, copy, last)?;
    }
    Ok(rows)
}

/// Adds rows without tasks for all numbers below one.
fn fill(
    alloc: Global,
    rows: &mut Vec<StageRow>,
    end: StageId,
    last: Option<&Dag>,
) -> Result<(), AllocError>
    requires few { length rows.old.items ≤ end }
    requires blank { AreBlank (option_map (λ l. l.now.0) last) rows.old.items }
    ensures stages { OnOk result (stages_of rows.new.items
        ≡ stages_of rows.old.items ++ replicate (end - length rows.old.items) no_stage) }
    ensures blank { OnOk result (AreBlank (option_map (λ l. l.now.0) last.entry) rows.new.items) }
    ensures len { OnOk result (length rows.new.items ≡ end) }
{
    while rows.len() < end as usize {
        let none = Stage::new(0, Target::Result { node: 0 }, 0, Vec::new(alloc));
        push(alloc, rows, none, last)?;
    }
    Ok(())
}

/// Adds a row for a stage behind the others.
fn push(
    alloc: Global,
    rows: &mut Vec<StageRow>,
    stage: Stage,
    last: Option<&Dag>,
) -> Result<(), AllocError>
    requires { length rows.old.items < 2 ^ 32 }
    ensures { OnOk result (rows.new.items ≡ rows.old.items ++ row_data stage (blank_state stage
        (attempts_so_far (option_map (λ l. l.now.0) last.entry) (length rows.old.items))) false
        ∷ []) }
{
    let before = so_far(last, rows.len() as u32);
    rows.push(StageRow::new(alloc, stage, before)?)?;
    Ok(())
}

/// How many attempts a stage had in all jobs so far.
fn so_far(last: Option<&Dag>, stage: StageId) -> u64
    ensures { result ≡ attempts_so_far (option_map (λ l. l.now.0) last.entry) stage }
{
    match last {
        Some(last) => last.so_far(stage),
        None => 0,
    }
}

/// A copy of what never changes of a stage.
fn copied(alloc: Global, stage: &Stage) -> Result<Stage, AllocError>
    ensures { IfOk result (λ s. s ≡ stage.now) }
{
    let parents = stage.parents().to_vec(alloc)?;
    Ok(Stage::new(stage.id(), stage.target(), stage.tasks(), parents))
}
