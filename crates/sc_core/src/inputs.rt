//! Where the blocks lie that stages read.
#![tactic(auto)]

ghost use Rattle.std.specs.Prelude.{◌≡◌, ◌++◌, IfOk, OnOk, map};
ghost use Rattle.std.specs.List.{flat_map};
ghost use Rattle.sc_base.specs.Lists.{numbers_below};
ghost use Rattle.sc_core.specs.HandOuts.{inputs_of, locations_by};
ghost use Rattle.sc_dag.specs.DagData.{stage_at};
ghost use Rattle.sc_dag.specs.Outputs.{block_of};
ghost use Rattle.sc_tracker.specs.Outputs.{location_in};
ghost use Rattle.sc_tracker.specs.TrackerData.{output_of};

use sc_dag::Dag;
use sc_ids::{BlockId, ShuffleId, StageId, Target};
use sc_tracker::{Location, Tracker};
use std::alloc::{AllocError, Global};
use std::marker::Model;
use std::sync::Arc;

/// A list of locations that is shared and never changes.
#[derive(Drop)]
pub struct Inputs {
    shared: Arc<Vec<Location>, Global>,
}

impl Model for Inputs {
    ghost use Rattle.std.specs.Prelude.{List};
    ghost use Rattle.std.specs.Arc.{arc_value};
    ghost use Rattle.sc_tracker.specs.declared.outputs.Location.{Location};

    ghost Value = { List Location };

    ghost view = { λ i. (arc_value i.shared).items };
}

impl Inputs {
    /// The locations of a vector, which are moved and not copied.
    pub fn new(alloc: Global, locations: Vec<Location>) -> Result<Inputs, AllocError>
        ensures { IfOk result (λ i. i ≡ locations.items) }
    {
        Ok(Inputs {
            shared: Arc::new(alloc, locations)?,
        })
    }

    /// One more owner. No location is copied.
    pub fn share(&self) -> Result<Inputs, AllocError>
        ensures { IfOk result (λ i. i ≡ self.now) }
    {
        Ok(Inputs {
            shared: Arc::try_clone(&self.shared)?,
        })
    }

    /// The locations, in order.
    pub fn as_slice(&self) -> &[Location]
        ensures { result.now ≡ self.now }
    {
        self.shared.as_slice()
    }
}

/// Where the blocks lie that a stage reads: those of its parents, in order.
pub(crate) fn inputs_in(
    alloc: Global,
    dag: &Dag,
    stage: StageId,
) -> Result<Vec<Location>, AllocError>
    ensures { IfOk result (λ v. v.items ≡ inputs_of dag.now.0 stage) }
{
    let mut inputs = Vec::new(alloc);
    for parent in dag.parents(stage) {
        list_outputs(&mut inputs, dag, *parent)?;
    }
    Ok(inputs)
}

/// Where the outputs of a stage lie, behind other locations.
fn list_outputs(locations: &mut Vec<Location>, dag: &Dag, stage: StageId) -> Result<(), AllocError>
    ensures { OnOk result (locations.new.items ≡ locations.old.items
        ++ locations_by dag.now.0.tracker (stage_at dag.now.0 stage).target
        (stage_at dag.now.0 stage).tasks) }
{
    match dag.target(stage) {
        Target::Map(shuffle) => {
            list_shuffle(locations, dag.tracker(), shuffle, dag.tasks(stage))
        }
        Target::Result { .. } => Ok(()),
    }
}

/// Where the outputs of a shuffle lie, behind other locations.
fn list_shuffle(
    locations: &mut Vec<Location>,
    tracker: &Tracker,
    shuffle: ShuffleId,
    maps: u32,
) -> Result<(), AllocError>
    ensures { OnOk result (locations.new.items ≡ locations.old.items
        ++ map (λ m. location_in (output_of tracker.now (block_of shuffle m)))
        (numbers_below maps)) }
{
    for map in 0..maps {
        locations.push(tracker.location(BlockId { shuffle, map }))?;
    }
    Ok(())
}
