//! The stages of a job.
#![tactic(auto)]

ghost use Rattle.std.specs.Prelude.{◌≡◌, ◌++◌, [], ◌∷◌, if◌then◌else◌, is_ok, slice_get};
ghost use Rattle.sc_ids.specs.Graphs.{stage_data};

use crate::attempts::StageId;
use crate::blocks::Target;
use std::alloc::{AllocError, Global};
use std::marker::Model;

/// A stage: tasks that make the same of each partition, and the stages whose outputs they read.
#[derive(Drop)]
pub struct Stage {
    id: StageId,
    target: Target,
    tasks: u32,
    parents: Vec<StageId>,
}

impl Model for Stage {
    ghost use Rattle.sc_ids.specs.Graphs.{StageData, stage_data};

    ghost Value = { StageData };

    ghost view = { λ s. stage_data s.id s.target s.tasks s.parents.items };
}

impl Stage {
    /// A stage with so many tasks, which read the outputs of all of `parents`.
    pub fn new(id: StageId, target: Target, tasks: u32, parents: Vec<StageId>) -> Stage
        ensures { result ≡ stage_data id target tasks parents.items }
    {
        Stage {
            id,
            target,
            tasks,
            parents,
        }
    }

    /// Its number.
    pub fn id(&self) -> StageId
        ensures { result ≡ self.now.id }
    {
        self.id
    }

    /// What its tasks make.
    pub fn target(&self) -> Target
        ensures { result ≡ self.now.target }
    {
        self.target
    }

    /// How many tasks it has, one for each partition from 0.
    pub fn tasks(&self) -> u32
        ensures { result ≡ self.now.tasks }
    {
        self.tasks
    }

    /// The stages whose outputs its tasks read, in order.
    pub fn parents(&self) -> &[StageId]
        ensures { result.now ≡ self.now.parents }
    {
        self.parents.as_slice()
    }
}

/// The stages of a job, in order.
#[derive(Drop)]
pub struct StageGraph {
    stages: Vec<Stage>,
}

impl Model for StageGraph {
    ghost use Rattle.std.specs.Prelude.{List};
    ghost use Rattle.sc_ids.specs.Graphs.{StageData};

    ghost Value = { List StageData };

    ghost view = { λ g. g.stages.items };
}

impl StageGraph {
    /// A graph without a stage.
    pub fn new(alloc: Global) -> StageGraph
        ensures { result ≡ [] }
    {
        StageGraph {
            stages: Vec::new(alloc),
        }
    }

    /// Adds a stage behind the others. A refused call changes nothing.
    pub fn push(&mut self, stage: Stage) -> Result<(), AllocError>
        ensures { self.new ≡ (if is_ok result then self.old ++ stage ∷ [] else self.old) }
    {
        self.stages.push(stage)?;
        Ok(())
    }

    /// The stages, in order.
    pub fn stages(&self) -> &[Stage]
        ensures { result.now ≡ self.now }
    {
        self.stages.as_slice()
    }
}
