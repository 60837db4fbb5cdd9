//! The numbers of stages, as the scheduler gives them.
#![tactic(auto)]

use crate::reached::{is_marked, mark_from, no_marks};
use crate::sides::side_of;
use sc_ids::StageId;
use sc_lineage::{NodeId, Script};
use std::alloc::{AllocError, Global};

/// A node that reads by a shuffle, and at which side.
#[derive(Clone, Copy)]
pub(crate) struct Reader {
    pub(crate) node: NodeId,
    side: u8,
}

/// A stage, and the node whose partitions its tasks compute.
#[derive(Clone, Copy)]
pub struct StagePlace {
    /// The stage.
    pub stage: StageId,
    /// The node.
    pub node: NodeId,
    /// The number of the job in which it is new.
    pub job: usize,
    /// What reads what it makes; of a result stage nothing.
    pub(crate) reader: Option<Reader>,
}

/// The stages so far, and the number of the next one.
#[derive(Drop)]
pub(crate) struct Numbering {
    pub(crate) stages: Vec<StagePlace>,
    next: StageId,
    /// How many jobs have their stages.
    jobs: usize,
}

impl Numbering {
    /// No stages.
    pub(crate) fn new(alloc: Global) -> Numbering {
        Numbering {
            stages: Vec::new(alloc),
            next: 0,
            jobs: 0,
        }
    }

    /// Numbers the stages of a job that begins at a node: each shuffle that it reaches and that
    /// has no stage, in the order of nodes and sides, and then its result. Gives the number of
    /// that.
    pub(crate) fn number_job(
        &mut self,
        alloc: Global,
        script: &Script,
        node: NodeId,
    ) -> Result<StageId, AllocError> {
        let mut marks = no_marks(alloc, script)?;
        mark_from(script, &mut marks, node);
        for reader in 0..marks.len() {
            if is_marked(marks.as_slice(), reader) {
                self.number_sides(script, reader)?;
            }
        }
        let result = self.push(node, None)?;
        self.jobs = self.jobs.saturating_add(1);
        Ok(result)
    }

    /// Numbers the map stages of the sides of a node.
    fn number_sides(&mut self, script: &Script, node: usize) -> Result<(), AllocError> {
        match u32::try_from(node) {
            Ok(node) => {
                self.number_side(script, node, 0)?;
                self.number_side(script, node, 1)
            }
            Err(_) => Ok(()),
        }
    }

    /// Numbers the map stage of a side of a node, where that is a shuffle without one.
    fn number_side(&mut self, script: &Script, node: NodeId, side: u8) -> Result<(), AllocError> {
        let reader = Reader { node, side };
        if self.has(reader) {
            return Ok(());
        }
        match side_of(script, node, side) {
            Some(read) if read.is_shuffled => {
                self.push(read.parent, Some(reader))?;
                Ok(())
            }
            _ => Ok(()),
        }
    }

    /// Whether a side of a node has a map stage.
    fn has(&self, reader: Reader) -> bool {
        for place in self.stages.as_slice() {
            match place.reader {
                Some(known) if known.node == reader.node && known.side == reader.side => {
                    return true;
                }
                _ => {}
            }
        }
        false
    }

    /// One more stage.
    fn push(&mut self, node: NodeId, reader: Option<Reader>) -> Result<StageId, AllocError> {
        let stage = self.next;
        self.stages.push(StagePlace {
            stage,
            node,
            job: self.jobs,
            reader,
        })?;
        self.next = stage.saturating_add(1);
        Ok(stage)
    }

    /// The number of the next stage.
    pub(crate) fn next(&self) -> StageId {
        self.next
    }

    /// The node whose partitions the tasks of a stage compute.
    pub(crate) fn node_of(&self, stage: StageId) -> Option<NodeId> {
        for place in self.stages.as_slice() {
            if place.stage == stage {
                return Some(place.node);
            }
        }
        None
    }
}
