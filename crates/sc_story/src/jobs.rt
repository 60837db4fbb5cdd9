//! The jobs of a script, in order.
#![tactic(auto)]

use crate::numbering::{Numbering, StagePlace};
use crate::reached::{is_marked, mark, mark_from, no_marks, node_of};
use crate::sources::ScriptText;
use sc_core::JobHistory;
use sc_ids::StageId;
use sc_lineage::{Node, NodeId, Script, Shuffling};
use std::alloc::{AllocError, Global};

/// A job: for which action it is, and whether it finds the bounds of a sort.
#[derive(Clone, Copy)]
pub struct JobPlace {
    /// The number of the action, from 0.
    pub action: usize,
    /// The sort whose bounds it finds.
    pub sort: Option<NodeId>,
    /// The number of its result stage.
    pub result: StageId,
}

/// The jobs of a script, with the stages of all of them.
#[derive(Drop)]
pub struct JobPlaces {
    pub(crate) jobs: Vec<JobPlace>,
    pub(crate) numbering: Numbering,
}

/// The jobs that a script has where none is aborted: for each action those that find the bounds of
/// the sorts which it reads and that have none, in the order of their nodes, and then its own.
pub fn job_places(alloc: Global, script: &Script) -> Result<JobPlaces, AllocError> {
    let mut places = JobPlaces::none(alloc);
    let mut bounded = no_marks(alloc, script)?;
    for (action, done) in script.actions().iter().enumerate() {
        places.add_action(alloc, script, action, node_of(done), &mut bounded)?;
    }
    Ok(places)
}

/// A place among nodes as the number of a node.
fn number_of(at: usize) -> NodeId {
    match u32::try_from(at) {
        Ok(at) => at,
        Err(_) => u32::MAX,
    }
}

/// The node that a sort takes its rows of, where a node is one.
fn sorted_parent(script: &Script, node: usize) -> Option<NodeId> {
    match script.nodes().get(node) {
        Some(node) => match node {
            Node::Shuffle {
                kind: Shuffling::SortByKey,
                parent,
                ..
            } => Some(*parent),
            _ => None,
        },
        None => None,
    }
}

impl JobPlaces {
    /// No jobs.
    pub(crate) fn none(alloc: Global) -> JobPlaces {
        JobPlaces {
            jobs: Vec::new(alloc),
            numbering: Numbering::new(alloc),
        }
    }

    /// The jobs of a script that is known; else none.
    pub(crate) fn of(alloc: Global, text: Option<&ScriptText>) -> Result<JobPlaces, AllocError> {
        match text {
            Some(text) => job_places(alloc, &text.script),
            None => Ok(JobPlaces::none(alloc)),
        }
    }

    /// The jobs of an action. `bounded` has the nodes that earlier actions read.
    fn add_action(
        &mut self,
        alloc: Global,
        script: &Script,
        action: usize,
        node: NodeId,
        bounded: &mut Vec<bool>,
    ) -> Result<(), AllocError> {
        let mut marks = no_marks(alloc, script)?;
        mark_from(script, &mut marks, node);
        for at in 0..marks.len() {
            if is_marked(marks.as_slice(), at) && !is_marked(bounded.as_slice(), at) {
                mark(bounded, at);
                self.add_bounds(alloc, script, action, at)?;
            }
        }
        self.push(alloc, script, action, None, node)
    }

    /// The job that finds the bounds of a node, where that is a sort.
    fn add_bounds(
        &mut self,
        alloc: Global,
        script: &Script,
        action: usize,
        node: usize,
    ) -> Result<(), AllocError> {
        match sorted_parent(script, node) {
            Some(parent) => {
                let sort = Some(number_of(node));
                self.push(alloc, script, action, sort, parent)
            }
            None => Ok(()),
        }
    }

    /// One more job.
    fn push(
        &mut self,
        alloc: Global,
        script: &Script,
        action: usize,
        sort: Option<NodeId>,
        node: NodeId,
    ) -> Result<(), AllocError> {
        let result = self.numbering.number_job(alloc, script, node)?;
        self.jobs.push(JobPlace {
            action,
            sort,
            result,
        })?;
        Ok(())
    }

    /// The stages of all jobs, by their numbers.
    pub fn stages(&self) -> &[StagePlace] {
        self.numbering.stages.as_slice()
    }

    /// The job of a number, where it is one of the script.
    pub fn place_of(&self, at: usize, job: &JobHistory) -> Option<JobPlace> {
        match self.jobs.get(at) {
            Some(place) => {
                let place = *place;
                if place.result == job.end.result_stage() {
                    Some(place)
                } else {
                    None
                }
            }
            None => None,
        }
    }

    /// The node whose partitions a stage computes, where the jobs of a run are those of the script.
    pub(crate) fn node_in(&self, history: &[JobHistory], stage: StageId) -> Option<NodeId> {
        match self.last_of(history) {
            Some(_) => self.numbering.node_of(stage),
            None => None,
        }
    }

    /// The last job of a run, where all of them are those of the script.
    pub(crate) fn last_of(&self, history: &[JobHistory]) -> Option<JobPlace> {
        let mut last = None;
        for (at, job) in history.iter().enumerate() {
            last = self.place_of(at, job);
            if last.is_none() {
                return None;
            }
        }
        last
    }
}
