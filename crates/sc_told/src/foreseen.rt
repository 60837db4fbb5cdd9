//! The stages of a run, as its script foretells them.
#![tactic(auto)]

use sc_base::OrMemory;
use sc_ids::StageId;
use sc_lineage::Script;
use sc_script::parse;
use sc_story::{Edge, JobPlaces, edges_of, job_places};
use sc_value::Octets;
use std::alloc::{AllocError, Global};

/// A stage that a run will have.
#[derive(Clone, Copy)]
pub(crate) struct Size {
    /// The number of the job in which it is new.
    pub(crate) job: usize,
    /// How many tasks it has; a sort of fewer keys than partitions has fewer.
    pub(crate) tasks: u32,
}

/// The stages that a run will have, and which of them read what others make.
#[derive(Drop)]
pub(crate) struct Foreseen {
    /// The stages, by their numbers.
    pub(crate) sizes: Vec<Size>,
    edges: Vec<Edge>,
}

impl Foreseen {
    /// No stages.
    pub(crate) fn none(alloc: Global) -> Foreseen {
        Foreseen {
            sizes: Vec::new(alloc),
            edges: Vec::new(alloc),
        }
    }

    /// The stages of the script that bytes are; none where they are no script.
    pub(crate) fn of(alloc: Global, bytes: &Octets) -> Result<Foreseen, AllocError> {
        match parse(alloc, bytes) {
            Ok(script) => {
                let foreseen = Foreseen::of_script(alloc, &script);
                drop(script);
                foreseen
            }
            Err(OrMemory::Fault(_)) => Ok(Foreseen::none(alloc)),
            Err(OrMemory::OutOfMemory) => Err(AllocError),
        }
    }

    /// The stages of a script.
    fn of_script(alloc: Global, script: &Script) -> Result<Foreseen, AllocError> {
        let places = job_places(alloc, script)?;
        let foreseen = Foreseen::of_places(alloc, script, &places);
        drop(places);
        foreseen
    }

    /// The stages of a script whose jobs are known.
    fn of_places(
        alloc: Global,
        script: &Script,
        places: &JobPlaces,
    ) -> Result<Foreseen, AllocError> {
        let sizes = sizes_of(alloc, script, places)?;
        let edges = edges_of(alloc, script, places)?;
        Ok(Foreseen { sizes, edges })
    }

    /// What is known of the stage of a number.
    pub(crate) fn size_of(&self, stage: StageId) -> Option<Size> {
        match self.sizes.get(stage as usize) {
            Some(size) => Some(*size),
            None => None,
        }
    }

    /// Whether a stage makes what another one reads.
    pub(crate) fn is_read_by(&self, stage: StageId, reader: StageId) -> bool {
        for edge in self.edges.as_slice() {
            if edge.from == stage && edge.to == reader {
                return true;
            }
        }
        false
    }
}

/// What is known of each stage.
fn sizes_of(alloc: Global, script: &Script, places: &JobPlaces) -> Result<Vec<Size>, AllocError> {
    let mut sizes = Vec::new(alloc);
    for place in places.stages() {
        let tasks = match script.counts().get(place.node as usize) {
            Some(tasks) => *tasks,
            None => 0,
        };
        sizes.push(Size {
            job: place.job,
            tasks,
        })?;
    }
    Ok(sizes)
}
