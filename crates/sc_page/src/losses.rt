//! Where executors are told lost, and where it shows that stores were wiped.
#![tactic(auto)]

use sc_core::{Entry, Event, JobHistory, Outcome};
use sc_ids::{ExecId, FailureCause, Generation, Loc};
use std::alloc::{AllocError, Global};
use std::collections::BTreeMap;

/// What is marked.
#[derive(Clone, Copy)]
pub(crate) enum What {
    /// An executor is told lost.
    Lost,
    /// A store is of a generation that no entry had before.
    Wiped,
}

/// A mark on the lane of an executor.
#[derive(Clone, Copy)]
pub(crate) struct Mark {
    pub(crate) what: What,
    /// The executor.
    pub(crate) exec: ExecId,
    /// The number of the job.
    pub(crate) job: usize,
    /// The entry of the job that tells it.
    pub(crate) at: usize,
    /// Where that stands among the entries of the run.
    pub(crate) place: usize,
}

/// The marks so far.
#[derive(Drop)]
struct Marks {
    marks: Vec<Mark>,
    /// The last generation of each store that an entry had.
    generations: BTreeMap<ExecId, Generation>,
    read: usize,
}

/// The losses and wipes that the entries of a run show, in order.
pub(crate) fn marks_of(alloc: Global, history: &[JobHistory]) -> Result<Vec<Mark>, AllocError> {
    let mut found = Marks {
        marks: Vec::new(alloc),
        generations: BTreeMap::new(alloc),
        read: 0,
    };
    for (job, one) in history.iter().enumerate() {
        found.read_job(job, one)?;
    }
    let Marks { marks, .. } = found;
    Ok(marks)
}

impl Marks {
    /// Reads the entries of a job.
    fn read_job(&mut self, job: usize, history: &JobHistory) -> Result<(), AllocError> {
        for (at, entry) in history.entries.as_slice().iter().enumerate() {
            self.read(job, at, entry)?;
            self.read = self.read.saturating_add(1);
        }
        Ok(())
    }

    /// Reads an entry.
    fn read(&mut self, job: usize, at: usize, entry: &Entry) -> Result<(), AllocError> {
        match entry.event {
            Event::TellLost { exec } => self.push(What::Lost, exec, job, at),
            Event::Post { outcome, .. } => match shown_by(outcome) {
                Some(loc) => self.see(loc, job, at),
                None => Ok(()),
            },
            _ => Ok(()),
        }
    }

    /// A store is seen in a generation.
    fn see(&mut self, loc: Loc, job: usize, at: usize) -> Result<(), AllocError> {
        let before = match self.generations.get(&loc.exec) {
            Some(before) => *before,
            None => 0,
        };
        if loc.generation <= before {
            return Ok(());
        }
        self.generations.insert(loc.exec, loc.generation)?;
        self.push(What::Wiped, loc.exec, job, at)
    }

    /// One more mark.
    fn push(&mut self, what: What, exec: ExecId, job: usize, at: usize) -> Result<(), AllocError> {
        let place = self.read;
        self.marks.push(Mark {
            what,
            exec,
            job,
            at,
            place,
        })?;
        Ok(())
    }
}

/// The store and generation that a report shows, if it shows one.
fn shown_by(outcome: Outcome) -> Option<Loc> {
    match outcome {
        Outcome::Map(loc) => Some(loc),
        Outcome::Failed(FailureCause::Gone { exec, found, .. }) => Some(Loc {
            exec,
            generation: found,
        }),
        _ => None,
    }
}
