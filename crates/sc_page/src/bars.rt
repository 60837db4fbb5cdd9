//! The attempts of a run, from the entry that hands each out to that of its report.
#![tactic(auto)]

use sc_core::{Answer, Entry, Event, JobHistory};
use sc_ids::{AttemptId, ExecId};
use std::alloc::{AllocError, Global};

/// An attempt that was handed out.
#[derive(Clone, Copy)]
pub(crate) struct Bar {
    /// The attempt.
    pub(crate) attempt: AttemptId,
    /// Its executor.
    pub(crate) exec: ExecId,
    /// The number of its job.
    pub(crate) job: usize,
    /// The entry of the job that hands it out.
    pub(crate) given: usize,
    /// The entry of its report, where one came.
    pub(crate) posted: Option<usize>,
    /// Where it begins among the entries of the run.
    pub(crate) from: usize,
    /// Where it ends: at the entry of its report, or else with its job.
    pub(crate) to: usize,
}

/// The attempts so far, and how many entries of the run were read.
#[derive(Drop)]
pub(crate) struct Bars {
    pub(crate) bars: Vec<Bar>,
    pub(crate) read: usize,
}

/// The attempts of a run, in the order in which they were handed out.
pub(crate) fn bars_of(alloc: Global, history: &[JobHistory]) -> Result<Bars, AllocError> {
    let mut found = Bars {
        bars: Vec::new(alloc),
        read: 0,
    };
    for (job, one) in history.iter().enumerate() {
        found.read_job(job, one)?;
    }
    Ok(found)
}

impl Bars {
    /// Reads the entries of a job.
    fn read_job(&mut self, job: usize, history: &JobHistory) -> Result<(), AllocError> {
        for (at, entry) in history.entries.as_slice().iter().enumerate() {
            self.read(job, at, entry)?;
        }
        self.end_job(job);
        Ok(())
    }

    /// Ends the attempts of a job of which no report came: they were out to its end.
    fn end_job(&mut self, job: usize) {
        for place in 0..self.bars.len() {
            if let Some(bar) = self.bars.get_mut(place) {
                if bar.job == job && bar.posted.is_none() {
                    bar.to = self.read;
                }
            }
        }
    }

    /// Reads an entry.
    fn read(&mut self, job: usize, at: usize, entry: &Entry) -> Result<(), AllocError> {
        match entry.event {
            Event::Take { exec } => self.take(exec, job, at, &entry.answer)?,
            Event::Post { attempt, .. } => self.close(attempt, job, at),
            _ => {}
        }
        self.read = self.read.saturating_add(1);
        Ok(())
    }

    /// An executor asks for a task.
    fn take(
        &mut self,
        exec: ExecId,
        job: usize,
        at: usize,
        answer: &Answer,
    ) -> Result<(), AllocError> {
        match answer {
            Answer::Task(hand_out) => {
                self.bars.push(Bar {
                    attempt: hand_out.attempt(),
                    exec,
                    job,
                    given: at,
                    posted: None,
                    from: self.read,
                    to: self.read,
                })?;
                Ok(())
            }
            _ => Ok(()),
        }
    }

    /// The report of an attempt comes.
    fn close(&mut self, attempt: AttemptId, job: usize, at: usize) {
        let count = self.bars.len();
        for back in 0..count {
            let place = count.saturating_sub(back).saturating_sub(1);
            if self.is_out(place, attempt, job) {
                self.end(place, at);
                return;
            }
        }
    }

    /// Whether the attempt at a place is this one of a job, and is out.
    fn is_out(&self, place: usize, attempt: AttemptId, job: usize) -> bool {
        match self.bars.get(place) {
            Some(bar) => bar.attempt == attempt && bar.job == job && bar.posted.is_none(),
            None => false,
        }
    }

    /// The attempt at a place ends.
    fn end(&mut self, place: usize, at: usize) {
        let to = self.read;
        if let Some(bar) = self.bars.get_mut(place) {
            bar.posted = Some(at);
            bar.to = to;
        }
    }
}
