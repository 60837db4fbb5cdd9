//! The entries of a run, walked from the first to the last.
#![tactic(auto)]

use crate::keys::{place_key, task_key};
use crate::lasts::{Failure, Last, Reason, Report};
use crate::outs::Outs;
use sc_core::{Answer, Entry, Event, JobHistory, Outcome};
use sc_ids::{AttemptId, ExecId, StageId};
use sc_plan::Plan;
use std::alloc::{AllocError, Global};
use std::collections::BTreeMap;

/// What the entries so far tell.
#[derive(Drop)]
pub struct Track {
    /// How many jobs there were.
    pub(crate) jobs: u64,
    /// How many tasks were handed out.
    pub(crate) tasks: u64,
    /// How many reports were told.
    pub(crate) told: u64,
    /// The stages of which tasks were handed out, each with its attempts.
    pub(crate) stages: BTreeMap<StageId, u64>,
    /// Of each task that was handed out, in order, why it ran again, where it did.
    pub(crate) reasons: Vec<Option<Reason>>,
    /// The failures that were told.
    pub(crate) failures: Vec<Failure>,
    /// The executors that were told lost.
    pub(crate) lost: Vec<ExecId>,
    /// The attempts that were handed out, by stage, partition and number.
    pub(crate) places: BTreeMap<u128, u64>,
    /// How the last attempt of each task ended, by stage and partition.
    lasts: BTreeMap<u64, Last>,
    /// The attempts of the job that are out.
    outs: Outs,
    /// The reports of the job that were put off, by their keys.
    shelf: Vec<Report>,
}

/// What the histories of a run tell, under its fault plan.
pub fn tracked(alloc: Global, history: &[JobHistory], plan: &Plan) -> Result<Track, AllocError> {
    let mut track = Track::begin(alloc);
    match track.read_all(history, plan) {
        Ok(()) => Ok(track),
        Err(error) => {
            drop(track);
            Err(error)
        }
    }
}

impl Track {
    /// Nothing yet.
    pub(crate) fn begin(alloc: Global) -> Track {
        Track {
            jobs: 0,
            tasks: 0,
            told: 0,
            stages: BTreeMap::new(alloc),
            reasons: Vec::new(alloc),
            failures: Vec::new(alloc),
            lost: Vec::new(alloc),
            places: BTreeMap::new(alloc),
            lasts: BTreeMap::new(alloc),
            outs: Outs::none(alloc),
            shelf: Vec::new(alloc),
        }
    }

    /// Reads the jobs of a run.
    fn read_all(&mut self, history: &[JobHistory], plan: &Plan) -> Result<(), AllocError> {
        for job in history {
            self.jobs = self.jobs.saturating_add(1);
            self.told = job.end.told();
            self.shelf.clear();
            self.outs.clear();
            self.read_entries(job.entries.as_slice(), plan)?;
        }
        Ok(())
    }

    /// Reads the entries of a job.
    pub(crate) fn read_entries(
        &mut self,
        entries: &[Entry],
        plan: &Plan,
    ) -> Result<(), AllocError> {
        for entry in entries {
            self.read(entry, plan)?;
        }
        Ok(())
    }

    /// Reads an entry.
    fn read(&mut self, entry: &Entry, plan: &Plan) -> Result<(), AllocError> {
        match entry.event {
            Event::Take { exec } => self.take(exec, &entry.answer),
            Event::Post { attempt, outcome } => {
                let report = Report { attempt, outcome };
                self.post(report, &entry.answer, plan.twice(&attempt))
            }
            Event::Release { key } => self.release(key, &entry.answer),
            Event::TellLost { exec } => self.lose(exec),
            Event::Side(_) => Ok(()),
        }
    }

    /// An executor asks for a task.
    fn take(&mut self, exec: ExecId, answer: &Answer) -> Result<(), AllocError> {
        match answer {
            Answer::Task(hand_out) => self.hand_out(exec, hand_out.attempt()),
            _ => Ok(()),
        }
    }

    /// A report that was put off comes.
    fn release(&mut self, key: u32, answer: &Answer) -> Result<(), AllocError> {
        match self.shelf.get(key as usize) {
            Some(report) => {
                let report = *report;
                self.tell(report, answer)
            }
            None => Ok(()),
        }
    }

    /// A task is handed out to an executor.
    fn hand_out(&mut self, exec: ExecId, attempt: AttemptId) -> Result<(), AllocError> {
        self.tasks = self.tasks.saturating_add(1);
        let number = attempt.stage_attempt;
        let key = task_key(attempt);
        let reason = self.reason(key, number);
        self.reasons.push(reason)?;
        self.lasts.insert(key, Last::Out(number, exec))?;
        self.outs.push(attempt, exec)?;
        self.stages.insert(attempt.stage, number.saturating_add(1))?;
        let place = place_key(attempt.stage, attempt.partition, attempt.nth);
        self.places.insert(place, number)?;
        Ok(())
    }

    /// Why the task of a key is handed out once more in an attempt of its stage, where it is.
    fn reason(&self, key: u64, number: u64) -> Option<Reason> {
        match self.lasts.get(&key) {
            Some(last) => Some(last.reason(number, self.lost.as_slice())),
            None => None,
        }
    }

    /// Why the task that was handed out behind so many others ran again, in words, where it did.
    pub fn why_again(&self, nth: usize) -> Option<&'static str> {
        match self.reasons.get(nth) {
            Some(Some(reason)) => Some(reason.words()),
            _ => None,
        }
    }

    /// Whether that task was a copy of one that was out.
    pub fn is_copy(&self, nth: usize) -> bool {
        matches!(self.reasons.get(nth), Some(Some(Reason::Copy)))
    }

    /// A report comes: it is told, or put off, or told now and once more later.
    fn post(
        &mut self,
        report: Report,
        answer: &Answer,
        comes_twice: bool,
    ) -> Result<(), AllocError> {
        match answer {
            Answer::Ignored => Ok(()),
            Answer::Shelved => {
                self.shelf.push(report)?;
                self.shelve_copy(report, comes_twice)
            }
            _ => {
                self.shelve_copy(report, comes_twice)?;
                self.tell(report, answer)
            }
        }
    }

    /// A second copy of a report is put off, where one comes.
    fn shelve_copy(&mut self, report: Report, comes_twice: bool) -> Result<(), AllocError> {
        if comes_twice {
            self.shelf.push(report)?;
        }
        Ok(())
    }

    /// An executor is told lost. A task of which another attempt has failed meanwhile waits for
    /// the one that is out there no more.
    fn lose(&mut self, exec: ExecId) -> Result<(), AllocError> {
        for at in 0..self.outs.len() {
            if let Some(attempt) = self.outs.nth_on(at, exec) {
                let key = task_key(attempt);
                if self.is_newest(attempt) && self.has_failed(key) {
                    let number = attempt.stage_attempt;
                    self.lasts.insert(key, Last::Out(number, exec))?;
                }
            }
        }
        self.lost.push(exec)?;
        Ok(())
    }

    /// Whether an attempt is of the newest attempt of its stage.
    fn is_newest(&self, attempt: AttemptId) -> bool {
        match self.stages.get(&attempt.stage) {
            Some(attempts) => *attempts == attempt.stage_attempt.saturating_add(1),
            None => false,
        }
    }

    /// Whether the last that was told of the task of a key is that an attempt of it failed.
    fn has_failed(&self, key: u64) -> bool {
        matches!(self.lasts.get(&key), Some(Last::Failed(_)))
    }

    /// A report is told.
    fn tell(&mut self, report: Report, answer: &Answer) -> Result<(), AllocError> {
        self.outs.remove(report.attempt);
        if is_void(answer) {
            return Ok(());
        }
        if let Outcome::Failed(cause) = report.outcome {
            let attempt = report.attempt;
            self.failures.push(Failure { attempt, cause })?;
        }
        let last = Last::of(report.outcome);
        self.lasts.insert(task_key(report.attempt), last)?;
        Ok(())
    }
}

/// Whether what is answered says that a report changes nothing.
fn is_void(answer: &Answer) -> bool {
    matches!(answer, Answer::Ignored | Answer::Repeated)
}
