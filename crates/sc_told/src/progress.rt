//! How far a run is, as the beginnings of its tasks show it.
#![tactic(auto)]

use crate::bars::{Bar, SHOWN, write_bars};
use crate::foreseen::Foreseen;
use crate::marks::Marks;
use sc_ids::{AttemptId, ExecId, StageId};
use sc_value::Octets;
use std::alloc::{AllocError, Global};

/// The task that an executor began last.
#[derive(Clone, Copy)]
struct Begun {
    exec: ExecId,
    attempt: AttemptId,
    /// Whether it is known to have ended.
    has_ended: bool,
}

/// How far a run is. Only the beginnings of tasks are seen. So a task is known to have ended once
/// its executor begins another one, or a stage begins that reads what it made, or a later job.
#[derive(Drop)]
pub struct Progress {
    foreseen: Foreseen,
    /// The tasks of each stage, and which are done.
    done: Vec<Marks>,
    /// What each executor began last.
    begun: Vec<Begun>,
    /// The number of the job of which the latest stage is.
    job: usize,
}

impl Progress {
    /// The begin of a run of which no script is known. Nothing is shown of it.
    pub fn unknown(alloc: Global) -> Progress {
        Progress {
            foreseen: Foreseen::none(alloc),
            done: Vec::new(alloc),
            begun: Vec::new(alloc),
            job: 0,
        }
    }

    /// The begin of a run of the script that bytes are.
    pub fn of_script(alloc: Global, script: &Octets) -> Result<Progress, AllocError> {
        let foreseen = Foreseen::of(alloc, script)?;
        let mut done = Vec::new(alloc);
        for size in foreseen.sizes.as_slice() {
            done.push(Marks::new(alloc, size.tasks))?;
        }
        Ok(Progress {
            foreseen,
            done,
            begun: Vec::new(alloc),
            job: 0,
        })
    }

    /// An executor begins a task. Gives what a terminal is to be told: the stages that executors
    /// are at. Where some are over by this they stand there before, whole.
    pub fn begin(
        &mut self,
        alloc: Global,
        exec: ExecId,
        attempt: AttemptId,
    ) -> Result<String, AllocError> {
        let mut out = String::new(alloc);
        let Some(size) = self.foreseen.size_of(attempt.stage) else {
            return Ok(out);
        };
        let before = self.active(alloc)?;
        let is_over = self.end_before(exec, attempt.stage, size.job);
        if is_over || self.has_whole(before.as_slice(), attempt.stage) {
            self.write(alloc, &mut out, before.as_slice())?;
        }
        self.put(exec, attempt)?;
        let after = self.active(alloc)?;
        self.write(alloc, &mut out, after.as_slice())?;
        Ok(out)
    }

    /// Ends what has ended where an executor begins a task of a stage of a job. Gives whether a
    /// stage is over by this.
    fn end_before(&mut self, exec: ExecId, stage: StageId, job: usize) -> bool {
        let is_later_job = job > self.job;
        let mut has_over = false;
        for at in 0..self.begun.len() {
            if let Some(task) = self.begun.get(at) {
                let task = *task;
                let is_over = is_later_job || self.foreseen.is_read_by(task.attempt.stage, stage);
                if !task.has_ended && (is_over || task.exec == exec) {
                    self.end(at, task.attempt, is_over);
                    has_over = has_over || is_over;
                }
            }
        }
        self.job = self.job.max(job);
        has_over
    }

    /// Ends the task at a place, whose stage may be over by that.
    fn end(&mut self, at: usize, attempt: AttemptId, is_over: bool) {
        if let Some(task) = self.begun.get_mut(at) {
            task.has_ended = true;
        }
        if let Some(marks) = self.done.get_mut(attempt.stage as usize) {
            marks.mark(attempt.partition);
            if is_over {
                marks.settle();
            }
        }
    }

    /// Puts down what an executor begins. Where it was done, it isn't any more.
    fn put(&mut self, exec: ExecId, attempt: AttemptId) -> Result<(), AllocError> {
        if let Some(marks) = self.done.get_mut(attempt.stage as usize) {
            marks.make_room()?;
            marks.unmark(attempt.partition);
        }
        let begun = Begun {
            exec,
            attempt,
            has_ended: false,
        };
        for at in 0..self.begun.len() {
            if let Some(task) = self.begun.get_mut(at) {
                if task.exec == exec {
                    *task = begun;
                    return Ok(());
                }
            }
        }
        self.begun.push(begun)?;
        Ok(())
    }

    /// The stages that executors are at, in order, as many as a line shows.
    fn active(&self, alloc: Global) -> Result<Vec<StageId>, AllocError> {
        let mut stages = Vec::new(alloc);
        let mut from = 0;
        for _ in 0..SHOWN {
            if let Some(stage) = self.first_active(from) {
                stages.push(stage)?;
                from = stage.saturating_add(1);
            }
        }
        Ok(stages)
    }

    /// The first stage from a number on that an executor is at.
    fn first_active(&self, from: StageId) -> Option<StageId> {
        let mut first = None;
        for task in self.begun.as_slice() {
            let stage = task.attempt.stage;
            if !task.has_ended && stage >= from && is_before(stage, first) {
                first = Some(stage);
            }
        }
        first
    }

    /// Whether one of some stages is whole, but for that of which a task begins.
    fn has_whole(&self, stages: &[StageId], begins: StageId) -> bool {
        for stage in stages {
            if *stage != begins && self.bar(*stage).is_whole() {
                return true;
            }
        }
        false
    }

    /// Writes stages over what the line shows.
    fn write(&self, alloc: Global, out: &mut String, stages: &[StageId]) -> Result<(), AllocError> {
        let mut bars = Vec::new(alloc);
        for stage in stages {
            bars.push(self.bar(*stage))?;
        }
        write_bars(alloc, out, bars.as_slice())
    }

    /// A stage as it is shown.
    fn bar(&self, stage: StageId) -> Bar {
        let (tasks, done) = match self.done.get(stage as usize) {
            Some(marks) => (marks.tasks(), marks.done()),
            None => (0, 0),
        };
        Bar {
            stage,
            tasks,
            done,
            running: self.running(stage),
        }
    }

    /// How many executors are at a stage.
    fn running(&self, stage: StageId) -> u32 {
        let mut count: u32 = 0;
        for task in self.begun.as_slice() {
            if !task.has_ended && task.attempt.stage == stage {
                count = count.saturating_add(1);
            }
        }
        count
    }
}

/// Whether a stage stands before another one, where there is one.
fn is_before(stage: StageId, other: Option<StageId>) -> bool {
    match other {
        Some(other) => stage < other,
        None => true,
    }
}
