//! Lines of a fault plan that an abort came of.
#![tactic(auto)]

use crate::listed::Lined;
use crate::tracks::Track;
use sc_ids::{AttemptId, ExecId, FailureCause, StageId};
use sc_plan::{AttemptPlace, Plan, PlanLine};
use std::alloc::AllocError;

/// A fault plan, its lines as they are written, and what was told of the run under it.
#[derive(Clone, Copy)]
pub(crate) struct Blamed<'a> {
    pub(crate) plan: &'a Plan,
    pub(crate) lined: &'a [Lined],
    pub(crate) track: &'a Track,
}

/// A partition in an attempt of its stage.
#[derive(Clone, Copy)]
pub(crate) struct Task {
    pub(crate) stage: StageId,
    pub(crate) number: u64,
    pub(crate) partition: u32,
}

impl Task {
    /// Whether an attempt is one of it.
    pub(crate) fn has(self, attempt: AttemptId) -> bool {
        attempt.stage == self.stage
            && attempt.stage_attempt == self.number
            && attempt.partition == self.partition
    }
}

impl Blamed<'_> {
    /// Writes the lines by which attempts of a task failed.
    pub(crate) fn write_fails(self, out: &mut String, task: Task) -> Result<(), AllocError> {
        for (at, line) in self.plan.lines().iter().enumerate() {
            if let PlanLine::Fail(place) = *line {
                if self.has_failed(task, place) {
                    write_line(out, self.lined, at, "      by plan line ", "")?;
                }
            }
        }
        Ok(())
    }

    /// Whether the attempt of a task at a place was told to have failed by plan.
    fn has_failed(self, task: Task, place: AttemptPlace) -> bool {
        for failure in self.track.failures.as_slice() {
            let attempt = failure.attempt;
            let is_planned = matches!(failure.cause, FailureCause::Planned);
            if is_planned && task.has(attempt) && is_at(attempt, place) {
                return true;
            }
        }
        false
    }

    /// Writes the lines that were due and wipe a store from which a stage couldn't fetch.
    pub(crate) fn write_wipes(self, out: &mut String, stage: StageId) -> Result<(), AllocError> {
        for (at, line) in self.plan.lines().iter().enumerate() {
            match wiped_by(*line, self.track.told) {
                Some(exec) if self.has_missed(stage, exec) => self.write_due(out, at)?,
                _ => {}
            }
        }
        Ok(())
    }

    /// Whether a task of a stage couldn't fetch from an executor.
    fn has_missed(self, stage: StageId, exec: ExecId) -> bool {
        for failure in self.track.failures.as_slice() {
            if failure.attempt.stage == stage && is_missed(failure.cause, exec) {
                return true;
            }
        }
        false
    }

    /// Writes the lines that were due and lose an executor.
    pub(crate) fn write_losses(self, out: &mut String) -> Result<(), AllocError> {
        for (at, line) in self.plan.lines().iter().enumerate() {
            if is_lost_by(*line, self.track.told) {
                self.write_due(out, at)?;
            }
        }
        Ok(())
    }

    /// Writes a line that was due.
    fn write_due(self, out: &mut String, at: usize) -> Result<(), AllocError> {
        write_line(out, self.lined, at, "    plan line ", ", was due")
    }
}

/// Whether an attempt is at a place.
fn is_at(attempt: AttemptId, place: AttemptPlace) -> bool {
    attempt.stage == place.stage && attempt.partition == place.partition && attempt.nth == place.nth
}

/// The executor whose store a line wipes once so many reports were told.
fn wiped_by(line: PlanLine, told: u64) -> Option<ExecId> {
    match line {
        PlanLine::Drop { exec, after } | PlanLine::Lose { exec, after, .. } => {
            if u64::from(after) <= told {
                Some(exec)
            } else {
                None
            }
        }
        _ => None,
    }
}

/// Whether an executor is told lost by a line once so many reports were told.
fn is_lost_by(line: PlanLine, told: u64) -> bool {
    match line {
        PlanLine::Lose { told: wanted, .. } => u64::from(wanted) <= told,
        _ => false,
    }
}

/// Whether an attempt failed since what it reads from an executor was wiped or lost.
fn is_missed(cause: FailureCause, exec: ExecId) -> bool {
    match cause {
        FailureCause::Gone { exec: of, .. } => of == exec,
        FailureCause::Metadata { last } => last.exec == exec,
        _ => false,
    }
}

/// Writes a line of a plan, with its number, between two texts.
fn write_line(
    out: &mut String,
    lined: &[Lined],
    at: usize,
    begin: &str,
    end: &str,
) -> Result<(), AllocError> {
    match lined.get(at) {
        Some(one) => {
            let line = one.line;
            let text = one.text.as_str();
            writeln!(out, "{begin}{line}, `{text}`{end}")
        }
        None => Ok(()),
    }
}
