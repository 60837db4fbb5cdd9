//! What an abort came of.
#![tactic(auto)]

use crate::abort_lines::write_where;
use crate::again::write_count;
use crate::blamed::{Blamed, Task};
use crate::causes::Causes;
use crate::jobs::JobPlaces;
use crate::listed::Lined;
use crate::raising::write_raising;
use crate::sources::ScriptText;
use crate::tracks::Track;
use crate::ways::Run;
use sc_core::{Abort, JobHistory};
use sc_expr::Raise;
use sc_ids::{FailureCause, Limits, StageId};
use sc_plan::Plan;
use sc_read::Read;
use std::alloc::{AllocError, Global};

/// An aborted job, and what is known of its run.
#[derive(Clone, Copy)]
pub struct Aborted<'a> {
    /// Why the job was aborted.
    pub abort: Abort,
    /// How the jobs of the run went.
    pub history: &'a [JobHistory],
    /// What their entries tell.
    pub track: &'a Track,
    /// The script, where it is known.
    pub text: Option<&'a ScriptText>,
    /// The limits of the run.
    pub limits: Limits,
    /// The fault plan.
    pub plan: &'a Plan,
    /// The lines of the fault plan as they are written.
    pub lined: &'a [Lined],
    /// What the run read.
    pub read: &'a [Read],
}

/// Writes which action an aborted job was for, which line its stage stands for, how often what
/// failed, by which lines of the plan, and what may be changed.
pub fn write_abort(
    alloc: Global,
    out: &mut String,
    aborted: Aborted<'_>,
) -> Result<(), AllocError> {
    let places = JobPlaces::of(alloc, aborted.text)?;
    let done = write_placed(alloc, out, aborted, &places);
    drop(places);
    done
}

/// The same where the jobs of the script are known.
fn write_placed(
    alloc: Global,
    out: &mut String,
    aborted: Aborted<'_>,
    places: &JobPlaces,
) -> Result<(), AllocError> {
    if let Some(text) = aborted.text {
        write_where(out, aborted.abort, aborted.history, places, text)?;
    }
    let limits = aborted.limits;
    let blamed = aborted.blamed();
    match aborted.abort {
        Abort::TaskLimit {
            stage,
            stage_attempt,
            partition,
        } => {
            let number = stage_attempt;
            let task = Task {
                stage,
                number,
                partition,
            };
            write_task_limit(alloc, out, aborted, places, task)
        }
        Abort::StageLimit { stage } => write_stage_limit(out, blamed, stage, limits),
        Abort::NoExecutor => write_no_executor(out, blamed, limits),
        Abort::Budget => out.push_str("  a job hands out at most 16777216 tasks\n"),
    }
}

impl<'a> Aborted<'a> {
    /// Which lines of the plan it may have come of.
    fn blamed(self) -> Blamed<'a> {
        Blamed {
            plan: self.plan,
            lined: self.lined,
            track: self.track,
        }
    }
}

/// Writes how a partition came to its limit.
fn write_task_limit(
    alloc: Global,
    out: &mut String,
    aborted: Aborted<'_>,
    places: &JobPlaces,
    task: Task,
) -> Result<(), AllocError> {
    let partition = task.partition;
    out.push_str("  a job is aborted at ")?;
    write_count(out, u64::from(aborted.limits.task_failures), "failure")?;
    writeln!(
        out,
        " of a task (--task-failures): partition {partition} had"
    )?;
    let causes = Causes::of(aborted.track, task);
    causes.write_raises(out)?;
    causes.write_planned(out)?;
    aborted.blamed().write_fails(out, task)?;
    causes.write_device(out)?;
    if let Some(raise) = causes.raise {
        write_row(alloc, out, aborted, places, task, raise)?;
    }
    out.push_str(causes.advice())
}

/// Writes the first row of a task that raises, where it can be found.
fn write_row(
    alloc: Global,
    out: &mut String,
    aborted: Aborted<'_>,
    places: &JobPlaces,
    task: Task,
    raise: Raise,
) -> Result<(), AllocError> {
    let Some(text) = aborted.text else {
        return Ok(());
    };
    match places.node_in(aborted.history, task.stage) {
        Some(node) => {
            let from = task.partition;
            let to = from.saturating_add(1);
            let run = Run { node, from, to };
            write_raising(alloc, out, text, aborted.read, run, raise)
        }
        None => Ok(()),
    }
}

/// Writes how a stage came to its limit.
fn write_stage_limit(
    out: &mut String,
    blamed: Blamed<'_>,
    stage: StageId,
    limits: Limits,
) -> Result<(), AllocError> {
    out.push_str("  ")?;
    write_count(out, unread_in(blamed.track, stage), "task")?;
    out.push_str(" of it failed to fetch blocks, which were wiped or lost\n")?;
    blamed.write_wipes(out, stage)?;
    out.push_str("  a job is aborted at ")?;
    write_count(out, u64::from(limits.stage_attempts), "failed attempt")?;
    out.push_str(" of a stage (--stage-attempts)\n")?;
    out.push_str("  take losses from the plan, or give --stage-attempts a greater number\n")
}

/// How many attempts of a stage failed since what they read was wiped or lost.
fn unread_in(track: &Track, stage: StageId) -> u64 {
    let mut unread: u64 = 0;
    for failure in track.failures.as_slice() {
        if failure.attempt.stage == stage && is_unread(failure.cause) {
            unread = unread.saturating_add(1);
        }
    }
    unread
}

/// Whether an attempt failed since what it reads was wiped or lost.
fn is_unread(cause: FailureCause) -> bool {
    matches!(
        cause,
        FailureCause::Gone { .. } | FailureCause::Metadata { .. }
    )
}

/// Writes how all executors came to be lost.
fn write_no_executor(
    out: &mut String,
    blamed: Blamed<'_>,
    limits: Limits,
) -> Result<(), AllocError> {
    let all = limits.executors;
    let told = blamed.track.told;
    if all == 1 {
        write!(
            out,
            "  the plan loses the only executor, behind report {told}\n"
        )?;
    } else {
        write!(
            out,
            "  the plan loses each of {all} executors, the last behind report {told}\n"
        )?;
    }
    blamed.write_losses(out)?;
    out.push_str("  take a line `lose` from the plan, or give --executors a greater number\n")
}
