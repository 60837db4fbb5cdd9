//! The summary of a run.
#![tactic(auto)]

use crate::again::{write_again, write_count};
use crate::keepers::CacheUses;
use crate::tracks::Track;
use std::alloc::AllocError;

/// The jobs that their executors gave up.
#[derive(Clone, Copy)]
pub struct GivenUp {
    /// How many of them were run again.
    pub run_again: u64,
    /// How many of them were not, which ended the run.
    pub left: u64,
}

/// Writes what a run did: jobs, stages, tasks, reports, where it is known what was cached and used,
/// what ran again, and what was given up.
pub fn write_summary(
    out: &mut String,
    track: &Track,
    uses: Option<CacheUses>,
    given_up: GivenUp,
) -> Result<(), AllocError> {
    let GivenUp { run_again, left } = given_up;
    if track.jobs > 0 {
        write_counts(out, track)?;
        write_uses(out, uses)?;
        write_again(out, track.reasons.as_slice())?;
        write_attempts(out, track)?;
    } else if left == 0 {
        out.push_str("  no job was begun\n")?;
    }
    write_given_up(out, run_again, ", and run again by the driver alone\n")?;
    write_given_up(out, left, ", and not begun again\n")
}

/// Writes how many jobs, stages, tasks and reports there were.
fn write_counts(out: &mut String, track: &Track) -> Result<(), AllocError> {
    let counts = [
        (track.jobs, "job", ", "),
        (track.stages.len() as u64, "stage", ", "),
        (track.tasks, "task", " handed out, "),
        (track.told, "report", " told\n"),
    ];
    out.push_str("  ")?;
    for (count, name, end) in counts {
        write_count(out, count, name)?;
        out.push_str(end)?;
    }
    Ok(())
}

/// Writes how often cached partitions were used, and how often such were computed, where that is
/// known and some were.
fn write_uses(out: &mut String, uses: Option<CacheUses>) -> Result<(), AllocError> {
    match uses {
        Some(uses) if uses.used > 0 || uses.computed > 0 => {
            let computed = uses.computed;
            out.push_str("  ")?;
            write_count(out, uses.used, "cached partition")?;
            writeln!(out, " used, and {computed} computed")
        }
        _ => Ok(()),
    }
}

/// Writes how many jobs were given up, and what became of them, where there are any.
fn write_given_up(out: &mut String, jobs: u64, end: &str) -> Result<(), AllocError> {
    if jobs == 0 {
        return Ok(());
    }
    out.push_str("  ")?;
    write_count(out, jobs, "job")?;
    out.push_str(" given up by the executors")?;
    out.push_str(end)
}

/// Writes which stages had more than one attempt.
fn write_attempts(out: &mut String, track: &Track) -> Result<(), AllocError> {
    for (stage, attempts) in track.stages.iter() {
        if *attempts > 1 {
            writeln!(out, "  stage {stage} had {attempts} attempts")?;
        }
    }
    Ok(())
}
