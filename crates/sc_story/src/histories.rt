//! The histories of a run as text.
#![tactic(auto)]

use crate::jobs::{JobPlace, JobPlaces};
use crate::numbering::StagePlace;
use crate::sources::ScriptText;
use sc_core::JobHistory;
use sc_pieces::Known;
use std::alloc::{AllocError, Global};

/// The entries of the jobs of a run, a line each, with a blank line between two jobs. Where the
/// script is known, lines that begin with `#` stand before those of a job: for which action it is,
/// and for each stage that is new in it the node whose partitions its tasks compute.
pub fn write_history(
    alloc: Global,
    history: &[JobHistory],
    text: Option<&ScriptText>,
) -> Result<String, AllocError> {
    let mut out = String::new(alloc);
    let places = JobPlaces::of(alloc, text)?;
    let done = write_jobs(&mut out, history, &places, text);
    drop(places);
    done?;
    Ok(out)
}

/// Writes the jobs.
fn write_jobs(
    out: &mut String,
    history: &[JobHistory],
    places: &JobPlaces,
    text: Option<&ScriptText>,
) -> Result<(), AllocError> {
    for (at, job) in history.iter().enumerate() {
        if at > 0 {
            out.push('\n')?;
        }
        if let Some(text) = text {
            write_map(out, at, job, places, text)?;
        }
        write_entries(out, job)?;
    }
    Ok(())
}

/// Writes the entries of a job.
fn write_entries(out: &mut String, job: &JobHistory) -> Result<(), AllocError> {
    for entry in job.entries.as_slice() {
        writeln!(out, "{entry}")?;
    }
    Ok(())
}

/// Writes for which action a job is, and the nodes of the stages that are new in it.
fn write_map(
    out: &mut String,
    at: usize,
    job: &JobHistory,
    places: &JobPlaces,
    text: &ScriptText,
) -> Result<(), AllocError> {
    let Some(place) = places.place_of(at, job) else {
        return Ok(());
    };
    write_job(out, at, place, text)?;
    for stage in places.numbering.stages.as_slice() {
        if stage.job == at {
            write_stage(out, *stage, text)?;
        }
    }
    Ok(())
}

/// Writes for which action a job is.
fn write_job(
    out: &mut String,
    at: usize,
    place: JobPlace,
    text: &ScriptText,
) -> Result<(), AllocError> {
    write!(out, "# job {at}: ")?;
    if let Some(sort) = place.sort {
        write!(out, "the bounds of node {sort} for ")?;
    }
    let action = place.action;
    write!(out, "action {action}")?;
    write_known(out, text.action(action), text)
}

/// Writes which node a stage computes.
fn write_stage(out: &mut String, place: StagePlace, text: &ScriptText) -> Result<(), AllocError> {
    let stage = place.stage;
    let node = place.node;
    write!(out, "# stage {stage}: node {node}")?;
    write_known(out, text.definition(node), text)
}

/// Writes a line of the script with its number.
fn write_known(
    out: &mut String,
    known: Option<&Known>,
    text: &ScriptText,
) -> Result<(), AllocError> {
    if let Some(known) = known {
        let line = known.line;
        let content = text.content(known);
        write!(out, ", line {line}: {content}")?;
    }
    out.push('\n')
}
