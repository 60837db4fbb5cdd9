//! The lines of the script that an aborted job stands for.
#![tactic(auto)]

use crate::jobs::JobPlaces;
use crate::sources::ScriptText;
use sc_core::{Abort, JobHistory};
use sc_ids::StageId;
use sc_lineage::NodeId;
use std::alloc::AllocError;

/// Writes the lines that an aborted job and its stage stand for.
pub(crate) fn write_where(
    out: &mut String,
    abort: Abort,
    history: &[JobHistory],
    places: &JobPlaces,
    text: &ScriptText,
) -> Result<(), AllocError> {
    write_action(out, history, places, text)?;
    match abort {
        Abort::TaskLimit { stage, .. } | Abort::StageLimit { stage } => {
            write_stage(out, stage, places, text)
        }
        Abort::NoExecutor | Abort::Budget => Ok(()),
    }
}

/// Writes the line of the action that the last job is for.
fn write_action(
    out: &mut String,
    history: &[JobHistory],
    places: &JobPlaces,
    text: &ScriptText,
) -> Result<(), AllocError> {
    let Some(job) = places.last_of(history) else {
        return Ok(());
    };
    let Some(action) = text.action(job.action) else {
        return Ok(());
    };
    match job.sort {
        Some(sort) => write_bounds(out, sort, text)?,
        None => out.push_str("  the job of the action")?,
    }
    let line = action.line;
    write!(out, " of line {line}\n")?;
    text.write_line(out, action)
}

/// Writes for which sort a job finds the bounds.
fn write_bounds(out: &mut String, sort: NodeId, text: &ScriptText) -> Result<(), AllocError> {
    out.push_str("  the job that finds the bounds")?;
    if let Some(known) = text.definition(sort) {
        let name = known.name.as_str();
        write!(out, " of `{name}`")?;
    }
    out.push_str(", for the action")
}

/// Writes the line of what the tasks of a stage compute.
fn write_stage(
    out: &mut String,
    stage: StageId,
    places: &JobPlaces,
    text: &ScriptText,
) -> Result<(), AllocError> {
    if let Some(node) = places.numbering.node_of(stage) {
        if let Some(known) = text.definition(node) {
            let line = known.line;
            let name = known.name.as_str();
            writeln!(
                out,
                "  stage {stage} computes `{name}` of line {line}, and what that reads"
            )?;
            text.write_line(out, known)?;
        }
    }
    Ok(())
}
