//! The time line of a run's attempts.
#![tactic(auto)]

use crate::bars::{Bar, Bars};
use crate::losses::{Mark, What};
use crate::texts::begin_drawing;
use sc_core::JobHistory;
use sc_ids::ExecId;
use sc_story::Track;
use std::alloc::AllocError;

/// How wide an entry is, how high the lane of an executor, and where entries begin.
const STEP: usize = 18;

const LANE: usize = 30;

const BEGIN: usize = 100;

/// Writes the time line: a lane for each executor, and in it each attempt from the entry that hands
/// it out to that of its report, in the order of entries.
pub(crate) fn write_times(
    out: &mut String,
    history: &[JobHistory],
    bars: &Bars,
    marks: &[Mark],
    track: &Track,
    executors: u32,
) -> Result<(), AllocError> {
    let lanes = executors as usize;
    begin_drawing(
        out,
        x_of(bars.read.saturating_add(1)),
        lanes.saturating_mul(LANE),
    )?;
    for exec in 0..executors {
        write_lane(out, exec)?;
    }
    write_bars(out, history, bars.bars.as_slice(), track)?;
    write_marks(out, history, marks)?;
    out.push_str("</svg>\n")
}

/// Writes the attempts.
fn write_bars(
    out: &mut String,
    history: &[JobHistory],
    bars: &[Bar],
    track: &Track,
) -> Result<(), AllocError> {
    for (nth, bar) in bars.iter().enumerate() {
        write_bar(
            out,
            history,
            *bar,
            look_of(track, nth),
            track.why_again(nth),
        )?;
    }
    Ok(())
}

/// Writes the losses and wipes.
fn write_marks(out: &mut String, history: &[JobHistory], marks: &[Mark]) -> Result<(), AllocError> {
    for mark in marks {
        write_mark(out, history, *mark)?;
    }
    Ok(())
}

/// Where an entry stands.
fn x_of(place: usize) -> usize {
    place.saturating_mul(STEP).saturating_add(BEGIN)
}

/// Where the lane of an executor begins.
fn y_of(exec: ExecId) -> usize {
    (exec as usize).saturating_mul(LANE)
}

/// Writes the name of a lane.
fn write_lane(out: &mut String, exec: ExecId) -> Result<(), AllocError> {
    let y = y_of(exec).saturating_add(18);
    write!(out, "<text x=\"0\" y=\"{y}\">executor {exec}</text>\n")
}

/// How the attempt that was handed out behind so many others looks.
fn look_of(track: &Track, nth: usize) -> &'static str {
    if track.is_copy(nth) {
        "copy"
    } else if track.why_again(nth).is_some() {
        "again"
    } else {
        "first"
    }
}

/// Writes an attempt.
fn write_bar(
    out: &mut String,
    history: &[JobHistory],
    bar: Bar,
    look: &str,
    why: Option<&str>,
) -> Result<(), AllocError> {
    let x = x_of(bar.from);
    let y = y_of(bar.exec).saturating_add(4);
    let width = x_of(bar.to).saturating_sub(x).max(STEP);
    write!(
        out,
        "<g><rect class=\"{look}\" x=\"{x}\" y=\"{y}\" width=\"{width}\" height=\"20\"/><title>"
    )?;
    write_report(out, history, bar)?;
    write_why(out, why)?;
    out.push_str("</title>")?;
    write_place(out, bar, x, y)
}

/// Writes the entry that hands an attempt out, and that of its report, where one came.
fn write_report(out: &mut String, history: &[JobHistory], bar: Bar) -> Result<(), AllocError> {
    write_entry(out, history, bar.job, bar.given)?;
    match bar.posted {
        Some(posted) => write_entry(out, history, bar.job, posted),
        None => out.push_str("no report came before the end of the job\n"),
    }
}

/// Writes why an attempt ran again, where it did.
fn write_why(out: &mut String, why: Option<&str>) -> Result<(), AllocError> {
    match why {
        Some(why) => write!(out, "ran again {why}\n"),
        None => Ok(()),
    }
}

/// Writes which stage and partition an attempt is of, as it is seen in print.
fn write_place(out: &mut String, bar: Bar, x: usize, y: usize) -> Result<(), AllocError> {
    let stage = bar.attempt.stage;
    let partition = bar.attempt.partition;
    writeln!(
        out,
        "<text class=\"small\" x=\"{x}\" y=\"{y}\" dx=\"2\" dy=\"14\">\
         {stage}.{partition}</text></g>"
    )
}

/// Writes a loss or a wipe.
fn write_mark(out: &mut String, history: &[JobHistory], mark: Mark) -> Result<(), AllocError> {
    let x = x_of(mark.place);
    let y = y_of(mark.exec);
    let class = class_of(mark.what);
    let word = word_of(mark.what);
    writeln!(
        out,
        "<g><rect class=\"{class}\" x=\"{x}\" y=\"{y}\" width=\"4\" height=\"28\"/><title>{word}"
    )?;
    write_entry(out, history, mark.job, mark.at)?;
    out.push_str("</title></g>\n")
}

/// How a mark looks.
fn class_of(what: What) -> &'static str {
    match what {
        What::Lost => "lost",
        What::Wiped => "wiped",
    }
}

/// What a mark says.
fn word_of(what: What) -> &'static str {
    match what {
        What::Lost => "the executor is told lost",
        What::Wiped => "its store was wiped before this",
    }
}

/// Writes an entry of a job in a line.
fn write_entry(
    out: &mut String,
    history: &[JobHistory],
    job: usize,
    at: usize,
) -> Result<(), AllocError> {
    let Some(job) = history.get(job) else {
        return Ok(());
    };
    match job.entries.as_slice().get(at) {
        Some(entry) => writeln!(out, "{entry}"),
        None => Ok(()),
    }
}
