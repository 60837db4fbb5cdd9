//! The page.
#![tactic(auto)]

use crate::bars::bars_of;
use crate::graphs::write_graph;
use crate::losses::marks_of;
use crate::texts::write_text;
use crate::times::write_times;
use sc_core::JobHistory;
use sc_story::{ScriptText, Track, job_places};
use std::alloc::{AllocError, Global};

/// What is shown of a run.
#[derive(Drop)]
pub struct Shown<'a> {
    /// What is told of it.
    pub told: &'a str,
    /// How its jobs went.
    pub history: &'a [JobHistory],
    /// The script, where it is known.
    pub text: Option<&'a ScriptText>,
    /// What the entries of its jobs tell.
    pub track: &'a Track,
    /// How many executors there were.
    pub executors: u32,
}

/// How the page begins: what it looks like, in print too.
const HEAD: &str = "<!DOCTYPE html>
<html lang=\"en\">
<head>
<meta charset=\"utf-8\">
<title>A run of spark_story</title>
<style>
body { font: 14px sans-serif; margin: 2em; }
svg { display: block; max-width: 100%; height: auto; }
svg text { font: 12px sans-serif; }
svg text.small { font: 9px sans-serif; }
line { stroke: #555; }
rect.stage { fill: #eee; stroke: #555; }
rect.first { fill: #9cc3e6; stroke: #36648b; }
rect.again { fill: #f4b183; stroke: #a8501c; stroke-dasharray: 3 2; }
rect.copy { fill: #ffe699; stroke: #8a6d00; stroke-dasharray: 1 2; }
rect.lost { fill: #c00000; }
rect.wiped { fill: #7030a0; }
span { white-space: nowrap; margin-right: 1.5em; }
i { padding: 0 1em; border: 1px solid #555; print-color-adjust: exact; }
@media print { body { margin: 0; } svg { break-inside: avoid; } }
</style>
</head>
<body>
<h1>A run of spark_story</h1>
";

/// What the colours mean.
const KEY: &str = "<h2>Attempts</h2>
<p>From left to right in the order of entries; a number is a stage and a partition.</p>
<p><span><i style=\"background: #9cc3e6\"></i> computed</span>
<span><i style=\"background: #f4b183\"></i> computed again</span>
<span><i style=\"background: #ffe699\"></i> a copy of one that was out</span>
<span><i style=\"background: #c00000\"></i> an executor is told lost</span>
<span><i style=\"background: #7030a0\"></i> a store was wiped before this</span></p>
";

/// The page of a run.
pub fn write_page(alloc: Global, shown: &Shown<'_>) -> Result<String, AllocError> {
    let mut out = String::from_str(alloc, HEAD)?;
    out.push_str("<pre>")?;
    write_text(&mut out, shown.told)?;
    out.push_str("</pre>\n")?;
    write_stages(alloc, &mut out, shown.text)?;
    out.push_str(KEY)?;
    write_attempts(alloc, &mut out, shown)?;
    out.push_str("</body>\n</html>\n")?;
    Ok(out)
}

/// Writes the stages, where the script is known.
fn write_stages(
    alloc: Global,
    out: &mut String,
    text: Option<&ScriptText>,
) -> Result<(), AllocError> {
    let Some(text) = text else {
        return Ok(());
    };
    out.push_str("<h2>Stages</h2>\n")?;
    let places = job_places(alloc, text.script())?;
    let done = write_graph(alloc, out, text, &places);
    drop(places);
    done
}

/// Writes the attempts.
fn write_attempts(alloc: Global, out: &mut String, shown: &Shown<'_>) -> Result<(), AllocError> {
    let marks = marks_of(alloc, shown.history)?;
    let bars = bars_of(alloc, shown.history)?;
    let marks = marks.as_slice();
    write_times(
        out,
        shown.history,
        &bars,
        marks,
        shown.track,
        shown.executors,
    )
}
