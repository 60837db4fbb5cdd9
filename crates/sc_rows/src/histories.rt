//! Runs under fault plans: how they end, and what their histories show.
//!
//! A case of a table is a line `====` with what it claims, a script, a line `-- words` with more
//! words, a fault plan, a line `-- end`, what the run prints with what it tells of its end, a line
//! `-- history`, and what is seen of the history. A script that defines nothing acts on the word
//! count `c`. The case holds for each of the plans between lines `or`, and with each of the words
//! between `or`.
//!
//! An entry of a history is looked at as the line that its journal writes. What is wanted of it is
//! how many lines of each job have a text: `4 2 | take: task` says four lines of the first job and
//! two of the second, so it says too how many jobs there were; `*` stands for any number. Or it is
//! the whole history, with an empty line between two jobs.
//!
//! Executors are threads, so where there are more than one, a row says only what is so whichever of
//! them does what. What hangs on that is said of one executor, or of worlds step by step.
#![tactic(auto)]

use crate::given::{Outside, STILL, seen_of};
use crate::works::{INPUT, halves, source_of, words_of};
use sc_core::JobHistory;
use sc_exec::OpenGate;
use std::process::Abort;
use std::sync::Wait;
use std::thread::Threads;
use std::time;

/// A count of words in two partitions: stage 0 makes two map outputs, and stage 1 reads them for
/// two results.
pub const WORD_COUNT: &str = r#"
l = text "in.txt" 2
w = flatMap l (words x)
p = map w (pair x 1)
c = reduceByKey p 2 (+ a b)
"#;

/// Sees that a case holds.
pub fn assert_case<R: Abort + AllocGlobal + Threads + Wait + time::Clock + Sync>(
    rt: &R,
    case: &str,
) {
    let (label, rest) = halves(case, "\n");
    let (given, want) = halves(rest, "-- end\n");
    let (end, history) = halves(want, "-- history\n");
    let (script, rest) = halves(given, "-- words");
    let (words, plans) = halves(rest, "\n");
    let count = if script.contains("=") { "" } else { WORD_COUNT };
    let script = format!(in rt.alloc(); "{count}{script}").expect(rt, "memory");
    for plan in plans.split("or\n") {
        for words in words.split(" or") {
            let outside = Outside::of(rt, source_of(rt, script.as_str(), plan, INPUT));
            let seen = seen_of(rt, &words_of(rt, words), outside, &OpenGate, STILL);
            assert_eq!(rt; seen.all.as_str(), end, "{label}: {words} {plan:?}");
            assert_history(rt, &seen.histories, history, label);
        }
    }
}

/// The entries of jobs, with an empty line between two jobs.
pub fn history_of<R: Abort + AllocGlobal>(rt: &R, histories: &[JobHistory]) -> String {
    let mut out = String::new(rt.alloc());
    for history in histories {
        if !out.is_empty() {
            out.push('\n').expect(rt, "memory");
        }
        for entry in &history.entries {
            writeln!(out, "{entry}").expect(rt, "memory");
        }
    }
    out
}

/// Sees that a history is as it is wanted: that so many entries of jobs have a text, or all of it.
pub fn assert_history<R: Abort + AllocGlobal>(
    rt: &R,
    histories: &[JobHistory],
    want: &str,
    label: &str,
) {
    let history = history_of(rt, histories);
    if !want.contains(" | ") {
        assert_eq!(rt; history.as_str(), want, "{label}");
        return;
    }
    for line in want.lines() {
        let (want, text) = halves(line, " | ");
        let counts = counts_of(rt, history.as_str(), text);
        assert!(rt;
            are_counts(counts.as_str(), want),
            "{label}: {text}: {counts} of {want}"
        );
    }
}

/// Whether these are as many numbers as wanted, and each is the one that is wanted or any is.
fn are_counts(seen: &str, want: &str) -> bool {
    let many = seen.split(" ").count() == want.split(" ").count();
    many && seen
        .split(" ")
        .zip(want.split(" "))
        .all(|(count, wanted)| wanted == "*" || count == wanted)
}

/// For each job how many of its lines have a text, which no line has twice.
fn counts_of<R: Abort + AllocGlobal>(rt: &R, history: &str, text: &str) -> String {
    let mut counts = String::new(rt.alloc());
    for job in history.split("\n\n") {
        let gap = if counts.is_empty() { "" } else { " " };
        let count = job.split(text).count().saturating_sub(1);
        write!(counts, "{gap}{count}").expect(rt, "memory");
    }
    counts
}

/// Whether a history has these lines in this order, with others in between.
pub fn has_lines(history: &str, lines: &str) -> bool {
    let mut rest = history;
    for line in lines.lines() {
        match rest.split_once(line) {
            Some((_, behind)) => rest = behind,
            None => return false,
        }
    }
    true
}
