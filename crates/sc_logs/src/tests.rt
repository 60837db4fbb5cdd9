//! Logs beside entries: which agree, and which don't.
//!
//! An entry is written as who made it, a point, and the partition of which it posts a result; who
//! made it is an executor's number, or `d` for the driver. A log is an executor's number, a colon
//! and its entries.
#![tactic(auto)]

use crate::agrees::agree_on;
use crate::logs::ExecLog;
use sc_core::{Answer, Entry, Event, Outcome};
use sc_ids::{AttemptId, Mark};
use std::process::Abort;

/// What a case claims, the entries of a history, the logs, and whether they agree.
const CASES: [(&str, &str, &str, bool); 13] = [
    (
        "each log",
        "0.1 1.1 d.1 0.2 1.2",
        "0: 0.1 0.2; 1: 1.1 1.2",
        true,
    ),
    (
        "logs in another order",
        "0.1 1.1 0.2",
        "1: 1.1; 0: 0.1 0.2",
        true,
    ),
    (
        "an executor that did nothing",
        "0.1 0.2",
        "0: 0.1 0.2; 1:",
        true,
    ),
    ("the driver alone", "d.1 d.2", "", true),
    ("nothing", "", "", true),
    (
        "two entries of a log exchanged",
        "0.1 1.1 0.2",
        "0: 0.2 0.1; 1: 1.1",
        false,
    ),
    (
        "entries of two logs exchanged",
        "0.1 1.1 0.2",
        "0: 1.1 0.2; 1: 0.1",
        false,
    ),
    ("an entry dropped", "0.1 1.1 0.2", "0: 0.1; 1: 1.1", false),
    (
        "an entry doubled",
        "0.1 1.1 0.2",
        "0: 0.1 0.2 0.2; 1: 1.1",
        false,
    ),
    ("an entry made up", "0.1 1.1", "0: 0.1; 1: 1.1 1.2", false),
    (
        "another one in its place",
        "0.1 1.1",
        "0: 0.2; 1: 1.1",
        false,
    ),
    ("an entry of nobody", "0.1 2.1", "0: 0.1; 1:", false),
    (
        "an entry in the log of another",
        "0.1 1.1",
        "0: 0.1 1.1",
        false,
    ),
];

/// The entry of a word.
fn entry_of<R: Abort>(rt: &R, word: &str) -> Entry {
    let (by, partition) = word.split_once('.').expect(rt, "a point");
    let attempt = AttemptId {
        stage: 0,
        stage_attempt: 0,
        partition: partition.parse::<u32>().expect(rt, "a partition"),
        nth: 0,
    };
    Entry {
        by: match by.parse::<u32>() {
            Ok(exec) => Mark::Exec(exec),
            Err(_) => Mark::Driver,
        },
        event: Event::Post {
            attempt,
            outcome: Outcome::Result,
        },
        answer: Answer::Finished,
    }
}

/// The entries of a text.
fn entries_of<R: Abort + AllocGlobal>(rt: &R, text: &str) -> Vec<Entry> {
    let mut entries = Vec::new(rt.alloc());
    for word in text.split_whitespace() {
        entries.push(entry_of(rt, word)).expect(rt, "memory");
    }
    entries
}

/// The logs of a text.
fn logs_of<R: Abort + AllocGlobal>(rt: &R, text: &str) -> Vec<ExecLog> {
    let mut logs = Vec::new(rt.alloc());
    for part in text.split(';') {
        if let Some((exec, entries)) = part.split_once(':') {
            let log = ExecLog {
                exec: exec.trim().parse::<u32>().expect(rt, "an executor"),
                entries: entries_of(rt, entries),
            };
            logs.push(log).expect(rt, "memory");
        }
    }
    logs
}

#[test]
fn logs_agree_with_their_own_entries_alone(rt: HostRuntime) {
    for (claim, entries, logs, want) in CASES {
        let entries = entries_of(&rt, entries);
        let logs = logs_of(&rt, logs);
        assert_eq!(rt;
            agree_on(entries.as_slice(), logs.as_slice()),
            want,
            "{claim}"
        );
    }
}
