//! What words of the command line ask for; which ones are refused is in `cases/words.txt`.
#![tactic(auto)]

use crate::works::strings_of;
use sc_words::{Workload, read_words};
use std::process::Abort;

/// What words ask for: the script, how many executors, failures of a task, attempts of a stage and
/// blocks of cached nodes there may be, whether a slow task may get a second copy, and the plan, or
/// seed and size of a workload.
fn asked<R: Abort + AllocGlobal>(rt: &R, words: &[&str]) -> String {
    let alloc = rt.alloc();
    let words = strings_of(rt, words);
    let Ok(command) = read_words(alloc, &words) else {
        return String::from_str(alloc, "usage").expect(rt, "memory");
    };
    let script = command.script.as_str();
    let executors = command.limits.executors;
    let failures = command.limits.task_failures;
    let attempts = command.limits.stage_attempts;
    let cache = command.limits.cache;
    let copies = if command.limits.speculation {
        " copies"
    } else {
        ""
    };
    if let Some(Workload { seed, size }) = command.workload {
        return format!(in alloc; "{script} {executors}{copies} from {seed} lines {size}").expect(
            rt, "memory",
        );
    }
    let mut told = format!(in alloc;
        "{script} {executors} {failures} {attempts} {cache}{copies} "
    ).expect(rt, "memory");
    match &command.plan {
        Some(name) => told.push_str(name.as_str()).expect(rt, "memory"),
        None => told.push_str("(no plan)").expect(rt, "memory"),
    }
    told
}

/// Words that are a command, and what they ask for.
const COMMANDS: [(&[&str], &str); 36] = [
    (&["run", "a.spark"], "a.spark 2 4 4 64 (no plan)"),
    (
        &["run", "--executors", "3", "a.spark"],
        "a.spark 3 4 4 64 (no plan)",
    ),
    (
        &["run", "a.spark", "--executors", "3"],
        "a.spark 3 4 4 64 (no plan)",
    ),
    (
        &["run", "a.spark", "--executors=3"],
        "a.spark 3 4 4 64 (no plan)",
    ),
    (
        &["run", "a.spark", "--executors=1"],
        "a.spark 1 4 4 64 (no plan)",
    ),
    (
        &["run", "a.spark", "--executors=64"],
        "a.spark 64 4 4 64 (no plan)",
    ),
    (
        &["run", "a.spark", "--executors=064"],
        "a.spark 64 4 4 64 (no plan)",
    ),
    (
        &["run", "a.spark", "--executors=+3"],
        "a.spark 3 4 4 64 (no plan)",
    ),
    (
        &["run", "a.spark", "--task-failures", "16"],
        "a.spark 2 16 4 64 (no plan)",
    ),
    (
        &["run", "a.spark", "--stage-attempts", "16"],
        "a.spark 2 4 16 64 (no plan)",
    ),
    (
        &[
            "run",
            "--executors",
            "3",
            "--task-failures=5",
            "--stage-attempts",
            "6",
            "a.spark",
        ],
        "a.spark 3 5 6 64 (no plan)",
    ),
    (
        &[
            "run",
            "a.spark",
            "--stage-attempts=6",
            "--task-failures",
            "5",
            "--executors=3",
        ],
        "a.spark 3 5 6 64 (no plan)",
    ),
    (
        &["run", "a.spark", "--cache", "1"],
        "a.spark 2 4 4 1 (no plan)",
    ),
    (
        &["run", "a.spark", "--cache=4096"],
        "a.spark 2 4 4 4096 (no plan)",
    ),
    (
        &["run", "a.spark", "--plan", "p.txt"],
        "a.spark 2 4 4 64 p.txt",
    ),
    (
        &["run", "--plan=p.txt", "--cache", "7", "a.spark"],
        "a.spark 2 4 4 7 p.txt",
    ),
    (&["run", "a.spark", "--plan", ""], "a.spark 2 4 4 64 "),
    (&["run", "a.spark", "--plan="], "a.spark 2 4 4 64 "),
    (
        &["run", "a.spark", "--plan", "a.spark"],
        "a.spark 2 4 4 64 a.spark",
    ),
    (
        &["run", "a.spark", "--plan=--plan"],
        "a.spark 2 4 4 64 --plan",
    ),
    (
        &["run", "a.spark", "--speculation"],
        "a.spark 2 4 4 64 copies (no plan)",
    ),
    (
        &["run", "--speculation", "a.spark"],
        "a.spark 2 4 4 64 copies (no plan)",
    ),
    (
        &["run", "--cache=7", "--speculation", "--", "a.spark"],
        "a.spark 2 4 4 7 copies (no plan)",
    ),
    (
        &["run", "--plan=p.txt", "a.spark", "--speculation"],
        "a.spark 2 4 4 64 copies p.txt",
    ),
    (
        &["run", "a.spark", "--plan=--speculation"],
        "a.spark 2 4 4 64 --speculation",
    ),
    (
        &["run", "--", "--speculation"],
        "--speculation 2 4 4 64 (no plan)",
    ),
    (&["run", ""], " 2 4 4 64 (no plan)"),
    (&["run", "-"], "- 2 4 4 64 (no plan)"),
    (&["run", "run"], "run 2 4 4 64 (no plan)"),
    (&["run", "help"], "help 2 4 4 64 (no plan)"),
    (&["run", "--", "-a.spark"], "-a.spark 2 4 4 64 (no plan)"),
    (
        &["run", "--", "--executors=3"],
        "--executors=3 2 4 4 64 (no plan)",
    ),
    (
        &["run", "--executors=3", "--", "a.spark"],
        "a.spark 3 4 4 64 (no plan)",
    ),
    (
        &["gen", "--seed", "1", "--size", "4"],
        "gen.spark 2 from 1 lines 4",
    ),
    (
        &["gen", "--size=100000", "--executors=64", "--seed=0"],
        "gen.spark 64 from 0 lines 100000",
    ),
    (&["run", "gen"], "gen 2 4 4 64 (no plan)"),
];

#[test]
fn words_ask_for_a_script_under_limits(rt: HostRuntime) {
    for (words, want) in &COMMANDS {
        let seen = asked(&rt, *words);
        assert_eq!(rt; seen.as_str(), *want);
    }
}
