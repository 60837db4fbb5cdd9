//! Runs in which slow attempts get copies, by whatever clock.
//!
//! What is wanted of a history is how many lines of it have a text, as in `histories`.
#![tactic(auto)]

use crate::files::standing;
use crate::gates::{Keeper, Kept};
use crate::given::{Outside, seen_of};
use crate::histories::assert_history;
use crate::works::{source_of, words_of};
use sc_clock::{Clock, ListClock, StepClock};
use sc_exec::{Gate, OpenGate};
use std::process::Abort;
use std::sync::Wait;
use std::thread::Threads;
use std::time;

/// Four numbers in four partitions.
const FOUR: &str = "l = parallelize 4 1 2 3 4\ncollect l\n";

/// What is printed of them.
const FOUR_PRINTED: &str = "1\n2\n3\n4\n";

/// The same, saved.
const SAVE: &str = "l = parallelize 4 1 2 3 4\nsave l \"out\"\n";

/// What stands of these.
const SAVED: &str =
    "out/ out/part-00000=1\n out/part-00001=2\n out/part-00002=3\n out/part-00003=4\n \
      out/_SUCCESS= ";

/// Two numbers of one key, summed, so that both stages have two tasks.
const SUMS: &str = r#"
l = parallelize 2 1 2
p = map l (pair "k" x)
r = reduceByKey p 2 (+ a b)
collect r
"#;

/// A script and a plan, how many attempts enter before the first one of the first task goes on,
/// what is printed and told, what stands, and what the history shows.
const COPIES: [(&str, &str, usize, &str, &str, &str); 8] = [
    // The copy is the first whose report is told.
    (
        FOUR,
        "late 0 0 0 9\n",
        5,
        FOUR_PRINTED,
        "",
        "5 | take: task\n1 | post 0.0.0.1 result: finished\n0 | post 0.0.0.0 result: finished\n\
         4 | : finished\n",
    ),
    // The copy fails, and doesn't count for the first attempt.
    (
        FOUR,
        "fail 0 0 1\nlate 0 0 0 9\n",
        5,
        FOUR_PRINTED,
        "",
        "1 | post 0.0.0.1 failed: planned: again\n4 | : finished\n",
    ),
    // Whichever is the first, the other one counts for nothing.
    (
        FOUR,
        "",
        5,
        FOUR_PRINTED,
        "",
        "5 | take: task\n4 | : finished\n",
    ),
    (
        FOUR,
        "twice 0 0 0\ntwice 0 0 1\ntwice 0 1 0\n",
        5,
        FOUR_PRINTED,
        "",
        "5 | take: task\n4 | : finished\n",
    ),
    // An output of a map task that is made by two attempts.
    (
        SUMS,
        "late 0 0 0 9\n",
        3,
        "(k,3)\n",
        "",
        "1 | take: task 0.0.0.1\n2 | : finished\n",
    ),
    (
        SUMS,
        "",
        3,
        "(k,3)\n",
        "",
        "1 | take: task 0.0.0.1\n2 | : finished\n",
    ),
    // Both attempts ask before a report of either is told: one of them is denied.
    (
        SAVE,
        "late 0 0 0 9\nlate 0 0 1 9\n",
        5,
        "",
        SAVED,
        "5 | take: task\n4 | : granted\n1 | : denied by\n4 | : moved\n4 | : finished\n",
    ),
    (
        SAVE,
        "",
        5,
        "",
        SAVED,
        "5 | take: task\n4 | : moved\n4 | : finished\n",
    ),
];

/// Sees what is told of a run in which slow attempts get copies, what stands behind it, and what
/// its history shows.
fn assert_copied<
    G: Gate + Sync,
    C: Clock + Send + Drop,
    R: Abort + AllocGlobal + Threads + Wait + time::Clock + Sync,
>(
    rt: &R,
    (script, plan): (&str, &str),
    gate: &G,
    clock: C,
    (told, left, counts): (&str, &str, &str),
) {
    let outside = Outside::of(rt, source_of(rt, script, plan, ""));
    let seen = seen_of(rt, &words_of(rt, "--speculation"), outside, gate, clock);
    assert_eq!(rt; seen.all.as_str(), told, "{plan:?}");
    let stands = standing(rt, &seen.outside.files.files);
    assert_eq!(rt; stands.as_str(), left, "{plan:?}");
    assert_history(rt, &seen.histories, counts, plan);
}

#[test]
fn a_copy_leaves_the_text_as_it_was(rt: HostRuntime) {
    for (script, plan, until, told, left, counts) in COPIES {
        let gate = Keeper::new(rt.alloc(), Kept::FirstTask, until);
        let clock = StepClock {
            time: 0,
            step: 1_000,
        };
        assert_copied(&rt, (script, plan), &gate, clock, (told, left, counts));
    }
}

/// The greatest time.
const LAST: u64 = u64::MAX;

/// What a clock gives, and what the history shows.
const CLOCKS: [(&[u64], &str); 6] = [
    // It stands still, or goes back: then no attempt gets slow.
    (&[], "4 | take: task\n4 | : finished\n"),
    (&[7], "4 | take: task\n4 | : finished\n"),
    (&[1_000, 900, 5, 0], "4 | take: task\n4 | : finished\n"),
    (&[LAST, 0], "4 | take: task\n4 | : finished\n"),
    // It leaps, to and fro.
    (&[0, LAST], "4 | : finished\n"),
    (&[0, 5_000, 10, 9_000, 0, 20_000], "4 | : finished\n"),
];

#[test]
fn whatever_a_clock_gives_the_text_is_the_same(rt: HostRuntime) {
    for (times, counts) in CLOCKS {
        let times = Vec::from_slice(rt.alloc(), times).expect(&rt, "memory");
        let given = (FOUR, "late 0 1 0 2\n");
        let want = (FOUR_PRINTED, "", counts);
        assert_copied(&rt, given, &OpenGate, ListClock::new(times), want);
    }
}
