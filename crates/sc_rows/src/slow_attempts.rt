//! The rule of speculation at its edges.
#![tactic(auto)]

use sc_spec::is_speculatable;

/// Durations, the number of tasks, the start of an attempt and the time, in milliseconds, and
/// whether a second attempt is worth its while.
const ROWS: [(&[u64], usize, u64, u64, bool); 13] = [
    // Three successes of four tasks, each of 100 milliseconds.
    (&[100, 100, 100], 4, 300, 450, false),
    (&[100, 100, 100], 4, 300, 451, true),
    // Two successes of four are too few, and three of five enough.
    (&[100, 100], 4, 300, 1_000, false),
    (&[100, 100, 100], 5, 300, 1_000, true),
    // One task needs one success, and so does a set without tasks.
    (&[], 1, 0, 1_000, false),
    (&[1], 1, 0, 1_000, true),
    (&[], 0, 0, 1_000, false),
    // 100 milliseconds are the least, whatever the median.
    (&[1, 1, 1], 4, 0, 100, false),
    (&[1, 1, 1], 4, 0, 101, true),
    // Of four durations the third is the median.
    (&[1, 2, 100, 900], 4, 0, 150, false),
    (&[1, 2, 100, 900], 4, 0, 151, true),
    // A start ahead of the time is no run.
    (&[1, 1, 1], 4, 500, 400, false),
    // The greatest numbers.
    (
        &[18_446_744_073_709_551_615],
        1,
        0,
        18_446_744_073_709_551_615,
        false,
    ),
];

#[test]
fn slow_attempts_are_speculatable(rt: HostRuntime) {
    for (durations, tasks, started, now, expected) in ROWS {
        let slow = is_speculatable(durations, tasks, started, now);
        assert!(rt; slow == expected, "{durations:?}");
    }
}
