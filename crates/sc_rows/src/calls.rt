//! Calls that no run makes, or that no small run makes, and what no text shows of those of a run.
#![tactic(auto)]

use sc_app::{Status, fault_text};
use sc_commit::Commit;
use sc_core::Abort;
use sc_gen::{Generated, workload};
use sc_ids::{AttemptId, Limits};
use sc_input::{ReadAnswer, Source};
use sc_output::{
    committed_name, final_name, is_within_types, laws_of_commits, laws_of_names, staged_name,
    success_name,
};
use sc_taskset::TaskSet;
use sc_value::Name;

#[test]
fn there_is_memory_for_what_no_run_does(rt: HostRuntime) {
    assert!(rt; Commit::begin(rt.alloc(), 2).is_ok());
    assert!(rt; TaskSet::begin(rt.alloc(), &[0, 2], true, Limits::default(), 7).is_ok());
    let script = Name::new(rt.alloc(), "s").expect(&rt, "memory");
    let mut files = Generated::new(rt.alloc(), script, 2, 1).expect(&rt, "memory");
    let other = Name::new(rt.alloc(), "t").expect(&rt, "memory");
    let answer = files.read(&other);
    assert!(rt; matches!(answer, ReadAnswer::NoFile));
}

// Neither comes of a script that is small enough for a test.
#[test]
fn want_of_memory_and_a_spent_budget_are_told(rt: HostRuntime) {
    let told = fault_text(rt.alloc(), &Status::OutOfMemory).expect(&rt, "memory");
    assert_eq!(rt; told.as_str(), "out of memory");
    let spent = Status::Aborted(Abort::Budget);
    let told = fault_text(rt.alloc(), &spent).expect(&rt, "memory");
    assert_eq!(rt; told.as_str(), "budget");
}

/// A seed, how many lines, and the lines.
const WORKLOADS: [(u32, u32, &str); 4] = [
    (1, 4, "k6 758\nk1 515\nk11 627\nk2 419\n"),
    (2, 1, "k12 817\n"),
    (2_147_483_647, 1, "k9 409\n"),
    (7, 0, ""),
];

#[test]
fn a_seed_and_a_size_name_lines(rt: HostRuntime) {
    for (seed, size, want) in &WORKLOADS {
        let lines = workload(rt.alloc(), *seed, *size).expect(&rt, "memory");
        assert_eq!(rt; lines.as_str(), *want);
    }
}

/// Partitions, and the names of their parts.
const PARTS: [(u32, &str); 8] = [
    (0, "out/part-00000"),
    (9, "out/part-00009"),
    (10, "out/part-00010"),
    (1_023, "out/part-01023"),
    (54_321, "out/part-54321"),
    (99_999, "out/part-99999"),
    (100_000, "out/part-100000"),
    (u32::MAX, "out/part-4294967295"),
];

#[test]
fn names_are_those_of_the_format(rt: HostRuntime) {
    laws_of_names();
    laws_of_commits();
    let dir = Name::new(rt.alloc(), "out").expect(&rt, "memory");
    for (partition, want) in PARTS {
        let name = final_name(rt.alloc(), &dir, partition).expect(&rt, "memory");
        assert!(rt; name.as_str() == want, "{name:?}");
    }
    let attempt = AttemptId {
        stage: 1,
        stage_attempt: 23,
        partition: 45,
        nth: 678,
    };
    is_within_types(attempt);
    let staged = staged_name(rt.alloc(), &dir, attempt).expect(&rt, "memory");
    assert_eq!(rt; staged.as_str(), "out/_temporary/s-1-23-45-678");
    let committed = committed_name(rt.alloc(), &dir, attempt).expect(&rt, "memory");
    assert_eq!(rt; committed.as_str(), "out/_temporary/c-1-23-45-678");
    let success = success_name(rt.alloc(), &dir).expect(&rt, "memory");
    assert!(rt; success.as_str() == "out/_SUCCESS", "{success:?}");
}
