//! Runs that save, of which calls on the files fail or want memory: what is told, and which
//! directories and files stand; and how a part is made again whose holder is told lost behind its
//! move. What is left where no call fails is in `cases/saved.txt`.
//!
//! What is wanted follows by hand from the order of the calls. The directory and its staging area
//! are made, each of three attempts writes its part and moves it, and in the end the parts get
//! their names, the staging area goes, and `_SUCCESS` is written. Where the job is aborted the
//! staging area goes, and no other call is made.
#![tactic(auto)]

use crate::files::standing;
use crate::gates::{Keeper, Kept};
use crate::given::{Outside, STILL, seen_of};
use crate::histories::{assert_history, has_lines, history_of};
use crate::works::{source_of, words_of};
use sc_exec::OpenGate;
use sc_files::Files;
use sc_value::Name;
use std::process::Abort;
use std::sync::Wait;
use std::thread::Threads;
use std::time;

/// Five numbers in three parts.
const THREE: &str = r#"
l = parallelize 3 1 2 3 4 5
save l "out"
"#;

/// What stands of these.
const THREE_SAVED: &str =
    "out/ out/part-00000=1\n out/part-00001=2\n3\n out/part-00002=4\n5\n out/_SUCCESS= ";

/// The call that fails, what is told, and what stands. There is no call 14.
const CALLS: [(u64, &str, &str); 14] = [
    (1, "device: out\n", ""),
    (2, "device: out/_temporary\n", "out/ "),
    (3, "", THREE_SAVED),
    (4, "", THREE_SAVED),
    (5, "", THREE_SAVED),
    (6, "", THREE_SAVED),
    (7, "", THREE_SAVED),
    (8, "", THREE_SAVED),
    (
        9,
        "device: out/part-00000\n",
        "out/ out/_temporary/ out/_temporary/c-0-0-0-0=1\n out/_temporary/c-0-0-1-0=2\n3\n \
          out/_temporary/c-0-0-2-0=4\n5\n ",
    ),
    (
        10,
        "device: out/part-00001\n",
        "out/ out/_temporary/ out/_temporary/c-0-0-1-0=2\n3\n \
          out/_temporary/c-0-0-2-0=4\n5\n out/part-00000=1\n ",
    ),
    (
        11,
        "device: out/part-00002\n",
        "out/ out/_temporary/ out/_temporary/c-0-0-2-0=4\n5\n out/part-00000=1\n \
          out/part-00001=2\n3\n ",
    ),
    (
        12,
        "device: out/_temporary\n",
        "out/ out/_temporary/ out/part-00000=1\n out/part-00001=2\n3\n out/part-00002=4\n5\n ",
    ),
    (
        13,
        "device: out/_SUCCESS\n",
        "out/ out/part-00000=1\n out/part-00001=2\n3\n out/part-00002=4\n5\n ",
    ),
    (14, "", THREE_SAVED),
];

/// The call of a task that fails and isn't tried again, and one behind it that fails too, or none
/// for 0; what is told, and what stands. The next call removes the staging area, and is the last.
const ABORTED: [(u64, u64, &str, &str); 5] = [
    (3, 0, "task limit: stage 0 attempt 0 partition 0\n", "out/ "),
    (3, 4, "device: out/_temporary\n", "out/ out/_temporary/ "),
    (8, 0, "task limit: stage 0 attempt 0 partition 2\n", "out/ "),
    (
        8,
        9,
        "device: out/_temporary\n",
        "out/ out/_temporary/ out/_temporary/c-0-0-0-0=1\n out/_temporary/c-0-0-1-0=2\n3\n \
          out/_temporary/s-0-0-2-0=4\n5\n ",
    ),
    (
        8,
        10,
        "task limit: stage 0 attempt 0 partition 2\n",
        "out/ ",
    ),
];

/// Sees what a save of three parts by one executor tells, with more words, and what stands behind
/// it, where there is a directory with a file in it, if one is named, and calls on the files fail,
/// but for 0; the third of these numbers is that of one that wants memory.
fn assert_left<R: Abort + AllocGlobal + Threads + Wait + time::Clock + Sync>(
    rt: &R,
    words: &str,
    taken: &str,
    (failing, behind, wanting): (u64, u64, u64),
    (told, left): (&str, &str),
) {
    let mut outside = Outside::of(rt, source_of(rt, THREE, "", ""));
    if !taken.is_empty() {
        let old = format!(in rt.alloc(); "{taken}/old").expect(rt, "memory");
        let old = Name::new(rt.alloc(), old.as_str()).expect(rt, "memory");
        let dir = Name::new(rt.alloc(), taken).expect(rt, "memory");
        let _ = outside.files.files.make(&dir);
        let _ = outside.files.files.write(&old, b"old");
    }
    outside.files.files.fail_at(failing).expect(rt, "memory");
    outside.files.files.fail_at(behind).expect(rt, "memory");
    outside.files.wanting = wanting;
    let seen = seen_of(rt, &words_of(rt, words), outside, &OpenGate, STILL);
    let stands = standing(rt, &seen.outside.files.files);
    // A task whose call fails tells of one fault more, at its step and in its report.
    let many = if failing < 3 || failing > 8 { 0 } else { 2 };
    let counts = format!(in rt.alloc(); "{many} | device, faults 0 to 1, clashes 0 to 0\n");
    let counts = counts.expect(rt, "memory");
    assert_history(rt, &seen.histories, counts.as_str(), "a failing call");
    assert_eq!(rt;
        seen.all.as_str(),
        told,
        "calls {failing}, {behind}, {wanting}"
    );
    assert_eq!(rt;
        stands.as_str(),
        left,
        "calls {failing}, {behind}, {wanting}"
    );
}

/// The words of a run by one executor, and of one that tries no task again.
const ALONE: &str = "--executors 1";

const ONCE: &str = "--executors 1 --task-failures 1";

#[test]
fn a_failing_call_leaves_what_the_table_says(rt: HostRuntime) {
    for (call, told, left) in CALLS {
        assert_left(&rt, ALONE, "", (call, 0, 0), (told, left));
    }
}

// What stands is what stands where the same call fails.
#[test]
fn want_of_memory_leaves_the_calls_before_it(rt: HostRuntime) {
    for (call, told, left) in CALLS {
        if !told.is_empty() {
            let want = ("out of memory\n", left);
            assert_left(&rt, ALONE, "", (0, 0, call), want);
        }
    }
}

#[test]
fn an_abort_leaves_the_directory_empty_or_tells_that_it_could_not(rt: HostRuntime) {
    for (call, behind, told, left) in ABORTED {
        assert_left(&rt, ONCE, "", (call, behind, 0), (told, left));
    }
}

/// A directory that is there, with a file in it, what is told, and what stands. No file system has
/// the last one without the first.
const TAKEN: [(&str, &str, &str); 2] = [
    ("out", "output exists: out\n", "out/ out/old=old "),
    (
        "out/_temporary",
        "output exists: out/_temporary\n",
        "out/_temporary/ out/ out/_temporary/old=old ",
    ),
];

#[test]
fn a_directory_that_is_there_is_left_as_it_was(rt: HostRuntime) {
    for (dir, told, left) in TAKEN {
        assert_left(&rt, ALONE, dir, (0, 0, 0), (told, left));
    }
}

/// Four numbers in four parts.
const FOUR: &str = r#"
l = parallelize 4 1 2 3 4
save l "out"
"#;

/// What stands of these.
const FOUR_SAVED: &str = "out/ out/part-00000=1\n out/part-00001=2\n out/part-00002=3\n \
    out/part-00003=4\n out/_SUCCESS= ";

/// The reports of all parts but the third are late, and behind the first that is told executor 0 is
/// lost.
const LOSS: &str = "late 0 0 0 9\nlate 0 1 0 9\nlate 0 3 0 9\nlose 0 1 1\n";

/// How the part goes of which that executor is the holder, with other entries in between: it is the
/// first or the second one, since of these two each of two executors has one.
const MADE_AGAIN: [&str; 2] = [
    r#"0 take: task 0.0.0.0, epoch 0
0 stage 0.0.0.0: staged
0 ask 0.0.0.0: granted
0 move 0.0.0.0: moved
0 post 0.0.0.0 result: shelved
lost 0: told
1 take: task 0.0.0.1, epoch 1
1 stage 0.0.0.1: staged
1 ask 0.0.0.1: granted
1 move 0.0.0.1: moved
1 post 0.0.0.1 result: finished"#,
    r#"0 take: task 0.0.1.0, epoch 0
0 stage 0.0.1.0: staged
0 ask 0.0.1.0: granted
0 move 0.0.1.0: moved
0 post 0.0.1.0 result: shelved
lost 0: told
1 take: task 0.0.1.1, epoch 1
1 stage 0.0.1.1: staged
1 ask 0.0.1.1: granted
1 move 0.0.1.1: moved
1 post 0.0.1.1 result: finished"#,
];

// Two attempts enter the gate before one of them goes on, and then two more: so each executor has
// moved one part when the third part is written, whose report is the first that is told.
#[test]
fn a_part_is_made_again_whose_holder_is_lost_behind_its_move(rt: HostRuntime) {
    let gate = Keeper::new(rt.alloc(), Kept::Pairs, 4);
    let outside = Outside::of(&rt, source_of(&rt, FOUR, LOSS, ""));
    let seen = seen_of(&rt, &words_of(&rt, "--executors 2"), outside, &gate, STILL);
    assert_eq!(rt; seen.all.as_str(), "");
    let stands = standing(&rt, &seen.outside.files.files);
    assert_eq!(rt; stands.as_str(), FOUR_SAVED);
    let history = history_of(&rt, &seen.histories);
    let history = history.as_str();
    let is_made_again = has_lines(history, MADE_AGAIN[0]) || has_lines(history, MADE_AGAIN[1]);
    assert!(rt; is_made_again, "{history}");
}
