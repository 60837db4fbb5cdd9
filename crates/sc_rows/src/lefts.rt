//! Jobs by hand, on threads or alone: why executors take no more tasks, for each reason where
//! stores, a fault plan, a call by hand or the files bring it about, and how the job ends; and that
//! it has its results all the same where it is given up, or is run alone at first.
//!
//! A case of a table is a line `====` with what it claims; a line with ways to run the job, between
//! `or`: `alone`, or by how many threads its executors work, how many attempts wait for one another
//! two by two before they go on, how many executors have a task out that nobody does, and which
//! call on the files wants memory; a line with more words, or several between `or`, and a plan;
//! behind `----` the stores that lie at the places of executors, each with its generation, on a
//! line for each executor or on one for all; a script, of which the first action is run; what each
//! executor says that takes no more tasks, and how the job went by their logs, or nothing where it
//! is given up or run alone; how the job ended, with the results that are there and the files that
//! stand, where no save is committed; and, where it is asked for, what the history shows, as in
//! `histories`. Where the job was given up it was run again alone, and that is what is seen of it.
#![tactic(auto)]

ghost use Rattle.std.specs.Prelude.{◌≡◌};

use crate::alone::{Seen, end_of, run_again, run_alone};
use crate::apart::{Setting, worked_apart};
use crate::executors::begun;
use crate::files::standing;
use crate::histories::{WORD_COUNT, assert_history};
use crate::veiled::Veiled;
use crate::works::{INPUT, at, halves, numbers_of, work_of};
use sc_exec::{Verdict, judge};
use sc_files::{Files, MemFiles};
use sc_lineage::Work;
use sc_work::{Naming, SharedWork};
use std::marker::Brand;
use std::process::Abort;
use std::sync::Wait;
use std::thread::Threads;
use std::time;

/// Jobs that are run by executors, each over the stores that it looks at.
const LEFTS: &str = r#"==== over stores that all share each executor stays to the end
2 threads, 4 in pairs
--executors=2
----
0@0 1@0
----
collect c
----
JobEnded
JobEnded
Ended
----
Done
(b,2)
(a,1)
----
==== who is told lost once a report was told stops, and the other one does the rest
1 thread
--executors=2
lose 0 1 1
----
0@0 1@0
----
collect c
----
Lost
JobEnded
Ended
----
Done
(b,2)
(a,1)
----
==== two of three are told lost, one after its first task and one before
1 thread
--executors=3
lose 0 1 1
lose 1 1 1
----
0@0 1@0 2@0
----
collect c
----
Lost
Lost
JobEnded
Ended
----
Done
(b,2)
(a,1)
----
==== where the last one is told lost the job has ended for all
1 thread
--executors=2
lose 0 0 0
lose 1 0 0
----
0@0 1@0
----
collect c
----
JobEnded
JobEnded
Ended
----
Aborted(NoExecutor)
----
==== over stores that lie backwards each of two meets another one's, and the job is given up
2 threads, 2 in pairs
--executors=2
----
1@0 0@0
----
collect c
----
Stranger(Store(Misplaced { place: 0, found: 1 }))
Stranger(Store(Misplaced { place: 1, found: 0 }))
GivenUp
----
Done
(b,2)
(a,1)
----
==== who comes behind one that left is told which one that was
1 thread
--executors=3
----
1@0 1@0 2@0
----
collect c
----
Stranger(Store(Misplaced { place: 0, found: 1 }))
Stopped { exec: 0 }
Stopped { exec: 0 }
GivenUp
----
Done
(b,2)
(a,1)
----
==== who has done its task is told which other one left with its own
2 threads, 2 in pairs
--executors=2
----
0@0 0@0
----
collect c
----
Stopped { exec: 1 }
Stranger(Store(Misplaced { place: 1, found: 0 }))
GivenUp
----
Done
(b,2)
(a,1)
----
==== a block that was put elsewhere is absent, though its store is at the same generation
2 threads, 4 in pairs
--executors=2
----
0@0 1@0
0@0 1@0
----
collect c
----
Absent(Absence { loc: Loc { exec: 1, generation: 0 } })
Absent(Absence { loc: Loc { exec: 0, generation: 0 } })
GivenUp
----
Done
(b,2)
(a,1)
----
==== in a store that is behind where the block was put it is absent too
2 threads, 4 in pairs
--executors=2
----
0@3 1@1
0@2 1@5
----
collect c
----
Absent(Absence { loc: Loc { exec: 1, generation: 5 } })
Absent(Absence { loc: Loc { exec: 0, generation: 3 } })
GivenUp
----
Done
(b,2)
(a,1)
----
==== a store that is ahead of where the block was put, by wipes of no plan, is too early
2 threads, 4 in pairs
--executors=2
----
0@0 1@1
0@2 1@0
----
collect c
----
Early(TooEarly { exec: 1, found: 1, due: 0 })
Early(TooEarly { exec: 0, found: 2, due: 0 })
GivenUp
----
Done
(b,2)
(a,1)
----
==== as many wipes are due as the plan has by then, and a store is ahead of these
2 threads, 4 in pairs
--executors=2
drop 1 0
drop 0 9
----
0@0 1@3
0@2 1@0
----
collect c
----
Early(TooEarly { exec: 1, found: 3, due: 1 })
Early(TooEarly { exec: 0, found: 2, due: 0 })
GivenUp
----
Done
(b,2)
(a,1)
----
==== one executor meets a store that is ahead, and the other one lacks a block
2 threads, 4 in pairs
--executors=2
----
0@0 1@0
0@1 1@0
----
collect c
----
Absent(Absence { loc: Loc { exec: 1, generation: 0 } })
Early(TooEarly { exec: 0, found: 1, due: 0 })
GivenUp
----
Done
(b,2)
(a,1)
----
==== who has a task out of which its log knows nothing is busy
1 thread, 0 in pairs, 1 out
--executors=2
----
0@0 1@0
----
collect c
----
Busy { held: AttemptId { stage: 0, stage_attempt: 0, partition: 0, nth: 0 } }
Stopped { exec: 0 }
GivenUp
----
Done
(b,2)
(a,1)
----
==== a job is given up for an entry that no log has, though nobody met what can't be
1 thread, 0 in pairs, 1 out
--executors=2
lose 0 0 0
----
0@0 1@0
----
collect c
----
Lost
JobEnded
GivenUp
----
Done
(b,2)
(a,1)
----
==== the part of a save wants memory, and nobody gives up
1 thread, 0 in pairs, 0 out, call 3
--executors=2
----
0@0 1@0
----
save c "out"
----
NoMemory
Stopped { exec: 0 }
NoMemory
----
Running
out/ out/_temporary/ ----
==== the move of a part wants memory behind its grant
1 thread, 0 in pairs, 0 out, call 4
--executors=2
----
0@0 1@0
----
save c "out"
----
NoMemory
Stopped { exec: 0 }
NoMemory
----
Running
out/ out/_temporary/ out/_temporary/s-1-0-0-0=(b,2)
 ----
==== want of memory counts before what another executor met
2 threads, 2 in pairs, 0 out, call 3
--executors=2
----
0@0 0@0
----
l = parallelize 2 1 2 3 4
save l "out"
----
NoMemory
Stranger(Store(Misplaced { place: 1, found: 0 }))
NoMemory
----
Running
out/ out/_temporary/ ----
==== a save that is given up behind a part that was moved has both parts
2 threads, 2 in pairs
--executors=2
----
0@0 0@0
----
l = parallelize 2 1 2 3 4
save l "out"
----
Stopped { exec: 1 }
Stranger(Store(Misplaced { place: 1, found: 0 }))
GivenUp
----
Done
out/ out/_temporary/ out/_temporary/c-0-0-0-0=1
2
 out/_temporary/c-0-0-1-0=3
4
 ----
"#;

/// What each executor of the first job of a work says that takes no more tasks, and how the job
/// went by their logs; and what is seen of it, or where they gave it up of the one that is run
/// again alone. Without threads it is run alone at first.
fn seen_apart<
    W: Naming + Send + Sync,
    F: Files + Send + Drop,
    R: Abort + AllocGlobal + Threads + Wait + time::Clock + Sync,
>(rt: &R, work: Work, files: F, setting: Setting, stores: String) -> (String, Seen<F>)
    requires { work ≡ W.work }
{
    let work = SharedWork::<W>::of(rt.alloc(), work).expect(rt, "memory");
    if setting.threads == 0 {
        let (desk, output, _) = begun(rt, &work, files);
        return (String::new(rt.alloc()), run_alone(rt, desk, output));
    }
    let (desk, output, workers) = worked_apart(rt, &work, files, setting, stores.as_str());
    let went = judge(&desk, workers.as_slice());
    let mut lefts = String::new(rt.alloc());
    for worker in &workers {
        let left = worker.left;
        writeln!(lefts, "{left:?}").expect(rt, "memory");
    }
    writeln!(lefts, "{went:?}").expect(rt, "memory");
    let seen = match went {
        Verdict::GivenUp => run_again(rt, desk, output),
        Verdict::Ended | Verdict::NoMemory => end_of(rt, desk, output),
    };
    (lefts, seen)
}

/// Whether these lines are told. Where two executors report at the same moment what is refused as
/// too early, one of them pushes it: who drains it tells so, and who pushed it may hear nothing.
fn are_told(told: &str, want: &str) -> bool {
    let mut lines = told.lines();
    for wanted in want.lines() {
        let Some(line) = lines.next() else {
            return false;
        };
        let pushed = line.starts_with("Drained(Early(") || line.starts_with("Busy");
        if line != wanted && !(pushed && wanted.starts_with("Early(")) {
            return false;
        }
    }
    lines.next().is_none()
}

/// Sees that the first job of a work goes so in a way to run it.
fn assert_way<R: Abort + AllocGlobal + Threads + Wait + time::Clock + Sync>(
    rt: &R,
    work: Work,
    way: &str,
    stores: &str,
    want: &str,
    label: &str,
) {
    let numbers = numbers_of(rt, way);
    let setting = Setting {
        threads: at(&numbers, 0) as usize,
        pairs: at(&numbers, 1) as usize,
        out: at(&numbers, 2),
    };
    let files = Veiled {
        files: MemFiles::new(rt.alloc()),
        calls: 0,
        wanting: u64::from(at(&numbers, 3)),
    };
    let stores = String::from_str(rt.alloc(), stores).expect(rt, "memory");
    let (lefts, seen) = seen_apart::<Brand, Veiled, R>(rt, work, files, setting, stores);
    let (left, rest) = halves(want, "----\n");
    let (end, counts) = halves(rest, "----\n");
    if left.is_empty() && setting.threads > 0 {
        assert!(rt;
            lefts.as_str().ends_with("\nGivenUp\n"),
            "{label}, {way}: {lefts}"
        );
    } else {
        assert!(rt; are_told(lefts.as_str(), left), "{label}, {way}: {lefts}");
    }
    let Seen {
        mut told,
        history,
        files,
    } = seen;
    let stands = standing(rt, &files.files);
    told.push_str(stands.as_str()).expect(rt, "memory");
    assert_eq!(rt; told.as_str(), end, "{label}, {way}");
    if !counts.is_empty() {
        assert_history(rt, &[history], counts, label);
    }
}

/// Sees that a case holds.
pub fn assert_case<R: Abort + AllocGlobal + Threads + Wait + time::Clock + Sync>(
    rt: &R,
    case: &str,
) {
    let (label, rest) = halves(case, "\n");
    let (ways, rest) = halves(rest, "\n");
    let (words, rest) = halves(rest, "\n");
    let (plan, rest) = halves(rest, "----\n");
    let (stores, rest) = halves(rest, "----\n");
    let (script, want) = halves(rest, "----\n");
    let count = if script.contains("=") { "" } else { WORD_COUNT };
    let script = format!(in rt.alloc(); "{count}{script}").expect(rt, "memory");
    for way in ways.split(" or ") {
        for words in words.split(" or ") {
            let work = work_of(rt, script.as_str(), plan, words, INPUT);
            assert_way(rt, work, way, stores, want, label);
        }
    }
}

#[test]
fn what_an_executor_meets_is_why_it_takes_no_more_tasks(rt: HostRuntime) {
    for case in LEFTS.split("==== ") {
        if !case.is_empty() {
            assert_case(&rt, case);
        }
    }
}
