//! What is told of histories that one executor alone doesn't have, or that no run is known to have.
#![tactic(auto)]

use crate::again::write_again;
use crate::summaries::{GivenUp, write_summary};
use crate::tracks::Track;
use crate::written::entries_of;
use sc_plan::Plan;

/// What a case claims, the entries of a job, and what ran again, by why.
const AGAIN: [(&str, &str, &str); 7] = [
    (
        "an output that lay on an executor that is lost is made again",
        "0 take: task 0.0.0.0
1 take: task 0.0.1.0
0 post 0.0.0.0 map at 0@0: registered
1 post 0.0.1.0 map at 1@0: registered
0 lost 1: told
0 take: task 0.1.1.0
0 post 0.1.1.0 map at 0@0: registered",
        "1 task ran again:
    1 since an executor was lost",
    ),
    (
        "so is a task that couldn't fetch from there, before that was told",
        "1 take: task 0.0.0.0
1 post 0.0.0.0 map at 1@0: registered
0 take: task 1.0.0.0
0 post 1.0.0.0 failed: gone 1@0 found 1: resubmitted
0 lost 1: told
0 take: task 0.1.0.0
0 post 0.1.0.0 map at 0@0: registered
0 take: task 1.1.0.0",
        "2 tasks ran again:
    2 since an executor was lost",
    ),
    (
        "a task that is out on an executor that is lost runs on another one",
        "0 take: task 0.0.0.0
1 take: task 0.0.1.0
0 post 0.0.0.0 result: finished
0 lost 1: told
0 take: task 0.0.1.1
1 post 0.0.1.0 result: ignored
0 post 0.0.1.1 result: finished",
        "1 task ran again:
    1 since an executor was lost",
    ),
    (
        "a slow task gets a copy",
        "0 take: task 0.0.0.0
1 take: task 0.0.1.0
0 post 0.0.0.0 result: finished
0 take: task 0.0.1.1
0 post 0.0.1.1 result: finished
1 post 0.0.1.0 result: repeated",
        "1 task ran again:
    1 as a copy of one that was out",
    ),
    (
        "what fails beside a copy that might not commit is tried again",
        "0 take: task 0.0.0.0
1 take: task 0.0.1.0
0 post 0.0.0.0 result: finished
0 take: task 0.0.1.1
0 post 0.0.1.1 failed: denied: shelved
1 post 0.0.1.0 failed: device: again
0 release 0: again
0 take: task 0.0.1.2",
        "2 tasks ran again:
    1 that might not commit
    1 as a copy of one that was out",
    ),
    (
        "where the executor is lost that might commit, that is why",
        "0 take: task 0.0.0.0
1 take: task 0.0.1.0
0 post 0.0.0.0 result: finished
0 take: task 0.0.1.1
0 post 0.0.1.1 failed: denied: again
0 lost 1: told
0 take: task 0.0.1.2",
        "2 tasks ran again:
    1 since an executor was lost
    1 as a copy of one that was out",
    ),
    (
        "one that is out there in an attempt of the stage before is not why",
        "1 take: task 1.0.0.0
0 take: task 1.1.0.0
0 post 1.1.0.0 failed: planned: again
0 lost 1: told
0 take: task 1.1.0.1",
        "2 tasks ran again:
    1 after a planned failure
    1 with their stage, while they were out",
    ),
];

/// How many jobs have a history, how many were given up and run again, how many weren't, and what
/// is told.
const GIVEN_UP: [(u64, u64, u64, &str); 4] = [
    (0, 0, 0, "  no job was begun\n"),
    (
        0,
        0,
        1,
        "  1 job given up by the executors, and not begun again\n",
    ),
    (
        1,
        0,
        1,
        "  1 job, 0 stages, 0 tasks handed out, 0 reports told
  nothing was computed again
  1 job given up by the executors, and not begun again\n",
    ),
    (
        2,
        2,
        0,
        "  2 jobs, 0 stages, 0 tasks handed out, 0 reports told
  nothing was computed again
  2 jobs given up by the executors, and run again by the driver alone\n",
    ),
];

#[test]
fn what_runs_again_is_told_by_why(rt: HostRuntime) {
    for (claim, text, want) in AGAIN {
        let entries = entries_of(&rt, text);
        let mut track = Track::begin(rt.alloc());
        let plan = Plan::empty(rt.alloc());
        track
            .read_entries(entries.as_slice(), &plan)
            .expect(&rt, "memory");
        let mut told = String::new(rt.alloc());
        write_again(&mut told, track.reasons.as_slice()).expect(&rt, "memory");
        assert_eq!(rt; told.as_str().trim(), want, "{claim}");
    }
}

#[test]
fn a_job_that_was_given_up_is_told(rt: HostRuntime) {
    for (jobs, run_again, left, want) in GIVEN_UP {
        let mut track = Track::begin(rt.alloc());
        track.jobs = jobs;
        let mut told = String::new(rt.alloc());
        let given_up = GivenUp { run_again, left };
        write_summary(&mut told, &track, None, given_up).expect(&rt, "memory");
        assert_eq!(rt; told.as_str(), want);
    }
}
