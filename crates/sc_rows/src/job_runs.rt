//! Jobs from their beginning to their end, as their journals have them.
//!
//! What is wanted follows by hand from the rules of a job: who asks gets the smallest pending
//! partition of the first stage that has one, outputs that were wiped are made again by another
//! attempt of their stage, and so many hand-outs, counted failures of a partition or failed
//! attempts of a stage end the job.
#![tactic(auto)]

use crate::jobs::{counting_again, counting_under};
use crate::transcripts::{assert_job, assert_transcript};
use sc_core::story;
use sc_ids::{AttemptId, Limits};

const RUNS: &str = r#"==== one wipe is survived
counts: task failures 4, stage attempts 4, hand-outs 99
----
0 take: task 0.0.0.0, epoch 0
0 post 0.0.0.0 map at 0@0: registered
1 take: task 0.0.1.0, epoch 0
1 post 0.0.1.0 map at 1@0: registered
1 take: task 1.0.0.0, epoch 0, from 0@0 1@0
1 post 1.0.0.0 failed: gone 0@0 found 1: resubmitted
1 take: task 0.1.0.0, epoch 1
1 post 0.1.0.0 map at 1@0: registered
0 take: task 1.1.0.0, epoch 1, from 1@0 1@0
0 post 1.1.0.0 result: finished
1 take: task 1.1.1.0, epoch 1, from 1@0 1@0
1 post 1.1.1.0 result: finished
told 6
0 take: ended
==== one wipe is too many where one attempt is allowed
counts: task failures 4, stage attempts 1, hand-outs 99
----
0 take: task 0.0.0.0, epoch 0
1 take: task 0.0.1.0, epoch 0
0 take: busy with 0.0.0.0
0 post 0.0.0.0 map at 0@0: registered
0 take: wait for 0.0.1.0
1 post 0.0.1.0 map at 1@0: registered
told 2
1 take: task 1.0.0.0, epoch 0, from 0@0 1@0
1 post 1.0.0.0 failed: gone 0@0 found 1: aborted: stage limit of 1
0 take: ended
1 post 1.0.0.0 result: ignored
told 3
==== one wipe that two tasks find fails one attempt of their stage
counts: task failures 4, stage attempts 2, hand-outs 99
----
0 take: task 0.0.0.0, epoch 0
1 take: task 0.0.1.0, epoch 0
0 take: busy with 0.0.0.0
0 post 0.0.0.0 map at 0@0: registered
0 take: wait for 0.0.1.0
1 post 0.0.1.0 map at 1@0: registered
told 2
0 take: task 1.0.0.0, epoch 0, from 0@0 1@0
1 take: task 1.0.1.0, epoch 0, from 0@0 1@0
1 post 1.0.1.0 failed: gone 0@0 found 1: resubmitted
0 post 1.0.0.0 failed: gone 0@0 found 1: again
1 take: task 0.1.0.0, epoch 1
1 post 0.1.0.0 map at 1@0: registered
0 take: task 1.1.0.0, epoch 1, from 1@0 1@0
==== an output of a task from before a wipe, or one that was wiped away, is made again
counts: task failures 4, stage attempts 4, hand-outs 99
----
0 take: task 0.0.0.0, epoch 0
1 take: task 0.0.1.0, epoch 0
0 take: busy with 0.0.0.0
0 post 0.0.0.0 map at 0@0: registered
0 take: wait for 0.0.1.0
1 post 0.0.1.0 map at 1@0: registered
told 2
0 take: task 1.0.0.0, epoch 0, from 0@0 1@0
1 take: task 1.0.1.0, epoch 0, from 0@0 1@0
1 post 1.0.1.0 failed: gone 0@0 found 1: resubmitted
1 take: task 0.1.0.0, epoch 1
0 post 1.0.0.0 failed: gone 1@0 found 1: resubmitted
1 post 0.1.0.0 map at 1@1: bogus
1 take: task 0.2.0.0, epoch 2
0 take: task 0.2.1.0, epoch 2
1 post 0.2.0.0 map at 1@0: bogus
0 post 0.2.1.0 map at 0@1: registered
1 take: task 0.3.0.0, epoch 2
1 post 0.3.0.0 map at 1@1: registered
0 take: task 1.1.0.0, epoch 2, from 1@1 0@1
==== as many tasks are handed out as the budget has
results: task failures 4, stage attempts 4, hand-outs 1
----
0 take: task 0.0.0.0, epoch 0
1 take: aborted: budget
0 take: ended
0 post 0.0.0.0 result: ignored
told 0
==== an executor that is none of the run gets nothing
results: task failures 4, stage attempts 4, hand-outs 99
----
2 take: lost
0 take: task 0.0.0.0, epoch 0
2 take: lost
1 take: task 0.0.1.0, epoch 0
==== four failures of a partition are too many
results: task failures 4, stage attempts 4, hand-outs 99
----
0 take: task 0.0.0.0, epoch 0
1 take: task 0.0.1.0, epoch 0
0 post 0.0.0.0 failed: raised DivideByZero: again
1 post 0.0.1.0 failed: raised NotANumber: again
0 take: task 0.0.0.1, epoch 0
0 post 0.0.0.1 failed: planned: again
0 take: task 0.0.0.2, epoch 0
0 post 0.0.0.2 failed: raised OutOfRange: again
1 take: task 0.0.0.3, epoch 0
1 post 0.0.0.3 failed: raised DivideByZero: aborted: task limit of 0.0 partition 0
0 take: ended
==== one failure is too many where no second one is allowed
results: task failures 1, stage attempts 4, hand-outs 99
----
0 take: task 0.0.0.0, epoch 0
1 take: task 0.0.1.0, epoch 0
1 post 0.0.1.0 failed: raised DivideByZero: aborted: task limit of 0.0 partition 1
0 take: ended
"#;

#[test]
fn jobs_end_as_their_transcripts_say(rt: HostRuntime) {
    for case in RUNS.split("==== ") {
        if !case.is_empty() {
            assert_job(&rt, case);
        }
    }
}

/// Both map outputs of a word count are registered, and both results are there.
const FIRST: &str = "\
0 take: task 0.0.0.0, epoch 0
1 take: task 0.0.1.0, epoch 0
0 take: busy with 0.0.0.0
0 post 0.0.0.0 map at 0@0: registered
0 take: wait for 0.0.1.0
1 post 0.0.1.0 map at 1@0: registered
told 2
0 take: task 1.0.0.0, epoch 0, from 0@0 1@0
1 take: task 1.0.1.0, epoch 0, from 0@0 1@0
0 post 1.0.0.0 result: finished
1 post 1.0.1.0 result: finished
told 4
0 take: ended
1 post 1.0.1.0 result: ignored
told 4
";

/// A job of the same shuffle that begins behind it.
const SECOND: &str = "\
told 4
0 take: task 2.0.0.0, epoch 0, from 0@0 1@0
0 post 2.0.0.0 result: finished
told 5
0 take: task 2.0.1.0, epoch 0, from 0@0 1@0
0 post 2.0.1.0 result: finished
0 take: ended
";

/// What is told of its attempt for partition 1.
const STORY: &str = "\
0 take: task 2.0.1.0, epoch 0, from 0@0 1@0
0 post 2.0.1.0 result: finished
";

#[test]
fn a_second_job_reuses_the_map_stage(rt: HostRuntime) {
    let mut first = counting_under(&rt, Limits::default(), false, "");
    assert_transcript(&rt, &mut first, FIRST, "the first job");
    let mut second = counting_again(&rt, Limits::default(), first.core());
    second.reserve(5).expect(&rt, "memory");
    assert_transcript(&rt, &mut second, SECOND, "the second job");
    let attempt = AttemptId {
        stage: 2,
        stage_attempt: 0,
        partition: 1,
        nth: 0,
    };
    let told = story(rt.alloc(), second.entries(), attempt).expect(&rt, "memory");
    assert_eq!(rt; told.as_str(), STORY);
}
