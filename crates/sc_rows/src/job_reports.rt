//! Reports that change little or nothing, and a second attempt of a stage beside the first.
#![tactic(auto)]

use crate::transcripts::assert_job;

const REPORTS: &str =
    r#"==== reports of attempts that weren't handed out, or have ended, are ignored and counted
results: task failures 4, stage attempts 4, hand-outs 99
----
0 post 0.0.0.0 result: ignored
told 1
0 take: task 0.0.0.0, epoch 0
0 post 0.0.0.1 result: ignored
0 post 0.1.0.0 failed: raised DivideByZero: ignored
1 post 7.0.0.0 map at 1@0: ignored
1 post 0.0.1.0 failed: gone 0@0 found 1: ignored
told 5
0 post 0.0.0.0 result: finished
0 post 0.0.0.0 result: ignored
told 7
0 take: task 0.0.1.0, epoch 0
==== reports that don't fit their running attempts are not enabled
counts: task failures 4, stage attempts 4, hand-outs 99
----
0 take: task 0.0.0.0, epoch 0
0 post 0.0.0.0 result: not enabled
0 post 0.0.0.0 map at 1@0: not enabled
0 post 0.0.0.0 failed: gone 0@0 found 1: not enabled
told 0
0 post 0.0.0.0 map at 0@0: registered
1 take: task 0.0.1.0, epoch 0
1 post 0.0.1.0 map at 1@0: registered
0 take: task 1.0.0.0, epoch 0, from 0@0 1@0
0 post 1.0.0.0 map at 0@0: not enabled
0 post 1.0.0.0 failed: gone 0@1 found 2: not enabled
0 post 1.0.0.0 failed: gone 2@0 found 1: not enabled
0 post 1.0.0.0 failed: gone 0@0 found 0: not enabled
0 post 1.0.0.0 failed: missing -0@0: not enabled
0 post 1.0.0.0 failed: device, faults 0 to 1, clashes 0 to 0: not enabled
0 post 1.0.0.0 failed: denied: not enabled
told 2
0 take: busy with 1.0.0.0
1 take: task 1.0.1.0, epoch 0, from 0@0 1@0
0 post 1.0.0.0 result: finished
told 3
==== a late success of an older attempt of a stage counts
counts: task failures 4, stage attempts 4, hand-outs 99
----
0 take: task 0.0.0.0, epoch 0
0 post 0.0.0.0 map at 0@0: registered
1 take: task 0.0.1.0, epoch 0
1 post 0.0.1.0 map at 1@0: registered
0 take: task 1.0.0.0, epoch 0, from 0@0 1@0
1 take: task 1.0.1.0, epoch 0, from 0@0 1@0
1 post 1.0.1.0 failed: gone 0@0 found 1: resubmitted
1 take: task 0.1.0.0, epoch 1
1 post 0.1.0.0 map at 1@0: registered
0 post 1.0.0.0 result: finished
0 take: task 1.1.1.0, epoch 1, from 1@0 1@0
0 post 1.1.1.0 result: finished
told 6
0 take: ended
==== a second success for a partition only ends its attempt
counts: task failures 4, stage attempts 4, hand-outs 99
----
0 take: task 0.0.0.0, epoch 0
0 post 0.0.0.0 map at 0@0: registered
1 take: task 0.0.1.0, epoch 0
1 post 0.0.1.0 map at 1@0: registered
0 take: task 1.0.0.0, epoch 0, from 0@0 1@0
1 take: task 1.0.1.0, epoch 0, from 0@0 1@0
1 post 1.0.1.0 failed: gone 0@0 found 1: resubmitted
1 take: task 0.1.0.0, epoch 1
1 post 0.1.0.0 map at 1@0: registered
1 take: task 1.1.0.0, epoch 1, from 1@0 1@0
0 post 1.0.0.0 result: finished
0 take: task 1.1.1.0, epoch 1, from 1@0 1@0
1 post 1.1.0.0 result: repeated
1 take: wait for 1.1.1.0
0 post 1.1.1.0 result: finished
told 7
1 take: ended
==== a task whose inputs are missing fails the attempt of its stage
counts: task failures 4, stage attempts 3, hand-outs 99
----
0 take: task 0.0.0.0, epoch 0
0 post 0.0.0.0 map at 0@0: registered
1 take: task 0.0.1.0, epoch 0
1 post 0.0.1.0 map at 1@0: registered
0 take: task 1.0.0.0, epoch 0, from 0@0 1@0
1 take: task 1.0.1.0, epoch 0, from 0@0 1@0
1 post 1.0.1.0 failed: gone 0@0 found 1: resubmitted
1 take: task 0.1.0.0, epoch 1
1 post 0.1.0.0 map at 1@0: registered
0 post 1.0.0.0 failed: gone 1@0 found 1: again
0 take: task 1.1.0.0, epoch 2, from -1@0 -1@0
0 post 1.1.0.0 failed: gone 1@0 found 1: not enabled
0 post 1.1.0.0 failed: missing -0@0: not enabled
0 post 1.1.0.0 failed: missing -1@0: resubmitted
0 take: task 0.2.0.0, epoch 2
1 take: task 0.2.1.0, epoch 2
0 post 0.2.0.0 map at 0@1: registered
1 post 0.2.1.0 map at 1@1: registered
0 take: task 1.2.0.0, epoch 2, from 0@1 1@1
==== the second failed attempt of a stage is the last where two are allowed
counts: task failures 4, stage attempts 2, hand-outs 99
----
0 take: task 0.0.0.0, epoch 0
0 post 0.0.0.0 map at 0@0: registered
1 take: task 0.0.1.0, epoch 0
1 post 0.0.1.0 map at 1@0: registered
0 take: task 1.0.0.0, epoch 0, from 0@0 1@0
1 take: task 1.0.1.0, epoch 0, from 0@0 1@0
1 post 1.0.1.0 failed: gone 0@0 found 1: resubmitted
1 take: task 0.1.0.0, epoch 1
1 post 0.1.0.0 map at 1@0: registered
0 post 1.0.0.0 failed: gone 1@0 found 1: again
0 take: task 1.1.0.0, epoch 2, from -1@0 -1@0
0 post 1.1.0.0 failed: gone 1@0 found 1: not enabled
0 post 1.1.0.0 failed: missing -0@0: not enabled
0 post 1.1.0.0 failed: missing -1@0: aborted: stage limit of 1
0 take: ended
"#;

#[test]
fn reports_are_answered_as_their_transcripts_say(rt: HostRuntime) {
    for case in REPORTS.split("==== ") {
        if !case.is_empty() {
            assert_job(&rt, case);
        }
    }
}
