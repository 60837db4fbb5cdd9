//! Jobs that save: who may commit, and what becomes of the others.
//!
//! What is wanted follows by hand from the rules of a save: the first running attempt of a
//! partition that asks is granted, and holds the grant until it ends. An attempt stages, asks and
//! moves in this order, each once, and any other step of it is over.
#![tactic(auto)]

use crate::transcripts::assert_job;

const SAVES: &str =
    r#"==== the grant of a lost holder is free, and its partition is committed by another attempt
one saved result: task failures 4, stage attempts 4, hand-outs 99
lose 1 0 0
----
1 take: task 0.0.0.0, epoch 0
1 stage 0.0.0.0: staged
1 ask 0.0.0.0: granted
1 move 0.0.0.0: moved
0 lost 1: told
1 take: lost
0 take: task 0.0.0.1, epoch 1
0 stage 0.0.0.1: staged
0 ask 0.0.0.1: granted
0 move 0.0.0.1: moved
0 post 0.0.0.1 result: finished
0 take: ended
1 post 0.0.0.0 result: ignored
1 stage 0.0.0.0: over
1 ask 0.0.0.0: over
told 1
==== who is denied waits until the holder has failed
four saved results: task failures 4, stage attempts 4, hand-outs 99, speculation
----
0 tick 0: ticked
0 take: task 0.0.0.0, epoch 0
0 ask 0.0.0.0: over
0 stage 0.0.0.0: staged
0 stage 0.0.0.0: over
0 move 0.0.0.0: over
0 ask 0.0.0.0: granted
0 post 0.0.0.0 result: not enabled
0 move 0.0.0.0: moved
0 tick 100: ticked
0 post 0.0.0.0 result: finished
0 take: task 0.0.1.0, epoch 0
0 stage 0.0.1.0: staged
0 ask 0.0.1.0: granted
0 move 0.0.1.0: moved
0 tick 200: ticked
0 post 0.0.1.0 result: finished
0 take: task 0.0.2.0, epoch 0
0 stage 0.0.2.0: staged
0 ask 0.0.2.0: granted
0 move 0.0.2.0: moved
0 tick 300: ticked
0 post 0.0.2.0 result: finished
0 take: task 0.0.3.0, epoch 0
1 tick 451: ticked
1 take: task 0.0.3.1, epoch 0
0 stage 0.0.3.0: staged
0 ask 0.0.3.0: granted
1 stage 0.0.3.1: staged
1 ask 0.0.3.1: denied by 0.0.3.0
1 ask 0.0.3.1: over
1 move 0.0.3.1: over
1 post 0.0.3.1 failed: denied: again
1 take: wait for 0.0.3.0
0 move 0.0.3.0: device, faults 0 to 1, clashes 0 to 0
1 take: wait for 0.0.3.0
0 post 0.0.3.0 failed: device, faults 0 to 1, clashes 0 to 0: again
1 take: task 0.0.3.2, epoch 0
1 stage 0.0.3.2: staged
1 ask 0.0.3.2: granted
1 move 0.0.3.2: moved
1 post 0.0.3.2 result: finished
1 take: ended
told 6
"#;

/// A holder whose stage has begun a newer attempt, in which another attempt of its part is denied.
const OLDER: &str = r#"==== the holder fails, uncounted, and the newest attempt hands out its part
saved counts: task failures 1, stage attempts 4, hand-outs 99
----
0 take: task 0.0.0.0, epoch 0
0 post 0.0.0.0 map at 0@0: registered
0 take: task 0.0.1.0, epoch 0
0 post 0.0.1.0 map at 0@0: registered
0 take: task 1.0.0.0, epoch 0, from 0@0 0@0
0 stage 1.0.0.0: staged
0 ask 1.0.0.0: granted
1 take: task 1.0.1.0, epoch 0, from 0@0 0@0
1 post 1.0.1.0 failed: gone 0@0 found 1: resubmitted
1 take: task 0.1.0.0, epoch 1
1 post 0.1.0.0 map at 1@0: registered
1 take: task 0.1.1.0, epoch 1
1 post 0.1.1.0 map at 1@0: registered
1 take: task 1.1.0.0, epoch 1, from 1@0 1@0
1 stage 1.1.0.0: staged
1 ask 1.1.0.0: denied by 1.0.0.0
1 post 1.1.0.0 failed: denied: again
1 take: task 1.1.1.0, epoch 1, from 1@0 1@0
1 stage 1.1.1.0: staged
1 ask 1.1.1.0: granted
1 move 1.1.1.0: moved
1 post 1.1.1.0 result: finished
1 take: wait for 1.0.0.0
0 move 1.0.0.0: device, faults 0 to 1, clashes 0 to 0
1 take: wait for 1.0.0.0
0 post 1.0.0.0 failed: device, faults 0 to 1, clashes 0 to 0: again
1 take: task 1.1.0.1, epoch 1, from 1@0 1@0
1 stage 1.1.0.1: staged
1 ask 1.1.0.1: granted
1 move 1.1.0.1: moved
1 post 1.1.0.1 result: finished
1 take: ended
told 9
==== an attempt that begins under the grant hands out the part once the holder has failed
saved counts: task failures 1, stage attempts 4, hand-outs 99
----
0 take: task 0.0.0.0, epoch 0
0 post 0.0.0.0 map at 0@0: registered
0 take: task 0.0.1.0, epoch 0
0 post 0.0.1.0 map at 0@0: registered
0 take: task 1.0.0.0, epoch 0, from 0@0 0@0
0 stage 1.0.0.0: staged
0 ask 1.0.0.0: granted
1 take: task 1.0.1.0, epoch 0, from 0@0 0@0
1 post 1.0.1.0 failed: gone 0@0 found 1: resubmitted
1 take: task 0.1.0.0, epoch 1
1 post 0.1.0.0 map at 1@0: registered
1 take: task 0.1.1.0, epoch 1
1 post 0.1.1.0 map at 1@0: registered
1 take: task 1.1.0.0, epoch 1, from 1@0 1@0
1 stage 1.1.0.0: staged
1 ask 1.1.0.0: denied by 1.0.0.0
1 post 1.1.0.0 failed: denied: again
1 take: task 1.1.1.0, epoch 1, from 1@0 1@0
1 post 1.1.1.0 failed: gone 1@0 found 1: resubmitted
1 take: task 0.2.0.0, epoch 2
1 post 0.2.0.0 map at 1@1: registered
1 take: task 0.2.1.0, epoch 2
1 post 0.2.1.0 map at 1@1: registered
1 take: task 1.2.1.0, epoch 2, from 1@1 1@1
1 stage 1.2.1.0: staged
1 ask 1.2.1.0: granted
1 move 1.2.1.0: moved
1 post 1.2.1.0 result: finished
1 take: wait for 1.0.0.0
0 move 1.0.0.0: device, faults 0 to 1, clashes 0 to 0
1 take: wait for 1.0.0.0
0 post 1.0.0.0 failed: device, faults 0 to 1, clashes 0 to 0: again
1 take: task 1.2.0.0, epoch 2, from 1@1 1@1
1 stage 1.2.0.0: staged
1 ask 1.2.0.0: granted
1 move 1.2.0.0: moved
1 post 1.2.0.0 result: finished
1 take: ended
told 12
==== the holder may commit, and its part isn't made again
saved counts: task failures 1, stage attempts 4, hand-outs 99
----
0 take: task 0.0.0.0, epoch 0
0 post 0.0.0.0 map at 0@0: registered
0 take: task 0.0.1.0, epoch 0
0 post 0.0.1.0 map at 0@0: registered
0 take: task 1.0.0.0, epoch 0, from 0@0 0@0
0 stage 1.0.0.0: staged
0 ask 1.0.0.0: granted
1 take: task 1.0.1.0, epoch 0, from 0@0 0@0
1 post 1.0.1.0 failed: gone 0@0 found 1: resubmitted
1 take: task 0.1.0.0, epoch 1
1 post 0.1.0.0 map at 1@0: registered
1 take: task 0.1.1.0, epoch 1
1 post 0.1.1.0 map at 1@0: registered
1 take: task 1.1.0.0, epoch 1, from 1@0 1@0
1 stage 1.1.0.0: staged
1 ask 1.1.0.0: denied by 1.0.0.0
1 post 1.1.0.0 failed: denied: again
1 take: task 1.1.1.0, epoch 1, from 1@0 1@0
1 stage 1.1.1.0: staged
1 ask 1.1.1.0: granted
1 move 1.1.1.0: moved
1 post 1.1.1.0 result: finished
1 take: wait for 1.0.0.0
0 move 1.0.0.0: moved
0 post 1.0.0.0 result: finished
1 take: ended
told 8
==== the holder is told lost, and its part is handed out again
saved counts: task failures 1, stage attempts 4, hand-outs 99
lose 0 0 0
----
0 take: task 0.0.0.0, epoch 0
0 post 0.0.0.0 map at 0@0: registered
0 take: task 0.0.1.0, epoch 0
0 post 0.0.1.0 map at 0@0: registered
0 take: task 1.0.0.0, epoch 0, from 0@0 0@0
0 stage 1.0.0.0: staged
0 ask 1.0.0.0: granted
1 take: task 1.0.1.0, epoch 0, from 0@0 0@0
1 post 1.0.1.0 failed: gone 0@0 found 1: resubmitted
1 take: task 0.1.0.0, epoch 1
1 post 0.1.0.0 map at 1@0: registered
1 take: task 0.1.1.0, epoch 1
1 post 0.1.1.0 map at 1@0: registered
1 take: task 1.1.0.0, epoch 1, from 1@0 1@0
1 stage 1.1.0.0: staged
1 ask 1.1.0.0: denied by 1.0.0.0
1 post 1.1.0.0 failed: denied: again
1 take: task 1.1.1.0, epoch 1, from 1@0 1@0
1 stage 1.1.1.0: staged
1 ask 1.1.1.0: granted
1 move 1.1.1.0: moved
1 post 1.1.1.0 result: finished
1 take: wait for 1.0.0.0
1 lost 0: told
0 move 1.0.0.0: over
0 post 1.0.0.0 failed: device, faults 0 to 1, clashes 0 to 0: ignored
1 take: task 1.1.0.1, epoch 2, from 1@0 1@0
1 stage 1.1.0.1: staged
1 ask 1.1.0.1: granted
1 move 1.1.0.1: moved
1 post 1.1.0.1 result: finished
1 take: ended
told 9
"#;

#[test]
fn the_first_that_asks_commits_and_its_grant_holds_in_newer_attempts(rt: HostRuntime) {
    for table in [SAVES, OLDER] {
        for case in table.split("==== ") {
            if !case.is_empty() {
                assert_job(&rt, case);
            }
        }
    }
}
