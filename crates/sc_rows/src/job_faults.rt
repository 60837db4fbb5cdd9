//! Jobs under fault plans: reports that come late or twice, executors that are told lost, those
//! that leave early, and attempts that are slow.
#![tactic(auto)]

use crate::transcripts::assert_job;

const FAULTS: &str =
    r#"==== a late report is told when it is released, and its second copy changes nothing
counts: task failures 4, stage attempts 4, hand-outs 99
late 0 0 0 1
twice 0 0 0
----
0 take: task 0.0.0.0, epoch 0
0 post 0.0.0.0 map at 0@0: shelved
told 0
0 take: task 0.0.1.0, epoch 0
1 take: wait for 0.0.1.0
0 post 0.0.1.0 map at 0@0: registered
1 take: wait for 0.0.0.0
0 release 2: not enabled
0 release 0: registered
0 release 0: not enabled
0 release 1: ignored
told 3
1 take: task 1.0.0.0, epoch 0, from 0@0 0@0
==== a second copy of a report that is told at once is ignored
counts: task failures 4, stage attempts 4, hand-outs 99
twice 0 0 0
----
0 take: task 0.0.0.0, epoch 0
0 post 0.0.0.0 map at 0@0: registered
0 release 0: ignored
told 2
==== four reports come late at once, in whatever order they are released
counts: task failures 4, stage attempts 4, hand-outs 99
late 0 0 0 9
twice 0 0 0
late 0 1 0 9
twice 0 1 0
----
0 take: task 0.0.0.0, epoch 0
0 post 0.0.0.0 map at 0@0: shelved
1 take: task 0.0.1.0, epoch 0
1 post 0.0.1.0 map at 1@0: shelved
told 0
0 release 4: not enabled
0 release 3: registered
0 release 2: ignored
0 release 0: registered
0 release 1: ignored
told 4
0 take: task 1.0.0.0, epoch 0, from 0@0 1@0
==== a lost executor's output is made again, and its late report is of no running attempt
counts: task failures 4, stage attempts 4, hand-outs 99
late 0 0 0 1
lose 0 0 1
----
0 take: task 0.0.0.0, epoch 0
0 post 0.0.0.0 map at 0@0: shelved
0 take: task 0.0.1.0, epoch 0
0 lost 0: not enabled
0 post 0.0.1.0 map at 0@0: registered
0 lost 1: not enabled
0 lost 0: told
0 lost 0: not enabled
0 take: lost
1 take: task 0.0.0.1, epoch 1
0 release 0: ignored
told 2
1 post 0.0.0.1 map at 1@0: registered
1 take: task 0.0.1.1, epoch 1
1 post 0.0.1.1 map at 1@0: registered
1 take: task 1.0.0.0, epoch 1, from 1@0 1@0
==== a job ends with its last executor
counts: task failures 4, stage attempts 4, hand-outs 99
lose 0 0 0
lose 1 0 0
----
0 take: task 0.0.0.0, epoch 0
0 lost 1: told
0 lost 0: aborted: no executor
0 lost 0: not enabled
0 take: ended
0 post 0.0.0.0 map at 0@0: ignored
0 release 0: ignored
told 0
==== who asks behind a leave is stopped by the first that left
results: task failures 4, stage attempts 4, hand-outs 99
----
0 take: task 0.0.0.0, epoch 0
1 leave 1: left
0 take: stopped by 1
1 take: stopped by 1
0 post 0.0.0.0 result: finished
0 leave 0: left
1 take: stopped by 1
1 leave 1: left
0 take: stopped by 1
told 1
==== a leave behind the end of the job is ignored
results: task failures 1, stage attempts 4, hand-outs 99
----
0 take: task 0.0.0.0, epoch 0
0 post 0.0.0.0 failed: raised DivideByZero: aborted: task limit of 0.0 partition 0
0 leave 0: ignored
1 take: ended
told 1
==== an attempt that is slow by more than one and a half medians gets a copy, which counts alone
four results: task failures 4, stage attempts 4, hand-outs 99, speculation
----
0 tick 0: ticked
0 take: task 0.0.0.0, epoch 0
0 tick 100: ticked
0 post 0.0.0.0 result: finished
0 take: task 0.0.1.0, epoch 0
0 tick 200: ticked
0 post 0.0.1.0 result: finished
0 take: task 0.0.2.0, epoch 0
0 tick 300: ticked
0 post 0.0.2.0 result: finished
0 take: task 0.0.3.0, epoch 0
1 tick 450: ticked
1 take: wait for 0.0.3.0
1 tick 451: ticked
1 take: task 0.0.3.1, epoch 0
1 post 0.0.3.1 result: finished
0 post 0.0.3.0 result: ignored
1 tick 500: ignored
told 4
==== a slow attempt gets no copy on its own executor, and no third one
four results: task failures 4, stage attempts 4, hand-outs 99, speculation
----
0 take: task 0.0.0.0, epoch 0
0 post 0.0.0.0 result: finished
0 take: task 0.0.1.0, epoch 0
0 post 0.0.1.0 result: finished
0 take: task 0.0.2.0, epoch 0
0 post 0.0.2.0 result: finished
0 take: task 0.0.3.0, epoch 0
1 tick 101: ticked
0 take: busy with 0.0.3.0
1 tick 50: ticked
1 take: task 0.0.3.1, epoch 0
1 post 0.0.3.1 failed: planned: again
1 take: task 0.0.3.2, epoch 0
1 take: busy with 0.0.3.2
0 post 0.0.3.0 result: finished
1 post 0.0.3.2 result: ignored
told 5
==== without speculation no attempt is copied
four results: task failures 4, stage attempts 4, hand-outs 99
----
0 take: task 0.0.0.0, epoch 0
0 post 0.0.0.0 result: finished
0 take: task 0.0.1.0, epoch 0
0 post 0.0.1.0 result: finished
0 take: task 0.0.2.0, epoch 0
0 post 0.0.2.0 result: finished
0 take: task 0.0.3.0, epoch 0
1 tick 100000: ticked
1 take: wait for 0.0.3.0
told 3
"#;

#[test]
fn faults_are_survived_as_their_transcripts_say(rt: HostRuntime) {
    for case in FAULTS.split("==== ") {
        if !case.is_empty() {
            assert_job(&rt, case);
        }
    }
}
