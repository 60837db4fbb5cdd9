//! Stores that are wiped and executors that are told lost while a run goes on: outputs are made
//! again and the text stays the same, up to a limit.
#![tactic(auto)]

use crate::histories::assert_case;

const WIPES: &str =
    r#"==== one wipe is found by a fetch of the second stage, and all of that store is made again
collect c
-- words --executors=1
drop 0 1
-- end
(b,2)
(a,1)
-- history
1 | post 1.0.0.0 failed: gone 0@0 found 1: resubmitted
1 | failed
4 | take: task 0.
1 | take: task 0.1.0.0, epoch 1
2 | take: task 1.1.
7 | take: task
==== few wipes leave the text as it was
collect c
-- words --executors=2 or --executors=3 or --executors=8
drop 0 0
or
drop 1 1
or
drop 1 3
or
drop 0 4
or
drop 0 1
drop 1 1
or
drop 0 2
drop 1 2
or
drop 0 1
drop 0 2
drop 0 3
or
drop 0 2
drop 1 3
drop 0 4
or
lose 0 1 1
or
lose 0 0 2
or
lose 1 2 5
drop 0 3
or
drop 0 1
lose 1 2 3
-- end
(b,2)
(a,1)
-- history
2 | : finished
==== one wipe is too many where one attempt is allowed
collect c
-- words --executors=1 --stage-attempts=1
drop 0 1
-- end
stage limit: stage 1
-- history
1 | failed: gone 0@0 found 1: aborted: stage limit of 1
1 | failed
0 | take: task 0.1.
==== one failed attempt of a stage is survived where two are allowed
collect c
-- words --executors=1 --stage-attempts=2
drop 0 1
-- end
(b,2)
(a,1)
-- history
1 | failed: gone
==== a store is wiped twice before the second stage reads it, and one attempt is allowed
collect c
-- words --executors=1 --stage-attempts=1
drop 0 1
drop 0 2
-- end
stage limit: stage 1
-- history
1 | failed: gone 0@0 found 2: aborted
1 | failed
==== the second failed attempt of a stage is too many where two are allowed
collect c
-- words --executors=1 --stage-attempts=2
drop 0 1
drop 0 5
-- end
stage limit: stage 1
-- history
2 | failed: gone
==== a stage has its third attempt where three are allowed
collect c
-- words --executors=1 --stage-attempts=3
drop 0 1
drop 0 5
-- end
(b,2)
(a,1)
-- history
2 | failed: gone
==== a wipe between two actions is found by the second, which had skipped the map stage
collect c
count c
-- words --executors=1
drop 0 4
-- end
(b,2)
(a,1)
2
-- history
0 1 | failed: gone 0@0 found 1: resubmitted
2 2 | take: task 0.
2 0 | take: task 1.
0 3 | take: task 2.
==== inputs are read in the order of node and side: those of a, which are younger, before those of b
l = parallelize 2 1 2
p = map l (pair x x)
a = reduceByKey p 1 (+ a b)
b = reduceByKey p 1 (+ a b)
u = union a b
collect b
collect u
-- words --executors=1
drop 0 3
drop 0 5
-- end
(1,1)
(2,2)
(1,1)
(2,2)
(1,1)
(2,2)
-- history
0 1 | failed: gone 0@1 found 2: resubmitted
0 1 | failed
"#;

const LOSSES: &str = r#"==== a run ends where all executors are lost
collect c
-- words
lose 0 0 0
lose 1 0 0
-- end
no executor
-- history
1 | lost 0: told
1 | lost 1: aborted: no executor
0 | take: task
==== one executor is all that a run has, whenever it is lost
collect c
-- words --executors=1
lose 0 0 0
or
lose 0 1 3
-- end
no executor
-- history
1 | lost 0: aborted: no executor
==== the last of four reports ends the job before a loss behind it can be told
collect c
-- words --executors=1
lose 0 4 4
-- end
(b,2)
(a,1)
-- history
0 | lost 0
==== one executor of two is enough
collect c
-- words --executors=2
lose 1 0 0
-- end
(b,2)
(a,1)
-- history
1 | lost 1: told
0 | 1 take: task
==== one executor of three is enough
collect c
-- words --executors=3
lose 0 0 0
lose 2 0 0
-- end
(b,2)
(a,1)
-- history
1 | lost 0: told
1 | lost 2: told
4 | 1 take: task
4 | take: task
==== none of three executors is too few
collect c
-- words --executors=3
lose 0 0 0
lose 1 0 0
lose 2 0 0
-- end
no executor
-- history
1 | lost 0: told
1 | lost 1: told
1 | lost 2: aborted: no executor
==== an executor is lost once for all jobs, and does no more tasks
collect c
count c
count c
-- words
lose 0 4 4
-- end
(b,2)
(a,1)
2
2
-- history
0 1 0 | lost 0: told
* 0 0 | 0 take: task
* 0 0 | map at 0@
==== an abort in the second job leaves the history of the first
collect c
count c
-- words --executors=1 --task-failures=1
fail 2 1 0
-- end
(b,2)
(a,1)
task limit: stage 2 attempt 0 partition 1
-- history
2 1 | : finished
0 1 | failed: planned: aborted: task limit of 2.0 partition 1
==== both executors are lost between two jobs
collect c
count c
-- words
lose 0 4 4
lose 1 4 4
-- end
(b,2)
(a,1)
no executor
-- history
0 1 | lost 0: told
0 1 | lost 1: aborted: no executor
"#;

#[test]
fn wipes_and_losses_are_survived_up_to_their_limit(rt: HostRuntime) {
    for table in [WIPES, LOSSES] {
        for case in table.split("==== ") {
            if !case.is_empty() {
                assert_case(&rt, case);
            }
        }
    }
}
