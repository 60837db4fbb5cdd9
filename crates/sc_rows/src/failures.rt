//! Tasks that fail, by the fault plan or by a raise, and reports that come late or twice: how many
//! failures a run bears, and what its history shows of them.
#![tactic(auto)]

use crate::histories::assert_case;

const FAILURES: &str = r#"==== three planned failures are survived
collect c
-- words
fail 0 0 0
fail 0 0 1
fail 0 0 2
-- end
(b,2)
(a,1)
-- history
3 | failed: planned: again
4 | take: task 0.0.0.
7 | take: task
==== four planned failures abort
collect c
-- words
fail 0 0 0
fail 0 0 1
fail 0 0 2
fail 0 0 3
-- end
task limit: stage 0 attempt 0 partition 0
-- history
1 | post 0.0.0.0 failed: planned: again
1 | post 0.0.0.1 failed: planned: again
1 | post 0.0.0.2 failed: planned: again
1 | post 0.0.0.3 failed: planned: aborted: task limit of 0.0 partition 0
4 | failed: planned
0 | take: task 1.
==== failures are counted by partition, and three of each are fewer than four
collect c
-- words --task-failures=4
fail 0 0 0
fail 0 0 1
fail 0 0 2
fail 0 1 0
fail 0 1 1
fail 0 1 2
fail 1 1 0
-- end
(b,2)
(a,1)
-- history
7 | failed: planned
==== numbers that no attempt has fail nothing
collect c
-- words --task-failures=1
fail 0 0 1
fail 2 0 0
fail 0 2 0
fail 1 0 1
-- end
(b,2)
(a,1)
-- history
0 | failed: planned
==== a failure of a result task aborts where one is allowed
collect c
-- words --task-failures=1
fail 1 1 0
-- end
task limit: stage 1 attempt 0 partition 1
-- history
1 | failed: planned
==== a failure of a result task is survived where two are allowed
collect c
-- words --task-failures=2
fail 1 1 0
-- end
(b,2)
(a,1)
-- history
1 | failed: planned
==== the second failure of a partition aborts where two are allowed
collect c
-- words --task-failures=2
fail 0 1 0
fail 0 1 1
-- end
task limit: stage 0 attempt 0 partition 1
-- history
2 | failed: planned
==== the second failure of a partition is survived where three are allowed
collect c
-- words --task-failures=3
fail 0 1 0
fail 0 1 1
-- end
(b,2)
(a,1)
-- history
2 | failed: planned
==== five failures of a partition are survived where six are allowed
collect c
-- words --task-failures=6
fail 0 0 0
fail 0 0 1
fail 0 0 2
fail 0 0 3
fail 0 0 4
-- end
(b,2)
(a,1)
-- history
5 | failed: planned: again
6 | take: task 0.0.0.
==== one executor does what failed again
collect c
-- words --executors=1
fail 0 0 0
fail 0 1 0
-- end
(b,2)
(a,1)
-- history
2 | failed: planned
==== a plan fails attempts of each attempt of a stage
collect c
-- words --executors=1
fail 0 0 0
drop 0 3
-- end
(b,2)
(a,1)
-- history
1 | post 0.0.0.0 failed: planned: again
1 | post 0.1.0.0 failed: planned: again
2 | failed: planned
1 | failed: gone 0@0 found 1: resubmitted
==== four raises abort
l = parallelize 2 1 0
m = map l (/ 10 x)
collect m
-- words
-- end
task limit: stage 0 attempt 0 partition 1
-- history
4 | failed: raised DivideByZero
0 | failed: planned
==== the first raise of a partition's stream is told, and no later one
l = parallelize 1 1 0
m = map l (/ 10 x)
n = map m (nth (list 1) x)
collect n
-- words
-- end
task limit: stage 0 attempt 0 partition 0
-- history
4 | failed: raised OutOfRange
4 | failed
==== one raise aborts where one failure is allowed
l = parallelize 2 1 0
m = map l (/ 10 x)
collect m
-- words --task-failures=1
-- end
task limit: stage 0 attempt 0 partition 1
-- history
1 | failed: raised DivideByZero
0 | failed: planned
==== raises and planned failures count alike
l = parallelize 2 1 0
m = map l (/ 10 x)
collect m
-- words
fail 0 1 0
fail 0 1 2
-- end
task limit: stage 0 attempt 0 partition 1
-- history
2 | failed: raised DivideByZero
2 | failed: planned
==== a raise behind a planned failure is the second of two
l = parallelize 2 1 0
m = map l (/ 10 x)
collect m
-- words --task-failures=2
fail 0 1 0
-- end
task limit: stage 0 attempt 0 partition 1
-- history
1 | failed: raised DivideByZero
1 | failed: planned
==== a raise behind a shuffle is told with its stage: the key 0 lies in the first of two buckets
l = parallelize 2 1 0
p = map l (pair x x)
g = groupByKey p 2
m = map g (/ 10 (fst x))
collect m
-- words
-- end
task limit: stage 1 attempt 0 partition 0
-- history
4 | failed: raised DivideByZero
4 | failed
"#;

const LATE: &str = r#"==== a success that comes late and twice counts once
count c
-- words
late 1 0 0 3
twice 1 0 0
-- end
2
-- history
1 | post 1.0.0.0 result: shelved
1 | shelved
2 | : finished
4 | take: task
==== a second copy is told at once, and a late report when nothing else is left to do
count c
-- words --executors=1
twice 1 0 0
late 1 1 0 3
-- end
2
-- history
1 | post 1.0.0.0 result: finished
1 | release 0: ignored
1 | post 1.0.1.0 result: shelved
1 | release 1: finished
4 | take: task
==== all reports of a run may come late
collect c
-- words --executors=1 or --executors=2 or --executors=5
late 0 0 0 9
late 0 1 0 9
late 1 0 0 9
late 1 1 0 9
-- end
(b,2)
(a,1)
-- history
4 | shelved
4 | release
2 | : registered
2 | : finished
4 | take: task
==== all reports may come twice, and the last one ends the job before its second copy is told
count c
-- words --executors=1
twice 0 0 0
twice 0 1 0
twice 1 0 0
twice 1 1 0
-- end
2
-- history
0 | shelved
3 | release
3 | : ignored
2 | : finished
==== late and doubled reports meet failures, wipes and losses
collect c
-- words --executors=2 or --executors=4
fail 0 0 0
late 0 0 0 2
twice 0 0 0
or
fail 1 1 0
twice 1 1 0
late 1 1 1 9
or
late 0 0 0 1
lose 0 0 1
or
late 0 1 0 2
twice 0 1 0
drop 0 1
or
late 1 0 0 5
drop 1 2
twice 1 0 0
or
late 0 0 0 9
late 0 1 0 9
lose 1 0 0
drop 0 1
-- end
(b,2)
(a,1)
-- history
2 | : finished
"#;

#[test]
fn failures_and_late_reports_are_survived_up_to_their_limit(rt: HostRuntime) {
    for table in [FAILURES, LATE] {
        for case in table.split("==== ") {
            if !case.is_empty() {
                assert_case(&rt, case);
            }
        }
    }
}
