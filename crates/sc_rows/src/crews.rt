//! Runs by more executors, or by fewer, under the same plans: the texts and statuses are the same.
//!
//! Which executor does what differs from run to run, so a history is asked only for what is so
//! whichever does it.
#![tactic(auto)]

use crate::histories::assert_case;

const CREWS: &str = r#"==== a word count has four tasks, however many do them
collect c
-- words --executors=1 or --executors=2 or --executors=4 or --executors=64
-- end
(b,2)
(a,1)
-- history
4 | take: task
2 | : registered
2 | : finished
==== a partition fails as often as it may, and no more
collect c
-- words --executors=1 or --executors=4 or --executors=64
fail 0 0 0
fail 0 0 1
fail 0 0 2
-- end
(b,2)
(a,1)
-- history
3 | failed: planned: again
7 | take: task
==== a partition fails once more than it may
collect c
-- words --executors=1 or --executors=4 or --executors=64
fail 0 0 0
fail 0 0 1
fail 0 0 2
fail 0 0 3
-- end
task limit: stage 0 attempt 0 partition 0
-- history
3 | failed: planned: again
1 | failed: planned: aborted: task limit of 0.0 partition 0
0 | take: task 1.
==== raises reach their limit
l = parallelize 4 1 2 0 4
m = map l (/ 10 x)
count l
collect m
-- words --executors=1 or --executors=4 or --executors=64
-- end
4
task limit: stage 1 attempt 0 partition 2
-- history
0 4 | failed: raised DivideByZero
==== stores are wiped before and between the stages
collect c
-- words --executors=1 or --executors=4 or --executors=64
drop 0 1
or
drop 0 0
drop 0 3
or
drop 0 1
drop 0 2
drop 0 3
-- end
(b,2)
(a,1)
-- history
2 | : finished
==== executors are lost while others wait for what they do
collect c
-- words --stage-attempts=16 --executors=4 or --stage-attempts=16 --executors=64
lose 0 0 0
lose 1 0 0
or
lose 0 1 1
lose 3 2 2
or
lose 1 0 2
lose 2 1 3
or
late 0 0 0 9
late 0 1 0 9
lose 0 0 0
-- end
(b,2)
(a,1)
-- history
2 | : finished
==== all executors but one are lost, with what their stores had
collect c
count c
-- words --stage-attempts=16 --executors=4
lose 0 4 4
lose 1 4 4
lose 2 4 4
or
lose 0 0 0
lose 1 1 2
lose 3 4 5
-- end
(b,2)
(a,1)
2
-- history
2 2 | : finished
==== all four executors are lost
collect c
-- words --executors=4
lose 0 0 0
lose 1 0 0
lose 2 0 0
lose 3 0 0
-- end
no executor
-- history
3 | : told
1 | : aborted: no executor
0 | take: task
==== reports come late and twice
count c
-- words --executors=4 or --executors=64
late 1 0 0 3
twice 1 0 0
-- end
2
-- history
1 | post 1.0.0.0 result: shelved
2 | : finished
4 | take: task
==== reports all come late
collect c
-- words --executors=1 or --executors=4 or --executors=64
late 0 0 0 9
late 0 1 0 9
late 1 0 0 9
late 1 1 0 9
-- end
(b,2)
(a,1)
-- history
4 | shelved
4 | release
2 | : registered
2 | : finished
4 | take: task
==== one block is kept by each, and blocks go
l = text "in.txt" 1
a = map l (concat x "a")
b = cache a
d = map l (concat x "b")
e = cache d
collect b
collect e
collect b
-- words --cache=1 --executors=1 or --cache=1 --executors=4 or --cache=1 --executors=64
or
evict 0 1
or
drop 0 1
evict 0 2
-- end
b aa
ba
b ab
bb
b aa
ba
-- history
1 1 1 | take: task
1 1 1 | : finished
==== a sort runs jobs one behind the other
l = parallelize 3 9 2 1 3 2
p = map l (pair x 0)
s = sortByKey p 3
collect s
count s
-- words --executors=1 or --executors=4 or --executors=64
or
fail 0 0 0
twice 1 0 0
or
drop 0 2
or
late 0 0 0 1
late 0 1 0 1
-- end
(1,0)
(2,0)
(2,0)
(3,0)
(9,0)
5
-- history
3 3 3 | : finished
"#;

#[test]
fn texts_are_the_same_however_many_executors_do_the_work(rt: HostRuntime) {
    for case in CREWS.split("==== ") {
        if !case.is_empty() {
            assert_case(&rt, case);
        }
    }
}
