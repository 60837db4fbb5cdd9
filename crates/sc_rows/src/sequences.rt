//! The jobs of a run: which there are, which stages they run, and how one begins behind another.
//!
//! The numbers are those of the tasks that were handed out, job by job.
#![tactic(auto)]

use crate::histories::assert_case;

const JOBS: &str = r#"==== each job tells its tasks and their reports
collect c
count c
-- words --executors=1
-- end
(b,2)
(a,1)
2
-- history
0 take: task 0.0.0.0, epoch 0
0 post 0.0.0.0 map at 0@0: registered
0 take: task 0.0.1.0, epoch 0
0 post 0.0.1.0 map at 0@0: registered
0 take: task 1.0.0.0, epoch 0, from 0@0 0@0
0 post 1.0.0.0 result: finished
0 take: task 1.0.1.0, epoch 0, from 0@0 0@0
0 post 1.0.1.0 result: finished
0 take: ended

0 take: task 2.0.0.0, epoch 0, from 0@0 0@0
0 post 2.0.0.0 result: finished
0 take: task 2.0.1.0, epoch 0, from 0@0 0@0
0 post 2.0.1.0 result: finished
0 take: ended
==== the time is entered before a task is asked for, where slow ones get copies
l = parallelize 2 1 2
collect l
-- words --executors=1 --speculation
-- end
1
2
-- history
0 tick 0: ticked
0 take: task 0.0.0.0, epoch 0
0 post 0.0.0.0 result: finished
0 tick 0: ticked
0 take: task 0.0.1.0, epoch 0
0 post 0.0.1.0 result: finished
0 tick 0: ignored
0 take: ended
==== the bounds of a sort are found once by a job
l = parallelize 2 9 2 1 3 2
p = map l (pair x 0)
s = sortByKey p 3
collect s
count s
-- words
-- end
(1,0)
(2,0)
(2,0)
(3,0)
(9,0)
5
-- history
2 5 3 | take: task
2 0 0 | take: task 0.
0 2 0 | take: task 1.
0 3 0 | take: task 2.
0 0 3 | take: task 3.
==== a sort of one key has two ranges
l = parallelize 1 7 7 7
p = map l (pair x 0)
s = sortByKey p 3
collect s
-- words
-- end
(7,0)
(7,0)
(7,0)
-- history
1 3 | take: task
==== a sort of what was sorted has bounds of its own
l = parallelize 2 9 2 1 3 2
p = map l (pair x 0)
s = sortByKey p 3
t = sortByKey s 2
collect t
-- words
-- end
(1,0)
(2,0)
(2,0)
(3,0)
(9,0)
-- history
2 5 5 | take: task
==== partitions without rows have tasks too
l = text "empty.txt" 2
collect l
count l
-- words
-- end
0
-- history
2 2 | take: task
==== a fault of the driver is none of its job
l = text "empty.txt" 2
count l
reduce l (concat a b)
count l
-- words
-- end
0
driver: action 1: EmptyCollection
-- history
2 2 | take: task
2 2 | : finished
==== a raise of the driver is none of its job
l = parallelize 2 1 0
reduce l (/ a b)
-- words
-- end
driver: action 0: DivideByZero
-- history
2 | : finished
==== no rows go through a shuffle by tasks
l = text "empty.txt" 2
w = flatMap l (words x)
p = map w (pair x 1)
c = reduceByKey p 2 (+ a b)
collect c
-- words
-- end
-- history
4 | take: task
==== a run without actions has no job
l = text "empty.txt" 2
-- words
-- end
-- history
==== a run that is refused has no job
collect z
-- words
-- end
script: line 6: UnknownName
-- history
==== a run whose input is no text has no job
l = text "no_text.txt" 2
collect l
-- words
-- end
not text: no_text.txt
-- history
"#;

const STAGES: &str = r#"==== a shuffle is skipped where rows lie as the operation asks
l = parallelize 2 1 2 3
p = map l (pair x x)
c = reduceByKey p 4 (+ a b)
d = reduceByKey c 4 (+ a b)
collect d
-- words
-- end
(1,1)
(2,2)
(3,3)
-- history
6 | take: task
2 | take: task 0.
4 | take: task 1.
==== a later job keeps the stages of an earlier one
l = parallelize 2 1 2 3
p = map l (pair x x)
c = reduceByKey p 4 (+ a b)
d = reduceByKey c 3 (+ a b)
collect c
collect d
count d
-- words
-- end
(1,1)
(2,2)
(3,3)
(3,3)
(1,1)
(2,2)
3
-- history
2 0 0 | take: task 0.
4 0 0 | take: task 1.
0 4 0 | take: task 2.
0 3 0 | take: task 3.
0 0 3 | take: task 4.
==== the left side of a join lies as it asks
l = parallelize 2 1 2 3
p = map l (pair x x)
c = reduceByKey p 4 (+ a b)
j = join c p 4
collect j
-- words
-- end
(1,(1,1))
(2,(2,2))
(3,(3,3))
-- history
2 | take: task 0.
2 | take: task 1.
4 | take: task 2.
==== both sides of a join are shuffled
l = parallelize 2 1 2 3
p = map l (pair x x)
c = reduceByKey p 4 (+ a b)
j = join c p 3
collect j
-- words
-- end
(3,(3,3))
(1,(1,1))
(2,(2,2))
-- history
2 | take: task 0.
4 | take: task 1.
2 | take: task 2.
3 | take: task 3.
==== one node on both sides of a join is shuffled twice
l = parallelize 2 1 2 3
p = map l (pair x x)
j = join p p 3
collect j
-- words
-- end
(3,(3,3))
(1,(1,1))
(2,(2,2))
-- history
2 | take: task 0.
2 | take: task 1.
3 | take: task 2.
==== a union has no shuffle of its own
l = parallelize 2 1 2 3
p = map l (pair x x)
c = reduceByKey p 4 (+ a b)
u = union c p
collect u
-- words
-- end
(1,1)
(2,2)
(3,3)
(1,1)
(2,2)
(3,3)
-- history
2 | take: task 0.
6 | take: task 1.
==== thirty thousand rows go through eleven nodes and six stages
l = parallelize 1 0 1 2
a = flatMap l (list x x x x x x x x x x)
b = flatMap a (list x x x x x x x x x x)
c = flatMap b (list x x x x x x x x x x)
d = flatMap c (list x x x x x x x x x x)
p = map d (pair x 1)
g = groupByKey p 3
n = map g (pair (fst x) (len (snd x)))
r = reduceByKey n 2 (+ a b)
s = repartition r 4
t = sortByKey s 2
collect t
-- words
-- end
(0,10000)
(1,10000)
(2,10000)
-- history
1 0 | take: task 0.
3 0 | take: task 1.
2 0 | take: task 2.
4 0 | take: task 3.
0 4 | take: task 4.
0 2 | take: task 5.
"#;

const CACHES: &str = r#"==== one block is kept, and each job computes what it lacks
l = text "in.txt" 1
a = map l (concat x "a")
b = cache a
d = map l (concat x "b")
e = cache d
collect b
collect e
collect b
-- words --executors=1 --cache=1
-- end
b aa
ba
b ab
bb
b aa
ba
-- history
1 1 1 | take: task
==== cached blocks that go are computed again
l = text "in.txt" 2
w = flatMap l (words x)
p = map w (pair x 1)
r = reduceByKey p 2 (+ a b)
c = cache r
v = mapValues c (* x 10)
d = cache v
collect c
collect d
count d
-- words --cache=1 or --cache=64
or
evict 0 0
evict 1 0
or
evict 0 3
evict 0 4
evict 1 5
or
evict 0 4
evict 1 6
evict 0 8
or
drop 0 4
or
evict 1 5
lose 1 6 6
-- end
(b,2)
(a,1)
(b,20)
(a,10)
2
-- history
2 2 2 | : finished
"#;

#[test]
fn each_job_has_its_tasks_and_its_stages(rt: HostRuntime) {
    for table in [JOBS, STAGES, CACHES] {
        for case in table.split("==== ") {
            if !case.is_empty() {
                assert_case(&rt, case);
            }
        }
    }
}
