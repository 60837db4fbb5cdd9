//! Worlds step by step: what each step is answered, and which results are there in the end.
//!
//! A case has one more word, a plan, the steps with their answers, and the results.
#![tactic(auto)]

use crate::works::INPUT;
use crate::world_lines::{WORD_COUNT, assert_world_of};
use crate::world_saves::{COPIES, SAVE, SAVE_TWO, SAVES};

const WORLDS: &str =
    r#"==== an output that was wiped is made again, and both results by another attempt
--executors=2
drop 0 1
----
wipe 0 by order 1: not enabled
take 0: driver take: task 0.0.0.0, epoch 0
put 0: not enabled
compute 0: done
post 0: not enabled
put 0: at 0@0
post 0: driver post 0.0.0.0 map at 0@0: registered
take 1: driver take: task 0.0.1.0, epoch 0
compute 1: done
put 1: at 1@0
post 1: driver post 0.0.1.0 map at 1@0: registered
take 1: driver take: task 1.0.0.0, epoch 0, from 0@0 1@0
compute 1: not enabled
wipe 0 by order 2: not enabled
wipe 0 by order 1: Wiped { generation: 1 }
read 1: done
read 1: not enabled
seen 0: 0
post 1: driver post 1.0.0.0 failed: gone 0@0 found 1: resubmitted
seen 0: 1
take 1: driver take: task 0.1.0.0, epoch 1
compute 1: done
put 1: at 1@0
post 1: driver post 0.1.0.0 map at 1@0: registered
take 0: driver take: task 1.1.0.0, epoch 1, from 1@0 1@0
read 0: done
read 0: done
compute 0: done
post 0: driver post 1.1.0.0 result: finished
take 1: driver take: task 1.1.1.0, epoch 1, from 1@0 1@0
read 1: done
read 1: done
compute 1: done
post 1: driver post 1.1.1.0 result: finished
take 0: driver take: ended
----
(b,2)
(a,1)
==== one failed attempt of a stage is too many where one is allowed
--stage-attempts=1
drop 0 1
----
wipe 0 by order 1: not enabled
take 0: driver take: task 0.0.0.0, epoch 0
put 0: not enabled
compute 0: done
post 0: not enabled
put 0: at 0@0
post 0: driver post 0.0.0.0 map at 0@0: registered
take 1: driver take: task 0.0.1.0, epoch 0
compute 1: done
put 1: at 1@0
post 1: driver post 0.0.1.0 map at 1@0: registered
take 1: driver take: task 1.0.0.0, epoch 0, from 0@0 1@0
compute 1: not enabled
wipe 0 by order 2: not enabled
wipe 0 by order 1: Wiped { generation: 1 }
read 1: done
read 1: not enabled
seen 0: 0
post 1: driver post 1.0.0.0 failed: gone 0@0 found 1: aborted: stage limit of 1
wipe 0 by order 1: not enabled
take 0: driver take: ended
----
==== an executor that is told lost while its attempt is under way reports in vain
--executors=2
lose 0 0 1
----
lose 0: not enabled
take 0: driver take: task 0.0.0.0, epoch 0
take 1: driver take: task 0.0.1.0, epoch 0
compute 1: done
put 1: at 1@0
post 1: driver post 0.0.1.0 map at 1@0: registered
lose 1: not enabled
compute 0: done
put 0: at 0@0
lose 0: driver lost 0: told
lose 0: not enabled
post 0: driver post 0.0.0.0 map at 0@0: ignored
take 0: driver take: lost
take 1: driver take: task 0.0.0.1, epoch 1
----
"#;

#[test]
fn worlds_go_as_their_steps_say(rt: HostRuntime) {
    let tables = [
        (WORD_COUNT, INPUT, WORLDS),
        (SAVE, "a\n", SAVES),
        (SAVE_TWO, "a\nb\n", COPIES),
    ];
    for (script, input, table) in tables {
        for case in table.split("==== ") {
            if !case.is_empty() {
                assert_world_of(&rt, script, input, case);
            }
        }
    }
}
