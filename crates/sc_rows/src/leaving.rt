//! Executors that leave a job early: what their calls at its desk are answered.
//!
//! A case of the table is a line `====` with what it claims, a line with more words of the run, a
//! line `----`, and the calls in order. Behind each stands what it is answered, how many entries
//! there are then, and the last of these.
#![tactic(auto)]

ghost use Rattle.std.specs.Prelude.{◌≡◌};

use crate::works::{INPUT, at, halves, numbers_of, work_of};
use crate::world_lines::{WORD_COUNT, desk_of};
use sc_desk::{Desk, Taken};
use sc_ids::Mark;
use sc_lineage::Work;
use sc_work::{Naming, SharedWork};
use std::marker::Brand;
use std::process::Abort;

const LEAVES: &str = r#"==== who left leaves no more, and the first that did stops all others
--executors=3
----
take 0: a task, entry 1 is 0 take: task 0.0.0.0, epoch 0
leave 1: true, entry 2 is 1 leave 1: left
leave 1: false, entry 2 is 1 leave 1: left
take 0: stopped, entry 3 is 0 take: stopped by 1
take 2: stopped, entry 4 is 2 take: stopped by 1
leave 2: true, entry 5 is 2 leave 2: left
take 0: stopped, entry 6 is 0 take: stopped by 1
leave 2: false, entry 6 is 0 take: stopped by 1
leave 1: false, entry 6 is 0 take: stopped by 1
==== all executors leave, one after the other
--executors=2
----
leave 1: true, entry 1 is 1 leave 1: left
leave 0: true, entry 2 is 0 leave 0: left
leave 0: false, entry 2 is 0 leave 0: left
leave 1: false, entry 2 is 0 leave 0: left
take 0: stopped, entry 3 is 0 take: stopped by 1
"#;

/// Makes the call of a line, and writes the line with its answer.
fn tell<W: Naming, R: Abort + AllocGlobal>(
    rt: &R,
    desk: &mut Desk<W>,
    line: &str,
    told: &mut String,
) {
    let (words, _) = halves(line, ": ");
    let exec = at(&numbers_of(rt, words), 0);
    let answer = if words.starts_with("leave ") {
        let executors = desk.work().get().limits().executors;
        assert!(rt; exec < executors, "no executor of the work");
        if desk.leave(exec) { "true" } else { "false" }
    } else {
        match desk.take(Mark::Exec(exec), exec).expect(rt, "memory") {
            Taken::Task(_) => "a task",
            Taken::Stopped { .. } => "stopped",
            _ => "another answer",
        }
    };
    let count = desk.entries().len();
    let last = desk.entries().last().expect(rt, "an entry");
    writeln!(told, "{words}: {answer}, entry {count} is {last}").expect(rt, "memory");
}

/// The lines as they are answered at the desk of the first action of a work, one after the other.
fn answers_of<W: Naming, R: Abort + AllocGlobal>(rt: &R, work: Work, lines: String) -> String
    requires { work ≡ W.work }
{
    let work = SharedWork::<W>::of(rt.alloc(), work).expect(rt, "memory");
    let mut desk = desk_of(rt, &work);
    let mut told = String::new(rt.alloc());
    for line in lines.as_str().lines() {
        tell(rt, &mut desk, line, &mut told);
    }
    told
}

#[test]
fn who_left_leaves_no_more(rt: HostRuntime) {
    for case in LEAVES.split("==== ") {
        if !case.is_empty() {
            let (label, rest) = halves(case, "\n");
            let (word, want) = halves(rest, "\n----\n");
            let work = work_of(&rt, WORD_COUNT, "", word, INPUT);
            let lines = String::from_str(rt.alloc(), want).expect(&rt, "memory");
            let seen = answers_of::<Brand, HostRuntime>(&rt, work, lines);
            assert_eq!(&rt; seen.as_str(), want, "{label}");
        }
    }
}
