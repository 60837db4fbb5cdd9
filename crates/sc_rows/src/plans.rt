//! What a fault plan is asked: attempts, wipes, evictions and losses.
//!
//! A case of the table is a line `====` with what it claims, a line with how many executors there
//! are, a plan, a line `----`, and what the plan is asked, a line each, with its answer. Of orders
//! these are the wipes of an executor by their numbers, as letters, and behind a stroke its
//! evictions; of what is due once so many reports were told, how many wipes and how many evictions.
//! Of a plan that has a fault its line and kind are told instead.
#![tactic(auto)]

use crate::works::{at, halves, numbers_of};
use sc_ids::{AttemptId, ExecId};
use sc_plan::{OrderKind, Plan, PlanError, parse_plan};
use sc_value::Octets;
use std::process::Abort;

const PLANS: &str = "\
==== an attempt is told by stage, partition and nth, whatever the attempt of its stage
2 executors
fail 0 0 0
fail 0 0 1
fail 0 0 2
late 1 0 0 3
twice 1 0 0
late 1 1 0 0
twice 2 1 0
fail 3 0 0
late 3 0 0 1000000
twice 3 0 0
fail 1000000 1000000 1000000
fail 5 6 7
----
attempt 0.0.0.0: fails
attempt 0.0.0.1: fails
attempt 0.0.0.2: fails
attempt 0.0.0.3:
attempt 0.1.0.0: fails
attempt 0.18446744073709551615.0.2: fails
attempt 0.0.1.0:
attempt 1.0.0.0: late by 3 twice
attempt 1.2.0.0: late by 3 twice
attempt 1.0.0.1:
attempt 1.0.1.0: late by 0
attempt 2.0.1.0: twice
attempt 3.0.0.0: fails late by 1000000 twice
attempt 1000000.0.1000000.1000000: fails
attempt 1000000.0.1000000.1000001:
attempt 5.0.6.7: fails
attempt 7.0.6.5:
attempt 6.0.5.7:
attempt 5.0.7.6:
attempt 4294967295.0.4294967295.4294967295:
attempt 0.0.4294967295.0:
attempt 0.0.0.4294967295:
lines: 12
==== orders are numbered by when they are due and then by line
2 executors
drop 0 1
----
orders 0: d|
orders 1: |
losses: 1
==== both executors are told lost at once
2 executors
lose 0 0 0
lose 1 0 0
----
orders 0: l|
orders 1: l|
losses: 4
==== a lost executor counts twice
2 executors
drop 0 1
lose 1 2 3
----
orders 0: d|
orders 1: l|
losses: 3
==== what is due first has the number 1, whatever its line
2 executors
lose 0 5 5
drop 0 1
----
orders 0: dl|
orders 1: |
==== of two that are due at once the first line has it
2 executors
drop 0 2
lose 0 2 9
----
orders 0: dl|
orders 1: |
==== and a loss too, where its line is the first
2 executors
lose 0 2 9
drop 0 2
----
orders 0: ld|
orders 1: |
==== each executor has numbers of its own
2 executors
drop 0 5
lose 0 2 9
drop 0 2
drop 1 0
----
orders 0: ldd|
orders 1: d|
==== ten comes behind nine
2 executors
drop 0 9
drop 0 10
lose 0 9 9
----
orders 0: dld|
orders 1: |
==== evictions are numbered apart from wipes
2 executors
evict 0 2
drop 0 1
evict 1 0
evict 0 1
----
orders 0: d|ee
orders 1: |e
==== an order is due once its reports were told
2 executors
drop 0 1
drop 0 3
drop 1 2
lose 1 2 7
lose 0 1000000 1000000
evict 0 3
evict 0 0
----
due 0 0: 0 1
due 0 1: 1 1
due 0 2: 1 1
due 0 3: 2 2
due 0 4: 2 2
due 0 999999: 2 2
due 0 1000000: 3 2
due 0 18446744073709551615: 3 2
due 1 1: 0 0
due 1 2: 2 0
due 1 4294967296: 2 0
due 2 4: 0 0
due 4294967295 4: 0 0
due 4294967295 18446744073709551615: 0 0
==== failures are no losses
2 executors
fail 0 0 0
fail 0 0 1
fail 0 0 2
----
losses: 0
==== nor are evictions
2 executors
drop 0 1
drop 0 3
drop 1 2
evict 0 1
----
losses: 3
==== only a lose line loses an executor
2 executors
drop 0 1
lose 1 2 3
evict 0 0
----
loss 0: never
loss 1: behind 3
loss 2: never
loss 4294967295: never
==== an executor may be lost before the first report, or behind a million
2 executors
lose 1 0 1000000
lose 0 0 0
----
loss 0: behind 0
loss 1: behind 1000000
==== a plan without a line says nothing
2 executors
----
lines: 0
attempt 0.0.0.0:
orders 0: |
due 0 0: 0 0
loss 0: never
==== nor does one of comments and empty lines
2 executors
# nothing

----
lines: 0
attempt 0.0.0.0:
orders 0: |
due 0 0: 0 0
loss 0: never
==== a plan has as many lines as say something
2 executors
fail 0 0 1000000
----
lines: 1
==== a line may have blanks and tabs before, between and behind its words
2 executors
\t drop\t 0 \t1\u{20}
----
lines: 1
==== comments and empty lines aren't counted
2 executors

# more
drop 0 1
----
lines: 1
==== three lines are three
2 executors
drop 0 1
drop 0 2
drop 1 1
----
lines: 3
==== whatever they order
2 executors
drop 0 1
lose 0 1 1
evict 0 1
----
lines: 3
==== or say of attempts
2 executors
fail 1 0 0
fail 0 1 0
fail 0 0 1
late 0 0 1 0
twice 0 0 1
----
lines: 5
==== a plan for no executor can name none, though the words of a run give it one
0 executors
drop 0 0
----
line 1: Limit
";

/// What a plan says of an attempt, in words.
fn said<R: Abort + AllocGlobal>(rt: &R, plan: &Plan, attempt: &AttemptId) -> String {
    let mut text = String::new(rt.alloc());
    if plan.fails(attempt) {
        text.push_str(" fails").expect(rt, "memory");
    }
    if let Some(count) = plan.late(attempt) {
        write!(text, " late by {count}").expect(rt, "memory");
    }
    if plan.twice(attempt) {
        text.push_str(" twice").expect(rt, "memory");
    }
    text
}

/// The wipes of an executor by their numbers, as letters, and its evictions behind a stroke.
fn orders<R: Abort + AllocGlobal>(rt: &R, plan: &Plan, exec: ExecId) -> String {
    let mut text = String::new(rt.alloc());
    text.push(' ').expect(rt, "memory");
    let wipes = plan.wipes(exec) as u32;
    for i in 0..wipes {
        let order = plan.wipe_order(exec, i + 1);
        assert_eq!(rt; (order.exec, order.number), (exec, i + 1));
        let letter = match order.kind {
            OrderKind::Drop => 'd',
            OrderKind::Lose => 'l',
            OrderKind::Evict => 'e',
        };
        text.push(letter).expect(rt, "memory");
    }
    text.push('|').expect(rt, "memory");
    let evicts = plan.evicts(exec) as u32;
    for i in 0..evicts {
        let order = plan.evict_order(exec, i + 1);
        assert_eq!(rt; (order.exec, order.number), (exec, i + 1));
        assert!(rt; order.kind == OrderKind::Evict);
        text.push('e').expect(rt, "memory");
    }
    text
}

/// What a plan answers to these words.
fn answer_of<R: Abort + AllocGlobal>(rt: &R, plan: &Plan, words: &str) -> String {
    let alloc = rt.alloc();
    let numbers = numbers_of(rt, words);
    let exec = at(&numbers, 0);
    let second = numbers.get(1).copied().unwrap_or(0);
    if words.starts_with("attempt ") {
        let attempt = AttemptId {
            stage: exec,
            stage_attempt: second,
            partition: at(&numbers, 2),
            nth: at(&numbers, 3),
        };
        return said(rt, plan, &attempt);
    }
    if words.starts_with("orders ") {
        return orders(rt, plan, exec);
    }
    let answer = if words.starts_with("due ") {
        let (wipes, evicts) = (plan.due_wipes(exec, second), plan.due_evicts(exec, second));
        format!(in alloc; " {wipes} {evicts}")
    } else if words.starts_with("losses") {
        let losses = plan.planned_losses();
        format!(in alloc; " {losses}")
    } else if words.starts_with("lines") {
        let lines = plan.lines().len();
        format!(in alloc; " {lines}")
    } else if let Some(told) = plan.loss(exec) {
        format!(in alloc; " behind {told}")
    } else {
        String::from_str(alloc, " never")
    };
    answer.expect(rt, "memory")
}

/// Sees that a plan answers as a case says.
fn assert_plan<R: Abort + AllocGlobal>(rt: &R, case: &str) {
    let (label, rest) = halves(case, "\n");
    let (head, rest) = halves(rest, "\n");
    let (plan, want) = halves(rest, "----\n");
    let executors = at(&numbers_of(rt, head), 0);
    let bytes = Octets::copy_of(rt.alloc(), plan.as_bytes()).expect(rt, "memory");
    let mut seen = String::new(rt.alloc());
    match parse_plan(rt.alloc(), &bytes, executors) {
        Ok(plan) => {
            for line in want.lines() {
                let (words, _) = halves(line, ":");
                let answer = answer_of(rt, &plan, words);
                writeln!(seen, "{words}:{answer}").expect(rt, "memory");
            }
        }
        Err(PlanError::Fault(fault)) => {
            let (line, kind) = (fault.line, fault.kind);
            writeln!(seen, "line {line}: {kind:?}").expect(rt, "memory");
        }
        Err(PlanError::OutOfMemory) => panic!(rt; "memory"),
    }
    assert_eq!(rt; seen.as_str(), want, "{label}");
}

#[test]
fn plans_answer_as_their_lines_say(rt: HostRuntime) {
    for case in PLANS.split("==== ") {
        if !case.is_empty() {
            assert_plan(&rt, case);
        }
    }
}
