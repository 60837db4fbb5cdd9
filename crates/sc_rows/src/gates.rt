//! Gates that keep an attempt back, and what the others do meanwhile.
#![tactic(auto)]

use crate::given::{Outside, STILL, Seen, seen_of};
use crate::histories::{assert_history, has_lines, history_of};
use crate::works::{source_of, words_of};
use sc_core::JobHistory;
use sc_exec::Gate;
use sc_ids::{AttemptId, ExecId};
use sc_logs::{ExecLog, agree};
use std::alloc::Global;
use std::process::Abort;
use std::sync::{Mutex, Wait};
use std::thread;

/// How often an attempt that is kept back looks whether it may go, at most: where no threads can be
/// had nobody else enters meanwhile.
const TURNS: u32 = 10_000_000;

/// The first attempt of the first task.
const FIRST: AttemptId = AttemptId {
    stage: 0,
    stage_attempt: 0,
    partition: 0,
    nth: 0,
};

/// Four numbers in four partitions.
const FOUR: &str = "l = parallelize 4 1 2 3 4\ncollect l\n";

/// Which attempts a gate keeps back, and until how many have entered.
#[derive(Clone, Copy, Debug, PartialEq, Eq)]
pub enum Kept {
    /// The first that enters, until so many have.
    First,
    /// The first of the first task, until so many have entered.
    FirstTask,
    /// The first so many, two by two: each until the other one has entered too.
    Pairs,
}

/// A gate that keeps attempts back until so many have entered, themselves among them, for so many
/// turns at most, and writes down who entered.
#[derive(Drop)]
pub struct Keeper {
    kept: Kept,
    until: usize,
    entered: Mutex<Vec<(ExecId, AttemptId)>>,
}

impl Keeper {
    /// One that nobody has entered.
    pub fn new(alloc: Global, kept: Kept, until: usize) -> Keeper {
        Keeper {
            kept,
            until,
            entered: Mutex::new(Vec::new(alloc)),
        }
    }

    /// Writes down that an executor enters with an attempt, and tells how many did before.
    fn note<R: Wait>(&self, rt: &R, exec: ExecId, attempt: AttemptId) -> usize {
        let mut entered = self.entered.lock(rt);
        let before = entered.len();
        let _ = entered.push((exec, attempt));
        before
    }

    /// How many are to have entered before an attempt goes on, before which so many entered.
    fn awaited(&self, before: usize, attempt: AttemptId) -> usize {
        match self.kept {
            Kept::First if before == 0 => self.until,
            Kept::FirstTask if attempt == FIRST => self.until,
            Kept::Pairs if before < self.until => (before | 1).saturating_add(1),
            Kept::First | Kept::FirstTask | Kept::Pairs => 0,
        }
    }
}

impl Gate for Keeper {
    fn enter<R: Wait>(&self, rt: &R, exec: ExecId, attempt: AttemptId) {
        let before = self.note(rt, exec, attempt);
        let awaited = self.awaited(before, attempt);
        for _ in 0..TURNS {
            let many = self.entered.lock(rt).len();
            if many >= awaited {
                return;
            }
            thread::yield_now();
        }
    }
}

/// The hand-outs of the attempts that an executor entered with, in order, as a history has them.
fn entered_by<R: Abort + AllocGlobal>(
    rt: &R,
    entered: &[(ExecId, AttemptId)],
    exec: ExecId,
) -> String {
    let mut out = String::new(rt.alloc());
    for (by, attempt) in entered {
        if *by == exec {
            writeln!(out, "{exec} take: task {attempt}, ").expect(rt, "memory");
        }
    }
    out
}

/// Sees that logs agree with the history of their job, and not where an entry of one is exchanged
/// with one of the other.
fn assert_exchanged<R: Abort>(rt: &R, history: &JobHistory, logs: &mut Vec<ExecLog>) {
    assert!(rt; agree(history, logs.as_slice()));
    assert_eq!(rt; logs.len(), 2);
    let one = logs[0].entries.pop().expect(rt, "an entry");
    let other = logs[1].entries.pop().expect(rt, "an entry");
    logs[0].entries.push(other).expect(rt, "memory");
    logs[1].entries.push(one).expect(rt, "memory");
    assert!(rt; !agree(history, logs.as_slice()));
}

// Each executor was handed what it entered with: the first that entered one task, and the other
// one three.
#[test]
fn an_executor_that_is_kept_leaves_its_tasks_to_the_other(rt: HostRuntime) {
    let gate = Keeper::new(rt.alloc(), Kept::First, 4);
    let outside = Outside::of(&rt, source_of(&rt, FOUR, "", ""));
    let seen = seen_of(&rt, &words_of(&rt, ""), outside, &gate, STILL);
    let Seen {
        all,
        histories,
        mut logs,
        ..
    } = seen;
    assert_eq!(&rt; all.as_str(), "1\n2\n3\n4\n");
    assert_history(&rt, &histories, "4 | take: task\n", "a gate");
    let Keeper { entered, .. } = gate;
    let entered = entered.into_inner();
    assert_eq!(&rt; entered.len(), 4);
    let history = history_of(&rt, &histories);
    for exec in 0..2 {
        let lines = entered_by(&rt, &entered, exec);
        let tasks = if exec == entered[0].0 { 1 } else { 3 };
        assert_eq!(&rt; lines.as_str().lines().count(), tasks);
        assert!(&rt; has_lines(history.as_str(), lines.as_str()), "{history}");
    }
    assert!(&rt; histories.len() == 1 && logs.len() == 1);
    assert_exchanged(&rt, &histories[0], &mut logs[0]);
}
