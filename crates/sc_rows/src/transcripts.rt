//! Transcripts of jobs: each line is an event as a journal has it, with what it must be answered.
//!
//! A line `told 3` stands for how many reports were told by then. An event that isn't enabled makes
//! no entry; it is written as one, with `not enabled` for an answer.
//!
//! A case of a table is a line `====` with what it claims, a line with the kind of job and its
//! limits, a fault plan, a line `----`, and a transcript.
#![tactic(auto)]

ghost use Rattle.std.specs.Prelude.{◌≡◌};
ghost use Rattle.sc_rows.specs.Jobs.{room_of};

use crate::jobs::{counting_under, results_under};
use crate::works::{at, halves, numbers_of};
use sc_base::OrMemory;
use sc_core::{Event, FileOutcome, Journal, NotEnabled, Outcome, SideEvent};
use sc_expr::Raise;
use sc_ids::{AttemptId, Counts, FailureCause, Fault, Limits, Loc, Mark};
use std::process::Abort;

/// Sees that a case holds.
pub fn assert_job<R: Abort + AllocGlobal>(rt: &R, case: &str) {
    let (label, rest) = halves(case, "\n");
    let (head, rest) = halves(rest, "\n");
    let (plan, want) = halves(rest, "----\n");
    let numbers = numbers_of(rt, head);
    let limits = Limits {
        task_failures: at(&numbers, 0),
        stage_attempts: at(&numbers, 1),
        hand_outs: at(&numbers, 2),
        speculation: head.ends_with("speculation"),
        ..Limits::default()
    };
    let saves = head.contains("saved ");
    let mut journal = if head.contains("counts") {
        counting_under(rt, limits, saves, plan)
    } else if head.starts_with("one ") {
        results_under(rt, limits, 1, saves, plan)
    } else if head.starts_with("four ") {
        results_under(rt, limits, 4, saves, plan)
    } else {
        results_under(rt, limits, 2, saves, plan)
    };
    assert_transcript(rt, &mut journal, want, label);
}

/// Sees that the events of a transcript, one after the other, are answered as it says.
pub fn assert_transcript<R: Abort + AllocGlobal>(
    rt: &R,
    journal: &mut Journal,
    want: &str,
    label: &str,
)
    ensures { room_of journal.new.0.core ≡ room_of journal.old.0.core }
{
    let mut text = String::new(rt.alloc());
    for line in want.lines() {
        if line.starts_with("told ") {
            let told = journal.core().told();
            writeln!(text, "told {told}").expect(rt, "memory");
        } else {
            enter(rt, journal, line, &mut text);
        }
    }
    assert_eq!(rt; text.as_str(), want, "{label}");
}

/// Enters the event of a line, and writes it with its answer.
fn enter<R: Abort + AllocGlobal>(rt: &R, journal: &mut Journal, line: &str, text: &mut String)
    ensures { room_of journal.new.0.core ≡ room_of journal.old.0.core }
{
    let numbers = numbers_of(rt, line);
    let exec = at(&numbers, 0);
    let event = event_of(line, &numbers);
    match journal.enter(Mark::Exec(exec), event) {
        Ok(_) => {
            let entry = journal.entries().last().expect(rt, "an entry");
            writeln!(text, "{entry}").expect(rt, "memory");
        }
        Err(OrMemory::Fault(NotEnabled)) => {
            writeln!(text, "{exec} {event}: not enabled").expect(rt, "memory");
        }
        Err(OrMemory::OutOfMemory) => panic!(rt; "memory"),
    }
}

/// The event of a line with these numbers.
fn event_of(line: &str, numbers: &[u64]) -> Event {
    if line.contains(" take:") {
        return Event::Take {
            exec: at(numbers, 0),
        };
    }
    if line.contains(" release ") {
        return Event::Release {
            key: at(numbers, 1),
        };
    }
    if line.contains(" leave ") {
        return Event::Side(SideEvent::Leave {
            exec: at(numbers, 1),
        });
    }
    if line.contains(" tick ") {
        return Event::Side(SideEvent::Tick {
            now: u64::from(at(numbers, 1)),
        });
    }
    if line.contains(" lost ") {
        return Event::TellLost {
            exec: at(numbers, 1),
        };
    }
    let attempt = AttemptId {
        stage: at(numbers, 1),
        stage_attempt: u64::from(at(numbers, 2)),
        partition: at(numbers, 3),
        nth: at(numbers, 4),
    };
    if line.contains(" post ") {
        let outcome = outcome_of(line, numbers);
        return Event::Post { attempt, outcome };
    }
    Event::Side(step_of(line, numbers, attempt))
}

/// The step of an attempt of a save; what its call on the files came to is what the answer shows.
fn step_of(line: &str, numbers: &[u64], attempt: AttemptId) -> SideEvent {
    let done = if line.contains(": device, ") {
        FileOutcome::Failed(fault_of(numbers))
    } else {
        FileOutcome::Done
    };
    if line.contains(" stage ") {
        SideEvent::Stage {
            attempt,
            wrote: done,
        }
    } else if line.contains(" move ") {
        SideEvent::Move {
            attempt,
            renamed: done,
        }
    } else {
        SideEvent::Ask { attempt }
    }
}

/// What an attempt came to, as its line says.
fn outcome_of(line: &str, numbers: &[u64]) -> Outcome {
    let loc = Loc {
        exec: at(numbers, 5),
        generation: at(numbers, 6),
    };
    if line.contains(" map at ") {
        return Outcome::Map(loc);
    }
    if line.contains(" result:") {
        return Outcome::Result;
    }
    Outcome::Failed(if line.contains(" planned:") {
        FailureCause::Planned
    } else if line.contains(" raised DivideByZero:") {
        FailureCause::Raised(Raise::DivideByZero)
    } else if line.contains(" raised NotANumber:") {
        FailureCause::Raised(Raise::NotANumber)
    } else if line.contains(" raised OutOfRange:") {
        FailureCause::Raised(Raise::OutOfRange)
    } else if line.contains(" gone ") {
        FailureCause::Gone {
            exec: at(numbers, 5),
            wanted: at(numbers, 6),
            found: at(numbers, 7),
        }
    } else if line.contains(" missing -") {
        FailureCause::Metadata { last: loc }
    } else if line.contains(" device, ") {
        FailureCause::Device(fault_of(numbers))
    } else {
        FailureCause::Denied
    })
}

/// The fault that stands behind the attempt.
fn fault_of(numbers: &[u64]) -> Fault {
    Fault {
        before: Counts {
            faults: u64::from(at(numbers, 5)),
            clashes: u64::from(at(numbers, 7)),
        },
        after: Counts {
            faults: u64::from(at(numbers, 6)),
            clashes: u64::from(at(numbers, 8)),
        },
    }
}
