//! Entries of histories, read from the form in which they are written.
//!
//! They lack what nothing here looks at: the epoch of a task and where its inputs lie, and how
//! often calls on files failed.
#![tactic(auto)]

use sc_core::{Answer, Entry, Event, HandOut, Inputs, Outcome};
use sc_ids::{AttemptId, Counts, FailureCause, Fault, Loc, Mark};
use std::process::Abort;

/// The next word of a text, and the rest.
fn next_word(text: &str) -> (&str, &str) {
    text.split_once(' ').unwrap_or((text, ""))
}

/// A number.
fn number<R: Abort>(rt: &R, word: &str) -> u32 {
    word.parse::<u32>().expect(rt, "a number")
}

/// An attempt, written by its four numbers.
fn attempt_of<R: Abort>(rt: &R, word: &str) -> AttemptId {
    let (stage, rest) = word.split_once('.').expect(rt, "a point");
    let (stage_attempt, rest) = rest.split_once('.').expect(rt, "a point");
    let (partition, nth) = rest.split_once('.').expect(rt, "a point");
    AttemptId {
        stage: number(rt, stage),
        stage_attempt: u64::from(number(rt, stage_attempt)),
        partition: number(rt, partition),
        nth: number(rt, nth),
    }
}

/// A store, written by its executor and its generation.
fn store_of<R: Abort>(rt: &R, word: &str) -> Loc {
    let (exec, generation) = word.split_once('@').expect(rt, "a generation");
    Loc {
        exec: number(rt, exec),
        generation: number(rt, generation),
    }
}

/// What an attempt reports.
fn outcome_of<R: Abort>(rt: &R, text: &str) -> Outcome {
    if let Some(store) = text.strip_prefix("map at ") {
        return Outcome::Map(store_of(rt, store));
    }
    match text.strip_prefix("failed: ") {
        Some(why) => Outcome::Failed(cause_of(rt, why)),
        None => Outcome::Result,
    }
}

/// Why an attempt fails.
fn cause_of<R: Abort>(rt: &R, text: &str) -> FailureCause {
    let none = Counts {
        faults: 0,
        clashes: 0,
    };
    let one = Counts { faults: 1, ..none };
    match text.strip_prefix("gone ") {
        Some(rest) => {
            let (store, found) = rest.split_once(" found ").expect(rt, "what was found");
            let Loc { exec, generation } = store_of(rt, store);
            FailureCause::Gone {
                exec,
                wanted: generation,
                found: number(rt, found),
            }
        }
        None if text == "planned" => FailureCause::Planned,
        None if text == "denied" => FailureCause::Denied,
        None => FailureCause::Device(Fault {
            before: none,
            after: one,
        }),
    }
}

/// What happens, where an executor makes it happen.
fn event_of<R: Abort>(rt: &R, exec: u32, text: &str) -> Event {
    let (verb, rest) = next_word(text);
    match verb {
        "post" => {
            let (attempt, outcome) = next_word(rest);
            Event::Post {
                attempt: attempt_of(rt, attempt),
                outcome: outcome_of(rt, outcome),
            }
        }
        "release" => Event::Release {
            key: number(rt, rest),
        },
        "lost" => Event::TellLost {
            exec: number(rt, rest),
        },
        _ => Event::Take { exec },
    }
}

/// What is answered.
fn answer_of<R: Abort + AllocGlobal>(rt: &R, text: &str) -> Answer {
    match text {
        "registered" => Answer::Registered,
        "finished" => Answer::Finished,
        "repeated" => Answer::Repeated,
        "ignored" => Answer::Ignored,
        "shelved" => Answer::Shelved,
        "again" => Answer::Again,
        "resubmitted" => Answer::Resubmitted,
        "told" => Answer::Told,
        _ => {
            let (_, attempt) = next_word(text);
            let inputs = Inputs::new(rt.alloc(), Vec::new(rt.alloc())).expect(rt, "memory");
            Answer::Task(HandOut::new(attempt_of(rt, attempt), 0, inputs))
        }
    }
}

/// The entries of a text.
pub(crate) fn entries_of<R: Abort + AllocGlobal>(rt: &R, text: &str) -> Vec<Entry> {
    let mut entries = Vec::new(rt.alloc());
    for line in text.split('\n') {
        let (said, answer) = line.rsplit_once(": ").expect(rt, "an answer");
        let (exec, event) = next_word(said);
        let exec = number(rt, exec);
        let entry = Entry {
            by: Mark::Exec(exec),
            event: event_of(rt, exec, event),
            answer: answer_of(rt, answer),
        };
        entries.push(entry).expect(rt, "memory");
    }
    entries
}
