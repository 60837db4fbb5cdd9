//! Which entries are the same.
#![tactic(auto)]

ghost use Rattle.std.specs.Prelude.{◌≡◌, ◌↔◌, IsTrue};

use sc_core::{Abort, Answer, Entry, Event, HandOut, Outcome, SideAnswer, SideEvent};
use sc_ids::{AttemptId, Mark};
use sc_tracker::Location;

/// Whether two entries are the same: made by the same, of the same event and with the same answer.
pub(crate) fn is_same(a: &Entry, b: &Entry) -> bool
    ensures { IsTrue result ↔ (a.now ≡ b.now) }
{
    same_mark(a.by, b.by) && same_event(a.event, b.event) && same_answer(&a.answer, &b.answer)
}

/// Whether two entries were made by the same.
fn same_mark(a: Mark, b: Mark) -> bool
    ensures { IsTrue result ↔ (a ≡ b) }
{
    a == b
}

/// Whether the same happened.
fn same_event(a: Event, b: Event) -> bool
    ensures { IsTrue result ↔ (a ≡ b) }
{
    match (a, b) {
        (Event::Take { exec: a }, Event::Take { exec: b }) => a == b,
        (
            Event::Post { attempt, outcome },
            Event::Post {
                attempt: b,
                outcome: told,
            },
        ) => { same_attempt(attempt, b) && same_outcome(outcome, told) }
        (Event::Release { key: a }, Event::Release { key: b }) => a == b,
        (Event::TellLost { exec: a }, Event::TellLost { exec: b }) => a == b,
        (Event::Side(a), Event::Side(b)) => same_aside(a, b),
        _ => false,
    }
}

/// Whether the same was reported.
fn same_outcome(a: Outcome, b: Outcome) -> bool
    ensures { IsTrue result ↔ (a ≡ b) }
{
    a == b
}

/// Whether the same happened beside the reports.
fn same_aside(a: SideEvent, b: SideEvent) -> bool
    ensures { IsTrue result ↔ (a ≡ b) }
{
    a == b
}

/// Whether the same was answered.
fn same_answer(a: &Answer, b: &Answer) -> bool
    ensures { IsTrue result ↔ (a.now ≡ b.now) }
{
    match (a, b) {
        (Answer::Task(a), Answer::Task(b)) => same_hand_out(a, b),
        (Answer::Wait { out: a }, Answer::Wait { out: b }) => same_attempt(*a, *b),
        (Answer::Busy { held: a }, Answer::Busy { held: b }) => same_attempt(*a, *b),
        (Answer::Lost, Answer::Lost) => true,
        (Answer::Stopped { exec: a }, Answer::Stopped { exec: b }) => *a == *b,
        (Answer::Ended, Answer::Ended) => true,
        (Answer::Aborted(a), Answer::Aborted(b)) => same_abort(*a, *b),
        (Answer::Ignored, Answer::Ignored) => true,
        (Answer::Told, Answer::Told) => true,
        (Answer::Shelved, Answer::Shelved) => true,
        (Answer::Repeated, Answer::Repeated) => true,
        (Answer::Registered, Answer::Registered) => true,
        (Answer::Bogus, Answer::Bogus) => true,
        (Answer::Finished, Answer::Finished) => true,
        (Answer::Again, Answer::Again) => true,
        (Answer::Resubmitted, Answer::Resubmitted) => true,
        (Answer::Side(a), Answer::Side(b)) => same_said(*a, *b),
        _ => false,
    }
}

/// Whether a job was aborted for the same.
fn same_abort(a: Abort, b: Abort) -> bool
    ensures { IsTrue result ↔ (a ≡ b) }
{
    a == b
}

/// Whether the same was answered beside the reports.
fn same_said(a: SideAnswer, b: SideAnswer) -> bool
    ensures { IsTrue result ↔ (a ≡ b) }
{
    a == b
}

/// Whether the same was handed out, in the same epoch.
fn same_hand_out(a: &HandOut, b: &HandOut) -> bool
    ensures { IsTrue result ↔ (a.now ≡ b.now) }
{
    same_attempt(a.attempt(), b.attempt())
        && a.epoch() == b.epoch()
        && same_places(a.inputs(), b.inputs())
}

/// Whether two attempts are one.
fn same_attempt(a: AttemptId, b: AttemptId) -> bool
    ensures { IsTrue result ↔ (a ≡ b) }
{
    a == b
}

/// Whether blocks lie, or lay, at the same places.
fn same_places(a: &[Location], b: &[Location]) -> bool
    ensures { IsTrue result ↔ (a.now ≡ b.now) }
{
    if a.len() != b.len() {
        return false;
    }
    for i in 0..a.len() {
        if !same_place(a[i], b[i]) {
            return false;
        }
    }
    true
}

/// Whether two blocks lie, or lay, at the same place.
fn same_place(a: Location, b: Location) -> bool
    ensures { IsTrue result ↔ (a ≡ b) }
{
    a == b
}
