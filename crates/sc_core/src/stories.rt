//! The story of one attempt, as its journal has it.
#![tactic(auto)]

ghost use Rattle.std.specs.Prelude.{◌≡◌, IfOk, string_bytes};
ghost use Rattle.sc_commit.specs.Committing.{is_same};
ghost use Rattle.sc_core.specs.Stories.{hands_out, is_entry_of, is_step_of, story_text};

use crate::answers::Answer;
use crate::entries::Entry;
use crate::events::{Event, SideEvent};
use sc_ids::AttemptId;
use std::alloc::{AllocError, Global};

impl Entry {
    /// Whether it hands out an attempt, or is a step or a report of it.
    pub fn is_of(&self, attempt: AttemptId) -> bool
        ensures { result ≡ is_entry_of attempt self.now }
    {
        match self.event {
            Event::Take { .. } => hands_out(&self.answer, attempt),
            Event::Post { attempt: of, .. } => is_same(of, attempt),
            Event::Side(event) => is_step_of(event, attempt),
            _ => false,
        }
    }
}

/// The story of an attempt: a line for each of its entries, in order.
pub fn story(alloc: Global, entries: &[Entry], attempt: AttemptId) -> Result<String, AllocError>
    ensures { IfOk result (λ text. string_bytes text ≡ story_text attempt entries.now) }
{
    let mut text = String::new(alloc);
    for entry in entries {
        if entry.is_of(attempt) {
            writeln!(text, "{entry}")?;
        }
    }
    Ok(text)
}

/// Whether an event beside the reports is a step of an attempt of a save.
fn is_step_of(event: SideEvent, attempt: AttemptId) -> bool
    ensures { result ≡ is_step_of attempt event }
{
    match event {
        SideEvent::Stage { attempt: of, .. } => is_same(of, attempt),
        SideEvent::Ask { attempt: of } => is_same(of, attempt),
        SideEvent::Move { attempt: of, .. } => is_same(of, attempt),
        SideEvent::Leave { .. } | SideEvent::Tick { .. } => false,
    }
}

/// Whether an answer hands an attempt out.
fn hands_out(answer: &Answer, attempt: AttemptId) -> bool
    ensures { result ≡ hands_out answer.now attempt }
{
    match answer {
        Answer::Task(hand_out) => is_same(hand_out.attempt(), attempt),
        _ => false,
    }
}

/// Whether two attempts are one.
fn is_same(a: AttemptId, b: AttemptId) -> bool
    ensures { result ≡ is_same a b }
{
    a == b
}
