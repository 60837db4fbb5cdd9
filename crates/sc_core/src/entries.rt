//! Entries of a journal.
#![tactic(auto)]

use crate::answers::Answer;
use crate::events::Event;
use sc_ids::Mark;

/// What happened, by whom, and what it was answered.
#[derive(Drop)]
pub struct Entry {
    /// Whose call it was.
    pub by: Mark,
    /// What happened.
    pub event: Event,
    /// What it was answered.
    pub answer: Answer,
}
