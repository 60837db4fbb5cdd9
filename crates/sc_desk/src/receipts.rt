//! What is entered at a desk.
#![tactic(auto)]

use sc_core::{Answer, SideAnswer};

/// Where something that happened is entered, and what it was answered.
#[derive(Drop)]
pub struct Receipt {
    /// The place of its entry.
    pub entry: usize,
    /// What it is answered.
    pub answer: Answer,
}

/// Where something that happened beside the reports is entered, and what it was answered.
#[derive(Clone, Copy, Debug, PartialEq, Eq)]
pub struct Noted {
    /// The place of its entry.
    pub entry: usize,
    /// What it is answered.
    pub answer: SideAnswer,
}
