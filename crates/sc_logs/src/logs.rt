//! Logs.
#![tactic(auto)]

use sc_core::Entry;
use sc_ids::ExecId;

/// What one executor wrote down of its calls on the desk, in order.
#[derive(Drop)]
pub struct ExecLog {
    /// The executor.
    pub exec: ExecId,
    /// What it entered, and what it was answered.
    pub entries: Vec<Entry>,
}
