//! Gates.
#![tactic(auto)]

use sc_ids::{AttemptId, ExecId};
use std::sync::Wait;

/// What an executor passes that was handed a task, before it does it. A gate may keep it for a
/// while, and no longer: an executor that is kept for ever keeps all others waiting.
pub trait Gate {
    /// An executor passes with an attempt.
    fn enter<R: Wait>(&self, rt: &R, exec: ExecId, attempt: AttemptId);
}

/// A gate that keeps nobody.
#[derive(Clone, Copy, Debug, PartialEq, Eq)]
pub struct OpenGate;

impl Gate for OpenGate {
    fn enter<R: Wait>(&self, _rt: &R, _exec: ExecId, _attempt: AttemptId) {}
}
