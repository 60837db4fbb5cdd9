//! The attempts that are out.
#![tactic(auto)]

use sc_ids::{AttemptId, ExecId};
use std::alloc::{AllocError, Global};

/// The attempts of a job that were handed out, and whose reports weren't told yet, each with its
/// executor.
#[derive(Drop)]
pub(crate) struct Outs {
    attempts: Vec<(AttemptId, ExecId)>,
}

impl Outs {
    /// None.
    pub(crate) fn none(alloc: Global) -> Outs {
        Outs {
            attempts: Vec::new(alloc),
        }
    }

    /// Another job begins.
    pub(crate) fn clear(&mut self) {
        self.attempts.clear();
    }

    /// An attempt is handed out to an executor.
    pub(crate) fn push(&mut self, attempt: AttemptId, exec: ExecId) -> Result<(), AllocError> {
        self.attempts.push((attempt, exec))?;
        Ok(())
    }

    /// An attempt has ended.
    pub(crate) fn remove(&mut self, attempt: AttemptId) {
        self.attempts.retain(|(known, _)| *known != attempt);
    }

    /// How many there are.
    pub(crate) fn len(&self) -> usize {
        self.attempts.len()
    }

    /// The attempt at a place, where it is out on an executor.
    pub(crate) fn nth_on(&self, at: usize, exec: ExecId) -> Option<AttemptId> {
        match self.attempts.get(at) {
            Some((attempt, known)) if *known == exec => Some(*attempt),
            _ => None,
        }
    }
}
