//! Attempts in their states.
#![tactic(auto)]

ghost use Rattle.std.specs.Prelude.{◌≡◌};
ghost use Rattle.sc_task.specs.Attempts.{attempt_data_of, task_of};

use crate::assigned::Assigned;
use crate::computed::Computed;
use crate::saving::{Granted, Staged};
use crate::stored::Stored;
use sc_net::{Report, Task};
use sc_work::Naming;

/// An attempt in one of its states.
#[derive(Drop)]
pub enum Attempt<W: Naming> {
    /// It reads.
    Assigned(Assigned<W>),
    /// It has computed what it is to compute.
    Computed(Computed<W>),
    /// Its block was put.
    Stored(Stored<W>),
    /// Its part was written, and it is to ask whether it may commit.
    Staged(Staged<W>),
    /// It may commit, and is to move its part.
    Granted(Granted<W>),
    /// It has something to report.
    Reported(Report<W>),
}

impl<W: Naming> Attempt<W> {
    /// The task.
    pub fn task(&self) -> &Task<W>
        ensures { result.now ≡ task_of (attempt_data_of self.now) }
    {
        match self {
            Attempt::Assigned(assigned) => assigned.task(),
            Attempt::Computed(computed) => computed.task(),
            Attempt::Stored(stored) => stored.task(),
            Attempt::Staged(staged) => staged.task(),
            Attempt::Granted(granted) => granted.task(),
            Attempt::Reported(report) => report.task(),
        }
    }
}
