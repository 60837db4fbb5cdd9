//! Tasks that were handed out.
#![tactic(auto)]

ghost use Rattle.std.specs.Prelude.{◌≡◌, IfOk};
ghost use Rattle.sc_core.specs.HandOuts.{hand_out};

use crate::events::Outcome;
use crate::inputs::Inputs;
use sc_ids::{AttemptId, Epoch, ExecId, Fault};
use sc_tracker::Location;
use std::alloc::AllocError;
use std::marker::Model;

/// What is handed out with a task: which attempt it is, the tracker's epoch, and where the blocks
/// lie that its stage reads, by parent and then by map partition. The list is shared by all tasks
/// that were handed out of the stage between two changes of the tracker.
#[derive(Drop)]
pub struct HandOut {
    attempt: AttemptId,
    epoch: Epoch,
    inputs: Inputs,
}

impl Model for HandOut {
    ghost use Rattle.sc_core.specs.HandOuts.{HandOutData, hand_out};

    ghost Value = { HandOutData };

    ghost view = { λ h. hand_out h.attempt h.epoch h.inputs };
}

impl HandOut {
    /// What is handed out with an attempt in this epoch, whose inputs lie there.
    pub fn new(attempt: AttemptId, epoch: Epoch, inputs: Inputs) -> HandOut
        ensures { result ≡ hand_out attempt epoch inputs }
    {
        HandOut {
            attempt,
            epoch,
            inputs,
        }
    }

    /// One more owner. No location is copied.
    pub fn share(&self) -> Result<HandOut, AllocError>
        ensures { IfOk result (λ h. h ≡ self.now) }
    {
        Ok(HandOut {
            attempt: self.attempt,
            epoch: self.epoch,
            inputs: self.inputs.share()?,
        })
    }

    /// Which attempt it is.
    pub fn attempt(&self) -> AttemptId
        ensures { result ≡ self.now.attempt }
    {
        self.attempt
    }

    /// The tracker's epoch when it was handed out.
    pub fn epoch(&self) -> Epoch
        ensures { result ≡ self.now.epoch }
    {
        self.epoch
    }

    /// The list of them.
    pub(crate) fn listed(&self) -> &Inputs
        ensures { result.now ≡ self.now.inputs }
    {
        &self.inputs
    }

    /// Where the blocks lie that its stage reads.
    pub fn inputs(&self) -> &[Location]
        ensures { result.now ≡ self.now.inputs }
    {
        self.inputs.as_slice()
    }
}

/// How far a running attempt of a save has come. All other attempts stay at the first.
#[derive(Clone, Copy, Debug, PartialEq, Eq)]
pub enum Phase {
    /// It was handed out.
    Given,
    /// Its output is written aside.
    Staged,
    /// It may commit.
    Granted,
    /// It may not.
    Denied,
    /// Its output is where it counts.
    Moved,
    /// A call on the files failed.
    Faulted(Fault),
}

/// An attempt that runs.
#[derive(Drop)]
pub struct Running {
    /// What it was handed out with.
    pub hand_out: HandOut,
    /// Where it runs.
    pub exec: ExecId,
    /// How far it has come.
    pub phase: Phase,
    /// Whether its report is still to be posted.
    pub is_out: bool,
}

/// A report that was posted and is to be told later.
#[derive(Clone, Copy, Debug, PartialEq, Eq)]
pub struct Shelved {
    /// Its key, from 0 in each job.
    pub key: u32,
    /// It is due once so many reports were told.
    pub due: u64,
    /// Its attempt.
    pub attempt: AttemptId,
    /// What it reports.
    pub outcome: Outcome,
}
