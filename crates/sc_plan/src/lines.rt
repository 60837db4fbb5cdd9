//! The lines of a fault plan.
#![tactic(auto)]

ghost use Rattle.std.specs.Prelude.{◌≡◌};
ghost use Rattle.sc_plan.specs.PlanLines.{is_same_place, names_below, place_of, repeats, tells_in_order};

use sc_ids::{AttemptId, ExecId, StageId};

/// Which attempts a line speaks of: in each attempt of a stage, the one of a partition that was
/// handed out behind so many others of it.
#[derive(Clone, Copy, Debug, PartialEq, Eq)]
pub struct AttemptPlace {
    /// The stage.
    pub stage: StageId,
    /// The partition.
    pub partition: u32,
    /// How many attempts of the partition were handed out before it.
    pub nth: u32,
}

/// What one line of a plan says. Reports are counted over the whole run as they are told.
#[derive(Clone, Copy, Debug, PartialEq, Eq)]
pub enum PlanLine {
    /// The attempts at a place report a failure in place of what they compute.
    Fail(AttemptPlace),
    /// Their reports come late.
    Late {
        /// The place.
        place: AttemptPlace,
        /// How many more reports are told first.
        count: u32,
    },
    /// Their reports come twice.
    Twice(AttemptPlace),
    /// The store of an executor is wiped.
    Drop {
        /// The executor.
        exec: ExecId,
        /// How many reports are told first.
        after: u32,
    },
    /// The store of an executor is wiped, and the executor is told lost.
    Lose {
        /// The executor.
        exec: ExecId,
        /// How many reports are told before it is wiped.
        after: u32,
        /// How many reports are told before it is told lost.
        told: u32,
    },
    /// The cache of an executor lets the block go that was used least recently.
    Evict {
        /// The executor.
        exec: ExecId,
        /// How many reports are told first.
        after: u32,
    },
}

impl AttemptPlace {
    /// The place of an attempt, whichever attempt of its stage it is in.
    pub fn of(attempt: &AttemptId) -> AttemptPlace
        ensures { result ≡ place_of attempt.now }
    {
        AttemptPlace {
            stage: attempt.stage,
            partition: attempt.partition,
            nth: attempt.nth,
        }
    }

    /// Whether two places are the same.
    pub(crate) fn is(self, other: AttemptPlace) -> bool
        ensures { result ≡ is_same_place self other }
    {
        self.stage == other.stage && self.partition == other.partition && self.nth == other.nth
    }
}

impl PlanLine {
    /// Whether a line says what another one says already.
    pub(crate) fn repeats(self, other: PlanLine) -> bool
        ensures { result ≡ repeats self other }
    {
        match (self, other) {
            (PlanLine::Fail(a), PlanLine::Fail(b)) => a.is(b),
            (PlanLine::Late { place: a, .. }, PlanLine::Late { place: b, .. }) => a.is(b),
            (PlanLine::Twice(a), PlanLine::Twice(b)) => a.is(b),
            (PlanLine::Drop { exec: e, after: a }, PlanLine::Drop { exec: f, after: b }) => {
                e == f && a == b
            }
            (PlanLine::Lose { exec: e, .. }, PlanLine::Lose { exec: f, .. }) => e == f,
            (PlanLine::Evict { exec: e, after: a }, PlanLine::Evict { exec: f, after: b }) => {
                e == f && a == b
            }
            _ => false,
        }
    }

    /// Whether the executor that a line names, if it names one, is below a number.
    pub(crate) fn names_below(self, executors: u32) -> bool
        ensures { result ≡ names_below executors self }
    {
        match self {
            PlanLine::Drop { exec, .. }
            | PlanLine::Lose { exec, .. }
            | PlanLine::Evict { exec, .. } => exec < executors,
            _ => true,
        }
    }

    /// Whether an executor isn't told lost before it is wiped.
    pub(crate) fn tells_in_order(self) -> bool
        ensures { result ≡ tells_in_order self }
    {
        match self {
            PlanLine::Lose { after, told, .. } => after <= told,
            _ => true,
        }
    }
}
