//! Why bytes are no fault plan.
#![tactic(auto)]

use sc_base::OrMemory;

/// What is wrong with a line.
#[derive(Clone, Copy, Debug, PartialEq, Eq)]
pub enum PlanFaultKind {
    /// The plan isn't UTF-8.
    NotText,
    /// Something is too long, too many or too large, no executor of the run, or told too early.
    Limit,
    /// The line doesn't have as many numbers as its kind takes, or has something else.
    Syntax,
    /// The first word is no kind of line.
    UnknownName,
    /// A line before it says the same.
    Twice,
}

/// The fault of a plan: the line, counted from 1, and what is wrong with it. Line 0 is the plan as
/// a whole.
#[derive(Clone, Copy, Debug, PartialEq, Eq)]
pub struct PlanFault {
    /// The number of the line.
    pub line: u32,
    /// What is wrong.
    pub kind: PlanFaultKind,
}

/// Why a line was refused.
pub(crate) type LineError = OrMemory<PlanFaultKind>;

/// Why no plan was read.
pub type PlanError = OrMemory<PlanFault>;
