//! Why an attempt gave no success.
#![tactic(auto)]

ghost use Rattle.std.specs.Prelude.{◌≡◌};
ghost use Rattle.sc_ids.specs.Failures.{is_counted};

use crate::attempts::ExecId;
use crate::blocks::{Generation, Loc};
use sc_expr::Raise;

/// What the files of a run have counted.
#[derive(Clone, Copy, Debug, PartialEq, Eq)]
pub struct Counts {
    /// How often a call failed.
    pub faults: u64,
    /// How often a name was there already, or wasn't there.
    pub clashes: u64,
}

/// A call on the files that failed: what they had counted before it, and after it.
#[derive(Clone, Copy, Debug, PartialEq, Eq)]
pub struct Fault {
    /// Before the call.
    pub before: Counts,
    /// After it.
    pub after: Counts,
}

/// Why an attempt gave no success.
#[derive(Clone, Copy, Debug, PartialEq, Eq)]
pub enum FailureCause {
    /// The fault plan said so.
    Planned,
    /// What it computes raises so.
    Raised(Raise),
    /// A call on the files failed.
    Device(Fault),
    /// A store that it read from is past the generation that it was sent to.
    Gone {
        /// The store's executor.
        exec: ExecId,
        /// The generation that it was sent to.
        wanted: Generation,
        /// The generation that it found.
        found: Generation,
    },
    /// A block that it reads had no location when it was handed out.
    Metadata {
        /// Where the block lay last.
        last: Loc,
    },
    /// It wasn't granted to commit.
    Denied,
}

impl FailureCause {
    /// Whether it counts toward the limit of failures of a partition.
    pub fn is_counted(self) -> bool
        ensures { result ≡ is_counted self }
    {
        match self {
            FailureCause::Planned | FailureCause::Raised(_) | FailureCause::Device(_) => true,
            FailureCause::Gone { .. } => false,
            FailureCause::Metadata { .. } | FailureCause::Denied => false,
        }
    }
}
