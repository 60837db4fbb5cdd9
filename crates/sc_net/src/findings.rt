//! What attempts find.
#![tactic(auto)]

ghost use Rattle.std.specs.Prelude.{◌≡◌, IfOk};

use sc_compute::TaskResult;
use sc_expr::Raise;
use sc_ids::{ExecId, Fault, Generation, Loc};
use std::alloc::AllocError;

/// What an attempt came to.
#[derive(Drop)]
pub enum Finding {
    /// Its map output lies there.
    Map(Loc),
    /// What it hands over of its result.
    Result(TaskResult),
    /// The fault plan fails it.
    Planned,
    /// What it is to compute raises.
    Raised(Raise),
    /// A store that it read from is past the generation that it was sent to.
    Gone {
        /// The store's executor.
        exec: ExecId,
        /// The generation that it was sent to.
        wanted: Generation,
        /// The generation that it found.
        found: Generation,
    },
    /// A block that it reads had no location when it was handed out, which Spark calls a metadata
    /// fetch failure.
    Metadata {
        /// Where the block lay last.
        last: Loc,
    },
    /// A call on the files failed, which its output is written to.
    Device(Fault),
    /// It may not commit its output.
    Denied,
}

impl Finding {
    /// The same again, which copies no row.
    pub fn share(&self) -> Result<Finding, AllocError>
        ensures { IfOk result (λ f. f ≡ self.now) }
    {
        Ok(match self {
            Finding::Map(loc) => Finding::Map(*loc),
            Finding::Result(result) => Finding::Result(result.share()?),
            Finding::Planned => Finding::Planned,
            Finding::Raised(raise) => Finding::Raised(*raise),
            Finding::Gone {
                exec,
                wanted,
                found,
            } => Finding::Gone {
                exec: *exec,
                wanted: *wanted,
                found: *found,
            },
            Finding::Metadata { last } => Finding::Metadata { last: *last },
            Finding::Device(fault) => Finding::Device(*fault),
            Finding::Denied => Finding::Denied,
        })
    }
}
