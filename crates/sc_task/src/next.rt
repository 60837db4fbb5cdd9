//! What an attempt is to do next.
#![tactic(auto)]

use sc_ids::{BlockId, Loc};

/// What an attempt is to do next with what it reads.
#[derive(Clone, Copy, Debug, PartialEq, Eq)]
pub enum Next {
    /// A block is to be fetched.
    Fetch {
        /// The block.
        block: BlockId,
        /// Where it lies.
        loc: Loc,
    },
    /// A block had no location when the task was handed out.
    Missing {
        /// Where it lay last, and None where it was never registered.
        last: Option<Loc>,
    },
    /// All is read.
    Complete,
}
