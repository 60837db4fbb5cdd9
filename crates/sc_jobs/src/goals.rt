//! What a job is for.
#![tactic(auto)]

use sc_lineage::NodeId;

/// What a job is for.
#[derive(Clone, Copy, Debug, PartialEq, Eq)]
pub enum Goal {
    /// An action of the script.
    Action {
        /// Its number, from 0.
        number: u32,
    },
    /// The rows of the parent of a sort, from which its bounds are found.
    Bounds {
        /// The sort.
        sort: NodeId,
    },
}
