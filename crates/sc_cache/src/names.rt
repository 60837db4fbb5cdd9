//! What a cached block is called.
#![tactic(auto)]

/// A partition of a cached node.
#[derive(Clone, Copy, Debug, PartialEq, Eq, Hash)]
pub struct CachedId {
    /// The node.
    pub node: u32,
    /// The partition, from 0.
    pub partition: u32,
}
