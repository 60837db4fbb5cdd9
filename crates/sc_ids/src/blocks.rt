//! Shuffles, their blocks, and where these lie.
#![tactic(auto)]

use crate::attempts::ExecId;

/// How often the store of an executor was wiped.
pub type Generation = u32;

/// How often outputs of an executor were forgotten, over the whole run.
pub type Epoch = u64;

/// A shuffle: what one side of a node reads by buckets.
#[derive(Clone, Copy, Debug, PartialEq, Eq, Hash)]
pub struct ShuffleId {
    /// The node that reads it.
    pub node: u32,
    /// 0 for the only or left parent, 1 for the right.
    pub side: u8,
}

/// What one map task leaves for the tasks that read its shuffle.
#[derive(Clone, Copy, Debug, PartialEq, Eq, Hash)]
pub struct BlockId {
    /// The shuffle.
    pub shuffle: ShuffleId,
    /// The map partition, from 0.
    pub map: u32,
}

/// Where a block was put: an executor's store, and the generation that it had then.
#[derive(Clone, Copy, Debug, PartialEq, Eq)]
pub struct Loc {
    /// The executor.
    pub exec: ExecId,
    /// The generation of its store.
    pub generation: Generation,
}

/// What the tasks of a stage make of their partitions.
#[derive(Clone, Copy, Debug, PartialEq, Eq)]
pub enum Target {
    /// The map side of a shuffle, of a partition of the parent.
    Map(ShuffleId),
    /// The result of a partition of a node.
    Result {
        /// The node.
        node: u32,
    },
}
