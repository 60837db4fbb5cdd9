//! What a task computes from its blocks, and what an action gives, on the thread that calls.
//!
//! [`ShuffleInputs`] holds what a task has for the nodes of a work. First what other tasks left of
//! each shuffle that it reads is handed in, by [`ShuffleInputs::hand_in`]. Then
//! [`ShuffleInputs::prepare`] finds for a node, and for those that it takes in, how many partitions
//! each has and what its shuffles are read from: what was handed in. No shuffle is made here, and
//! nothing behind one. The bounds of a sort are told by [`ShuffleInputs::tell_bounds`].
//!
//! [`compute`] leaves what a [`TaskTarget`] is to have computed, which is `own_value` of
//! `sc_lineage`: a map side by bucket, or the result of a partition. It follows what the partition
//! reads down to the sources and to what was handed in, computes each partition that is needed
//! once, and lets a stream go as soon as nothing is left to read it. Streams that several
//! dependencies read are kept in between. Operations row by row that follow one another, each read
//! by the next alone, are done batch by batch: no stream is made between them.
//!
//! A [`TaskResult`] is what the task of a partition hands over of its result: the rows, for a
//! `count` their number alone, or of a save, whose rows stand in a part, that it is saved.
//! [`settle`] puts those of an action together, as the driver does.
//!
//! It chooses an order and nothing else: what a node makes of its inputs is done by `sc_ops` and
//! `sc_combine`. Another kind of task is a further variant of [`TaskTarget`].
#![tactic(auto)]

mod asking;
mod caching;
mod chains;
mod counting;
mod directs;
mod evaluation;
mod gathered;
mod handing;
mod kept;
mod making;
mod mapping;
mod nodes;
mod parents;
mod partitions;
mod readers;
mod results;
mod settling;
mod shuffles;
mod stages;
mod targets;

pub use asking::Asking;
pub use caching::CachedPart;
pub use evaluation::Evaluated;
pub use results::TaskResult;
pub use settling::{bounds_of_results, settle};
pub use stages::ShuffleInputs;
pub use targets::{TaskOutput, TaskTarget, compute, compute_cached, node_of};
