//! The cache of an executor: so many blocks of cached nodes, of which the least recently used gives
//! way to a new one.
//!
//! A block is found under the name that it was kept under ([`CachedId`]) and under no other. A
//! [`BlockCache`] is seen by contracts as its blocks with their names, the most recently used
//! first, so that what is used when is part of what they say. It is generic in the blocks: what
//! they are, and that they are right, is said by their type.
//!
//! It stands on the kit's `lru` alone, and knows nothing of executors, wipes or plans. A cache
//! holds at least one block. Blocks are counted and not measured in bytes.
#![tactic(auto)]

mod cache;
mod laws;
mod names;

pub use cache::BlockCache;
pub use laws::caches_are_lawful;
pub use names::CachedId;
