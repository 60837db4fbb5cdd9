//! The store of an executor: what its tasks left for others, and its cached blocks.
//!
//! A [`Store`] is of one work and one executor. It stands at a generation, which tells how often it
//! was wiped: what was put at one generation is gone at the next. [`Store::put`] keeps a block and
//! tells the generation, [`Store::fetch`] gives it back or says why not ([`FetchAnswer`]),
//! [`Store::wipe`] carries out an order of the fault plan ([`WipeAnswer`]), and `cached`, `keep`
//! and `evict` use the cache. `specs/Storing.antt` has each of them as a relation.
//!
//! What lies in a store is right by its type: a [`Block`] is what its task is to have computed, by
//! bucket, and a cached block is the partition of its name, both without a raise
//! (`specs/OwnBlocks.antt`). So whoever fetches need not know who put. Nothing is copied: a block
//! goes in and out as a share.
//!
//! Who puts and fetches, when an order is due and which location is asked for are said above. Names
//! come from `sc_ids`, orders from `sc_plan`, outputs from `sc_shuffle`, the cache from `sc_cache`.
#![tactic(auto)]

mod answers;
mod blocks;
mod store;

pub use answers::{FetchAnswer, PutReceipt, WipeAnswer};
pub use blocks::Block;
pub use store::Store;
