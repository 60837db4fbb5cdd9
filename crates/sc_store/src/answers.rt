//! What a store answers.
#![tactic(auto)]

use crate::blocks::Block;
use sc_ids::Generation;
use sc_work::Naming;

/// Where a block was put.
#[derive(Clone, Copy, Debug, PartialEq, Eq)]
pub struct PutReceipt {
    /// The generation of the store.
    pub generation: Generation,
}

/// What a fetch answers.
#[derive(Drop)]
pub enum FetchAnswer<W: Naming> {
    /// The block, shared.
    Found(Block<W>),
    /// The store is past the generation that it was asked for.
    Gone {
        /// The generation that was asked for.
        wanted: Generation,
        /// The generation of the store.
        found: Generation,
    },
    /// The store isn't past that generation, and has no block of the name.
    Absent,
}

/// What a wipe answers.
#[derive(Clone, Copy, Debug, PartialEq, Eq)]
pub enum WipeAnswer {
    /// The store is empty.
    Wiped {
        /// The generation that it has now.
        generation: Generation,
    },
    /// It was wiped by this order before, or by a later one.
    Stale {
        /// The generation that it has.
        generation: Generation,
    },
}
