//! A work that many share, and that they know to be one and the same.
//!
//! Whoever takes part in a run carries the work: its desk, stores, blocks, tasks and reports. Where
//! two of them meet they have to be of the same work, and to compare two works costs as much as
//! their inputs are long. So the type says which work it is: a [`SharedWork`] has a parameter that
//! is [`Naming`] and stands for one work, which proofs alone know. What two of one type hold is
//! equal, and `==` says so at once.
//!
//! A run takes any type for the name, as std's `Brand`, and begins with [`SharedWork::of`]. What is
//! said by a type's own parameter and nothing else, as that a block is right, needs no work beside
//! it. The crate stands on `sc_lineage` and knows nothing of who shares.
#![tactic(auto)]

mod naming;
mod shared;

pub use naming::Naming;
pub use shared::SharedWork;
