//! The map output tracker: where each map output lies, and which outputs can still be trusted.
//!
//! A reduce task asks here for the location of each block that it reads. When a fetch shows that
//! an executor's store was wiped, or the executor is told lost, its outputs are forgotten and the
//! epoch rises by one. A report that was under way by then is caught by two numbers: `seen`, the
//! newest generation of the store that a fetch has shown, and `mark`, the epoch at which its
//! outputs were last forgotten. What either of them rules out is answered `Bogus`, and isn't
//! registered.
//!
//! Contracts see a [`Tracker`] as the record `TrackerData` of `specs/TrackerData.antt`. What each
//! call makes of it stands in `specs/Tracking.antt`, where `is_bogus` is the whole rule, and what
//! holds of every tracker in `specs/TrackerFacts.antt`. This crate doesn't know the stores: that a
//! registered block is there is no promise of it. Below it lies `sc_ids`.
#![tactic(auto)]

mod hints;
mod laws;
mod links;
mod listed;
mod lists;
mod outputs;
mod shuffles;
mod tracker;
mod trust;

pub use laws::{laws_of_blocks, laws_of_trust};
pub use outputs::{Location, Output};
pub use tracker::{Registration, Tracker};
pub use trust::Trust;
