//! The commit coordinator: which attempt of a partition may move its output to where it counts.
//!
//! Attempts of a save's result stage write their output aside, and ask here before they move it.
//! The first running attempt of a partition that asks is granted, and holds the grant until it
//! ends. While it does, and for good once it has succeeded, every other one is denied, with the
//! name of the attempt that came first. A holder that fails or is lost frees its partition.
//!
//! Contracts see a [`Commit`] as a list of [`Committer`], one for each partition: nobody, a holder
//! or a winner. So no partition has two live grants, or a grant beside a winner, by form. What each
//! call answers and leaves stands in `specs/Committing.antt`, and what holds of every value in
//! `specs/CommitFacts.antt`. This crate doesn't know which attempts run, nor any file: the caller
//! says whether the asker runs. Below it lies `sc_ids`.
#![tactic(auto)]

mod commit;
mod committers;
mod laws;

pub use commit::Commit;
pub use committers::{Committer, Ending, Permission};
pub use laws::{laws_of_answers, laws_of_grants};
