//! What the steps of an attempt answer.
#![tactic(auto)]

use crate::assigned::Assigned;
use crate::computed::Computed;
use sc_ids::Loc;
use sc_net::Report;
use sc_work::Naming;

/// What an attempt gets that reads a block.
#[derive(Drop)]
pub enum Took<W: Naming> {
    /// The block.
    Next(Assigned<W>),
    /// The store is past the generation that the attempt was sent to, which it reports.
    Gone(Report<W>),
    /// The store isn't past it and has no such block.
    Absent {
        /// The attempt, as it was.
        state: Assigned<W>,
        /// Where the block should lie.
        loc: Loc,
    },
}

/// What an attempt does that has read all.
#[derive(Drop)]
pub enum Did<W: Naming> {
    /// It has computed what it is to compute.
    Computed(Computed<W>),
    /// It failed, which it reports.
    Failed(Report<W>),
}
