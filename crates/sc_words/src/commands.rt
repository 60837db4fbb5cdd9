//! What words ask for.
#![tactic(auto)]

use sc_ids::Limits;
use sc_value::Name;

/// A workload that is to be generated: `gen --seed S --size N`.
#[derive(Clone, Copy)]
pub struct Workload {
    /// The seed, from 0 to 2,147,483,647.
    pub seed: u32,
    /// How many lines, from 1 to 100,000.
    pub size: u32,
}

/// What the words ask for: the run of a script.
#[derive(Drop)]
pub struct Command {
    /// The name of the script.
    pub script: Name,
    /// The name of the fault plan, where there is one.
    pub plan: Option<Name>,
    /// The limits of the run.
    pub limits: Limits,
    /// The workload, where it is to be generated: the script is then the generator's own, and no
    /// file is read.
    pub workload: Option<Workload>,
}

/// The words are no command.
#[derive(Clone, Copy)]
pub struct Usage;
