//! What a task makes.
#![tactic(auto)]

use sc_columns::Rows;
use sc_compute::TaskResult;
use sc_store::Block;
use sc_work::Naming;

/// What a task makes that doesn't raise.
#[derive(Drop)]
pub(crate) enum Made<W: Naming> {
    /// The block of a map task.
    Block(Block<W>),
    /// The rows of a part, where the job of a result saves.
    Part(Rows),
    /// What is handed over of a result, where it doesn't.
    Result(TaskResult),
}
