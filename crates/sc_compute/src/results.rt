//! What the tasks of an action hand over.
#![tactic(auto)]

ghost use Rattle.std.specs.Prelude.{◌≡◌, IfOk, length};
ghost use Rattle.sc_lineage.specs.Views.{action_data_of};
ghost use Rattle.sc_compute.specs.Results.{HasRows, result_by, rows_told};

use sc_columns::Rows;
use sc_lineage::Action;
use std::alloc::AllocError;

/// What the task of a partition hands over to the driver, which is no more than the action needs.
#[derive(Drop)]
pub enum TaskResult {
    /// The rows of its result.
    Rows(Rows),
    /// How many rows its result has, of which none is kept.
    Count(u64),
    /// That its result is saved, whose rows stand in the part that the task wrote.
    Saved,
}

impl TaskResult {
    /// What is handed over for an action of the rows of a partition's result.
    pub fn of(action: &Action, rows: Rows) -> TaskResult
        ensures { result ≡ result_by (action_data_of action.now) rows }
    {
        match action {
            Action::Collect { .. } | Action::Reduce { .. } => TaskResult::Rows(rows),
            Action::Count { .. } => TaskResult::Count(rows.len() as u64),
            Action::Save { .. } => TaskResult::Saved,
        }
    }

    /// The same again, which copies no row.
    pub fn share(&self) -> Result<TaskResult, AllocError>
        ensures { IfOk result (λ r. r ≡ self.now) }
    {
        Ok(match self {
            TaskResult::Rows(rows) => TaskResult::Rows(rows.share()?),
            TaskResult::Count(count) => TaskResult::Count(*count),
            TaskResult::Saved => TaskResult::Saved,
        })
    }

    /// The rows.
    pub(crate) fn rows(&self) -> &Rows
        requires { HasRows self.now }
        ensures { result.now ≡ rows_told self.now }
    {
        match self {
            TaskResult::Rows(rows) => rows,
            TaskResult::Count(_) | TaskResult::Saved => unreachable!(),
        }
    }

    /// How many rows it tells of.
    pub(crate) fn count(&self) -> u64
        ensures { result ≡ length (rows_told self.now) }
    {
        match self {
            TaskResult::Rows(rows) => rows.len() as u64,
            TaskResult::Count(count) => *count,
            TaskResult::Saved => 0,
        }
    }
}
