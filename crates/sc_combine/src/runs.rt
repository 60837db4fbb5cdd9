//! Rows that are held in several runs.
#![tactic(auto)]

ghost use Rattle.std.specs.Prelude.{IfOk, IfSome};
ghost use Rattle.sc_columns.specs.Parts.{ArePairs};

use sc_columns::{Both, Rows, RowsBuilder};
use std::alloc::{AllocError, Global};

/// The first and the second parts of rows, where all runs of them are held as pairs. Long runs are
/// shared. None is always a right answer.
pub fn pairs_of_runs(alloc: Global, rows: &Rows) -> Result<Option<Both>, AllocError>
    ensures { IfOk result (λ o. IfSome o (ArePairs rows.now)) }
{
    let runs = rows.runs(alloc)?;
    let mut first = RowsBuilder::new(alloc);
    let mut second = RowsBuilder::new(alloc);
    for i in 0..runs.len() {
        match runs[i].as_pairs(alloc)? {
            Some(both) => {
                first.append(alloc, &both.first)?;
                second.append(alloc, &both.second)?;
            }
            None => return Ok(None),
        }
    }
    let first = first.finish(alloc)?;
    let second = second.finish(alloc)?;
    Ok(Some(Both { first, second }))
}
