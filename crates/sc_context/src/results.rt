//! The results of a job.
#![tactic(auto)]

ghost use Rattle.std.specs.Prelude.{◌≡◌, IfOk, map, Some};
ghost use Rattle.sc_context.specs.Results.{AreThere};

use sc_compute::TaskResult;
use std::alloc::{AllocError, Global};

/// The results of all partitions in order, where each has its own. No row is copied.
pub(crate) fn all_results(
    alloc: Global,
    results: &[Option<TaskResult>],
) -> Result<Vec<TaskResult>, AllocError>
    requires { AreThere results.now }
    ensures { IfOk result (λ v. results.now ≡ map Some v.items) }
{
    let mut all = Vec::with_capacity(alloc, results.len())?;
    for result in results {
        match result {
            Some(result) => all.push(result.share()?)?,
            None => unreachable!(),
        }
    }
    Ok(all)
}
