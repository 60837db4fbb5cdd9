//! What the driver makes of the results of all partitions.
#![tactic(auto)]

ghost use Rattle.std.specs.Prelude.{◌≡◌, All, IfOk, List, ℕ, map};
ghost use Rattle.std.specs.List.{flat_map};
ghost use Rattle.sc_value.specs.Datum.{Datum};
ghost use Rattle.sc_lineage.specs.Actions.{outcome_of_rows};
ghost use Rattle.sc_lineage.specs.Meaning.{bounds_between as bounds_of_streams, local_streams};
ghost use Rattle.sc_lineage.specs.NodeData.{shuffle_node, sort_by_key};
ghost use Rattle.sc_lineage.specs.ScriptData.{WorkData};
ghost use Rattle.sc_lineage.specs.Streams.{whole_stream};
ghost use Rattle.sc_lineage.specs.Views.{action_data_of};
ghost use Rattle.sc_compute.specs.Evaluations.{Gives, Settles};
ghost use Rattle.sc_compute.specs.Gathering.{IsGathered};
ghost use Rattle.sc_compute.specs.Results.{AreResultsOf, HasRows, IsFor, result_by, rows_told};
ghost use Rattle.sc_compute.specs.Stages.{bounds_at, node_at};

use crate::evaluation::Evaluated;
use crate::gathered::Gathered;
use crate::results::TaskResult;
use sc_combine::bounds_between;
use sc_lineage::{Action, Stream};
use sc_part::Bounds;
use std::alloc::{AllocError, Global};

/// What an action gives, by the results of all its partitions in order, of which none raises. The
/// rows of each are let go once they were printed.
pub fn settle(
    alloc: Global,
    action: &Action,
    results: Vec<TaskResult>,
) -> Result<Evaluated, AllocError>
    requires { All (IsFor (action_data_of action.now)) results.items }
    ensures settles { (rows : List (List Datum))
        → results.items ≡ map (result_by (action_data_of action.now)) rows
        → IfOk result (Settles (outcome_of_rows (action_data_of action.now) rows)) }
    ensures gives { (work : WorkData)
        → AreResultsOf work (action_data_of action.now) results.items
        → IfOk result (Gives work (action_data_of action.now)) }
{
    let gathered = all_gathered(alloc, action, results)?;
    gathered.outcome(alloc)
}

/// The rows of all results together.
fn all_gathered<'a>(
    alloc: Global,
    action: &'a Action,
    results: Vec<TaskResult>,
) -> Result<Gathered<'a>, AllocError>
    requires { All (IsFor (action_data_of action.now)) results.items }
    ensures { IfOk result (λ g. IsGathered (action_data_of action.now) g
        (flat_map rows_told results.items)) }
{
    let mut gathered = Gathered::new(alloc, action);
    let mut left = u32::try_from(results.len()).unwrap_or(u32::MAX);
    for result in results {
        gathered.add(alloc, &result, left)?;
        left = left.saturating_sub(1);
    }
    Ok(gathered)
}

/// The bounds of a sort into at most `n` partitions, by the rows of all partitions of its parent in
/// order, of which none raises.
pub fn bounds_of_results(
    alloc: Global,
    n: u32,
    results: &[TaskResult],
) -> Result<Bounds, AllocError>
    requires { All HasRows results.now }
    ensures between { IfOk result (λ b. b
        ≡ bounds_of_streams (map whole_stream (map rows_told results.now)) n) }
    ensures of_sort { (work : WorkData) (node parent : ℕ)
        → node_at work node ≡ shuffle_node sort_by_key parent n
        → local_streams work parent ≡ map whole_stream (map rows_told results.now)
        → IfOk result (λ b. b ≡ bounds_at work node) }
{
    let streams = whole_streams(alloc, results)?;
    bounds_between(alloc, &streams, n)
}

/// Rows as streams that don't raise.
fn whole_streams(alloc: Global, sides: &[TaskResult]) -> Result<Vec<Stream>, AllocError>
    requires { All HasRows sides.now }
    ensures { IfOk result (λ v. v.items ≡ map whole_stream (map rows_told sides.now)) }
{
    let mut streams = Vec::with_capacity(alloc, sides.len())?;
    for side in sides {
        streams.push(Stream {
            rows: side.rows().share()?,
            raise: None,
        })?;
    }
    Ok(streams)
}
