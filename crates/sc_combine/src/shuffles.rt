//! The map side and the reduce side of a shuffle.
#![tactic(auto)]

ghost use Rattle.sc_base.specs.Answers.{Answers};
ghost use Rattle.sc_lineage.specs.Shuffles.{map_side as map_side_of, reduce_side as reduce_side_of};
ghost use Rattle.sc_lineage.specs.Views.{shuffling_data_of};

use crate::combining::combined;
use crate::grouping::grouped;
use crate::sorting::in_key_order;
use sc_base::OrMemory;
use sc_columns::Rows;
use sc_expr::Raise;
use sc_lineage::{Shuffling, Stream};
use std::alloc::Global;

/// What goes into a shuffle from one map partition: its rows, which are shared, or for
/// `reduceByKey` each key once with its values put together.
///
/// # Errors
///
/// The first raise, of an expression over two values or of the rows' end, unless memory runs out.
pub fn map_side(alloc: Global, kind: &Shuffling, input: &Stream) -> Result<Rows, OrMemory<Raise>>
    ensures { Answers (λ rows. rows) (λ r. r) result
        (map_side_of (shuffling_data_of kind.now) input.now) }
{
    let rows = match kind {
        Shuffling::ReduceByKey { expr } => combined(alloc, expr, &input.rows)?,
        Shuffling::GroupByKey | Shuffling::SortByKey | Shuffling::Repartition => input
            .rows
            .share()?,
    };
    match input.raise {
        Some(raise) => Err(OrMemory::Fault(raise)),
        None => Ok(rows),
    }
}

/// What a partition makes of the rows of its bucket, in the order of the map partitions.
///
/// # Errors
///
/// The first raise of an expression over two values, unless memory runs out.
pub fn reduce_side(alloc: Global, kind: &Shuffling, rows: &Rows) -> Result<Rows, OrMemory<Raise>>
    ensures { Answers (λ rows. rows) (λ r. r) result
        (reduce_side_of (shuffling_data_of kind.now) rows.now) }
{
    match kind {
        Shuffling::ReduceByKey { expr } => combined(alloc, expr, rows),
        Shuffling::GroupByKey => Ok(grouped(alloc, rows)?),
        Shuffling::SortByKey => Ok(in_key_order(alloc, rows)?),
        Shuffling::Repartition => Ok(rows.share()?),
    }
}
