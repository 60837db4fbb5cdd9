//! Streams that nothing is done with any more.
#![tactic(auto)]

ghost use Rattle.std.specs.Prelude.{◌≡◌, IfOk};
ghost use Rattle.sc_lineage.specs.Streams.{ended_stream};

use sc_columns::{Rows, RowsBuilder};
use sc_expr::Raise;
use sc_lineage::Stream;
use std::alloc::{AllocError, Global};

/// The same stream again, which copies no row.
pub fn share(stream: &Stream) -> Result<Stream, AllocError>
    ensures { IfOk result (λ s. s ≡ stream.now) }
{
    Ok(Stream {
        rows: stream.rows.share()?,
        raise: stream.raise,
    })
}

/// No rows, and a raise or none.
pub fn ended(alloc: Global, raise: Option<Raise>) -> Result<Stream, AllocError>
    ensures { IfOk result (λ s. s ≡ ended_stream raise) }
{
    Ok(Stream {
        rows: Rows::of(alloc, Vec::new(alloc))?,
        raise,
    })
}

/// Rows that are done, with what ended them.
pub fn finished(
    alloc: Global,
    rows: RowsBuilder,
    raise: Option<Raise>,
) -> Result<Stream, AllocError>
    ensures { IfOk result (λ s. s ≡ record { rows = rows; raise = raise }) }
{
    Ok(Stream {
        rows: rows.finish(alloc)?,
        raise,
    })
}
