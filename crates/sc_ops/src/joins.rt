//! Streams one behind another.
#![tactic(auto)]

ghost use Rattle.std.specs.Prelude.{◌≡◌, IfOk};
ghost use Rattle.sc_lineage.specs.Streams.{joined_streams};

use crate::streams::{ended, share};
use sc_columns::Rows;
use sc_lineage::Stream;
use std::alloc::{AllocError, Global};

/// Streams one behind another, up to the first raise, of which no row is copied.
///
/// They are put together half by half, so that what reads a row afterwards goes through no more
/// joints than the number of streams has digits.
pub fn joined(alloc: Global, streams: &[Stream]) -> Result<Stream, AllocError>
    ensures { IfOk result (λ s. s ≡ joined_streams streams.now) }
{
    match streams {
        [] => ended(alloc, None),
        [one] => share(one),
        _ => {
            let (left, right) = streams.split_at(streams.len() / 2);
            let first = joined(alloc, left)?;
            if first.raise.is_some() {
                return Ok(first);
            }
            let second = joined(alloc, right)?;
            Ok(Stream {
                rows: Rows::concat(alloc, first.rows, second.rows)?,
                raise: second.raise,
            })
        }
    }
}
