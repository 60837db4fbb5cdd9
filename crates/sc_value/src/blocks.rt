//! Bytes that are copied by blocks.
#![tactic(auto)]

ghost use Rattle.std.specs.Prelude.{◌≡◌, ◌≤◌, ◌++◌, if◌then◌else◌, is_ok, length};
ghost use Rattle.sc_value.specs.Spans.{part_at};

use crate::texts::Span;
use std::alloc::AllocError;

/// How many bytes are copied at once.
const BLOCK: usize = 16;

/// Appends a part of some bytes, or nothing where memory runs out.
///
/// A short part is copied as one block, and what is too much of it is taken back: so there is no
/// loop over its bytes, whose end a processor would have to guess.
#[inline(always)]
pub fn append_part(bytes: &[u8], part: Span, out: &mut Vec<u8>) -> Result<(), AllocError>
    requires ordered { part.from ≤ part.to }
    requires within { part.to ≤ length bytes.now }
    ensures { out.new.items ≡ (if is_ok result
        then out.old.items ++ part_at bytes.now part else out.old.items) }
{
    let from = part.from as usize;
    let to = part.to as usize;
    let len = to - from;
    if len > BLOCK || bytes.len() - from < BLOCK {
        return out.extend_from_slice(&bytes[from..to]);
    }
    let end = out.len() + len;
    out.extend_from_slice(&bytes[from..from + BLOCK])?;
    out.truncate(end);
    Ok(())
}
