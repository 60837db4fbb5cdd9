//! Where pieces of texts lie.
#![tactic(auto)]

ghost use Rattle.std.specs.Prelude.{◌≡◌, ◌≤◌, ◌++◌, [], ◌∷◌, OnOk};
ghost use Rattle.sc_base.specs.Limits.{count_limit};

use crate::texts::Span;
use sc_base::COUNT_LIMIT;
use std::alloc::AllocError;

/// Where the pieces of texts lie, and for each text a range of its pieces.
pub(crate) struct Pieces {
    pub items: Vec<Span>,
    pub lists: Vec<Span>,
}

/// Adds a range of items as a list.
///
/// # Errors
///
/// Memory is wanting, or the range ends behind [`COUNT_LIMIT`] items.
pub(crate) fn push_list(lists: &mut Vec<Span>, from: usize, to: usize) -> Result<(), AllocError>
    requires { from ≤ to }
    ensures lists { OnOk result
        (lists.new.items ≡ lists.old.items ++ record { from = from; to = to } ∷ []) }
    ensures within { OnOk result (to ≤ count_limit) }
{
    if to > COUNT_LIMIT {
        return Err(AllocError);
    }
    lists.push(Span {
        from: from as u32,
        to: to as u32,
    })?;
    Ok(())
}
