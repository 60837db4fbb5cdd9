//! The keys of rows.
#![tactic(auto)]

ghost use Rattle.std.specs.Prelude.{◌≡◌, IfOk, map};
ghost use Rattle.sc_lineage.specs.Keyed.{key_of};

use sc_batch::halves;
use sc_columns::Rows;
use sc_keys::Keys;
use std::alloc::{AllocError, Global};

/// The keys of rows.
pub fn keys_of(alloc: Global, rows: &Rows) -> Result<Keys, AllocError>
    ensures { IfOk result (λ k. k ≡ map key_of rows.now) }
{
    let both = halves(alloc, rows)?;
    Keys::of(alloc, &both.first)
}
