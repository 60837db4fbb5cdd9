//! Rows in the order of their keys.
#![tactic(auto)]

ghost use Rattle.std.specs.Prelude.{◌≡◌, IfOk};
ghost use Rattle.sc_lineage.specs.Keyed.{in_key_order as in_order_of};

use crate::columns::keys_of;
use sc_columns::Rows;
use sc_part::rows_are_sorted;
use std::alloc::{AllocError, Global};

/// The rows in the order of their keys; those under one key stay in order.
pub fn in_key_order(alloc: Global, rows: &Rows) -> Result<Rows, AllocError>
    ensures { IfOk result (λ r. r ≡ in_order_of rows.now) }
{
    rows_are_sorted();
    let keys = keys_of(alloc, rows)?;
    let order = keys.order(alloc)?;
    let sorted = rows.picked(alloc, &order)?;
    Ok(sorted)
}
