//! Streams.
#![tactic(auto)]

use sc_columns::Rows;
use sc_expr::Raise;

/// The content of a partition: rows, and at their end a raise or none.
#[derive(Drop)]
pub struct Stream {
    /// The rows before the raise.
    pub rows: Rows,
    /// What ended the rows, where something did.
    pub raise: Option<Raise>,
}
