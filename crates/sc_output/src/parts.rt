//! What stands in a part.
#![tactic(auto)]

ghost use Rattle.std.specs.Prelude.{◌≡◌, IfOk};
ghost use Rattle.sc_value.specs.Printing.{printed_lines};

use sc_columns::Rows;
use std::alloc::{AllocError, Global};

/// The text of a part: the printed text of each row and a line feed, straight from its column.
pub fn part_text(alloc: Global, rows: &Rows) -> Result<Vec<u8>, AllocError>
    ensures { IfOk result (λ text. text.items ≡ printed_lines rows.now) }
{
    let mut text = Vec::with_capacity(alloc, rows.printed_len_hint())?;
    rows.print_lines(&mut text)?;
    Ok(text)
}
