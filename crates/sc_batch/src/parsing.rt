//! The numbers that texts write.
#![tactic(auto)]

ghost use Rattle.std.specs.Prelude.{◌≡◌, IfOk, map};
ghost use Rattle.sc_value.specs.Datum.{text as text_datum};
ghost use Rattle.sc_expr.specs.Heads.{raise_of_number};
ghost use Rattle.sc_expr.specs.declared.exprs.Head.TheVariants as heads;
ghost use Rattle.sc_batch.specs.Outcomes.{of_one, until_raise};

use crate::items::ints;
use sc_expr::Raise;
use sc_lineage::Stream;
use sc_value::{NumberFault, Texts, parse_int};
use std::alloc::{AllocError, Global};

/// The number that each text writes, up to the first that writes none.
pub(crate) fn parsed(alloc: Global, texts: &Texts, end: Option<Raise>) -> Result<Stream, AllocError>
    ensures { IfOk result
        (λ s. s ≡ until_raise (map (λ t. of_one heads.Int (text_datum t)) texts.now) end) }
{
    let mut out = Vec::with_capacity(alloc, texts.len())?;
    for i in 0..texts.len() {
        match parse_int(texts.get(i)) {
            Ok(n) => out.push(n)?,
            Err(fault) => return ints(alloc, out, Some(raise_of(fault))),
        }
    }
    ints(alloc, out, end)
}

/// The raise of a text that writes no number.
fn raise_of(fault: NumberFault) -> Raise
    ensures { result ≡ raise_of_number fault }
{
    match fault {
        NumberFault::NotANumber => Raise::NotANumber,
        NumberFault::OutOfRange => Raise::OutOfRange,
    }
}
