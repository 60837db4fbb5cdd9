//! Merges of typed columns.
#![tactic(auto)]

ghost use Rattle.std.specs.Prelude.{◌≡◌, IfOk, map};
ghost use Rattle.sc_value.specs.Datum.{text as text_datum};
ghost use Rattle.sc_batch.specs.Choices.{as_rows, merged, stream_from};
ghost use Rattle.sc_batch.specs.Items.{list_in};
ghost use Rattle.sc_batch.specs.Texts.{texts_in};

use crate::items::Items;
use crate::texts::{TextColumn, texts};
use sc_expr::Raise;
use sc_lineage::Stream;
use sc_value::TextsBuilder;
use std::alloc::{AllocError, Global};

/// Items that were merged, and what ended them.
pub(crate) struct Merged<T> {
    /// The items.
    pub items: Vec<T>,
    /// What ended them, where something did.
    pub raise: Option<Raise>,
}

/// By marks the next item of one column or of another, up to where that one has no more, each with
/// what ends it there.
pub(crate) fn merge<T: Copy>(
    alloc: Global,
    marks: &[bool],
    yes: Items<'_, T>,
    yes_end: Option<Raise>,
    no: Items<'_, T>,
    no_end: Option<Raise>,
    end: Option<Raise>,
) -> Result<Merged<T>, AllocError>
    ensures { IfOk result (λ m. (m.items.items, m.raise) ≡ merged marks.now
        (list_in yes.entry) yes_end (list_in no.entry) no_end end) }
{
    let mut items = Vec::with_capacity(alloc, marks.len())?;
    let mut from_yes = 0;
    let mut from_no = 0;
    for i in 0..marks.len() {
        if marks[i] {
            if from_yes >= yes.len() {
                return Ok(Merged {
                    items,
                    raise: yes_end,
                });
            }
            items.push(yes.at(from_yes))?;
            from_yes += 1;
        } else {
            if from_no >= no.len() {
                return Ok(Merged {
                    items,
                    raise: no_end,
                });
            }
            items.push(no.at(from_no))?;
            from_no += 1;
        }
    }
    Ok(Merged { items, raise: end })
}

/// By marks the next text of one column or of another, up to where that one has no more.
pub(crate) fn merge_texts(
    alloc: Global,
    marks: &[bool],
    yes: TextColumn<'_>,
    yes_end: Option<Raise>,
    no: TextColumn<'_>,
    no_end: Option<Raise>,
    end: Option<Raise>,
) -> Result<Stream, AllocError>
    ensures { IfOk result (λ s. s ≡ stream_from (as_rows text_datum (merged marks.now
        (texts_in yes.entry) yes_end (texts_in no.entry) no_end end))) }
{
    let likely_len = likely_len(yes).saturating_add(likely_len(no));
    let mut out = TextsBuilder::with_capacity(alloc, marks.len(), likely_len)?;
    let mut from_yes = 0;
    let mut from_no = 0;
    for i in 0..marks.len() {
        if marks[i] {
            if from_yes >= yes.len() {
                return written(alloc, out, yes_end);
            }
            out.push(yes.at(from_yes))?;
            from_yes += 1;
        } else {
            if from_no >= no.len() {
                return written(alloc, out, no_end);
            }
            out.push(no.at(from_no))?;
            from_no += 1;
        }
    }
    written(alloc, out, end)
}

/// About how many bytes a column of texts takes: a guess, for a reservation.
fn likely_len(column: TextColumn<'_>) -> usize {
    column.likely_len(column.len())
}

/// Texts that are done, with what ended them.
fn written(alloc: Global, out: TextsBuilder, raise: Option<Raise>) -> Result<Stream, AllocError>
    ensures { IfOk result
        (λ s. s ≡ record { rows = map text_datum out.texts; raise = raise }) }
{
    texts(alloc, out.finish(alloc)?, raise)
}
