//! One item of each list.
#![tactic(auto)]

ghost use Rattle.std.specs.Prelude.{◌≡◌, ◌<◌, [], ◌∷◌, pos, if◌then◌else◌, IfOk, IfSome, Some, length, map, nat_lt, replicate};
ghost use Rattle.std.specs.List.{All};
ghost use Rattle.sc_value.specs.Datum.{number};
ghost use Rattle.sc_value.specs.Picked.{ArePlaces, picked as items_picked};
ghost use Rattle.sc_value.specs.Words.{cut_at, words_of};
ghost use Rattle.sc_columns.specs.Columns.{group_at, texts_value, zip_with};
ghost use Rattle.sc_columns.specs.Parts.{AreLists};
ghost use Rattle.sc_expr.specs.declared.exprs.Head.TheVariants as heads;
ghost use Rattle.sc_expr.specs.declared.exprs.Raise.TheVariants.{OutOfRange};
ghost use Rattle.sc_batch.specs.Items.{list_in};
ghost use Rattle.sc_batch.specs.Lists.{place_in};
ghost use Rattle.sc_batch.specs.Made.{rows_made};
ghost use Rattle.sc_batch.specs.Outcomes.{of_two, until_raise};
ghost use Rattle.sc_batch.specs.Places.{IsPlace};

use crate::by_rows::{AtRows, by_rows};
use crate::columns::Column;
use crate::items::{Items, ints_of, item_at};
use crate::pieces::Pieces;
use crate::texts::texts;
use sc_columns::{Lists, Rows};
use sc_expr::{Head, Raise};
use sc_lineage::Stream;
use sc_value::{Span, Texts};
use std::alloc::{AllocError, Global};

/// The item of each list at a place, up to the first list that has none there. One word or one
/// piece of each text is found where it is, and the others aren't made.
pub(crate) fn nth(
    alloc: Global,
    first: Column,
    second: &Rows,
    end: Option<Raise>,
) -> Result<Stream, AllocError>
    ensures { IfOk result (λ s. s
        ≡ until_raise (zip_with (of_two heads.Nth) (rows_made first) second.now) end) }
{
    match first {
        Column::Rows(rows) => nth_of_rows(alloc, &rows, second, end),
        Column::Words(texts) => match place_of(second) {
            Some(place) => nth_words(alloc, &texts, place, end),
            None => nth_of_rows(alloc, &Rows::words(alloc, &texts)?, second, end),
        },
        Column::Pieces(pieces) => match place_of(second) {
            Some(place) => nth_pieces(alloc, &pieces, place, end),
            None => {
                let rows = Rows::cut(alloc, &pieces.texts, pieces.separator)?;
                nth_of_rows(alloc, &rows, second, end)
            }
        },
    }
}

/// One place at so many rows.
#[derive(Clone, Copy)]
struct Place {
    at: usize,
    rows: usize,
}

/// The place that each row is, where it isn't negative and is held once for all.
fn place_of(rows: &Rows) -> Option<Place>
    ensures { IfSome result (IsPlace rows.now) }
{
    match ints_of(rows) {
        Some(Items::Same(n, rows)) => match natural(n) {
            Some(at) => Some(Place { at, rows }),
            None => None,
        },
        _ => None,
    }
}

/// A number that isn't negative, as a place.
fn natural(n: &i64) -> Option<usize>
    ensures { IfSome result (λ at. n.now ≡ pos at) }
{
    let n = *n;
    if n < 0 {
        return None;
    }
    Some(n as usize)
}

/// A word of each text.
fn nth_words(
    alloc: Global,
    all: &Texts,
    place: Place,
    end: Option<Raise>,
) -> Result<Stream, AllocError>
    ensures { IfOk result (λ s. s ≡ until_raise (zip_with (of_two heads.Nth)
        (map texts_value (map words_of all.now)) (replicate place.rows (number (pos place.at))))
        end) }
{
    let some = all.part(0, all.len().min(place.rows))?;
    let found = some.nth_words(alloc, place.at)?;
    let raise = ended(found.len(), some.len(), end);
    texts(alloc, found, raise)
}

/// A piece of each text.
fn nth_pieces(
    alloc: Global,
    all: &Pieces,
    place: Place,
    end: Option<Raise>,
) -> Result<Stream, AllocError>
    ensures { IfOk result (λ s. s ≡ until_raise (zip_with (of_two heads.Nth)
        (map texts_value (map (cut_at (all.now.separator ∷ [])) all.now.texts))
        (replicate place.rows (number (pos place.at)))) end) }
{
    let some = all.texts.part(0, all.texts.len().min(place.rows))?;
    let found = some.nth_cuts(alloc, all.separator, place.at)?;
    let raise = ended(found.len(), some.len(), end);
    texts(alloc, found, raise)
}

/// What ends rows of which so many have an item.
fn ended(some: usize, all: usize, end: Option<Raise>) -> Option<Raise>
    ensures { result ≡ (if nat_lt some all then Some OutOfRange else end) }
{
    if some < all {
        Some(Raise::OutOfRange)
    } else {
        end
    }
}

/// The item of each row at a place.
fn nth_of_rows(
    alloc: Global,
    first: &Rows,
    second: &Rows,
    end: Option<Raise>,
) -> Result<Stream, AllocError>
    ensures { IfOk result (λ s. s
        ≡ until_raise (zip_with (of_two heads.Nth) first.now second.now) end) }
{
    match first.as_lists()? {
        Some(lists) => match ints_of(second) {
            Some(at) => nth_of_lists(alloc, first, &lists, at, end),
            None => by_rows(alloc, AtRows::Two(Head::Nth, first, second), end),
        },
        None => by_rows(alloc, AtRows::Two(Head::Nth, first, second), end),
    }
}

/// The item of each range at a place, where the ranges are rows.
fn nth_of_lists(
    alloc: Global,
    rows: &Rows,
    lists: &Lists,
    at: Items<'_, i64>,
    end: Option<Raise>,
) -> Result<Stream, AllocError>
    requires { AreLists rows.now lists.now }
    ensures { IfOk result (λ s. s ≡ until_raise
        (zip_with (of_two heads.Nth) rows.now (map number (list_in at.entry))) end) }
{
    let spans = lists.spans.as_slice();
    let count = spans.len().min(at.len());
    let mut places = Vec::with_capacity(alloc, count)?;
    for i in 0..count {
        match item_place(item_at(spans, i), at.at(i)) {
            Some(place) => places.push(place)?,
            None => return picked(alloc, &lists.items, &places, Some(Raise::OutOfRange)),
        }
    }
    picked(alloc, &lists.items, &places, end)
}

/// Where an item of a range lies, if it has so many.
#[inline(always)]
fn item_place(span: Span, at: i64) -> Option<u32>
    ensures { result ≡ place_in span at }
{
    if at < 0 {
        return None;
    }
    let at = at as u64;
    if at < u64::from(span.to.saturating_sub(span.from)) {
        Some(span.from + at as u32)
    } else {
        None
    }
}

/// The items at some places, and what ended them.
fn picked(
    alloc: Global,
    items: &Rows,
    places: &[u32],
    raise: Option<Raise>,
) -> Result<Stream, AllocError>
    requires { ArePlaces items.now places.now }
    ensures { IfOk result
        (λ s. s ≡ record { rows = items_picked items.now places.now; raise = raise }) }
{
    Ok(Stream {
        rows: items.picked(alloc, places)?,
        raise,
    })
}
