//! Rows as they are held.
#![tactic(auto)]

ghost use Rattle.std.specs.Arc.{arc_value};
ghost use Rattle.std.specs.Prelude.{◌≡◌, IfOk, IfSome, IsTrue, length, map, slice_range, replicate};
ghost use Rattle.std.specs.List.{All};
ghost use Rattle.sc_value.specs.Datum.{number, truth, text};
ghost use Rattle.sc_value.specs.Views.{datum_of};
ghost use Rattle.sc_columns.specs.Columns.{rows_in};
ghost use Rattle.sc_columns.specs.Parts.{AreLists, ArePairs, AreRuns, IsRange};

use crate::columns::{Column, Shared, len};
use crate::parts::part;
use crate::rows::Rows;
use sc_value::{Held, Span, Texts, Value};
use std::alloc::{AllocError, Global};
use std::sync::Arc;

/// Two columns of one length, or two runs of rows.
#[derive(Drop)]
pub struct Both {
    /// The first.
    pub first: Rows,
    /// The second.
    pub second: Rows,
}

/// Lists, each of them a range of the same items.
#[derive(Drop)]
pub struct Lists {
    /// Where the items of each list lie.
    pub spans: Held<Span>,
    /// The items. There may be more than the lists have.
    pub items: Rows,
}

impl Rows {
    /// The rows as numbers, where they are held so. None is always a right answer.
    pub fn as_ints(&self) -> Option<&[i64]>
        ensures { IfSome result (λ s. self.now ≡ map number s.now) }
    {
        match &**self.column() {
            Column::Ints(v) => Some(v.as_slice()),
            _ => None,
        }
    }

    /// The rows as truth values, where they are held so. None is always a right answer.
    pub fn as_bools(&self) -> Option<&[bool]>
        ensures { IfSome result (λ s. self.now ≡ map truth s.now) }
    {
        match &**self.column() {
            Column::Bools(v) => Some(v.as_slice()),
            _ => None,
        }
    }

    /// The rows as texts, where they are held so. None is always a right answer.
    pub fn as_texts(&self) -> Option<&Texts>
        ensures { IfSome result (λ t. self.now ≡ map text t.now) }
    {
        match &**self.column() {
            Column::Texts(t) => Some(t),
            _ => None,
        }
    }

    /// The value that each row is, where it is held once for all. None is always a right answer.
    pub fn as_repeated(&self) -> Option<&Value>
        ensures { IfSome result (λ v. self.now ≡ replicate (length self.now) (datum_of v.now)) }
    {
        match &**self.column() {
            Column::Same(v, _) => Some(&**v),
            _ => None,
        }
    }

    /// The first and the second parts of the rows, where they are held as pairs, of which none is
    /// copied. None is always a right answer.
    pub fn as_pairs(&self, alloc: Global) -> Result<Option<Both>, AllocError>
        ensures { IfOk result (λ o. IfSome o (ArePairs self.now)) }
    {
        match &**self.column() {
            Column::Pairs(a, b) => {
                let n = self.len();
                let first = Rows::of_column(front(alloc, a, n)?)?;
                let second = Rows::of_column(front(alloc, b, n)?)?;
                Ok(Some(Both { first, second }))
            }
            _ => Ok(None),
        }
    }

    /// The rows as ranges of items, where they are held so, of which none is copied. None is always
    /// a right answer.
    pub fn as_lists(&self) -> Result<Option<Lists>, AllocError>
        ensures { IfOk result (λ o. IfSome o (AreLists self.now)) }
    {
        match &**self.column() {
            Column::Lists(spans, items) => {
                let items = Rows::of_column(Arc::try_clone(items)?)?;
                if are_ranges(spans.as_slice(), items.len()) {
                    let spans = spans.share()?;
                    Ok(Some(Lists { spans, items }))
                } else {
                    Ok(None)
                }
            }
            _ => Ok(None),
        }
    }

    /// The rows as two runs, where they are held so, of which none is copied: what works on whole
    /// columns takes each run by itself. None is always a right answer.
    pub fn as_runs(&self) -> Result<Option<Both>, AllocError>
        ensures { IfOk result (λ o. IfSome o (AreRuns self.now)) }
    {
        match &**self.column() {
            Column::Chain(a, b) => {
                let first = Rows::of_column(Arc::try_clone(a)?)?;
                let second = Rows::of_column(Arc::try_clone(b)?)?;
                Ok(Some(Both { first, second }))
            }
            _ => Ok(None),
        }
    }
}

/// The first so many rows of a column.
fn front(alloc: Global, column: &Shared, n: usize) -> Result<Shared, AllocError>
    ensures { IfOk result
        (λ c. rows_in (arc_value c) ≡ slice_range (rows_in (arc_value column.now)) 0 n) }
{
    if len(column) <= n && n < usize::MAX {
        Arc::try_clone(column)
    } else {
        part(alloc, column, 0, n)
    }
}

/// Whether each range lies within so many items.
fn are_ranges(spans: &[Span], n: usize) -> bool
    ensures { IsTrue result → All (IsRange n) spans.now }
{
    spans
        .iter()
        .all(|span| span.from <= span.to && span.to as usize <= n)
}
