//! Columns of texts, and heads over two of them.
#![tactic(auto)]

ghost use Rattle.std.specs.Prelude.{◌≡◌, ◌<◌, ◌++◌, IfOk, IfSome, Some, length, map, slice_get};
ghost use Rattle.sc_value.specs.Datum.{text as text_datum, truth};
ghost use Rattle.sc_value.specs.Views.{datum_of};
ghost use Rattle.sc_columns.specs.Columns.{zip_with};
ghost use Rattle.sc_batch.specs.Outcomes.{of_two, until_raise};
ghost use Rattle.sc_batch.specs.Texts.{joined, text_test, texts_in};

use crate::items::truths;
use crate::text_tests::{
    LessOrSameText, LessText, SameText, TextTest, each_with_one, one_with_each,
};
use sc_columns::Rows;
use sc_expr::{Head, Raise};
use sc_lineage::Stream;
use sc_value::{Texts, TextsBuilder, Value};
use std::alloc::{AllocError, Global};

/// A column of texts.
#[derive(Clone, Copy)]
pub(crate) enum TextColumn<'a> {
    /// A text for each row.
    Each(&'a Texts),
    /// One text so many times.
    Same(&'a str, usize),
}

/// The texts of rows, where they are held so. None is always a right answer.
pub(crate) fn texts_of(rows: &Rows) -> Option<TextColumn<'_>>
    ensures { IfSome result (λ v. rows.now ≡ map text_datum (texts_in v)) }
{
    match rows.as_texts() {
        Some(all) => Some(TextColumn::Each(all)),
        None => match rows.as_repeated() {
            Some(value) => match text_in(value) {
                Some(text) => Some(TextColumn::Same(text, rows.len())),
                None => None,
            },
            None => None,
        },
    }
}

/// The text that a value is, where it is one.
fn text_in(value: &Value) -> Option<&str>
    ensures { IfSome result (λ t. datum_of value.now ≡ text_datum t.now) }
{
    match value {
        Value::Text(text) => Some(text.as_str()),
        _ => None,
    }
}

impl<'a> TextColumn<'a> {
    /// How many texts there are.
    pub(crate) fn len(self) -> usize
        ensures { result ≡ length (texts_in self.entry) }
    {
        match self {
            TextColumn::Each(all) => all.len(),
            TextColumn::Same(_, n) => n,
        }
    }

    /// The text at a place.
    #[inline(always)]
    pub(crate) fn at(self, i: usize) -> &'a str
        requires { i < length (texts_in self) }
        ensures { slice_get (texts_in self.entry) i ≡ Some result.now }
    {
        match self {
            TextColumn::Each(all) => all.get(i),
            TextColumn::Same(text, _) => text,
        }
    }

    /// About how many bytes so many of the texts take: a guess, for a reservation.
    pub(crate) fn likely_len(self, count: usize) -> usize {
        match self {
            TextColumn::Each(all) => all.extent().min(count.saturating_mul(128)),
            TextColumn::Same(text, _) => text.len().saturating_mul(count),
        }
    }
}

/// A head over two columns of texts, where it is one of texts.
pub(crate) fn two_texts(
    alloc: Global,
    head: Head,
    first: TextColumn<'_>,
    second: TextColumn<'_>,
    end: Option<Raise>,
) -> Result<Option<Stream>, AllocError>
    ensures { IfOk result (λ o. IfSome o (λ s. s ≡ until_raise
        (zip_with (λ x y. of_two head (text_datum x) (text_datum y))
        (texts_in first.entry) (texts_in second.entry)) end)) }
{
    match head {
        Head::Eq => Ok(Some(comparisons(alloc, SameText, first, second, end)?)),
        Head::Lt => Ok(Some(comparisons(alloc, LessText, first, second, end)?)),
        Head::Le => Ok(Some(comparisons(alloc, LessOrSameText, first, second, end)?)),
        Head::Concat => Ok(Some(texts(alloc, concatenated(alloc, first, second)?, end)?)),
        _ => Ok(None),
    }
}

/// How two columns of texts compare.
fn comparisons<T: TextTest>(
    alloc: Global,
    head: T,
    first: TextColumn<'_>,
    second: TextColumn<'_>,
    end: Option<Raise>,
) -> Result<Stream, AllocError>
    ensures { IfOk result (λ s. s ≡ record {
      rows = map truth
          (zip_with (text_test (T.head head)) (texts_in first.entry) (texts_in second.entry));
      raise = end;
    }) }
{
    truths(alloc, tests(alloc, head, first, second)?, end)
}

/// The truth value of each comparison.
fn tests<T: TextTest>(
    alloc: Global,
    head: T,
    first: TextColumn<'_>,
    second: TextColumn<'_>,
) -> Result<Vec<bool>, AllocError>
    ensures { IfOk result (λ v. v.items
        ≡ zip_with (text_test (T.head head)) (texts_in first.entry) (texts_in second.entry)) }
{
    match first {
        TextColumn::Each(all) => match second {
            TextColumn::Same(one, n) => each_with_one(alloc, head, all, one, n),
            TextColumn::Each(_) => each_with_each(alloc, head, first, second),
        },
        TextColumn::Same(one, n) => match second {
            TextColumn::Each(all) => one_with_each(alloc, head, one, n, all),
            TextColumn::Same(_, _) => each_with_each(alloc, head, first, second),
        },
    }
}

/// The same, of columns of any kind.
fn each_with_each<T: TextTest>(
    alloc: Global,
    head: T,
    first: TextColumn<'_>,
    second: TextColumn<'_>,
) -> Result<Vec<bool>, AllocError>
    ensures { IfOk result (λ v. v.items
        ≡ zip_with (text_test (T.head head)) (texts_in first.entry) (texts_in second.entry)) }
{
    let count = first.len().min(second.len());
    let mut out = Vec::with_capacity(alloc, count)?;
    for i in 0..count {
        out.push(head.test(first.at(i), second.at(i)))?;
    }
    Ok(out)
}

/// The texts of one column, each with that of another behind it.
fn concatenated(
    alloc: Global,
    first: TextColumn<'_>,
    second: TextColumn<'_>,
) -> Result<Texts, AllocError>
    ensures { IfOk result
        (λ t. t ≡ zip_with joined (texts_in first.entry) (texts_in second.entry)) }
{
    let count = first.len().min(second.len());
    let likely_len = first
        .likely_len(count)
        .saturating_add(second.likely_len(count));
    let mut out = TextsBuilder::with_capacity(alloc, count, likely_len)?;
    for i in 0..count {
        out.write(first.at(i))?;
        out.push(second.at(i))?;
    }
    out.finish(alloc)
}

/// Texts as rows, and what ended them.
pub(crate) fn texts(alloc: Global, texts: Texts, raise: Option<Raise>) -> Result<Stream, AllocError>
    ensures { IfOk result (λ s. s ≡ record { rows = map text_datum texts; raise = raise }) }
{
    Ok(Stream {
        rows: Rows::of_texts(alloc, texts)?,
        raise,
    })
}
