//! Rows of a partition.
#![tactic(auto)]

ghost use Rattle.std.specs.Arc.{arc_value};
ghost use Rattle.std.specs.Prelude.{◌≡◌, ◌==◌, ◌<◌, ◌++◌, [], ◌∷◌, IfOk, Some, length, map, slice_get, replicate};
ghost use Rattle.sc_value.specs.Datum.{number, truth, text, pair};
ghost use Rattle.sc_value.specs.Views.{datum_of};
ghost use Rattle.sc_value.specs.Words.{cut_at, words_of};
ghost use Rattle.sc_columns.specs.Columns.{group_at, rows_in, texts_value, zip_with};

use crate::columns::{self, Shared};
use crate::gets::{Found, find};
use sc_value::{Held, Span, TextLists, Texts, Value};
use std::alloc::{AllocError, Global};
use std::marker::Model;
use std::sync::Arc;

/// The rows of a partition, seen by contracts as a list of data.
///
/// To share them copies nothing. A row is read as a value of its own by [`Rows::row`]; a view such
/// as [`Rows::as_texts`] lends the rows as they are held, where they are held so, and None is
/// always a right answer.
#[derive(Drop)]
pub struct Rows {
    column: Shared,
    len: usize,
}

impl Model for Rows {
    ghost use Rattle.std.specs.Prelude.{◌≡◌, List, length};
    ghost use Rattle.std.specs.Arc.{arc_value};
    ghost use Rattle.std.specs.Coded.{coded_list};
    ghost use Rattle.sc_value.specs.Datum.{Datum};
    ghost use Rattle.sc_value.specs.DatumCode.{datum_code};
    ghost use Rattle.sc_columns.specs.Columns.{rows_in};

    ghost Value = { List Datum };

    ghost coded = { coded_list datum_code };

    ghost view = { λ r. rows_in (arc_value r.column) };

    ghost invariant = { λ r. length (rows_in (arc_value r.column)) ≡ r.len };
}

impl Rows {
    /// The rows of a column.
    pub(crate) fn of_column(column: Shared) -> Result<Rows, AllocError>
        ensures { IfOk result (λ r. r ≡ rows_in (arc_value column)) }
    {
        let len = columns::len(&column);
        if len == usize::MAX {
            return Err(AllocError);
        }
        Ok(Rows { column, len })
    }

    /// The column that holds the rows.
    pub(crate) fn column(&self) -> &Shared
        ensures { rows_in (arc_value result.now) ≡ self.now }
    {
        &self.column
    }

    /// Numbers as rows.
    pub fn of_ints(alloc: Global, items: Vec<i64>) -> Result<Rows, AllocError>
        ensures { IfOk result (λ r. r ≡ map number items.items) }
    {
        Rows::of_column(columns::ints(alloc, Held::new(alloc, items)?)?)
    }

    /// Truth values as rows.
    pub fn of_bools(alloc: Global, items: Vec<bool>) -> Result<Rows, AllocError>
        ensures { IfOk result (λ r. r ≡ map truth items.items) }
    {
        Rows::of_column(columns::bools(alloc, Held::new(alloc, items)?)?)
    }

    /// Texts as rows.
    pub fn of_texts(alloc: Global, texts: Texts) -> Result<Rows, AllocError>
        ensures { IfOk result (λ r. r ≡ map text texts) }
    {
        Rows::of_column(columns::texts(alloc, texts)?)
    }

    /// Values as rows.
    pub fn of(alloc: Global, values: Vec<Value>) -> Result<Rows, AllocError>
        ensures { IfOk result (λ r. r ≡ map datum_of values.items) }
    {
        Rows::of_column(columns::values(alloc, Held::new(alloc, values)?)?)
    }

    /// One value so many times, which is held once.
    pub fn repeated(alloc: Global, value: Value, n: usize) -> Result<Rows, AllocError>
        ensures { IfOk result (λ r. r ≡ replicate n (datum_of value)) }
    {
        Rows::of_column(columns::same(alloc, Arc::new(alloc, value)?, n)?)
    }

    /// Pairs of the rows at each place, up to the end of the shorter.
    pub fn pairs(alloc: Global, first: Rows, second: Rows) -> Result<Rows, AllocError>
        ensures { IfOk result (λ r. r ≡ zip_with pair first second) }
    {
        let Rows { column: a, .. } = first;
        let Rows { column: b, .. } = second;
        Rows::of_column(columns::pairs(alloc, a, b)?)
    }

    /// Rows behind others, of which none is copied. To put many runs of rows behind one another,
    /// use [`crate::RowsBuilder::append`].
    pub fn concat(alloc: Global, first: Rows, second: Rows) -> Result<Rows, AllocError>
        ensures { IfOk result (λ r. r ≡ first ++ second) }
    {
        let Rows { column: a, .. } = first;
        let Rows { column: b, .. } = second;
        Rows::of_column(columns::chained(alloc, a, b)?)
    }

    /// Lists as rows, each of them a range of the same items, as far as these go.
    pub fn of_lists(alloc: Global, spans: Vec<Span>, items: Rows) -> Result<Rows, AllocError>
        ensures { IfOk result (λ r. r ≡ map (group_at items) spans.items) }
    {
        let Rows { column: items, .. } = items;
        Rows::of_column(columns::lists(alloc, Held::new(alloc, spans)?, items)?)
    }

    /// The words of each text as a list. They lie in the same bytes.
    pub fn words(alloc: Global, texts: &Texts) -> Result<Rows, AllocError>
        ensures { IfOk result (λ r. r ≡ map texts_value (map words_of texts.now)) }
    {
        let TextLists { items, lists } = texts.words(alloc)?;
        Rows::of_lists(alloc, lists, Rows::of_texts(alloc, items)?)
    }

    /// The pieces of each text between the occurrences of an ASCII character as a list, empty ones
    /// kept. They lie in the same bytes.
    pub fn cut(alloc: Global, texts: &Texts, separator: u8) -> Result<Rows, AllocError>
        requires { separator < 128 }
        ensures { IfOk result
            (λ r. r ≡ map texts_value (map (cut_at (separator ∷ [])) texts.now)) }
    {
        let TextLists { items, lists } = texts.cut(alloc, separator)?;
        Rows::of_lists(alloc, lists, Rows::of_texts(alloc, items)?)
    }

    /// How many rows there are.
    pub fn len(&self) -> usize
        ensures { result ≡ length self.now }
    {
        self.len
    }

    /// Whether there is no row.
    pub fn is_empty(&self) -> bool
        ensures { result ≡ (length self.now == 0) }
    {
        self.len == 0
    }

    /// A copy of the row at a place.
    pub fn row(&self, alloc: Global, i: usize) -> Result<Value, AllocError>
        requires { i < length self.now }
        ensures { IfOk result (λ v. slice_get self.now i ≡ Some (datum_of v)) }
    {
        match find(alloc, &self.column, i)? {
            Found::Row(value) => Ok(value),
            Found::Past(_) => unreachable!(),
        }
    }

    /// The same rows again, which copies none of them.
    pub fn share(&self) -> Result<Rows, AllocError>
        ensures { IfOk result (λ r. r ≡ self.now) }
    {
        Ok(Rows {
            column: Arc::try_clone(&self.column)?,
            len: self.len,
        })
    }
}
