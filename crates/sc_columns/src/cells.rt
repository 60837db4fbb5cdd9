//! Rows of one kind, of which each is written by itself.
#![tactic(auto)]

ghost use Rattle.std.specs.Prelude.{◌<◌, ◌≡◌, ◌-◌, ◌^◌, List, length, map, min, slice_range};
ghost use Rattle.sc_value.specs.Datum.{Datum, items_of, number, pair, text};
ghost use Rattle.sc_value.specs.Printing.{printed_items};
ghost use Rattle.sc_columns.specs.Columns.{group_at, rows_in, zip_with};
ghost use Rattle.sc_columns.specs.Prints.{Writes, printed_at};

use crate::columns::{Column, len};
use crate::prints::{write_row, write_separator};
use itoa::Buffer;
use sc_value::{Span, Texts};
use std::alloc::AllocError;

/// Rows of one kind, of which each is written by itself.
pub(crate) trait Cells: Copy {
    /// The rows.
    ghost rows: { Self → List Datum };

    /// How many rows there are, or else the greatest number.
    fn count(self) -> usize
        ensures { result ≡ min (length (rows self)) (2 ^ 64 - 1) };

    /// Writes the printed text of a row, or a part of it where memory runs out.
    fn write(self, i: usize, digits: &mut Buffer, out: &mut Vec<u8>) -> Result<(), AllocError>
        requires { i < length (rows self) }
        ensures { Writes result out.old.items out.new.items (printed_at (rows self) i) };
}

impl<'a> Cells for &'a [i64] {
    ghost rows = { λ c. map number c.now };

    fn count(self) -> usize {
        self.len()
    }

    #[inline(always)]
    fn write(self, i: usize, digits: &mut Buffer, out: &mut Vec<u8>) -> Result<(), AllocError> {
        out.extend_from_slice(digits.format(self[i]).as_bytes())
    }
}

impl<'a> Cells for &'a Texts {
    ghost rows = { λ c. map text c.now };

    fn count(self) -> usize {
        self.len()
    }

    #[inline(always)]
    fn write(self, i: usize, _digits: &mut Buffer, out: &mut Vec<u8>) -> Result<(), AllocError> {
        self.append_to(i, out)
    }
}

/// Rows of any kind.
impl<'a> Cells for &'a Column {
    ghost rows = { λ c. rows_in c.now };

    fn count(self) -> usize {
        len(self)
    }

    fn write(self, i: usize, _digits: &mut Buffer, out: &mut Vec<u8>) -> Result<(), AllocError> {
        write_row(self, i, out)
    }
}

/// Lists, each of them a range of the same items.
#[derive(Clone, Copy)]
pub(crate) struct ListCells<'a, C> {
    pub spans: &'a [Span],
    pub items: C,
}

impl<'a, C: Cells> Cells for ListCells<'a, C> {
    ghost rows = { λ c. map (group_at (C.rows c.items)) c.spans.now };

    fn count(self) -> usize {
        self.spans.len()
    }

    fn write(self, i: usize, digits: &mut Buffer, out: &mut Vec<u8>) -> Result<(), AllocError> {
        out.extend_from_slice(b"CompactBuffer(")?;
        write_items(self.items, self.spans[i], digits, out)?;
        out.extend_from_slice(b")")
    }
}

/// Writes the items of a list, with a comma and a space between them.
fn write_items<C: Cells>(
    items: C,
    span: Span,
    digits: &mut Buffer,
    out: &mut Vec<u8>,
) -> Result<(), AllocError>
    ensures { Writes result out.old.items out.new.items
        (printed_items (items_of (slice_range (C.rows items) span.from span.to))) }
{
    let from = span.from as usize;
    let end = items.count().min(span.to as usize).max(from);
    for k in from..end {
        write_separator(k - from, out)?;
        items.write(k, digits, out)?;
    }
    Ok(())
}

/// Pairs, up to the end of the shorter.
#[derive(Clone, Copy)]
pub(crate) struct PairCells<A, B> {
    pub first: A,
    pub second: B,
}

impl<A: Cells, B: Cells> Cells for PairCells<A, B> {
    ghost rows = { λ c. zip_with pair (A.rows c.first) (B.rows c.second) };

    fn count(self) -> usize {
        self.first.count().min(self.second.count())
    }

    fn write(self, i: usize, digits: &mut Buffer, out: &mut Vec<u8>) -> Result<(), AllocError> {
        out.extend_from_slice(b"(")?;
        self.first.write(i, digits, out)?;
        out.extend_from_slice(b",")?;
        self.second.write(i, digits, out)?;
        out.extend_from_slice(b")")
    }
}
