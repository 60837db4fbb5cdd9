//! Printed rows.
#![tactic(auto)]

ghost use Rattle.std.specs.Prelude.{◌≡◌, ◌++◌, if◌then◌else◌, IfOk, is_ok, length, map};
ghost use Rattle.sc_value.specs.Datum.{number};
ghost use Rattle.sc_value.specs.Printing.{printed, printed_lines};
ghost use Rattle.sc_columns.specs.Columns.{rows_in};

use crate::columns::{Column, len};
use crate::lines::write_lines;
use crate::prints::write_row;
use crate::rows::Rows;
use itoa::Buffer;
use sc_value::{Texts, TextsBuilder};
use std::alloc::{AllocError, Global};
use std::str;

/// How many bytes a row that isn't held as a text is guessed to print.
const LIKELY_ROW_LEN: usize = 8;

impl Rows {
    /// Writes each row and a line feed behind some bytes, or nothing where memory runs out.
    pub fn print_lines(&self, out: &mut Vec<u8>) -> Result<(), AllocError>
        ensures { out.new.items ≡ (if is_ok result
            then out.old.items ++ printed_lines self.now else out.old.items) }
    {
        let written = out.len();
        match write_lines(self.column(), out) {
            Ok(()) => Ok(()),
            Err(_) => {
                out.truncate(written);
                Err(AllocError)
            }
        }
    }

    /// The printed text of each row. Texts are shared and not copied.
    pub fn printed_rows(&self, alloc: Global) -> Result<Texts, AllocError>
        ensures { IfOk result (λ t. t ≡ map printed self.now) }
    {
        match &**self.column() {
            Column::Texts(t) => t.share(),
            Column::Ints(v) => printed_ints(alloc, v.as_slice()),
            column => printed_each(alloc, column, self.len()),
        }
    }

    /// How many bytes [`Rows::print_lines`] is likely to write: a guess, for a reservation.
    pub fn printed_len_hint(&self) -> usize {
        likely_len(self.column()).saturating_add(self.len())
    }
}

fn printed_ints(alloc: Global, numbers: &[i64]) -> Result<Texts, AllocError>
    ensures { IfOk result (λ t. t ≡ map printed (map number numbers.now)) }
{
    let mut out = TextsBuilder::with_capacity(alloc, numbers.len(), 0)?;
    let mut buffer = Buffer::new();
    for i in 0..numbers.len() {
        out.push(buffer.format(numbers[i]))?;
    }
    out.finish(alloc)
}

/// The printed text of each of so many rows.
fn printed_each(alloc: Global, column: &Column, n: usize) -> Result<Texts, AllocError>
    requires { n ≡ length (rows_in column.now) }
    ensures { IfOk result (λ t. t ≡ map printed (rows_in column.now)) }
{
    let mut out = TextsBuilder::with_capacity(alloc, n, 0)?;
    let mut row = Vec::new(alloc);
    for i in 0..n {
        row.clear();
        write_row(column, i, &mut row)?;
        out.push(unsafe { str::from_utf8_unchecked(&row) })?;
    }
    out.finish(alloc)
}

/// About how many bytes the rows print.
fn likely_len(column: &Column) -> usize {
    match column {
        Column::Texts(t) => t.extent(),
        Column::Pairs(a, b) => {
            let brackets = len(column).saturating_mul(3);
            likely_len(a)
                .saturating_add(likely_len(b))
                .saturating_add(brackets)
        }
        Column::Lists(_, items) => likely_len(items).saturating_mul(2),
        Column::Chain(a, b) => likely_len(a).saturating_add(likely_len(b)),
        _ => len(column).saturating_mul(LIKELY_ROW_LEN),
    }
}
