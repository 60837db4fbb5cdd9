//! Rows as lines.
#![tactic(auto)]

ghost use Rattle.std.specs.Prelude.{◌≡◌, ◌++◌, if◌then◌else◌, is_ok, OnOk, length, map, take};
ghost use Rattle.sc_value.specs.Datum.{number, pair, text, truth as truth_datum};
ghost use Rattle.sc_value.specs.Printing.{printed_line, printed_lines};
ghost use Rattle.sc_columns.specs.Columns.{group_at, rows_in, zip_with};

use crate::cells::{Cells, ListCells, PairCells};
use crate::columns::Column;
use itoa::Buffer;
use sc_value::{Span, Texts, append_part};
use std::alloc::AllocError;

/// Writes each row and a line feed, or some of them where memory runs out.
pub(crate) fn write_lines(column: &Column, out: &mut Vec<u8>) -> Result<(), AllocError>
    ensures bytes { OnOk result
        (out.new.items ≡ out.old.items ++ printed_lines (rows_in column.now)) }
    ensures kept { take (length out.old.items) out.new.items ≡ out.old.items }
{
    match column {
        Column::Texts(t) => write_text_lines(t, out),
        Column::Ints(v) => write_int_lines(v.as_slice(), out),
        Column::Bools(v) => write_bool_lines(v.as_slice(), out),
        Column::Pairs(a, b) => write_pairs(a, b, out),
        Column::Lists(spans, items) => write_lists(spans.as_slice(), items, out),
        Column::Chain(a, b) => {
            write_lines(a, out)?;
            write_lines(b, out)
        }
        _ => write_each(column, out),
    }
}

fn write_text_lines(texts: &Texts, out: &mut Vec<u8>) -> Result<(), AllocError>
    ensures bytes { OnOk result
        (out.new.items ≡ out.old.items ++ printed_lines (map text texts.now)) }
    ensures kept { take (length out.old.items) out.new.items ≡ out.old.items }
{
    for i in 0..texts.len() {
        out.extend_from_slice(texts.get(i).as_bytes())?;
        out.push(b'\n')?;
    }
    Ok(())
}

fn write_int_lines(numbers: &[i64], out: &mut Vec<u8>) -> Result<(), AllocError>
    ensures bytes { OnOk result
        (out.new.items ≡ out.old.items ++ printed_lines (map number numbers.now)) }
    ensures kept { take (length out.old.items) out.new.items ≡ out.old.items }
{
    let mut buffer = Buffer::new();
    for i in 0..numbers.len() {
        out.extend_from_slice(buffer.format(numbers[i]).as_bytes())?;
        out.push(b'\n')?;
    }
    Ok(())
}

/// Writes truth values, two lines at a time.
fn write_bool_lines(truths: &[bool], out: &mut Vec<u8>) -> Result<(), AllocError>
    ensures bytes { OnOk result
        (out.new.items ≡ out.old.items ++ printed_lines (map truth_datum truths.now)) }
    ensures kept { take (length out.old.items) out.new.items ≡ out.old.items }
{
    let twos = truths.len() / 2;
    for i in 0..twos {
        write_two(truths[2 * i], truths[2 * i + 1], out)?;
    }
    if 2 * twos < truths.len() {
        out.extend_from_slice(truth_line(truths[2 * twos]))?;
    }
    Ok(())
}

/// Writes the lines of two truth values. Behind the last place in the bytes there are more, so that
/// any two lines are copied as one block.
#[inline(always)]
fn write_two(first: bool, second: bool, out: &mut Vec<u8>) -> Result<(), AllocError>
    ensures { out.new.items ≡ (if is_ok result then out.old.items
        ++ (printed_line (truth_datum first) ++ printed_line (truth_datum second))
        else out.old.items) }
{
    let lines: &[u8] = b"false\nfalse\ntrue\ntrue\nfalse\nfalse";
    let place = match (first, second) {
        (false, false) => Span { from: 0, to: 12 },
        (false, true) => Span { from: 6, to: 17 },
        (true, true) => Span { from: 12, to: 22 },
        (true, false) => Span { from: 17, to: 28 },
    };
    append_part(lines, place, out)
}

/// The line that a truth value prints.
#[inline(always)]
fn truth_line(truth: bool) -> &'static [u8]
    ensures { result.now ≡ printed_line (truth_datum truth) }
{
    let lines: &[u8] = b"false\ntrue\n";
    let (from, to) = if truth { (6, 11) } else { (0, 6) };
    &lines[from..to]
}

/// Writes each row and a line feed, or some of them where memory runs out.
fn write_each<C: Cells>(rows: C, out: &mut Vec<u8>) -> Result<(), AllocError>
    ensures bytes { OnOk result
        (out.new.items ≡ out.old.items ++ printed_lines (C.rows rows)) }
    ensures kept { take (length out.old.items) out.new.items ≡ out.old.items }
{
    let n = rows.count();
    if n == usize::MAX {
        return Err(AllocError);
    }
    let mut digits = Buffer::new();
    for i in 0..n {
        rows.write(i, &mut digits, out)?;
        out.push(b'\n')?;
    }
    Ok(())
}

/// Writes lists, each on a line of its own.
fn write_lists(spans: &[Span], items: &Column, out: &mut Vec<u8>) -> Result<(), AllocError>
    ensures bytes { OnOk result (out.new.items
        ≡ out.old.items ++ printed_lines (map (group_at (rows_in items.now)) spans.now)) }
    ensures kept { take (length out.old.items) out.new.items ≡ out.old.items }
{
    match items {
        Column::Ints(v) => {
            let items = v.as_slice();
            write_each(ListCells { spans, items }, out)
        }
        Column::Texts(items) => write_each(ListCells { spans, items }, out),
        _ => write_each(ListCells { spans, items }, out),
    }
}

/// Writes pairs, each on a line of its own.
fn write_pairs(first: &Column, second: &Column, out: &mut Vec<u8>) -> Result<(), AllocError>
    ensures bytes { OnOk result (out.new.items ≡ out.old.items
        ++ printed_lines (zip_with pair (rows_in first.now) (rows_in second.now))) }
    ensures kept { take (length out.old.items) out.new.items ≡ out.old.items }
{
    match first {
        Column::Ints(v) => write_pairs_of(v.as_slice(), second, out),
        Column::Texts(t) => write_pairs_of(t, second, out),
        _ => write_pairs_of(first, second, out),
    }
}

/// Writes pairs, each on a line of its own.
fn write_pairs_of<A: Cells>(first: A, second: &Column, out: &mut Vec<u8>) -> Result<(), AllocError>
    ensures bytes { OnOk result (out.new.items ≡ out.old.items
        ++ printed_lines (zip_with pair (A.rows first) (rows_in second.now))) }
    ensures kept { take (length out.old.items) out.new.items ≡ out.old.items }
{
    match second {
        Column::Ints(v) => {
            let second = v.as_slice();
            write_each(PairCells { first, second }, out)
        }
        Column::Texts(second) => write_each(PairCells { first, second }, out),
        Column::Lists(spans, items) => write_pairs_with_lists(first, spans.as_slice(), items, out),
        _ => write_each(PairCells { first, second }, out),
    }
}

/// Writes pairs of a row and a list, each on a line of its own.
fn write_pairs_with_lists<A: Cells>(
    first: A,
    spans: &[Span],
    items: &Column,
    out: &mut Vec<u8>,
) -> Result<(), AllocError>
    ensures bytes { OnOk result (out.new.items ≡ out.old.items ++ printed_lines
        (zip_with pair (A.rows first) (map (group_at (rows_in items.now)) spans.now))) }
    ensures kept { take (length out.old.items) out.new.items ≡ out.old.items }
{
    match items {
        Column::Ints(v) => {
            let items = v.as_slice();
            let second = ListCells { spans, items };
            write_each(PairCells { first, second }, out)
        }
        Column::Texts(items) => {
            let second = ListCells { spans, items };
            write_each(PairCells { first, second }, out)
        }
        _ => {
            let second = ListCells { spans, items };
            write_each(PairCells { first, second }, out)
        }
    }
}
