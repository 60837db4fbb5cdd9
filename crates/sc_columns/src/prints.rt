//! The printed text of one row.
#![tactic(auto)]

ghost use Rattle.std.specs.Prelude.{◌<◌, length, map, slice_range};
ghost use Rattle.sc_value.specs.Datum.{items_of, number, text, truth};
ghost use Rattle.sc_value.specs.Printing.{printed, printed_items};
ghost use Rattle.sc_value.specs.Views.{datum_of};
ghost use Rattle.sc_columns.specs.Columns.{rows_in};
ghost use Rattle.sc_columns.specs.Prints.{Writes, printed_at, separator};

use crate::columns::{Column, len};
use crate::gets::{Found, at, find};
use itoa::Buffer;
use sc_value::{Span, Texts, Value, print, truth_word};
use std::alloc::AllocError;

/// Writes the printed text of a row that is there, or a part of it where memory runs out.
#[cycle(prints)]
pub fn write_row(column: &Column, i: usize, out: &mut Vec<u8>) -> Result<(), AllocError>
    ensures { i < length (rows_in column.now)
        → Writes result out.old.items out.new.items (printed_at (rows_in column.now) i) }
{
    match column {
        Column::Ints(v) => write_int(v.as_slice(), i, out),
        Column::Bools(v) => write_bool(v.as_slice(), i, out),
        Column::Texts(t) => write_text(t, i, out),
        Column::Pairs(a, b) => {
            out.extend_from_slice(b"(")?;
            write_row(a, i, out)?;
            out.extend_from_slice(b",")?;
            write_row(b, i, out)?;
            out.extend_from_slice(b")")
        }
        Column::Lists(spans, items) => match at(spans.as_slice(), i) {
            Some(span) => {
                out.extend_from_slice(b"CompactBuffer(")?;
                write_items(items, span, out)?;
                out.extend_from_slice(b")")
            }
            None => Ok(()),
        },
        Column::Values(v) => write_one(v.as_slice(), i, out),
        Column::Same(value, _) => write_value(value, out),
        Column::Chain(_, _) => write_found(column, i, out),
    }
}

/// Writes the items of a list, with a comma and a space between them.
#[cycle(prints)]
fn write_items(items: &Column, span: Span, out: &mut Vec<u8>) -> Result<(), AllocError>
    ensures { Writes result out.old.items out.new.items
        (printed_items (items_of (slice_range (rows_in items.now) span.from span.to))) }
{
    let from = span.from as usize;
    let end = len(items).min(span.to as usize).max(from);
    for k in from..end {
        write_separator(k - from, out)?;
        write_row(items, k, out)?;
    }
    Ok(())
}

/// Writes what stands behind so many items and in front of the next.
#[inline(always)]
pub(crate) fn write_separator(before: usize, out: &mut Vec<u8>) -> Result<(), AllocError>
    ensures { Writes result out.old.items out.new.items (separator before) }
{
    if before == 0 {
        Ok(())
    } else {
        out.extend_from_slice(b", ")
    }
}

fn write_int(items: &[i64], i: usize, out: &mut Vec<u8>) -> Result<(), AllocError>
    ensures { Writes result out.old.items out.new.items (printed_at (map number items.now) i) }
{
    match at(items, i) {
        Some(n) => out.extend_from_slice(Buffer::new().format(n).as_bytes()),
        None => Ok(()),
    }
}

fn write_bool(items: &[bool], i: usize, out: &mut Vec<u8>) -> Result<(), AllocError>
    ensures { Writes result out.old.items out.new.items (printed_at (map truth items.now) i) }
{
    match at(items, i) {
        Some(b) => out.extend_from_slice(truth_word(b).as_bytes()),
        None => Ok(()),
    }
}

fn write_text(texts: &Texts, i: usize, out: &mut Vec<u8>) -> Result<(), AllocError>
    ensures { Writes result out.old.items out.new.items (printed_at (map text texts.now) i) }
{
    if i < texts.len() {
        out.extend_from_slice(texts.get(i).as_bytes())
    } else {
        Ok(())
    }
}

fn write_one(values: &[Value], i: usize, out: &mut Vec<u8>) -> Result<(), AllocError>
    ensures { Writes result out.old.items out.new.items (printed_at (map datum_of values.now) i) }
{
    if i < values.len() {
        write_value(&values[i], out)
    } else {
        Ok(())
    }
}

fn write_value(value: &Value, out: &mut Vec<u8>) -> Result<(), AllocError>
    ensures { Writes result out.old.items out.new.items (printed (datum_of value.now)) }
{
    match value {
        Value::Int(n) => out.extend_from_slice(Buffer::new().format(*n).as_bytes()),
        Value::Bool(b) => out.extend_from_slice(truth_word(*b).as_bytes()),
        Value::Text(t) => out.extend_from_slice(t.as_str().as_bytes()),
        Value::Pair(_, _) | Value::List(_) => {
            let text = print(*out.allocator(), value)?;
            out.extend_from_slice(text.as_str().as_bytes())
        }
    }
}

/// Writes a row that is looked up first.
fn write_found(column: &Column, i: usize, out: &mut Vec<u8>) -> Result<(), AllocError>
    ensures { Writes result out.old.items out.new.items (printed_at (rows_in column.now) i) }
{
    match find(*out.allocator(), column, i)? {
        Found::Row(value) => write_value(&value, out),
        Found::Past(_) => Ok(()),
    }
}
