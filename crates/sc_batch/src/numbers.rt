//! Heads over columns of numbers.
#![tactic(auto)]

ghost use Rattle.std.specs.Prelude.{◌≡◌, ◌≤◌, pos, IfOk, IfSome, length, map, take};
ghost use Rattle.sc_value.specs.Datum.{number, truth};
ghost use Rattle.sc_columns.specs.Columns.{zip_with};
ghost use Rattle.sc_batch.specs.Divisors.{IsDivisor};
ghost use Rattle.sc_batch.specs.Items.{divided, divided_outcome, division, int_test, int_value, list_in};
ghost use Rattle.sc_batch.specs.Outcomes.{of_two, until_raise};

use crate::divisors::{Divisor, divide_each, divisor_of};
use crate::in_place::put_beside;
use crate::items::{Items, ints, truths};
use sc_expr::{Head, Raise};
use sc_lineage::Stream;
use std::alloc::{AllocError, Global};

/// A head over two columns of numbers, where it is one of numbers.
pub(crate) fn two_ints(
    alloc: Global,
    head: Head,
    m: Items<'_, i64>,
    n: Items<'_, i64>,
    end: Option<Raise>,
) -> Result<Option<Stream>, AllocError>
    ensures { IfOk result (λ o. IfSome o (λ s. s ≡ until_raise
        (zip_with (λ x y. of_two head (number x) (number y)) (list_in m.entry) (list_in n.entry))
        end)) }
{
    match head {
        Head::Add => Ok(Some(arithmetic(alloc, Head::Add, m, n, end)?)),
        Head::Sub => Ok(Some(arithmetic(alloc, Head::Sub, m, n, end)?)),
        Head::Mul => Ok(Some(arithmetic(alloc, Head::Mul, m, n, end)?)),
        Head::Div => Ok(Some(divisions(alloc, false, m, n, end)?)),
        Head::Rem => Ok(Some(divisions(alloc, true, m, n, end)?)),
        Head::Eq => Ok(Some(comparisons(alloc, Head::Eq, m, n, end)?)),
        Head::Lt => Ok(Some(comparisons(alloc, Head::Lt, m, n, end)?)),
        Head::Le => Ok(Some(comparisons(alloc, Head::Le, m, n, end)?)),
        _ => Ok(None),
    }
}

/// The numbers of a head that never raises.
fn arithmetic(
    alloc: Global,
    head: Head,
    m: Items<'_, i64>,
    n: Items<'_, i64>,
    end: Option<Raise>,
) -> Result<Stream, AllocError>
    ensures { IfOk result (λ s. s ≡ record {
      rows = map number (zip_with (int_value head) (list_in m.entry) (list_in n.entry));
      raise = end;
    }) }
{
    put_together(alloc, head, m, n, m.len().min(n.len()), end)
}

/// The numbers of a head that never raises, where there are so many on both sides.
fn put_together(
    alloc: Global,
    head: Head,
    m: Items<'_, i64>,
    n: Items<'_, i64>,
    count: usize,
    end: Option<Raise>,
) -> Result<Stream, AllocError>
    requires within { count ≤ length (list_in m) }
    requires beside { count ≤ length (list_in n) }
    ensures { IfOk result (λ s. s ≡ record {
      rows = map number
          (zip_with (int_value head) (take count (list_in m.entry)) (list_in n.entry));
      raise = end;
    }) }
{
    let mut out = m.first(alloc, count)?;
    put_beside(head, out.as_mut_slice(), n);
    ints(alloc, out, end)
}

/// How two columns of numbers compare.
fn comparisons(
    alloc: Global,
    head: Head,
    m: Items<'_, i64>,
    n: Items<'_, i64>,
    end: Option<Raise>,
) -> Result<Stream, AllocError>
    ensures { IfOk result (λ s. s ≡ record {
      rows = map truth (zip_with (int_test head) (list_in m.entry) (list_in n.entry));
      raise = end;
    }) }
{
    let count = m.len().min(n.len());
    let mut out = Vec::with_capacity(alloc, count)?;
    for i in 0..count {
        out.push(test_of(head, m.at(i), n.at(i)))?;
    }
    truths(alloc, out, end)
}

/// The remainders of two columns of numbers or else the quotients, up to the first divisor that is
/// zero.
fn divisions(
    alloc: Global,
    rest: bool,
    m: Items<'_, i64>,
    n: Items<'_, i64>,
    end: Option<Raise>,
) -> Result<Stream, AllocError>
    ensures { IfOk result (λ s. s
        ≡ until_raise (zip_with (division rest) (list_in m.entry) (list_in n.entry)) end) }
{
    match n {
        Items::Same(number, _) => match divisor_of(*number) {
            Some(by) => quotients(alloc, rest, m, by, m.len().min(n.len()), end),
            None => each_division(alloc, rest, m, n, end),
        },
        Items::Each(_) => each_division(alloc, rest, m, n, end),
    }
}

/// The remainders of the first so many numbers by a divisor or else the quotients.
fn quotients(
    alloc: Global,
    rest: bool,
    m: Items<'_, i64>,
    by: Divisor,
    count: usize,
    end: Option<Raise>,
) -> Result<Stream, AllocError>
    requires divisor { IsDivisor by }
    requires within { count ≤ length (list_in m) }
    ensures { IfOk result (λ s. s ≡ record {
      rows = map number (map (λ x. divided rest x (pos by.number)) (take count (list_in m.entry)));
      raise = end;
    }) }
{
    let mut out = m.first(alloc, count)?;
    divide_each(rest, out.as_mut_slice(), by);
    ints(alloc, out, end)
}

/// The same as [`divisions`], row by row.
fn each_division(
    alloc: Global,
    rest: bool,
    m: Items<'_, i64>,
    n: Items<'_, i64>,
    end: Option<Raise>,
) -> Result<Stream, AllocError>
    ensures { IfOk result (λ s. s
        ≡ until_raise (zip_with (division rest) (list_in m.entry) (list_in n.entry)) end) }
{
    let count = m.len().min(n.len());
    let mut out = Vec::with_capacity(alloc, count)?;
    for i in 0..count {
        match quotient_of(rest, m.at(i), n.at(i)) {
            Some(q) => out.push(q)?,
            None => return ints(alloc, out, Some(Raise::DivideByZero)),
        }
    }
    ints(alloc, out, end)
}

/// The truth value that a head gives of two numbers.
#[inline(always)]
#[tactic(auto, unfolding(crate::specs::Items::int_test))]
fn test_of(head: Head, m: i64, n: i64) -> bool
    ensures { result ≡ int_test head m n }
{
    match head {
        Head::Eq => m == n,
        Head::Lt => m < n,
        Head::Le => m < n || m == n,
        _ => false,
    }
}

/// The remainder of two numbers or else the quotient, unless the divisor is zero.
#[inline(always)]
fn quotient_of(rest: bool, m: i64, n: i64) -> Option<i64>
    ensures { divided_outcome result ≡ division rest m n }
{
    if n == 0 {
        return None;
    }
    if rest {
        Some(m.wrapping_rem(n))
    } else {
        Some(m.wrapping_div(n))
    }
}
