//! Heads that compare texts, each over columns with loops of its own.
#![tactic(auto)]

ghost use Rattle.std.specs.Prelude.{◌≡◌, IfOk, get_or, replicate};
ghost use Rattle.std.specs.Cmp.Lexicographic.{slice_cmp};
ghost use Rattle.std.specs.Ordering.{is_lt, nat_cmp};
ghost use Rattle.std.specs.Str.{bytes_eq};
ghost use Rattle.sc_columns.specs.Columns.{zip_with};
ghost use Rattle.sc_expr.specs.declared.exprs.Head.{Head};
ghost use Rattle.sc_batch.specs.Texts.{text_test};

use sc_expr::Head;
use sc_value::Texts;
use std::alloc::{AllocError, Global};

/// A head that compares two texts.
pub(crate) trait TextTest: Copy {
    /// The head.
    ghost head: { Self → Head };

    /// The truth value that the head gives of two texts.
    fn test(self, first: &str, second: &str) -> bool
        ensures { result ≡ text_test (head self) first.now second.now };
}

/// `==`.
#[derive(Clone, Copy)]
pub(crate) struct SameText;

/// `<`.
#[derive(Clone, Copy)]
pub(crate) struct LessText;

/// `<=`.
#[derive(Clone, Copy)]
pub(crate) struct LessOrSameText;

impl TextTest for SameText {
    ghost head = { λ _. Head.Eq };

    #[inline(always)]
    #[tactic(auto, unfolding(crate::specs::Texts::text_test))]
    fn test(self, first: &str, second: &str) -> bool {
        is_same(first, second)
    }
}

impl TextTest for LessText {
    ghost head = { λ _. Head.Lt };

    #[inline(always)]
    #[tactic(auto, unfolding(crate::specs::Texts::text_test))]
    fn test(self, first: &str, second: &str) -> bool {
        is_less(first, second)
    }
}

impl TextTest for LessOrSameText {
    ghost head = { λ _. Head.Le };

    #[inline(always)]
    #[tactic(auto, unfolding(crate::specs::Texts::text_test))]
    fn test(self, first: &str, second: &str) -> bool {
        is_less(first, second) || is_same(first, second)
    }
}

/// Whether two texts are the same. Most texts that differ do so in their lengths or first bytes.
#[inline(always)]
fn is_same(first: &str, second: &str) -> bool
    ensures { result ≡ bytes_eq first.now second.now }
{
    if first.len() != second.len() {
        return false;
    }
    if lead(first) != lead(second) {
        return false;
    }
    first == second
}

/// Whether a text stands before another, which their first bytes tell mostly.
#[inline(always)]
fn is_less(first: &str, second: &str) -> bool
    ensures { result ≡ is_lt (slice_cmp nat_cmp first.now second.now) }
{
    let (x, y) = (lead(first), lead(second));
    if x != y {
        return x < y;
    }
    first < second
}

/// The first byte of a text, or 0 where it is empty.
#[inline(always)]
fn lead(text: &str) -> u8
    ensures { result ≡ get_or text.now 0 0 }
{
    let bytes = text.as_bytes();
    if bytes.is_empty() { 0 } else { bytes[0] }
}

/// How each of some texts compares with one text so many times.
pub(crate) fn each_with_one<T: TextTest>(
    alloc: Global,
    head: T,
    all: &Texts,
    one: &str,
    n: usize,
) -> Result<Vec<bool>, AllocError>
    ensures { IfOk result (λ v. v.items
        ≡ zip_with (text_test (T.head head)) all.now (replicate n one.now)) }
{
    let (bytes, places) = all.parts();
    let count = places.len().min(n);
    let mut out = Vec::with_capacity(alloc, count)?;
    for i in 0..count {
        out.push(head.test(places[i].text_in(bytes), one))?;
    }
    Ok(out)
}

/// How one text so many times compares with each of some texts.
pub(crate) fn one_with_each<T: TextTest>(
    alloc: Global,
    head: T,
    one: &str,
    n: usize,
    all: &Texts,
) -> Result<Vec<bool>, AllocError>
    ensures { IfOk result (λ v. v.items
        ≡ zip_with (text_test (T.head head)) (replicate n one.now) all.now) }
{
    let (bytes, places) = all.parts();
    let count = n.min(places.len());
    let mut out = Vec::with_capacity(alloc, count)?;
    for i in 0..count {
        out.push(head.test(one, places[i].text_in(bytes)))?;
    }
    Ok(out)
}
