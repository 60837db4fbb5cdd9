//! The words of texts: what stands between spaces and tabs.
#![tactic(auto)]

ghost use Rattle.std.specs.Prelude.{◌≡◌, ◌<◌, ◌≤◌, ◌^◌, ◌+◌, ◌++◌, [], ◌∷◌, ℕ, List, IfOk, IfSome, OnOk, filter, length, map, slice_range};
ghost use Rattle.std.specs.Option.{option_map};
ghost use Rattle.std.specs.Str.{IsUtf8};
ghost use Rattle.std.specs.List.{All};
ghost use Rattle.sc_base.specs.Limits.{count_limit};
ghost use Rattle.sc_value.specs.Spans.{IsPart, part_at, place_at, some_span, span_of};
ghost use Rattle.sc_value.specs.Words.{is_some_piece, nth_word as word_at, range_of, until_none, words_of};

use crate::blanks::word_len;
use crate::pieces::{Pieces, push_list};
use crate::text::Text;
use crate::texts::Span;
use std::alloc::{AllocError, Global};
use std::str;

/// The words of a text, each of them copied.
pub fn words_in(alloc: Global, text: &str) -> Result<Vec<Text>, AllocError>
    ensures { IfOk result (λ v. v.items ≡ words_of text.now) }
{
    let bytes = text.as_bytes();
    let end = bytes.len();
    let mut out = Vec::new(alloc);
    let mut from = 0;
    while from < end {
        let len = word_len(bytes, from, end);
        push_word(alloc, &bytes[from..from + len], &mut out)?;
        from = from + len + 1;
    }
    Ok(out)
}

/// A word of a text, counted from 0, where the text has so many.
pub fn nth_word(text: &str, k: usize) -> Option<&str>
    ensures { option_map (λ w. w.now) result ≡ word_at k text.now }
{
    let bytes = text.as_bytes();
    match word_place(bytes, 0, bytes.len(), k) {
        Some((from, to)) => Some(unsafe { str::from_utf8_unchecked(&bytes[from..to]) }),
        None => None,
    }
}

/// How many words a text has.
pub fn word_count(text: &str) -> usize
    ensures { result ≡ length (words_of text.now) }
{
    count_words(text.as_bytes())
}

/// Where the words of the texts at some places lie, as a list for each text.
pub(crate) fn words_at(alloc: Global, text: &[u8], places: &[Span]) -> Result<Pieces, AllocError>
    requires { All (IsPart text.now) places.now }
    ensures parts { IfOk result (λ p. All (IsPart text.now) p.items.items) }
    ensures words { IfOk result (λ p.
        map (range_of (map (part_at text.now) p.items.items)) p.lists.items
        ≡ map words_of (map (part_at text.now) places.now)) }
    ensures within { IfOk result (λ p. length p.items.items ≤ count_limit) }
{
    let mut items = Vec::new(alloc);
    let mut lists = Vec::with_capacity(alloc, places.len())?;
    for i in 0..places.len() {
        let from = items.len();
        add_words(text, places[i], &mut items)?;
        let to = items.len();
        push_list(&mut lists, from, to)?;
    }
    Ok(Pieces { items, lists })
}

/// Where a word of the text at each place lies, up to the first text that has fewer.
pub(crate) fn nth_words_at(
    alloc: Global,
    text: &[u8],
    places: &[Span],
    k: usize,
) -> Result<Vec<Span>, AllocError>
    requires { All (IsPart text.now) places.now }
    ensures parts { IfOk result (λ v. All (IsPart text.now) v.items) }
    ensures words { IfOk result (λ v. map (part_at text.now) v.items
        ≡ until_none (word_at k) (map (part_at text.now) places.now)) }
{
    let mut out = Vec::with_capacity(alloc, places.len())?;
    for i in 0..places.len() {
        let place = places[i];
        match word_place(text, place.from as usize, place.to as usize, k) {
            Some((from, to)) => out.push(Span {
                from: from as u32,
                to: to as u32,
            })?,
            None => return Ok(out),
        }
    }
    Ok(out)
}

/// Adds the places of the words of a part of a text.
fn add_words(text: &[u8], part: Span, out: &mut Vec<Span>) -> Result<(), AllocError>
    requires part { IsPart text.now part }
    requires parts { All (IsPart text.now) out.old.items }
    ensures parts { OnOk result (All (IsPart text.now) out.new.items) }
    ensures words { OnOk result (map (part_at text.now) out.new.items
        ≡ map (part_at text.now) out.old.items ++ words_of (part_at text.now part)) }
{
    let end = part.to as usize;
    let mut from = part.from as usize;
    while from < end {
        let len = word_len(text, from, end);
        push_some(out, from, len)?;
        from = from + len + 1;
    }
    Ok(())
}

/// Adds the place of a piece, if it isn't empty.
#[inline(always)]
fn push_some(out: &mut Vec<Span>, from: usize, len: usize) -> Result<(), AllocError>
    requires { from + len ≤ count_limit }
    ensures { OnOk result (out.new.items ≡ out.old.items ++ some_span from len) }
{
    if len == 0 {
        return Ok(());
    }
    out.push(Span {
        from: from as u32,
        to: (from + len) as u32,
    })?;
    Ok(())
}

/// Adds a copy of a piece, if it isn't empty.
fn push_word(alloc: Global, piece: &[u8], out: &mut Vec<Text>) -> Result<(), AllocError>
    requires { IsUtf8 piece.now }
    ensures { OnOk result
        (out.new.items ≡ out.old.items ++ filter is_some_piece (piece.now ∷ [])) }
{
    if piece.is_empty() {
        return Ok(());
    }
    let word = Text::new(alloc, unsafe { str::from_utf8_unchecked(piece) })?;
    out.push(word)?;
    Ok(())
}

/// From where to where a word of a part of a text lies, where the part has so many.
#[inline(always)]
fn word_place(text: &[u8], first: usize, end: usize, k: usize) -> Option<(usize, usize)>
    requires ordered { first ≤ end }
    requires within { end ≤ length text.now }
    requires utf8 { IsUtf8 (slice_range text.now first end) }
    ensures word { option_map (place_at text.now) result
        ≡ word_at k (slice_range text.now first end) }
    ensures part { IfSome result (λ p. IsPart text.now (span_of p)) }
    ensures before { IfSome result (λ p. p.1 ≤ end) }
{
    let mut from = first;
    let mut left = k;
    while from < end {
        let len = word_len(text, from, end);
        let step = len.min(1);
        if left < step {
            return Some((from, from + len));
        }
        left = left - step;
        from = from + len + 1;
    }
    None
}

/// How many words a text has.
fn count_words(text: &[u8]) -> usize
    ensures { result ≡ length (words_of text.now) }
{
    let end = text.len();
    let mut from = 0;
    let mut count = 0;
    while from < end {
        let len = word_len(text, from, end);
        count = count + len.min(1);
        from = from + len + 1;
    }
    count
}
