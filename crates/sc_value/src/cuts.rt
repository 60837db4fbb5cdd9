//! The pieces of texts between separators.
#![tactic(auto)]

ghost use Rattle.std.specs.Prelude.{◌≡◌, ◌==◌, ◌<◌, ◌≤◌, ◌++◌, [], ◌∷◌, ℕ, List, IfOk, IfSome, OnOk, length, map, slice_range};
ghost use Rattle.std.specs.Option.{option_map};
ghost use Rattle.std.specs.Str.{IsUtf8};
ghost use Rattle.std.specs.List.{All, position_or_len};
ghost use Rattle.sc_base.specs.Limits.{count_limit};
ghost use Rattle.sc_value.specs.Spans.{IsPart, part_at, place_at, span_of};
ghost use Rattle.sc_value.specs.Words.{cut_at, nth_piece as piece_at, range_of, until_none};

use crate::pieces::{Pieces, push_list};
use crate::text::Text;
use crate::texts::Span;
use std::alloc::{AllocError, Global};

/// The pieces of a text between the occurrences of a separator, each of them copied. Empty pieces
/// are kept, and an empty separator occurs nowhere.
pub fn cut_in(alloc: Global, text: &str, separator: &str) -> Result<Vec<Text>, AllocError>
    ensures { IfOk result (λ v. v.items ≡ cut_at separator.now text.now) }
{
    let mut out = Vec::new(alloc);
    if separator.is_empty() {
        out.push(Text::new(alloc, text)?)?;
        return Ok(out);
    }
    let mut rest = text;
    while let Some((piece, behind)) = rest.split_once(separator) {
        out.push(Text::new(alloc, piece)?)?;
        rest = behind;
    }
    out.push(Text::new(alloc, rest)?)?;
    Ok(out)
}

/// Where the pieces of the texts at some places lie between the occurrences of an ASCII character,
/// as a list for each text.
pub(crate) fn pieces_at(
    alloc: Global,
    text: &[u8],
    places: &[Span],
    separator: u8,
) -> Result<Pieces, AllocError>
    requires parts { All (IsPart text.now) places.now }
    requires ascii { separator < 128 }
    ensures parts { IfOk result (λ p. All (IsPart text.now) p.items.items) }
    ensures cut { IfOk result (λ p.
        map (range_of (map (part_at text.now) p.items.items)) p.lists.items
        ≡ map (cut_at (separator ∷ [])) (map (part_at text.now) places.now)) }
    ensures within { IfOk result (λ p. length p.items.items ≤ count_limit) }
{
    let mut items = Vec::new(alloc);
    let mut lists = Vec::with_capacity(alloc, places.len())?;
    for i in 0..places.len() {
        let from = items.len();
        add_pieces(text, places[i], separator, &mut items)?;
        let to = items.len();
        push_list(&mut lists, from, to)?;
    }
    Ok(Pieces { items, lists })
}

/// Where a piece of the text at each place lies, up to the first text that has fewer.
pub(crate) fn nth_pieces_at(
    alloc: Global,
    text: &[u8],
    places: &[Span],
    separator: u8,
    k: usize,
) -> Result<Vec<Span>, AllocError>
    requires parts { All (IsPart text.now) places.now }
    requires ascii { separator < 128 }
    ensures parts { IfOk result (λ v. All (IsPart text.now) v.items) }
    ensures pieces { IfOk result (λ v. map (part_at text.now) v.items
        ≡ until_none (piece_at (separator ∷ []) k) (map (part_at text.now) places.now)) }
{
    let mut out = Vec::with_capacity(alloc, places.len())?;
    for i in 0..places.len() {
        let place = places[i];
        match piece_place(text, place.from as usize, place.to as usize, separator, k) {
            Some((from, to)) => out.push(Span {
                from: from as u32,
                to: to as u32,
            })?,
            None => return Ok(out),
        }
    }
    Ok(out)
}

/// Adds the places of the pieces of a part of a text.
fn add_pieces(text: &[u8], part: Span, separator: u8, out: &mut Vec<Span>) -> Result<(), AllocError>
    requires part { IsPart text.now part }
    requires ascii { separator < 128 }
    requires parts { All (IsPart text.now) out.old.items }
    ensures parts { OnOk result (All (IsPart text.now) out.new.items) }
    ensures cut { OnOk result (map (part_at text.now) out.new.items
        ≡ map (part_at text.now) out.old.items
        ++ cut_at (separator ∷ []) (part_at text.now part)) }
{
    let end = part.to as usize;
    let mut from = part.from as usize;
    let mut len = piece_len(&text[from..end], separator);
    while from + len < end {
        out.push(Span {
            from: from as u32,
            to: (from + len) as u32,
        })?;
        from = from + len + 1;
        len = piece_len(&text[from..end], separator);
    }
    out.push(Span {
        from: from as u32,
        to: end as u32,
    })?;
    Ok(())
}

/// From where to where a piece of a part of a text lies, where the part has so many.
#[inline(always)]
fn piece_place(
    text: &[u8],
    first: usize,
    end: usize,
    separator: u8,
    k: usize,
) -> Option<(usize, usize)>
    requires ordered { first ≤ end }
    requires within { end ≤ length text.now }
    requires utf8 { IsUtf8 (slice_range text.now first end) }
    requires ascii { separator < 128 }
    ensures piece { option_map (place_at text.now) result
        ≡ piece_at (separator ∷ []) k (slice_range text.now first end) }
    ensures part { IfSome result (λ p. IsPart text.now (span_of p)) }
    ensures before { IfSome result (λ p. p.1 ≤ end) }
{
    let mut from = first;
    let mut len = piece_len(&text[from..end], separator);
    let mut left = k;
    while left > 0 {
        if from + len >= end {
            return None;
        }
        from = from + len + 1;
        len = piece_len(&text[from..end], separator);
        left = left - 1;
    }
    Some((from, from + len))
}

/// How many bytes stand before the first separator.
#[inline(always)]
fn piece_len(text: &[u8], separator: u8) -> usize
    ensures len { result ≡ position_or_len (λ b. b == separator) text.now }
    ensures within { result ≤ length text.now }
{
    text.iter()
        .position(|b| *b == separator)
        .unwrap_or(text.len())
}
