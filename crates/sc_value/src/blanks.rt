//! How far the next blank is.
#![tactic(auto)]

ghost use Rattle.std.specs.Prelude.{◌≡◌, ◌==◌, ◌+◌, ◌-◌, ◌<◌, ◌≤◌, drop, if◌then◌else◌, length, slice_range, take};
ghost use Rattle.std.specs.Int.{trailing_zeros, w64};
ghost use Rattle.std.specs.List.{position_or_len};
ghost use Rattle.sc_value.specs.Words.{is_blank};

use std::simd::prelude::*;

/// How many bytes are compared at once.
const LANES: usize = 16;

/// How many bytes of a part of a text stand before its first blank. Most words are short, so that
/// their blank is among the next few bytes, also where the part ends before it.
#[inline(always)]
pub(crate) fn word_len(text: &[u8], from: usize, end: usize) -> usize
    requires ordered { from ≤ end }
    requires within { end ≤ length text.now }
    ensures len { result ≡ position_or_len is_blank (slice_range text.now from end) }
    ensures within { result ≤ end - from }
{
    if text.len() - from >= LANES {
        let near = near_blank(text, from);
        if near < LANES {
            return near.min(end - from);
        }
    }
    far_blank(&text[from..end])
}

/// How many of the next bytes stand before the first blank among them.
#[inline(always)]
fn near_blank(text: &[u8], at: usize) -> usize
    requires { at + LANES ≤ length text.now }
    ensures { result ≡ position_or_len is_blank (take LANES (drop at text.now)) }
{
    let bytes = u8x16::from_slice(&text[at..]);
    let blanks = bytes.simd_eq(u8x16::splat(b' ')) | bytes.simd_eq(u8x16::splat(b'\t'));
    lowest_lane(blanks.to_bitmask())
}

/// The lowest lane whose bit is set, or how many lanes there are.
#[inline(always)]
fn lowest_lane(mask: u64) -> usize
    ensures { result ≡ (if mask == 0 then LANES else trailing_zeros w64 mask) }
{
    if mask == 0 {
        LANES
    } else {
        mask.trailing_zeros() as usize
    }
}

/// How many bytes stand before the first blank, one by one.
fn far_blank(text: &[u8]) -> usize
    ensures len { result ≡ position_or_len is_blank text.now }
    ensures within { result ≤ length text.now }
{
    text.iter()
        .position(|b| *b == b' ' || *b == b'\t')
        .unwrap_or(text.len())
}
