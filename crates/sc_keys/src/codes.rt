//! Texts by a number, by which a table tells most of them apart without a look at their bytes.
#![tactic(auto)]

ghost use Rattle.std.specs.Prelude.{◌≡◌, ◌+◌, ◌≤◌, drop, length, take};
ghost use Rattle.std.specs.List.{All};
ghost use Rattle.sc_keys.specs.Codes.{IsCode, IsCoded, code, number_of};

use sc_value::Texts;

/// How many bytes a text has at most whose code has 64 bits.
pub(crate) const NARROW: usize = 7;

/// How many bytes a text has at most whose code has 128 bits.
pub(crate) const WIDE: usize = 15;

/// How many texts are looked at to find out whether most are short.
const SAMPLES: usize = 1024;

/// Whether most texts have no bytes behind their code, by some of them. It is a guess, and either
/// answer is right.
pub(crate) fn are_short(keys: &Texts) -> bool {
    let step = keys.len() / SAMPLES + 1;
    let mut long: usize = 0;
    let mut at: usize = 0;
    for _ in 0..SAMPLES {
        if at < keys.len() {
            if WIDE < keys.get(at).len() {
                long = long.saturating_add(1);
            }
            at = at.saturating_add(step);
        }
    }
    long <= SAMPLES / 8
}

/// How many bytes the longest text has.
pub(crate) fn longest(keys: &Texts) -> usize
    ensures { All (λ text. length text ≤ result) keys.now }
{
    let mut most: usize = 0;
    for i in 0..keys.len() {
        most = most.max(keys.get(i).len());
    }
    most
}

/// A text as the code of its first bytes, and the bytes behind these.
pub(crate) fn coded(text: &str) -> (u128, &[u8])
    ensures { IsCoded text.now (result.0, result.1.now) }
{
    let bytes = text.as_bytes();
    let (front, rest) = bytes.split_at(bytes.len().min(WIDE));
    (wide_code(front), rest)
}

/// The code of at most seven bytes, which no others have: a number with a digit for each byte, the
/// first byte lowest, and a 1 behind the last.
pub(crate) fn narrow_code(bytes: &[u8]) -> u64
    requires { length bytes.now ≤ 7 }
    ensures { IsCode bytes.now result }
{
    match bytes {
        [] => 1,
        [a] => 0x100 + u64::from(*a),
        [a, b] => 0x1_0000 + u64::from(*b) * 0x100 + u64::from(*a),
        [a, b, c] => {
            0x100_0000 + u64::from(*c) * 0x1_0000 + u64::from(*b) * 0x100 + u64::from(*a)
        }
        _ => code_by_four(bytes),
    }
}

/// The code of at most fifteen bytes.
pub(crate) fn wide_code(bytes: &[u8]) -> u128
    requires { length bytes.now ≤ 15 }
    ensures { IsCode bytes.now result }
{
    if bytes.len() <= NARROW {
        u128::from(narrow_code(bytes))
    } else {
        code_by_eight(bytes)
    }
}

/// The code of four to seven bytes, by the first four and the last four, which overlap.
fn code_by_four(bytes: &[u8]) -> u64
    requires some { 4 ≤ length bytes.now }
    requires few { length bytes.now ≤ 7 }
    ensures { IsCode bytes.now result }
{
    let last = 0x1_0000_0000 + u64::from(four(bytes, bytes.len() - 4));
    let behind = last >> (8 * (8 - bytes.len()));
    behind * 0x1_0000_0000 + u64::from(four(bytes, 0))
}

/// The code of eight to fifteen bytes, by the first eight and the last eight, which overlap.
fn code_by_eight(bytes: &[u8]) -> u128
    requires some { 8 ≤ length bytes.now }
    requires few { length bytes.now ≤ 15 }
    ensures { IsCode bytes.now result }
{
    let last = 0x1_0000_0000_0000_0000 + u128::from(eight(bytes, bytes.len() - 8));
    let behind = last >> (8 * (16 - bytes.len()));
    behind * 0x1_0000_0000_0000_0000 + u128::from(eight(bytes, 0))
}

/// Four bytes from a place on as a number.
fn four(bytes: &[u8], at: usize) -> u32
    requires { at + 4 ≤ length bytes.now }
    ensures { result ≡ number_of (take 4 (drop at bytes.now)) }
{
    u32::from_le_bytes([bytes[at], bytes[at + 1], bytes[at + 2], bytes[at + 3]])
}

/// Eight bytes from a place on as a number.
fn eight(bytes: &[u8], at: usize) -> u64
    requires { at + 8 ≤ length bytes.now }
    ensures { result ≡ number_of (take 8 (drop at bytes.now)) }
{
    u64::from_le_bytes([
        bytes[at],
        bytes[at + 1],
        bytes[at + 2],
        bytes[at + 3],
        bytes[at + 4],
        bytes[at + 5],
        bytes[at + 6],
        bytes[at + 7],
    ])
}
