//! Pieces of a line: words, numbers and signs, and texts in quotes.
#![tactic(auto)]

ghost use Rattle.std.specs.Prelude.{◌≡◌, true, false, Some, FitsSigned};
ghost use Rattle.std.specs.Int.{w64};
ghost use Rattle.std.specs.List.{position_or_len};
ghost use Rattle.std.specs.Str.Parse.{signed_digits_value};
ghost use Rattle.sc_script.specs.TokenReading.{Finds, is_mark, mark_at, text_at};
ghost use Rattle.sc_script.specs.TokenReading.{is_word, is_sign};
ghost use Rattle.sc_value.specs.Numbers.{is_number};
ghost use Rattle.sc_script.specs.Tokens.{escaped_byte, is_word_start, is_word_byte, is_blank};

use crate::faults::{FaultKind, LineError};
use sc_value::Text;
use std::alloc::Global;

/// Whether a byte is a space or a tab.
pub fn is_blank(byte: u8) -> bool
    ensures { result ≡ is_blank byte }
{
    byte == b' ' || byte == b'\t'
}

/// Whether a byte may begin a word: a letter or an underscore.
fn is_word_start(byte: u8) -> bool
    ensures { result ≡ is_word_start byte }
{
    byte.is_ascii_alphabetic() || byte == b'_'
}

/// Whether a byte may stand in a word: a letter, a digit or an underscore.
fn is_word_byte(byte: u8) -> bool
    ensures { result ≡ is_word_byte byte }
{
    is_word_start(byte) || byte.is_ascii_digit()
}

/// Whether a piece is a word.
pub fn is_word(piece: &[u8]) -> bool
    ensures { result ≡ is_word piece.now }
{
    match piece {
        [first, rest @ ..] => is_word_start(*first) && rest.iter().all(|b| is_word_byte(*b)),
        [] => false,
    }
}

/// Whether a piece is a sign.
pub fn is_sign(piece: &str) -> bool
    ensures { result ≡ is_sign piece.now }
{
    matches!(piece, "+" | "-" | "*" | "/" | "%" | "==" | "<" | "<=")
}

/// The number that a piece is.
///
/// # Errors
///
/// `Limit` where it doesn't fit 64 bits.
pub fn int_of(piece: &str) -> Result<i64, LineError>
    requires { is_number piece.now ≡ true }
    ensures { Finds (λ n. n) (FitsSigned w64) result (Some (signed_digits_value 10 piece.now)) }
{
    match piece.parse::<i64>() {
        Ok(n) => Ok(n),
        Err(_) => Err(LineError::Fault(FaultKind::Limit)),
    }
}

/// How many bytes stand before the first quote or backslash, or how many there are.
fn plain_len(bytes: &[u8]) -> usize
    ensures { result ≡ position_or_len is_mark bytes.now }
{
    bytes
        .iter()
        .position(|b| *b == b'"' || *b == b'\\')
        .unwrap_or(bytes.len())
}

/// What a backslash and this byte stand for.
fn escaped(byte: u8) -> Option<char>
    ensures { result ≡ escaped_byte byte }
{
    match byte {
        b'n' => Some('\n'),
        b't' => Some('\t'),
        b'\\' | b'"' => Some(char::from(byte)),
        _ => None,
    }
}

/// What a quote or a backslash in a text begins.
#[derive(Clone, Copy)]
enum Mark {
    /// The end of the text.
    Quote,
    /// A backslash and a byte, which stand for this character.
    Escape(char),
}

/// What the bytes begin with, a quote or an escape.
fn mark_at(bytes: &[u8]) -> Option<Mark>
    ensures { result ≡ mark_at bytes.now }
{
    match bytes {
        [b'"', ..] => Some(Mark::Quote),
        [b'\\', byte, ..] => match escaped(*byte) {
            Some(c) => Some(Mark::Escape(c)),
            None => None,
        },
        _ => None,
    }
}

/// The text up to its closing quote, with its escapes resolved, and what stands after the quote.
///
/// # Errors
///
/// `Syntax` where the quote is missing, or a backslash stands before something else than `n`, `t`,
/// a backslash or a quote.
pub fn quoted(alloc: Global, line: &str) -> Result<(Text, &str), LineError>
    ensures { Finds (λ x. (x.0, x.1.now)) (λ x. Unit {0}) result (text_at false line.now) }
{
    let mut text = String::new(alloc);
    let mut rest = line;
    loop {
        let (plain, marked) = rest.split_at(plain_len(rest.as_bytes()));
        text.push_str(plain)?;
        match mark_at(marked.as_bytes()) {
            Some(Mark::Quote) => return Ok((Text::of_string(text), &marked[1..])),
            Some(Mark::Escape(c)) => {
                text.push(c)?;
                rest = &marked[2..];
            }
            None => return Err(LineError::Fault(FaultKind::Syntax)),
        }
    }
}
