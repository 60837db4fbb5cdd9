//! From a line to its tokens.
#![tactic(auto)]

ghost use Rattle.std.specs.Prelude.{◌≡◌, ◌≤◌, map, not, false};
ghost use Rattle.std.specs.List.{position_or_len};
ghost use Rattle.sc_script.specs.Limits.{depth_limit};
ghost use Rattle.sc_script.specs.Tokens.{begins_with_blank, ends_token, is_blank, stands_behind};
ghost use Rattle.sc_script.specs.Tokens.{IsShort};
ghost use Rattle.sc_script.specs.TokenReading.{Finds, IsShortFront, front_of, depth_after};
ghost use Rattle.sc_script.specs.TokenReading.{is_token_end, piece_at, text_at, text_token_of};
ghost use Rattle.sc_script.specs.TokenReading.{token_at, token_of_piece, without_blanks};
ghost use Rattle.sc_script.specs.Views.{token_data_of};
ghost use Rattle.sc_script.specs.Parsing.{AreTokensOf};

use crate::faults::{FaultKind, LineError};
use crate::limits::{DEPTH_LIMIT, LINE_LIMIT, WORD_LIMIT};
use crate::literals::{int_of, is_blank, is_sign, is_word, quoted};
use sc_value::{Text, is_number};
use std::alloc::Global;

/// A token of a line.
#[derive(Drop)]
pub enum Token {
    /// `(`
    Open,
    /// `)`
    Close,
    /// `=`
    Equals,
    /// A number.
    Int(i64),
    /// A text in quotes, with its escapes resolved.
    Text(Text),
    /// A word.
    Word(Text),
    /// A sign.
    Sign(Text),
}

/// Whether a token may end before this byte.
fn is_token_end(byte: u8) -> bool
    ensures { result ≡ is_token_end byte }
{
    is_blank(byte) || byte == b'(' || byte == b')'
}

/// Whether a token may end before these bytes: at the line's end, a blank or a parenthesis.
fn ends_token(after: &[u8]) -> bool
    ensures { result ≡ ends_token after.now }
{
    match after {
        [byte, ..] => is_token_end(*byte),
        [] => true,
    }
}

/// Whether these bytes begin with a blank.
fn begins_with_blank(bytes: &[u8]) -> bool
    ensures { result ≡ begins_with_blank bytes.now }
{
    match bytes {
        [byte, ..] => is_blank(*byte),
        [] => false,
    }
}

/// How many bytes stand before the first blank or parenthesis, or how many there are.
fn piece_len(line: &[u8]) -> usize
    ensures { result ≡ position_or_len is_token_end line.now }
{
    line.iter()
        .position(|b| is_token_end(*b))
        .unwrap_or(line.len())
}

/// How many blanks a line begins with.
fn blanks_len(line: &[u8]) -> usize
    ensures { result ≡ position_or_len (λ c. not (is_blank c)) line.now }
{
    line.iter()
        .position(|b| !is_blank(*b))
        .unwrap_or(line.len())
}

/// A line without the blanks before it.
fn skip_blanks(line: &str) -> &str
    ensures { result.now ≡ without_blanks line.now }
{
    &line[blanks_len(line.as_bytes())..]
}

/// The token that a piece of a line is, before what follows it.
///
/// # Errors
///
/// `Limit` where the word is too long or the number too large; `Syntax` where it is no token.
#[tactic(auto, unfolding(crate::specs::TokenReading::token_of_piece))]
fn token_of_piece(alloc: Global, piece: &str, after: &str) -> Result<Token, LineError>
    ensures { Finds token_data_of IsShort result (token_of_piece piece.now after.now) }
{
    if is_word(piece.as_bytes()) {
        if piece.len() > WORD_LIMIT {
            return Err(LineError::Fault(FaultKind::Limit));
        }
        return Ok(Token::Word(Text::new(alloc, piece)?));
    }
    if is_number(piece.as_bytes()) {
        return Ok(Token::Int(int_of(piece)?));
    }
    if is_sign(piece) {
        return Ok(Token::Sign(Text::new(alloc, piece)?));
    }
    if piece == "=" && begins_with_blank(after.as_bytes()) {
        return Ok(Token::Equals);
    }
    Err(LineError::Fault(FaultKind::Syntax))
}

/// A text as a token, behind its opening quote, and what follows it.
///
/// # Errors
///
/// `Syntax` where there is no text, or no token may end behind it.
fn text_token(alloc: Global, line: &str) -> Result<(Token, &str), LineError>
    ensures { Finds front_of IsShortFront result (text_token_of (text_at false line.now)) }
{
    let (text, after) = quoted(alloc, line)?;
    if !ends_token(after.as_bytes()) {
        return Err(LineError::Fault(FaultKind::Syntax));
    }
    Ok((Token::Text(text), after))
}

/// The first piece of a line as a token, and what follows it.
///
/// # Errors
///
/// As those of [`token_of_piece`].
fn piece_token(alloc: Global, line: &str) -> Result<(Token, &str), LineError>
    ensures { Finds front_of IsShortFront result (piece_at line.now) }
{
    let (piece, after) = line.split_at(piece_len(line.as_bytes()));
    Ok((token_of_piece(alloc, piece, after)?, after))
}

/// The token that a line begins with, and what follows it.
///
/// # Errors
///
/// `Limit` where the token is too long or too large; `Syntax` where there is none.
fn token_at(alloc: Global, line: &str) -> Result<(Token, &str), LineError>
    ensures { Finds front_of IsShortFront result (token_at line.now) }
{
    if let Some(after) = line.strip_prefix('(') {
        return Ok((Token::Open, after));
    }
    if let Some(after) = line.strip_prefix(')') {
        return Ok((Token::Close, after));
    }
    if let Some(inner) = line.strip_prefix('"') {
        return text_token(alloc, inner);
    }
    piece_token(alloc, line)
}

/// Whether a token may stand where a blank is right before it, or where none is.
fn stands_behind(blank: bool, token: &Token) -> bool
    ensures { result ≡ stands_behind blank (token_data_of token.now) }
{
    match token {
        Token::Equals => blank,
        _ => true,
    }
}

/// How many parentheses are open behind a token, where so many are open before it. One too many
/// closes nothing.
fn depth_after(inside: usize, token: &Token) -> usize
    requires { inside ≤ depth_limit }
    ensures { result ≡ depth_after inside (token_data_of token.now) }
{
    match token {
        Token::Open => inside + 1,
        Token::Close => inside.saturating_sub(1),
        _ => inside,
    }
}

/// The tokens of a line, where it is all tokens and keeps the limits.
///
/// # Errors
///
/// `Limit` where the line, or one of its tokens from the left as far as they go, passes a limit;
/// else `Syntax` where something stands that is no token.
pub fn tokens_of(alloc: Global, line: &str) -> Result<Vec<Token>, LineError>
    ensures { AreTokensOf line.now result }
{
    if line.len() > LINE_LIMIT {
        return Err(LineError::Fault(FaultKind::Limit));
    }
    let mut tokens = Vec::new(alloc);
    let mut inside = 0;
    let mut rest = skip_blanks(line);
    let mut is_behind_blank = begins_with_blank(line.as_bytes());
    while !rest.is_empty() {
        let (token, after) = token_at(alloc, rest)?;
        if !stands_behind(is_behind_blank, &token) {
            return Err(LineError::Fault(FaultKind::Syntax));
        }
        inside = depth_after(inside, &token);
        if inside > DEPTH_LIMIT {
            return Err(LineError::Fault(FaultKind::Limit));
        }
        tokens.push(token)?;
        rest = skip_blanks(after);
        is_behind_blank = begins_with_blank(after.as_bytes());
    }
    Ok(tokens)
}
