//! Hashes.
#![tactic(auto)]

ghost use Rattle.std.specs.Prelude.{◌≡◌, IfSome, pos};
ghost use Rattle.std.specs.Char.Escape.{encode_utf16};
ghost use Rattle.sc_hash.specs.Hashes.{hash_of_key, hash_of_number, hash_of_text as text_hash, with_unit, with_units};
ghost use Rattle.sc_value.specs.Views.{key_data_of};

use sc_value::Key;

/// The hash of a key.
pub fn hash_of(key: &Key) -> i32
    ensures { result ≡ hash_of_key (key_data_of key.now) }
{
    match key {
        Key::Int(n) => hash_of_int(*n),
        Key::Text(text) => hash_of_text(text.as_str()),
    }
}

/// The hash of a number: the lower half of its bits and the upper half, by exclusive or.
pub fn hash_of_int(n: i64) -> i32
    ensures { result ≡ hash_of_number n }
{
    let bits = n.cast_unsigned();
    let joined = (bits ^ (bits >> 32)) % 0x1_0000_0000;
    (joined as u32).cast_signed()
}

/// The hash of a text, by its UTF-16 units.
pub fn hash_of_text(text: &str) -> i32
    ensures { result ≡ text_hash text.now }
{
    match ascii_hash(text) {
        Some(hash) => hash,
        None => chars_hash(text),
    }
}

/// The hash of a text of ASCII characters alone, whose bytes are its units. None of another text.
fn ascii_hash(text: &str) -> Option<i32>
    ensures { IfSome result (λ hash. hash ≡ text_hash text.now) }
{
    let bytes = text.as_bytes();
    let mut hash: i32 = 0;
    for i in 0..bytes.len() {
        let byte = bytes[i];
        if byte >= 128 {
            return None;
        }
        hash = add_unit(hash, u16::from(byte));
    }
    Some(hash)
}

/// The hash of any text, character by character.
fn chars_hash(text: &str) -> i32
    ensures { result ≡ text_hash text.now }
{
    let mut hash: i32 = 0;
    for c in text.chars() {
        hash = add_char(hash, c);
    }
    hash
}

/// A hash with the units of a character more: one, or the two of a surrogate pair.
fn add_char(hash: i32, c: char) -> i32
    ensures { result ≡ with_units hash (encode_utf16 c) }
{
    let code = c as u32;
    if code < 0x1_0000 {
        return add_unit(hash, code as u16);
    }
    let above = code - 0x1_0000;
    let high = 0xD800 + (above / 0x400) as u16;
    let low = 0xDC00 + (above % 0x400) as u16;
    add_unit(add_unit(hash, high), low)
}

/// A hash with a unit more.
#[inline(always)]
fn add_unit(hash: i32, unit: u16) -> i32
    ensures { result ≡ with_unit hash unit }
{
    hash.wrapping_mul(31).wrapping_add(unit as i32)
}
