//! Numbers that texts write.
#![tactic(auto)]

ghost use Rattle.std.specs.Prelude.{◌≡◌};
ghost use Rattle.sc_value.specs.Numbers.{number_of_text, is_digits as are_digits, is_number as number_test};

/// Why a text writes no number of 64 bits.
#[derive(Clone, Copy, Debug, PartialEq, Eq)]
pub enum NumberFault {
    /// The text is something else than digits, or a minus and digits.
    NotANumber,
    /// The number doesn't fit 64 bits.
    OutOfRange,
}

/// Whether bytes are decimal digits, one or more.
pub fn is_digits(bytes: &[u8]) -> bool
    ensures { result ≡ are_digits bytes.now }
{
    !bytes.is_empty() && bytes.iter().all(|b| b.is_ascii_digit())
}

/// Whether bytes are decimal digits, one or more, or a minus and such digits.
pub fn is_number(bytes: &[u8]) -> bool
    ensures { result ≡ number_test bytes.now }
{
    match bytes {
        [b'-', digits @ ..] => is_digits(digits),
        _ => is_digits(bytes),
    }
}

/// The number that a text writes.
///
/// # Errors
///
/// `NotANumber` exactly where the text isn't one by [`is_number`], of whatever length, and
/// `OutOfRange` exactly where it is one that doesn't fit 64 bits.
pub fn parse_int(text: &str) -> Result<i64, NumberFault>
    ensures { result ≡ number_of_text text.now }
{
    // The number is tested first, since `parse` takes a plus sign.
    if !is_number(text.as_bytes()) {
        return Err(NumberFault::NotANumber);
    }
    match text.parse::<i64>() {
        Ok(n) => Ok(n),
        Err(_) => Err(NumberFault::OutOfRange),
    }
}
