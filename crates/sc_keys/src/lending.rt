//! Keys that are lent.
#![tactic(auto)]

ghost use Rattle.std.specs.Prelude.{◌≡◌};
ghost use Rattle.sc_keys.specs.Lent.{lent_data};
ghost use Rattle.sc_value.specs.Views.{key_data_of};

use sc_value::Key;

/// A key whose text is lent.
#[derive(Clone, Copy, PartialEq, Eq, Hash)]
pub enum LentKey<'a> {
    /// A number.
    Int(i64),
    /// A text.
    Text(&'a str),
}

/// The same key, lent.
pub fn lent(key: &Key) -> LentKey<'_>
    ensures { lent_data result ≡ key_data_of key.now }
{
    match key {
        Key::Int(n) => LentKey::Int(*n),
        Key::Text(text) => LentKey::Text(text.as_str()),
    }
}
