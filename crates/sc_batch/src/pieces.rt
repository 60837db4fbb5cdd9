//! Texts that are to be cut.
#![tactic(auto)]

ghost use Rattle.std.specs.Prelude.{◌<◌};

use sc_value::Texts;

/// Texts that are to be cut between the occurrences of a character.
#[derive(Drop)]
pub(crate) struct Pieces {
    /// The texts.
    pub texts: Texts,
    /// The character, which is one of ASCII.
    pub separator: u8,
    ghost ascii: { separator < 128 },
}
