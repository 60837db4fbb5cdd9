//! Names that are near.
#![tactic(auto)]

use std::alloc::{AllocError, Global};
use strsim::osa_distance;

/// The name among some, which stand between blanks, that is nearest to a word, where it is near:
/// at most two characters, or a third of the word's, are wrong, left out, too many or exchanged.
pub fn nearest<'a>(
    alloc: Global,
    word: &str,
    names: &'a str,
) -> Result<Option<&'a str>, AllocError> {
    let mut found = None;
    let mut least = allowed(word).saturating_add(1);
    for name in names.split_whitespace() {
        let distance = distance(alloc, word, name)?;
        if distance < least {
            least = distance;
            found = Some(name);
        }
    }
    Ok(found)
}

/// How many characters may differ where a name is near to a word.
fn allowed(word: &str) -> usize {
    let third = word.chars().count() / 3;
    third.clamp(1, 4)
}

/// How many characters differ, where those of another case are the same.
fn distance(alloc: Global, word: &str, name: &str) -> Result<usize, AllocError> {
    if word.eq_ignore_ascii_case(name) {
        return Ok(0);
    }
    osa_distance(alloc, word, name)
}

/// Writes which of some names is nearest to a word, where one is near.
pub fn write_near(
    alloc: Global,
    text: &mut String,
    word: &str,
    names: &str,
) -> Result<(), AllocError> {
    if let Some(near) = nearest(alloc, word, names)? {
        write!(text, "; the nearest is `{near}`")?;
    }
    Ok(())
}

/// Whether a word stands among names.
pub fn is_among(word: &str, names: &str) -> bool {
    names.split_whitespace().any(|name| name == word)
}
