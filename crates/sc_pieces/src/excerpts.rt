//! A line of a file, with marks under a place.
#![tactic(auto)]

use crate::places::Place;
use std::alloc::AllocError;

/// How many characters of a line are shown before a place, and how many in all.
const BEFORE: usize = 60;

const SHOWN: usize = 100;

/// Writes a line, and marks under a place of it. Of a long line the part round the place is shown.
pub fn write_excerpt(out: &mut String, line: &str, place: Option<Place>) -> Result<(), AllocError> {
    let from = match place {
        Some(place) => shown_from(line, place),
        None => 0,
    };
    out.push_str("  | ")?;
    for (at, c) in line.chars().enumerate() {
        if is_shown(from, at) {
            out.push(visible(c))?;
        }
    }
    out.push('\n')?;
    match place {
        Some(place) => write_marks(out, line, place, from),
        None => Ok(()),
    }
}

/// Writes the marks under a place: at least one.
fn write_marks(out: &mut String, line: &str, place: Place, from: usize) -> Result<(), AllocError> {
    let first = place.column(line).saturating_sub(1);
    let end = first.saturating_add(place.width(line).max(1));
    out.push_str("  | ")?;
    for at in from..end.min(from.saturating_add(SHOWN)) {
        out.push(if at < first { ' ' } else { '^' })?;
    }
    out.push('\n')
}

/// The first character that is shown of a line, so that a place is among them.
fn shown_from(line: &str, place: Place) -> usize {
    let first = place.column(line);
    if first <= BEFORE {
        0
    } else {
        first.saturating_sub(BEFORE)
    }
}

/// Whether the character at a place in the line is shown.
fn is_shown(from: usize, at: usize) -> bool {
    from <= at && at < from.saturating_add(SHOWN)
}

/// A character as it is shown: what a terminal would obey is told by a question mark.
fn visible(c: char) -> char {
    match c {
        '\t' => ' ',
        '\0'..='\u{1F}' | '\u{7F}'..='\u{9F}' | '\u{202A}'..='\u{202E}' => '?',
        _ => c,
    }
}
