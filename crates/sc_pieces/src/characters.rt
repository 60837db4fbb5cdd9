//! Characters that can't be seen, or look like others.
#![tactic(auto)]

use crate::places::Place;

/// A character that is no letter of a script, and where it stands.
#[derive(Clone, Copy)]
pub(crate) struct Strange {
    pub(crate) place: Place,
    pub(crate) c: char,
}

/// The first character of a text that isn't of ASCII or can't be seen, where there is one.
pub(crate) fn first_strange(text: &str) -> Option<Strange> {
    let mut found = None;
    for (at, c) in text.char_indices() {
        if found.is_none() && is_strange(c) {
            let place = Place {
                from: at,
                to: at.saturating_add(c.len_utf8()),
            };
            found = Some(Strange { place, c });
        }
    }
    found
}

/// Whether a character isn't of ASCII or can't be seen.
fn is_strange(c: char) -> bool {
    !matches!(c, '\t' | ' '..='~')
}

/// What is to be written for most of them.
const SPACE: &str = "write a space of the space bar";

const QUOTE: &str = "texts stand in straight double quotes";

const DASH: &str = "write - for it";

const NOTHING: &str = "outside of quotes only ASCII is read";

/// What some are called.
const UNUSUAL: &str = "a space that isn't the usual one";

const DIRECTION: &str = "a mark of the direction of text";

/// Characters, what they are called, and what is to be written for them.
const KNOWN: [(&str, &str, &str); 15] = [
    (
        "\u{FEFF}",
        "a byte order mark",
        "save the file as UTF-8 without it",
    ),
    ("\u{A0}\u{202F}", "a no-break space", SPACE),
    ("\u{200B}\u{200C}\u{200D}", "a space without width", SPACE),
    ("\u{2060}", "a space without width", NOTHING),
    (
        "\u{2000}\u{2001}\u{2002}\u{2003}\u{2004}\u{2005}",
        UNUSUAL,
        SPACE,
    ),
    (
        "\u{2006}\u{2007}\u{2008}\u{2009}\u{200A}\u{3000}",
        UNUSUAL,
        SPACE,
    ),
    (
        "\u{200E}\u{200F}\u{202A}\u{202B}\u{202C}\u{202D}\u{202E}",
        DIRECTION,
        NOTHING,
    ),
    ("\u{201C}\u{201D}\u{201E}", "a curly quote", QUOTE),
    ("\u{AB}\u{BB}", "a curly quote", NOTHING),
    ("\u{2018}\u{2019}", "a curly single quote", QUOTE),
    ("\u{201A}", "a curly single quote", NOTHING),
    ("\u{2013}\u{2014}\u{2212}", "a dash", DASH),
    ("\u{2028}\u{2029}\u{85}", "a line separator", NOTHING),
    ("\u{D7}", "a multiplication sign", "write * for it"),
    ("\u{F7}", "a division sign", "write / for it"),
];

/// What a character is called, and what is to be written for it.
pub(crate) fn meaning_of(c: char) -> (&'static str, &'static str) {
    meaning_in(&KNOWN, c)
}

/// The same by a table of characters.
fn meaning_in(
    table: &[(&'static str, &'static str, &'static str)],
    c: char,
) -> (&'static str, &'static str) {
    for (characters, name, remedy) in table {
        if characters.contains(c) {
            return (*name, *remedy);
        }
    }
    if matches!(c, '\0'..='\u{1F}' | '\u{7F}'..='\u{9F}') {
        ("a control character", NOTHING)
    } else {
        ("a character that isn't of ASCII", NOTHING)
    }
}
