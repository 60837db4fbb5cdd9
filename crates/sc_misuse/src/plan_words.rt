//! The words of a line of a fault plan.
#![tactic(auto)]

use sc_pieces::Place;
use std::alloc::{AllocError, Global};

/// Where the words of a line stand, between spaces and tabs.
pub(crate) fn word_places(alloc: Global, line: &str) -> Result<Vec<Place>, AllocError> {
    let mut places = Vec::new(alloc);
    let mut begun = None;
    for (at, c) in line.char_indices() {
        let is_blank = c == ' ' || c == '\t';
        match begun {
            Some(from) if is_blank => {
                places.push(Place { from, to: at })?;
                begun = None;
            }
            None if !is_blank => begun = Some(at),
            _ => {}
        }
    }
    if let Some(from) = begun {
        let to = line.len();
        places.push(Place { from, to })?;
    }
    Ok(places)
}

/// The word of a number in a line.
pub(crate) fn word_of<'a>(line: &'a str, words: &[Place], at: usize) -> &'a str {
    match words.get(at) {
        Some(place) => place.part(line),
        None => "",
    }
}

/// How a line of a kind is written, and what it says.
pub(crate) fn form_of(kind: &str) -> &'static str {
    match kind {
        "fail" => "fail STAGE PARTITION NTH: that attempt reports a failure",
        "late" => "late STAGE PARTITION NTH REPORTS: its report comes so many reports later",
        "twice" => "twice STAGE PARTITION NTH: its report comes twice",
        "drop" => "drop EXECUTOR REPORTS: its store is wiped behind so many reports",
        "lose" => "lose EXECUTOR REPORTS TOLD: it is wiped and, behind TOLD reports, told lost",
        "evict" => "evict EXECUTOR REPORTS: its cache lets a block go behind so many reports",
        _ => "",
    }
}

/// How many numbers a line of a kind has.
pub(crate) fn number_count(kind: &str) -> usize {
    match kind {
        "late" => 4,
        "fail" | "twice" | "lose" => 3,
        _ => 2,
    }
}

/// The number of a word; one that doesn't fit is the largest.
pub(crate) fn number_in(line: &str, place: Place) -> u32 {
    match place.part(line).parse::<u32>() {
        Ok(n) => n,
        Err(_) => u32::MAX,
    }
}

/// The number that digits are.
pub(crate) fn digits(word: &str) -> Option<u32> {
    match word.parse::<u32>() {
        Ok(n) => Some(n),
        Err(_) => None,
    }
}
