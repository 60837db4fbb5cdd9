//! Places in a line.
#![tactic(auto)]

use std::str;

/// From one byte of a line up to, not including, another.
#[derive(Clone, Copy)]
pub struct Place {
    /// Where it begins.
    pub from: usize,
    /// Where it ends.
    pub to: usize,
}

impl Place {
    /// The part of a text that lies there, and nothing where it is no text.
    pub fn part(self, text: &str) -> &str {
        match text.as_bytes().get(self.from..self.to) {
            Some(bytes) => match str::from_utf8(bytes) {
                Ok(part) => part,
                Err(_) => "",
            },
            None => "",
        }
    }

    /// How many characters of a text begin there.
    pub fn width(self, text: &str) -> usize {
        let mut width: usize = 0;
        for (at, _) in text.char_indices() {
            if self.from <= at && at < self.to {
                width = width.saturating_add(1);
            }
        }
        width
    }

    /// In which column of a text it begins, counted from 1.
    pub fn column(self, text: &str) -> usize {
        let before = Place {
            from: 0,
            to: self.from,
        };
        before.width(text).saturating_add(1)
    }
}
