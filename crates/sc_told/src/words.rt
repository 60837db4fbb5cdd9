//! The words of the command line, without those that `run` doesn't know.
#![tactic(auto)]

use std::alloc::{AllocError, Global};

/// The words of the process, and the files that those of them name which `run` doesn't know.
#[derive(Drop)]
pub struct Asked {
    /// All of them.
    pub all: Vec<String>,
    /// Those for `run`.
    pub words: Vec<String>,
    /// Where the history goes.
    pub history: Option<String>,
    /// Where the page goes.
    pub page: Option<String>,
    /// Whether it is shown how far the run is.
    pub progress: bool,
}

/// A file that an option names, and the words without the option.
#[derive(Drop)]
struct Taken {
    file: Option<String>,
    rest: Vec<String>,
}

/// An option as it stands in words, with its value.
#[derive(Clone, Copy)]
struct Given<'a> {
    /// Its place.
    at: usize,
    /// How many words it takes.
    count: usize,
    value: &'a str,
}

/// Whether words ask for a check, and for no run.
pub fn asks_check(words: &[String]) -> bool {
    begin_with(words, "check")
}

/// Whether words ask for a run of the generator's script.
pub fn asks_generated(words: &[String]) -> bool {
    begin_with(words, "gen")
}

/// Whether a word is the first of all.
fn begin_with(words: &[String], first: &str) -> bool {
    match words.first() {
        Some(word) => word.as_str() == first,
        None => false,
    }
}

/// Takes `--history FILE`, `--page FILE` and `--progress` out of words. Where one has no file it
/// stays, and where one stands twice the second stays; they are refused with the others.
pub fn split_words(alloc: Global, all: &[String]) -> Result<Asked, AllocError> {
    let Taken {
        file: history,
        rest,
    } = take(alloc, all, "--history")?;
    let Taken {
        file: page,
        rest: words,
    } = take(alloc, rest.as_slice(), "--page")?;
    let (at, count) = place_of(words.as_slice(), "--progress");
    Ok(Asked {
        all: without(alloc, all, 0, 0)?,
        words: without(alloc, words.as_slice(), at, count)?,
        history,
        page,
        progress: count > 0,
    })
}

/// The first place of a flag, and how many words it takes there.
fn place_of(words: &[String], flag: &str) -> (usize, usize) {
    for (at, word) in words.iter().enumerate() {
        if word.as_str() == flag {
            return (at, 1);
        }
    }
    (0, 0)
}

/// Takes an option and its value out of words.
fn take(alloc: Global, words: &[String], option: &str) -> Result<Taken, AllocError> {
    match find_given(words, option) {
        Some(given) => Ok(Taken {
            file: Some(String::from_str(alloc, given.value)?),
            rest: without(alloc, words, given.at, given.count)?,
        }),
        None => Ok(Taken {
            file: None,
            rest: without(alloc, words, 0, 0)?,
        }),
    }
}

/// The first place where an option has a value: in its own word, or in the next one.
fn find_given<'a>(words: &'a [String], option: &str) -> Option<Given<'a>> {
    for (at, word) in words.iter().enumerate() {
        if let Some(value) = value_in(word.as_str(), option) {
            let count = 1;
            return Some(Given { at, count, value });
        }
        if word.as_str() == option {
            return behind(words, at);
        }
    }
    None
}

/// An option whose value is the next word, where there is one.
fn behind(words: &[String], at: usize) -> Option<Given<'_>> {
    match words.get(at.saturating_add(1)) {
        Some(value) => Some(Given {
            at,
            count: 2,
            value: value.as_str(),
        }),
        None => None,
    }
}

/// The value that stands in the word of an option, behind `=`.
fn value_in<'a>(word: &'a str, option: &str) -> Option<&'a str> {
    match word.split_once('=') {
        Some((name, value)) if name == option => Some(value),
        _ => None,
    }
}

/// The words but for some of them, from a place on.
fn without(
    alloc: Global,
    words: &[String],
    from: usize,
    count: usize,
) -> Result<Vec<String>, AllocError> {
    let mut rest = Vec::new(alloc);
    for (at, word) in words.iter().enumerate() {
        if at < from || at >= from.saturating_add(count) {
            rest.push(word.clone()?)?;
        }
    }
    Ok(rest)
}
