//! Words that are no command.
#![tactic(auto)]

use crate::help::{asks_help, meanings, synopsis, write_release};
use crate::options::{GEN, is_flag, options_of, rule_of};
use sc_pieces::{is_among, nearest, write_near};
use std::alloc::{AllocError, Global};

/// What is wrong with words that are refused, and how the program is called. Where they ask for
/// that alone, also its release and what its options mean; where there are none, its release.
pub fn explain_words(alloc: Global, words: &[String]) -> Result<String, AllocError> {
    let mut out = String::new(alloc);
    if asks_help(words) {
        write_release(&mut out)?;
        out.push_str(synopsis())?;
        out.push_str(meanings())?;
    } else {
        explain_refused(alloc, &mut out, words)?;
        out.push_str(synopsis())?;
    }
    Ok(out)
}

/// Writes what is wrong with words. `out` is empty.
fn explain_refused(alloc: Global, out: &mut String, words: &[String]) -> Result<(), AllocError> {
    let first = word_of(words, 0);
    match options_of(first) {
        Some(options) => explain_options(alloc, out, words, options),
        None if words.is_empty() => {
            write_release(out)?;
            out.push_str("  `spark_story help` tells what the options mean\n")
        }
        None => explain_command(alloc, out, first),
    }
}

/// A first word that is no command.
fn explain_command(alloc: Global, out: &mut String, word: &str) -> Result<(), AllocError> {
    if word.starts_with('-') {
        return out.push_str("  the first word is run, gen or check: options stand behind it\n");
    }
    if word.ends_with(".spark") {
        return writeln!(out, "  the first word is run, gen or check: run {word}");
    }
    write!(out, "  `{word}` is no command")?;
    write_near(alloc, out, word, "run gen check")?;
    out.push('\n')
}

/// What the words so far say of the next one.
#[derive(Clone, Copy)]
struct Before {
    /// The place of an option whose value it is.
    open: Option<usize>,
    /// Whether it is a name, since `--` stood.
    is_behind: bool,
    /// How many names there were.
    names: u32,
}

/// Writes what is wrong with the first word behind a command that is refused. `out` is empty.
fn explain_options(
    alloc: Global,
    out: &mut String,
    words: &[String],
    options: &str,
) -> Result<(), AllocError> {
    let mut before = Before {
        open: None,
        is_behind: false,
        names: 0,
    };
    for at in 1..words.len() {
        before = before.read(alloc, out, words, at, options)?;
        if !out.is_empty() {
            return Ok(());
        }
    }
    match before.open {
        Some(open) => write_no_value(out, word_of(words, open)),
        None => explain_rest(out, words, options, before.names),
    }
}

/// The word at a place, or an empty one.
fn word_of(words: &[String], at: usize) -> &str {
    match words.get(at) {
        Some(word) => word.as_str(),
        None => "",
    }
}

impl Before {
    /// Reads the word at a place, and writes what is wrong with it.
    fn read(
        self,
        alloc: Global,
        out: &mut String,
        words: &[String],
        at: usize,
        options: &str,
    ) -> Result<Before, AllocError> {
        let word = word_of(words, at);
        let is_name = self.is_behind || !word.starts_with('-');
        match self.open {
            Some(open) if is_name => self.read_value(out, word_of(words, open), word),
            Some(open) => {
                write_no_value(out, word_of(words, open))?;
                Ok(self)
            }
            None if is_name => self.read_name(out, options, word),
            None => self.read_option(alloc, out, words, at, options),
        }
    }

    /// Reads the value of an option.
    fn read_value(self, out: &mut String, option: &str, value: &str) -> Result<Before, AllocError> {
        explain_value(out, name_in(option), value)?;
        Ok(Before { open: None, ..self })
    }

    /// Reads a name.
    fn read_name(self, out: &mut String, options: &str, name: &str) -> Result<Before, AllocError> {
        let names = self.names.saturating_add(1);
        explain_name(out, options, name, names)?;
        Ok(Before { names, ..self })
    }

    /// Reads an option, or `--`.
    fn read_option(
        self,
        alloc: Global,
        out: &mut String,
        words: &[String],
        at: usize,
        options: &str,
    ) -> Result<Before, AllocError> {
        let word = word_of(words, at);
        if word == "--" {
            return Ok(Before {
                is_behind: true,
                ..self
            });
        }
        explain_option(alloc, out, words, at, options)?;
        if takes_next(word) {
            Ok(Before {
                open: Some(at),
                ..self
            })
        } else {
            Ok(self)
        }
    }
}

/// The name of an option in its word.
fn name_in(word: &str) -> &str {
    let body = word.strip_prefix("--").unwrap_or("");
    match body.split_once('=') {
        Some((name, _)) => name,
        None => body,
    }
}

/// Whether the value of an option is the next word.
fn takes_next(word: &str) -> bool {
    !word.contains('=') && !is_flag(name_in(word))
}

/// An option without a value.
fn write_no_value(out: &mut String, option: &str) -> Result<(), AllocError> {
    writeln!(out, "  {option} takes a value, as a word behind it")
}

/// A name, which is one too many.
fn explain_name(out: &mut String, options: &str, word: &str, names: u32) -> Result<(), AllocError> {
    if options == GEN {
        return writeln!(out, "  gen takes no script: `{word}` is one word too many");
    }
    if names > 1 {
        return writeln!(
            out,
            "  one script is run at a time: `{word}` is one word too many"
        );
    }
    Ok(())
}

/// An option that isn't there, stands twice, or has a value that it doesn't take.
fn explain_option(
    alloc: Global,
    out: &mut String,
    words: &[String],
    at: usize,
    options: &str,
) -> Result<(), AllocError> {
    let word = word_of(words, at);
    let name = name_in(word);
    if !word.starts_with("--") {
        writeln!(
            out,
            "  `{word}`: options have two hyphens and a name, as --executors"
        )
    } else if !is_among(name, options) {
        explain_unknown(alloc, out, name, options)
    } else if is_given(words, at, name) {
        writeln!(out, "  --{name} stands twice")
    } else {
        explain_own_value(out, name, word)
    }
}

/// An option that isn't there.
fn explain_unknown(
    alloc: Global,
    out: &mut String,
    name: &str,
    options: &str,
) -> Result<(), AllocError> {
    write!(out, "  there is no option `--{name}` here")?;
    if let Some(near) = nearest(alloc, name, options)? {
        write!(out, "; the nearest is `--{near}`")?;
    }
    out.push('\n')
}

/// A value in the word of its option, which that doesn't take.
fn explain_own_value(out: &mut String, name: &str, word: &str) -> Result<(), AllocError> {
    match word.split_once('=') {
        Some(_) if is_flag(name) => writeln!(out, "  --{name} takes no value"),
        Some((_, value)) => explain_value(out, name, value),
        None => Ok(()),
    }
}

/// Whether an option of a name stands before a place.
fn is_given(words: &[String], end: usize, name: &str) -> bool {
    for (at, word) in words.iter().enumerate() {
        let word = word.as_str();
        if at < end && word.starts_with("--") && name_in(word) == name {
            return true;
        }
    }
    false
}

/// A value that an option doesn't take.
fn explain_value(out: &mut String, option: &str, value: &str) -> Result<(), AllocError> {
    let rule = rule_of(option);
    if rule.takes(value) {
        return Ok(());
    }
    let least = rule.least;
    let most = rule.most;
    writeln!(
        out,
        "  --{option} takes a number from {least} to {most}, and not `{value}`"
    )
}

/// What isn't there.
fn explain_rest(
    out: &mut String,
    words: &[String],
    options: &str,
    names: u32,
) -> Result<(), AllocError> {
    if options != GEN && names == 0 {
        return out.push_str("  the name of a script is missing\n");
    }
    if options == GEN {
        for name in ["seed", "size"] {
            if !is_given(words, words.len(), name) {
                return writeln!(out, "  gen takes --{name}, which is missing");
            }
        }
    }
    Ok(())
}
