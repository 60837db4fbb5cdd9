//! One line of a fault plan, test by test.
#![tactic(auto)]

ghost use Rattle.std.specs.Prelude.{◌≡◌, IsTrue, map};
ghost use Rattle.std.specs.List.{list_all, list_any};
ghost use Rattle.std.specs.Str.Parse.{digits_value};
ghost use Rattle.sc_base.specs.Answers.{Answers};
ghost use Rattle.sc_base.specs.Lists.{at_or};
ghost use Rattle.sc_plan.specs.LineReading.{added, fits as line_fits, is_plan_number, is_shaped as are_shaped, is_skipped as is_skipped_line, kind_read, line_read, next_read, words_read};
ghost use Rattle.sc_plan.specs.PlanLines.{line_of, place_from, repeats};
ghost use Rattle.sc_value.specs.Numbers.{is_digits};
ghost use Rattle.sc_plan.specs.Tables.{number_count as numbers_taken};

use crate::faults::{LineError, PlanFaultKind};
use crate::limits::{LINE_LIMIT, LINES_LIMIT, NUMBER_LIMIT};
use crate::lines::{AttemptPlace, PlanLine};
use crate::tables::{LineKind, kind_named, number_count};
use sc_value::{Text, is_digits, nth_word, words_in};
use std::alloc::Global;

/// Reads a line: skips it, or adds what it says to the lines before it.
///
/// # Errors
///
/// The fault of the first test that the line fails.
pub(crate) fn read_next(
    alloc: Global,
    before: Vec<PlanLine>,
    executors: u32,
    line: &str,
) -> Result<Vec<PlanLine>, LineError>
    ensures { Answers (λ v. v.items) (λ kind. kind) result
        (next_read executors before.items line.now) }
{
    let mut lines = before;
    if !is_skipped(line) {
        let read = read_line(alloc, lines.as_slice(), executors, line)?;
        lines.push(read)?;
    }
    Ok(lines)
}

/// Whether a line has no words, or its first word begins with `#`.
fn is_skipped(line: &str) -> bool
    ensures { result ≡ is_skipped_line line.now }
{
    match nth_word(line, 0) {
        Some(word) => word.starts_with('#'),
        None => true,
    }
}

/// What a line says that isn't skipped.
fn read_line(
    alloc: Global,
    before: &[PlanLine],
    executors: u32,
    line: &str,
) -> Result<PlanLine, LineError>
    ensures { Answers (λ l. l) (λ kind. kind) result (line_read executors before.now line.now) }
{
    if line.len() > LINE_LIMIT {
        return Err(LineError::Fault(PlanFaultKind::Limit));
    }
    let words = words_in(alloc, line)?;
    match read_words(before, executors, words.as_slice()) {
        Ok(read) => Ok(read),
        Err(kind) => Err(LineError::Fault(kind)),
    }
}

/// What words say.
fn read_words(
    before: &[PlanLine],
    executors: u32,
    words: &[Text],
) -> Result<PlanLine, PlanFaultKind>
    ensures { result ≡ words_read executors before.now words.now }
{
    match words {
        [first, args @ ..] => match kind_named(first.as_str()) {
            Some(kind) => read_kind(before, executors, kind, args),
            None => Err(PlanFaultKind::UnknownName),
        },
        [] => Err(PlanFaultKind::UnknownName),
    }
}

/// What a line of a kind says, by the words behind the first.
fn read_kind(
    before: &[PlanLine],
    executors: u32,
    kind: LineKind,
    args: &[Text],
) -> Result<PlanLine, PlanFaultKind>
    ensures { result ≡ kind_read executors before.now kind args.now }
{
    if !is_shaped(kind, args) {
        return Err(PlanFaultKind::Syntax);
    }
    if !are_small_numbers(args) {
        return Err(PlanFaultKind::Limit);
    }
    add(before, executors, line_from(kind, args))
}

/// A line behind others, where it has a place there.
fn add(before: &[PlanLine], executors: u32, line: PlanLine) -> Result<PlanLine, PlanFaultKind>
    ensures { result ≡ added executors before.now line }
{
    if !fits(before, executors, line) {
        return Err(PlanFaultKind::Limit);
    }
    if is_said(before, line) {
        return Err(PlanFaultKind::Twice);
    }
    Ok(line)
}

/// Whether one of some lines says the same already.
fn is_said(before: &[PlanLine], line: PlanLine) -> bool
    ensures { result ≡ list_any (repeats line) before.now }
{
    before.iter().any(|other| line.repeats(*other))
}

/// Whether a line is within the limits behind others.
fn fits(before: &[PlanLine], executors: u32, line: PlanLine) -> bool
    ensures { result ≡ line_fits executors before.now line }
{
    before.len() < LINES_LIMIT && line.names_below(executors) && line.tells_in_order()
}

/// Whether words are as many numbers as a kind takes.
fn is_shaped(kind: LineKind, args: &[Text]) -> bool
    ensures { result ≡ are_shaped kind args.now }
{
    args.len() == number_count(kind) && are_numbers(args)
}

/// Whether each word is a number.
fn are_numbers(args: &[Text]) -> bool
    ensures { result ≡ list_all is_digits args.now }
{
    args.iter().all(|arg| is_digits(arg.as_str().as_bytes()))
}

/// Whether each word is a number that a plan may have.
fn are_small_numbers(args: &[Text]) -> bool
    ensures { result ≡ list_all is_plan_number args.now }
{
    args.iter().all(|arg| is_small_number(arg.as_str()))
}

/// Whether a word is a number that a plan may have.
fn is_small_number(word: &str) -> bool
    ensures { result ≡ is_plan_number word.now }
{
    // The digits are tested first, since `parse` takes a plus sign.
    if !is_digits(word.as_bytes()) {
        return false;
    }
    match word.parse::<u32>() {
        Ok(n) => n <= NUMBER_LIMIT,
        Err(_) => false,
    }
}

/// The line of a kind with these numbers.
fn line_from(kind: LineKind, args: &[Text]) -> PlanLine
    requires { IsTrue (list_all is_plan_number args.now) }
    ensures { result ≡ line_of kind (map (digits_value 10) args.now) }
{
    let first = number_at(args, 0);
    let second = number_at(args, 1);
    let third = number_at(args, 2);
    let place = AttemptPlace {
        stage: first,
        partition: second,
        nth: third,
    };
    match kind {
        LineKind::Fail => PlanLine::Fail(place),
        LineKind::Late => PlanLine::Late {
            place,
            count: number_at(args, 3),
        },
        LineKind::Twice => PlanLine::Twice(place),
        LineKind::Drop => PlanLine::Drop {
            exec: first,
            after: second,
        },
        LineKind::Lose => PlanLine::Lose {
            exec: first,
            after: second,
            told: third,
        },
        LineKind::Evict => PlanLine::Evict {
            exec: first,
            after: second,
        },
    }
}

/// The number at a place, and 0 where there is none.
fn number_at(args: &[Text], i: usize) -> u32
    requires { IsTrue (list_all is_plan_number args.now) }
    ensures { result ≡ at_or (map (digits_value 10) args.now) i 0 }
{
    match args.get(i) {
        Some(word) => number_of(word.as_str()),
        None => 0,
    }
}

/// The number that a word is.
fn number_of(word: &str) -> u32
    requires { IsTrue (is_plan_number word.now) }
    ensures { result ≡ digits_value 10 word.now }
{
    match word.parse::<u32>() {
        Ok(n) => n,
        Err(_) => 0,
    }
}
