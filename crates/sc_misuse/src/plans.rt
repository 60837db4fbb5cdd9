//! Faults of fault plans.
#![tactic(auto)]

use crate::plan_words::{digits, form_of, number_count, number_in, word_of, word_places};
use sc_pieces::{Found, Note, Place, lines_or_told, strange_in, write_near, write_note};
use sc_plan::{PlanFault, PlanFaultKind};
use sc_value::{Octets, Texts, is_digits};
use std::alloc::{AllocError, Global};

/// The kinds of lines.
const KINDS: &str = "fail late twice drop lose evict";

/// The largest number of a line, and the most bytes of one.
const NUMBER_LIMIT: u32 = 1_000_000;

const LINE_LIMIT: usize = 4096;

/// What is wrong with the fault plan of a name, where its parser gave a fault.
pub fn explain_plan(
    alloc: Global,
    name: &str,
    bytes: &Octets,
    executors: u32,
    fault: PlanFault,
) -> Result<String, AllocError> {
    let mut out = String::new(alloc);
    if fault.line == 0 && fault.kind == PlanFaultKind::Limit {
        let len = bytes.len();
        writeln!(
            out,
            "  {name} has {len} bytes, and a fault plan at most 65536"
        )?;
        return Ok(out);
    }
    if let Some(lines) = lines_or_told(alloc, &mut out, name, bytes)? {
        explain_line(alloc, &mut out, name, &lines, executors, fault)?;
    }
    Ok(out)
}

/// Tells of a line.
fn explain_line(
    alloc: Global,
    out: &mut String,
    name: &str,
    lines: &Texts,
    executors: u32,
    fault: PlanFault,
) -> Result<(), AllocError> {
    let place = (fault.line as usize).saturating_sub(1);
    if place >= lines.len() {
        return Ok(());
    }
    let line = lines.get(place);
    let words = word_places(alloc, line)?;
    let words = words.as_slice();
    let note = match find_note(alloc, line, words, lines, executors, fault)? {
        Some(note) => note,
        None => Note::of_line(String::from_str(alloc, "a line is KIND NUMBER..")?),
    };
    write_note(out, name, line, fault.line, &note)
}

/// Where a fault of this kind shows in its line.
fn find_note(
    alloc: Global,
    line: &str,
    words: &[Place],
    lines: &Texts,
    executors: u32,
    fault: PlanFault,
) -> Found {
    match fault.kind {
        PlanFaultKind::NotText => Ok(None),
        PlanFaultKind::UnknownName => unknown_kind(alloc, line, words),
        PlanFaultKind::Syntax => shape_fault(alloc, line, words),
        PlanFaultKind::Limit => limit_fault(alloc, line, words, executors),
        PlanFaultKind::Twice => {
            let place = (fault.line as usize).saturating_sub(1);
            twice_fault(alloc, line, words, lines, place)
        }
    }
}

/// A first word that is no kind of line.
fn unknown_kind(alloc: Global, line: &str, words: &[Place]) -> Found {
    let Some(place) = words.first() else {
        return Ok(None);
    };
    let word = place.part(line);
    let found = strange_in(alloc, word, place.from)?;
    if found.is_some() {
        return Ok(found);
    }
    let mut text = format!(in alloc; "there is no kind of line `{word}`")?;
    write_near(alloc, &mut text, word, KINDS)?;
    write!(text, "\n  there are {KINDS}")?;
    Ok(Some(Note::at(*place, text)))
}

/// A line that hasn't as many numbers as its kind takes.
fn shape_fault(alloc: Global, line: &str, words: &[Place]) -> Found {
    let form = form_of(word_of(line, words, 0));
    match first_other(line, words) {
        Some(place) => {
            let text = format!(in alloc; "a number is wanted here: digits alone\n  {form}")?;
            Ok(Some(Note::at(place, text)))
        }
        None => {
            let text = count_text(alloc, line, words, form)?;
            Ok(Some(about_kind(words, text)))
        }
    }
}

/// The first word behind the kind that isn't digits alone.
fn first_other(line: &str, words: &[Place]) -> Option<Place> {
    for (at, place) in words.iter().enumerate() {
        if at > 0 && !is_digits(place.part(line).as_bytes()) {
            return Some(*place);
        }
    }
    None
}

/// How many numbers a line has, and how many its kind takes.
fn count_text(
    alloc: Global,
    line: &str,
    words: &[Place],
    form: &str,
) -> Result<String, AllocError> {
    let kind = word_of(line, words, 0);
    let wanted = number_count(kind);
    let found = words.len().saturating_sub(1);
    format!(in alloc; "`{kind}` takes {wanted} numbers, and has {found}\n  {form}")
}

/// A note about the first word of a line, where it has one.
fn about_kind(words: &[Place], text: String) -> Note {
    match words.first() {
        Some(place) => Note::at(*place, text),
        None => Note::of_line(text),
    }
}

/// A line that passes a limit.
fn limit_fault(alloc: Global, line: &str, words: &[Place], executors: u32) -> Found {
    if line.len() > LINE_LIMIT {
        let text = format!(in alloc; "a line has at most {LINE_LIMIT} bytes")?;
        return Ok(Some(Note::of_line(text)));
    }
    if let Some(place) = first_large(line, words) {
        let text = format!(in alloc; "numbers end at {NUMBER_LIMIT}")?;
        return Ok(Some(Note::at(place, text)));
    }
    match missing_executor(line, words, executors) {
        Some(place) => Ok(Some(Note::at(place, executors_text(alloc, executors)?))),
        None => told_early(alloc, line, words),
    }
}

/// The first number that is too large.
fn first_large(line: &str, words: &[Place]) -> Option<Place> {
    for (at, place) in words.iter().enumerate() {
        if at > 0 && number_in(line, *place) > NUMBER_LIMIT {
            return Some(*place);
        }
    }
    None
}

/// The number of an executor that isn't there.
fn missing_executor(line: &str, words: &[Place], executors: u32) -> Option<Place> {
    match (word_of(line, words, 0), words.get(1)) {
        ("drop" | "lose" | "evict", Some(exec)) if number_in(line, *exec) >= executors => {
            Some(*exec)
        }
        _ => None,
    }
}

/// Which executors there are.
fn executors_text(alloc: Global, executors: u32) -> Result<String, AllocError> {
    let last = executors.saturating_sub(1);
    format!(in alloc; "there are {executors} executors, from 0 to {last}: --executors N makes more")
}

/// A loss that is told before the executor is wiped, or one line too many.
fn told_early(alloc: Global, line: &str, words: &[Place]) -> Found {
    match early_number(line, words) {
        Some(place) => {
            let text = String::from_str(
                alloc,
                "an executor is told lost when it is wiped, or later: this number is less",
            )?;
            Ok(Some(Note::at(place, text)))
        }
        None => {
            let text = String::from_str(alloc, "a fault plan has at most 256 lines")?;
            Ok(Some(Note::of_line(text)))
        }
    }
}

/// The number of reports behind which a loss is told, where it is less than the one before.
fn early_number(line: &str, words: &[Place]) -> Option<Place> {
    if word_of(line, words, 0) != "lose" {
        return None;
    }
    match (words.get(2), words.get(3)) {
        (Some(after), Some(told)) if number_in(line, *told) < number_in(line, *after) => {
            Some(*told)
        }
        _ => None,
    }
}

/// The line before that says the same.
fn twice_fault(alloc: Global, line: &str, words: &[Place], lines: &Texts, end: usize) -> Found {
    for i in 0..lines.len() {
        if i < end {
            let other = lines.get(i);
            let places = word_places(alloc, other)?;
            if is_same_line(line, words, other, places.as_slice()) {
                let text = twice_text(alloc, word_of(line, words, 0), i)?;
                return Ok(Some(about_kind(words, text)));
            }
        }
    }
    Ok(None)
}

/// That the line behind so many others says the same of a kind.
fn twice_text(alloc: Global, kind: &str, before: usize) -> Result<String, AllocError> {
    let number = before.saturating_add(1);
    format!(in alloc; "line {number} says the same of {kind} already")
}

/// Whether two lines say the same: of one kind, with the same first numbers.
fn is_same_line(line: &str, words: &[Place], other: &str, others: &[Place]) -> bool {
    let kind = word_of(line, words, 0);
    let keys: usize = match kind {
        "fail" | "late" | "twice" => 3,
        "lose" => 1,
        _ => 2,
    };
    if kind != word_of(other, others, 0) {
        return false;
    }
    for at in 0..keys {
        let place = at.saturating_add(1);
        if digits(word_of(line, words, place)) != digits(word_of(other, others, place)) {
            return false;
        }
    }
    true
}
