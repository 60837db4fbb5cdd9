//! How rows are held: as a column of their kind wherever a head or an operation can give one.
//!
//! No contract says so, since every view may answer None. What is lost without it is speed. In each
//! form that comes up here, rows are shared, selected, printed and put together too: contracts say
//! what that gives, and not that there is memory for it.
#![tactic(auto)]

use crate::streams::last_stream;
use sc_columns::Rows;
use sc_keys::Keys;
use std::alloc::{AllocError, Global};
use std::process::Abort;
use std::thread::Threads;

/// How rows are held, in words: a pair as its two columns, lists by their items, and runs of rows
/// with a `+` between them.
fn layout_of(alloc: Global, rows: &Rows) -> Result<String, AllocError> {
    if let Some(word) = word_of(rows) {
        return String::from_str(alloc, word);
    }
    if let Some(both) = rows.as_pairs(alloc)? {
        let first = layout_of_part(alloc, &both.first)?;
        let second = layout_of_part(alloc, &both.second)?;
        return format!(in alloc; "({first},{second})");
    }
    if let Some(lists) = rows.as_lists()? {
        let items = layout_of_part(alloc, &lists.items)?;
        return format!(in alloc; "[{items}]");
    }
    if let Some(both) = rows.as_runs()? {
        let first = layout_of_part(alloc, &both.first)?;
        let second = layout_of_part(alloc, &both.second)?;
        return format!(in alloc; "{first}+{second}");
    }
    String::from_str(alloc, "values")
}

/// The same of rows that are a part of others: in one column, or as a pair of such.
fn layout_of_part(alloc: Global, rows: &Rows) -> Result<String, AllocError> {
    if let Some(word) = word_of(rows) {
        return String::from_str(alloc, word);
    }
    let Some(both) = rows.as_pairs(alloc)? else {
        return String::from_str(alloc, "..");
    };
    let (Some(first), Some(second)) = (word_of(&both.first), word_of(&both.second)) else {
        return String::from_str(alloc, "(..)");
    };
    format!(in alloc; "({first},{second})")
}

/// How rows are held that are held in one column.
fn word_of(rows: &Rows) -> Option<&'static str> {
    if rows.as_repeated().is_some() {
        Some("same")
    } else if rows.as_ints().is_some() {
        Some("ints")
    } else if rows.as_bools().is_some() {
        Some("bools")
    } else if rows.as_texts().is_some() {
        Some("texts")
    } else {
        None
    }
}

/// Sees that the last node of a script is held so, and that there is memory for what can be made of
/// its rows. The script is a line with literals, which are `n0`, and definitions, each of which
/// reads the one before, a `|` between them.
fn assert_held<R: Abort + AllocGlobal + Threads + Sync>(rt: &R, line: &str) {
    let alloc = rt.alloc();
    let (operations, want) = line.rsplit_once(" | ").unwrap_or((line, "no layout"));
    let lines = operations.replace(alloc, " | ", "\n").expect(rt, "memory");
    let script = format!(in alloc; "n0 = parallelize 1 {lines}\n").expect(rt, "memory");
    let (rows, _) = last_stream(rt, script.as_str(), "");
    let layout = layout_of(alloc, &rows).expect(rt, "memory");
    assert_eq!(rt; layout.as_str(), want, "{line}");
    let marks = [true, false, true];
    assert!(rt; rows.filter(alloc, &marks).is_ok(), "{line}");
    assert!(rt; rows.part(alloc, 1, 3).is_ok(), "{line}");
    assert!(rt; rows.flat(alloc).is_ok(), "{line}");
    assert!(rt; rows.printed_rows(alloc).is_ok(), "{line}");
    assert!(rt; Keys::of(alloc, &rows).is_ok(), "{line}");
    let first = rows.share().expect(rt, "memory");
    let second = rows.joined(alloc).expect(rt, "memory");
    let both = Rows::concat(alloc, first, second).expect(rt, "memory");
    assert!(rt; both.filter(alloc, &marks).is_ok(), "{line}");
    assert!(rt; both.part(alloc, 1, 3).is_ok(), "{line}");
    assert!(rt; both.joined(alloc).is_ok(), "{line}");
}

/// In each line: literals, definitions, and how the rows of the last one are held.
const LAYOUTS: &str = r#"
1 2 | n1 = map n0 x | ints
"a" "b" | n1 = map n0 x | texts
1 2 | n1 = map n0 "k" | same
1 2 | n1 = map n0 (+ x 1) | ints
1 2 | n1 = map n0 (+ x x) | ints
1 2 | n1 = map n0 (- 1 x) | ints
1 2 | n1 = map n0 (* x x) | ints
1 2 | n1 = map n0 (/ 4 x) | ints
1 2 | n1 = map n0 (% x 2) | ints
1 2 | n1 = map n0 (== x 1) | bools
1 2 | n1 = map n0 (< x 2) | bools
1 2 | n1 = map n0 (<= 1 x) | bools
"a" "b" | n1 = map n0 (== x "a") | bools
"a" "b" | n1 = map n0 (< "a" x) | bools
1 2 | n1 = map n0 (== (< x 2) true) | bools
1 2 | n1 = map n0 (not (== x 1)) | bools
1 2 | n1 = map n0 (and (< 0 x) (< x 2)) | bools
1 2 | n1 = map n0 (or (< x 1) (< 1 x)) | bools
1 2 | n1 = map n0 (if (< x 2) x 7) | ints
1 2 | n1 = map n0 (if (< x 2) (== x 1) false) | bools
"a" "b" | n1 = map n0 (if (== x "a") x "c") | texts
1 2 | n1 = map n0 (pair x x) | (ints,ints)
1 2 | n1 = map n0 (pair "k" x) | (same,ints)
1 2 | n1 = map n0 (pair (text x) (pair x (< x 2))) | (texts,(ints,bools))
1 2 | n1 = map n0 (fst (pair x "k")) | ints
1 2 | n1 = map n0 (snd (pair x (text x))) | texts
"a b" "c" | n1 = map n0 (words x) | [texts]
"a,b" "c" | n1 = map n0 (cut x ",") | [texts]
"a b" "c" | n1 = map n0 (len (words x)) | ints
"a,b" "c" | n1 = map n0 (len (cut x ",")) | ints
"a b" "c" | n1 = map n0 (nth (words x) 0) | texts
"a,b" "c" | n1 = map n0 (nth (cut x ",") 0) | texts
"1 b" "2" | n1 = map n0 (int (nth (words x) 0)) | ints
"1" "2" | n1 = map n0 (int x) | ints
1 2 | n1 = map n0 (text x) | texts
"a" "b" | n1 = map n0 (text x) | texts
1 2 | n1 = map n0 (text (pair x x)) | texts
"a" "b" | n1 = map n0 (concat x "!") | texts
"a" "b" | n1 = map n0 (concat x x) | texts
1 2 3 | n1 = filter n0 (< 1 x) | ints
"a" "b" | n1 = filter n0 (< "a" x) | texts
1 2 | n1 = map n0 (== x 1) | n2 = filter n1 x | bools
1 2 3 | n1 = map n0 (pair x "k") | n2 = filter n1 (< 1 (fst x)) | (ints,same)
"a b" "c" | n1 = flatMap n0 (words x) | texts
"a,b" "c" | n1 = flatMap n0 (cut x ",") | texts
"a b" "c" | n1 = map n0 (words x) | n2 = filter n1 (< 1 (len x)) | [texts]
"a b" "c" | n1 = flatMap n0 (words x) | n2 = map n1 (pair x 1) | (texts,same)
1 2 | n1 = map n0 (pair x "k") | n2 = mapValues n1 (concat x "!") | (ints,texts)
1 2 | n1 = map n0 (pair (text x) x) | n2 = mapValues n1 (* x x) | (texts,ints)
1 2 | n1 = map n0 (pair x "a b") | n2 = flatMapValues n1 (words x) | (ints,texts)
1 2 | n1 = cache n0 | ints
1 2 | n1 = coalesce n0 1 | n2 = map n1 (+ x 1) | ints
1 2 | n1 = union n0 n0 | n2 = cache n1 | ints
"#;

#[test]
fn what_is_made_of_columns_is_held_in_columns(rt: HostRuntime) {
    for line in LAYOUTS.lines() {
        if !line.is_empty() {
            assert_held(&rt, line);
        }
    }
}
