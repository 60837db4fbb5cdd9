//! Whether logs agree with a history.
#![tactic(auto)]

ghost use Rattle.std.specs.Prelude.{◌≡◌, ◌↔◌, IsTrue, filter};
ghost use Rattle.std.specs.List.{list_any};
ghost use Rattle.std.specs.Option.{option_map};
ghost use Rattle.sc_logs.specs.Logs.{Interleaves, IsBehind, IsLogIn, is_by, is_drivers, is_known};

use crate::logs::ExecLog;
use crate::same::is_same;
use sc_core::{Entry, JobHistory};
use sc_ids::{ExecId, Mark};

/// Whether a history is an interleaving of these logs: the entries of each executor that has a log
/// are this log, in order, and all others are the driver's. It takes no memory.
pub fn agree(history: &JobHistory, logs: &[ExecLog]) -> bool
    ensures { IsTrue result ↔ Interleaves history.now.entries.items logs.now }
{
    agree_on(history.entries.as_slice(), logs)
}

/// The same of the entries of a history.
pub(crate) fn agree_on(entries: &[Entry], logs: &[ExecLog]) -> bool
    ensures { IsTrue result ↔ Interleaves entries.now logs.now }
{
    logs.iter().all(|log| is_log(entries, log)) && entries.iter().all(|e| is_known(logs, e))
}

/// Whether the entries of an executor are its log. It takes no memory.
pub fn is_log(entries: &[Entry], log: &ExecLog) -> bool
    ensures { IsTrue result ↔ IsLogIn entries.now log.now }
{
    is_run(log.exec, entries, log.entries.as_slice())
}

/// Whether the entries of an executor are these, in order.
fn is_run(exec: ExecId, entries: &[Entry], log: &[Entry]) -> bool
    ensures { IsTrue result ↔ (filter (is_by exec) entries.now ≡ log.now) }
{
    let mut rest = log;
    for e in entries.iter() {
        match behind(exec, e, rest) {
            Some(more) => rest = more,
            None => return false,
        }
    }
    rest.is_empty()
}

/// What is left of a log behind an entry, where it goes on with it.
fn behind<'a>(exec: ExecId, e: &Entry, rest: &'a [Entry]) -> Option<&'a [Entry]>
    ensures { IsBehind exec e.now rest.entry.now (option_map (λ r. r.now) result) }
{
    if !is_by(exec, e) {
        return Some(rest);
    }
    match rest.split_first() {
        Some((first, more)) => { if is_same(first, e) { Some(more) } else { None } }
        None => None,
    }
}

/// Whether an entry is an executor's.
pub fn is_by(exec: ExecId, e: &Entry) -> bool
    ensures { result ≡ is_by exec e.now }
{
    match e.by {
        Mark::Exec(marked) => marked == exec,
        Mark::Driver => false,
    }
}

/// Whether an entry is the driver's.
pub fn is_drivers(e: &Entry) -> bool
    ensures { result ≡ is_drivers e.now }
{
    match e.by {
        Mark::Exec(_) => false,
        Mark::Driver => true,
    }
}

/// Whether an entry is of an executor that has a log.
fn has_log(logs: &[ExecLog], e: &Entry) -> bool
    ensures { result ≡ list_any (λ l. is_by l.exec e.now) logs.now }
{
    logs.iter().any(|log| is_by(log.exec, e))
}

/// Whether an entry is the driver's, or of an executor that has a log.
fn is_known(logs: &[ExecLog], e: &Entry) -> bool
    ensures { result ≡ is_known logs.now e.now }
{
    is_drivers(e) || has_log(logs, e)
}
