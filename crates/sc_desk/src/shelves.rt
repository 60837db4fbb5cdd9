//! How the shelf of a desk follows that of its core.
#![tactic(auto)]

ghost use Rattle.std.specs.Prelude.{◌≡◌, ◌<◌, ◌≤◌, ◌+◌, ◌++◌, [], ◌∷◌, IfSome, is_some, length, true, vec_capacity, vec_len};
ghost use Rattle.std.specs.List.{AllPairs, position};
ghost use Rattle.sc_core.specs.CoreData.{job_runs};
ghost use Rattle.sc_net.specs.Shelves.{IsBefore, is_under};
ghost use Rattle.sc_desk.specs.Shelves.{count_of, report_under, shelf_in, with_key_of, with_more, without_key};

use sc_core::{Core, Shelved};
use sc_net::{Report, ShelvedReport};
use sc_work::Naming;

/// Whether the job of a core runs.
pub(crate) fn runs(core: &Core) -> bool
    ensures { result ≡ job_runs core.now }
{
    match core.job() {
        sc_core::JobState::Running => true,
        sc_core::JobState::Done | sc_core::JobState::Aborted(_) => false,
    }
}

/// Drops all reports where the job has ended.
pub(crate) fn clear_after_end<W: Naming>(shelf: &mut Vec<ShelvedReport<Report<W>>>, core: &Core)
    ensures { shelf.new.items ≡ shelf_in core.now shelf.old.items }
{
    if !runs(core) {
        shelf.clear();
    }
}

/// Puts a report on the shelf wherever the core has one more of it: its copy first, where there is
/// one. There is room for both. What is left is the report that is told now.
pub(crate) fn put_off<W: Naming>(
    shelf: &mut Vec<ShelvedReport<Report<W>>>,
    core: &[Shelved],
    report: Report<W>,
    copy: Option<Report<W>>,
) -> Option<Report<W>>
    requires room { vec_len shelf.old + 2 ≤ vec_capacity shelf.old }
    requires same { IfSome copy (λ c. c ≡ report) }
    requires few { length core.now ≤ length shelf.old.items + 1 + count_of copy }
    ensures shelf { shelf.new.items ≡ with_more shelf.old.items report core.now }
    ensures left { IfSome result (λ r. r ≡ report) }
    ensures told { length core.now ≤ length shelf.old.items + count_of copy
        → is_some result ≡ true }
{
    match core.get(shelf.len()) {
        Some(first) => match copy {
            Some(copy) => {
                put(shelf, first, copy);
                put_off_last(shelf, core, report)
            }
            None => {
                put(shelf, first, report);
                None
            }
        },
        None => Some(report),
    }
}

/// The same where the core has one more of it at most.
fn put_off_last<W: Naming>(
    shelf: &mut Vec<ShelvedReport<Report<W>>>,
    core: &[Shelved],
    report: Report<W>,
) -> Option<Report<W>>
    requires room { vec_len shelf.old + 1 ≤ vec_capacity shelf.old }
    requires few { length core.now ≤ length shelf.old.items + 1 }
    ensures shelf { shelf.new.items ≡ with_more shelf.old.items report core.now }
    ensures left { IfSome result (λ r. r ≡ report) }
    ensures told { length core.now ≤ length shelf.old.items → is_some result ≡ true }
{
    match core.get(shelf.len()) {
        Some(next) => {
            put(shelf, next, report);
            None
        }
        None => Some(report),
    }
}

/// Puts a report under a key. There is room for it.
fn put<W: Naming>(shelf: &mut Vec<ShelvedReport<Report<W>>>, under: &Shelved, report: Report<W>)
    requires room { vec_len shelf.old < vec_capacity shelf.old }
    ensures items { shelf.new.items ≡ shelf.old.items ++ with_key_of report under.now ∷ [] }
    ensures len { vec_len shelf.new ≡ vec_len shelf.old + 1 }
    ensures capacity { vec_capacity shelf.new ≡ vec_capacity shelf.old }
{
    shelf.push_reserved(ShelvedReport {
        key: under.key,
        due: under.due,
        report,
    });
}

/// Takes the report under a key off the shelf. None comes exactly where there is none.
pub(crate) fn take_off<W: Naming>(
    shelf: &mut Vec<ShelvedReport<Report<W>>>,
    key: u32,
) -> Option<Report<W>>
    requires rising { AllPairs IsBefore shelf.old.items }
    ensures report { result ≡ report_under shelf.old.items key }
    ensures shelf { shelf.new.items ≡ without_key shelf.old.items key }
{
    match place_of(shelf.as_slice(), key) {
        Some(place) => Some(shelf.remove(place).report),
        None => None,
    }
}

/// The place of the report under a key.
fn place_of<W: Naming>(shelf: &[ShelvedReport<Report<W>>], key: u32) -> Option<usize>
    ensures { result ≡ position (is_under key) shelf.now }
{
    shelf.iter().position(|s| s.key == key)
}
