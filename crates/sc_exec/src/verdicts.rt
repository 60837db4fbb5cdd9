//! How a job went whose executors take no more tasks.
#![tactic(auto)]

ghost use Rattle.std.specs.Prelude.{◌≡◌, ◌↔◌, All, IsTrue, true};
ghost use Rattle.std.specs.List.{list_any};
ghost use Rattle.sc_core.specs.CoreData.{job_runs};
ghost use Rattle.sc_desk.specs.DeskData.{core_of};
ghost use Rattle.sc_exec.specs.Verdicts.{AreLogged, IsVerdict, is_no_memory, wants_memory};
ghost use Rattle.sc_exec.specs.Workers.{AreInPlace, HasCause, logs_of};
ghost use Rattle.sc_logs.specs.Logs.{IsLogIn, is_by, is_known};

use crate::lefts::Left;
use crate::workers::Worker;
use sc_core::{Core, Entry, JobState};
use sc_desk::Desk;
use sc_logs::{is_by, is_drivers, is_log, worked_jobs_have_ended};
use sc_work::Naming;

/// How a job went.
#[derive(Clone, Copy, Debug, PartialEq, Eq)]
pub enum Verdict {
    /// It has ended.
    Ended,
    /// Memory ran out.
    NoMemory,
    /// It has to be done anew by one executor after the other.
    GivenUp,
}

/// How a job went whose executors all take no more tasks. A job is given up only where its entries
/// aren't an interleaving of what the executors wrote down, or one of them met what can't be. It
/// takes no memory.
#[tactic(auto, using(crate::proofs::VerdictLemmas::unlogged))]
pub fn judge<W: Naming>(desk: &Desk<W>, workers: &[Worker]) -> Verdict
    requires worked { All (HasCause W.work) workers.now }
    requires places { AreInPlace W.work.limits.executors workers.now }
    ensures { IsVerdict (core_of desk.now) desk.now.journal.entries workers.now result }
{
    desk.is_sound();
    desk.is_replay();
    desk.leaves_are_own();
    worked_jobs_have_ended();
    if !are_logged(desk.entries(), workers) {
        return Verdict::GivenUp;
    }
    if wants_memory(workers) {
        return Verdict::NoMemory;
    }
    if runs(desk.core()) {
        Verdict::GivenUp
    } else {
        Verdict::Ended
    }
}

/// Whether the entries of a job are an interleaving of what its executors wrote down.
fn are_logged(entries: &[Entry], workers: &[Worker]) -> bool
    ensures { IsTrue result ↔ AreLogged entries.now workers.now }
{
    are_logs(entries, workers) && are_known(entries, workers)
}

/// Whether what each executor wrote down are its entries, in order.
fn are_logs(entries: &[Entry], workers: &[Worker]) -> bool
    ensures { IsTrue result ↔ All (λ w. IsLogIn entries.now w.log) workers.now }
{
    workers.iter().all(|w| is_log(entries, &w.log))
}

/// Whether each entry is the driver's, or of one of these executors.
fn are_known(entries: &[Entry], workers: &[Worker]) -> bool
    ensures { IsTrue result
        ↔ All (λ e. is_known (logs_of workers.now) e ≡ true) entries.now }
{
    entries.iter().all(|e| is_known(workers, e))
}

/// Whether an entry is the driver's, or of one of these executors.
fn is_known(workers: &[Worker], e: &Entry) -> bool
    ensures { result ≡ is_known (logs_of workers.now) e.now }
{
    is_drivers(e) || has_log(workers, e)
}

/// Whether an entry is of one of these executors.
fn has_log(workers: &[Worker], e: &Entry) -> bool
    ensures { result ≡ list_any (λ l. is_by l.exec e.now) (logs_of workers.now) }
{
    is_any(workers, e)
}

/// The same of what they wrote down.
fn is_any(workers: &[Worker], e: &Entry) -> bool
    ensures { result ≡ list_any (λ w. is_by w.log.exec e.now) workers.now }
{
    workers.iter().any(|w| is_by(w.log.exec, e))
}

/// Whether memory ran out for one of these executors.
fn wants_memory(workers: &[Worker]) -> bool
    ensures { result ≡ wants_memory workers.now }
{
    workers.iter().any(|w| is_no_memory(w.left))
}

/// Whether an executor takes no more tasks for want of memory.
fn is_no_memory(left: Left) -> bool
    ensures { result ≡ is_no_memory left }
{
    match left {
        Left::NoMemory => true,
        Left::JobEnded | Left::Stopped { .. } | Left::Lost | Left::Busy { .. } => false,
        Left::Stranger(_) | Left::Early(_) | Left::Drained(_) | Left::Absent(_) => false,
    }
}

/// Whether the job of a core runs.
fn runs(core: &Core) -> bool
    ensures { result ≡ job_runs core.now }
{
    match core.job() {
        JobState::Running => true,
        JobState::Done | JobState::Aborted(_) => false,
    }
}
