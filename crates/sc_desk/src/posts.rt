//! A report comes.
#![tactic(auto)]

ghost use Rattle.std.specs.Prelude.{◌≡◌, ◌↔◌, ◌<◌, ◌≤◌, ◌+◌, IfErr, IfOk, IfSome, IsTrue, None, OnErr, length, true, vec_capacity, vec_len};
ghost use Rattle.std.specs.List.{find};
ghost use Rattle.std.specs.Option.{option_map};
ghost use Rattle.sc_ids.specs.Changes.{change_at};
ghost use Rattle.sc_core.specs.CoreData.{is_of};
ghost use Rattle.sc_desk.specs.DeskData.{core_of};
ghost use Rattle.sc_desk.specs.Dues.{IsEarly, IsInTime, wipes_due};
ghost use Rattle.sc_desk.specs.Posts.{AreCopies, IsGiven, IsGivenOf, Posts, is_finished, results_after};
ghost use Rattle.sc_desk.specs.Shelves.{count_of, shelf_in, with_more};

use crate::desks::Desk;
use crate::receipts::Receipt;
use crate::shelves::{clear_after_end, put_off, runs};
use sc_base::OrMemory;
use sc_compute::TaskResult;
use sc_core::{Answer, Core, Event, Running};
use sc_ids::{AttemptId, ExecId, Generation, Mark};
use sc_jobs::Job;
use sc_net::{Finding, Report, ShelvedReport, Task};
use sc_work::Naming;
use std::alloc::{AllocError, AllocFailed};

/// What becomes of a report that is posted.
#[derive(Drop)]
pub enum Posted<W: Naming> {
    /// It is received.
    Receipt(Receipt),
    /// It is not of the task that was given to its attempt, and is handed back.
    Stranger(Report<W>),
    /// It speaks of a generation that no wipe has brought yet, and is handed back.
    Early {
        /// The report.
        report: Report<W>,
        /// How many wipes are due.
        due: u64,
    },
}

impl<W: Naming> Desk<W> {
    /// A report comes. It is entered with what the core answers. A result that finishes its
    /// partition is kept, and a report that is to be told later stands on the shelf, once for
    /// each time. A stranger is handed back, and so is one that speaks of what can't be yet; they
    /// enter nothing. A refused call changes nothing and hands the report back.
    pub fn post(&mut self, by: Mark, report: Report<W>) -> Result<Posted<W>, AllocFailed<Report<W>>>
        ensures posted { IfOk result (λ p. Posts W.work self.old by report p self.new) }
        ensures refused { OnErr result (self.new ≡ self.old) }
        ensures back { IfErr result (λ failed. failed.value ≡ report) }
    {
        if !self.is_given(report.task()) {
            return Ok(Posted::Stranger(report));
        }
        report.is_true();
        if let Some(due) = self.early_by(report.finding()) {
            return Ok(Posted::Early { report, due });
        }
        match self.copy_of(&report) {
            Ok(copy) => self.receive(by, report, copy),
            Err(_) => Err(AllocFailed { value: report }),
        }
    }

    /// The same of a report that is given and in time, with a copy where it comes twice.
    fn receive(
        &mut self,
        by: Mark,
        report: Report<W>,
        copy: Option<Report<W>>,
    ) -> Result<Posted<W>, AllocFailed<Report<W>>>
        requires given { IsGiven self.old report.task }
        requires in_time { IsInTime W.work (core_of self.old).told report.finding }
        requires copies { AreCopies (core_of self.old) report copy }
        ensures posted { IfOk result (λ p. Posts W.work self.old by report p self.new) }
        ensures refused { OnErr result (self.new ≡ self.old) }
        ensures back { IfErr result (λ failed. failed.value ≡ report) }
    {
        if self.shelf.reserve(2).is_err() {
            return Err(AllocFailed { value: report });
        }
        let entry = self.journal.entries().len();
        let attempt = report.attempt();
        let outcome = report.outcome();
        self.journal.core().is_sound();
        self.journal.is_replay();
        report.is_true();
        report.task().is_task();
        match self.journal.enter(by, Event::Post { attempt, outcome }) {
            Ok(answer) => {
                let core = self.journal.core();
                settle(
                    &mut self.results,
                    &mut self.shelf,
                    core,
                    report,
                    copy,
                    &answer,
                );
                Ok(Posted::Receipt(Receipt { entry, answer }))
            }
            Err(OrMemory::Fault(_)) => Ok(Posted::Stranger(report)),
            Err(OrMemory::OutOfMemory) => Err(AllocFailed { value: report }),
        }
    }

    /// A copy of a report, where the fault plan doubles it.
    fn copy_of(&self, report: &Report<W>) -> Result<Option<Report<W>>, AllocError>
        ensures { IfOk result (λ copy. AreCopies (core_of self.now) report.now copy) }
    {
        self.work.is_named();
        if self.work.get().plan().twice(&report.attempt()) {
            Ok(Some(report.share()?))
        } else {
            Ok(None)
        }
    }

    /// How many wipes of a store are due, where a finding speaks of a later generation of it.
    fn early_by(&self, finding: &Finding) -> Option<u64>
        ensures early { IfSome result
            (λ due. IsEarly W.work (core_of self.now).told finding.now due) }
        ensures in_time { result ≡ None → IsInTime W.work (core_of self.now).told finding.now }
    {
        match finding {
            Finding::Gone { exec, found, .. } => self.unwiped(*exec, *found),
            _ => None,
        }
    }

    /// How many wipes of a store are due, where they are fewer than a generation of it.
    fn unwiped(&self, exec: ExecId, found: Generation) -> Option<u64>
        ensures early { IfSome result
            (λ due. (due ≡ wipes_due W.work (core_of self.now).told exec) × (due < found)) }
        ensures in_time { result ≡ None → found ≤ wipes_due W.work (core_of self.now).told exec }
    {
        self.work.is_named();
        let due = self.work.get().plan().due_wipes(exec, self.core().told());
        if due < u64::from(found) {
            Some(due)
        } else {
            None
        }
    }

    /// Whether a task is the one that was given to its attempt, where that runs here.
    fn is_given(&self, task: &Task<W>) -> bool
        ensures { IsTrue result ↔ IsGiven self.now task.now }
    {
        if runs(self.core()) {
            is_given_to(
                running_of(self.core().running(), task.attempt()),
                &self.job,
                task,
            )
        } else {
            true
        }
    }
}

/// The running attempt of these numbers.
fn running_of(running: &[Running], attempt: AttemptId) -> Option<&Running>
    ensures { option_map (λ r. r.now) result ≡ find (is_of attempt) running.now }
{
    running.iter().find(|r| is_of(r, attempt))
}

/// Whether a running attempt has these numbers.
fn is_of(running: &Running, attempt: AttemptId) -> bool
    ensures { result ≡ is_of attempt running.now }
{
    running.hand_out.attempt() == attempt
}

/// Whether a task is the one that was given to a running attempt, where there is one.
fn is_given_to<W: Naming>(running: Option<&Running>, job: &Job<W>, task: &Task<W>) -> bool
    ensures { IsTrue result ↔ IsGivenOf (option_map (λ r. r.now) running.entry) job.now
        task.now }
{
    match running {
        Some(running) => task.is_of(job, &running.hand_out),
        None => true,
    }
}

/// What an entry of a report leaves of the results and of the shelf: what is to be told later is
/// put off, and a result that finished its partition is kept.
fn settle<W: Naming>(
    results: &mut Vec<Option<TaskResult>>,
    shelf: &mut Vec<ShelvedReport<Report<W>>>,
    core: &Core,
    report: Report<W>,
    copy: Option<Report<W>>,
    answer: &Answer,
)
    requires room { vec_len shelf.old + 2 ≤ vec_capacity shelf.old }
    requires same { IfSome copy (λ c. c ≡ report) }
    requires few { length core.now.shelf ≤ length shelf.old.items + 1 + count_of copy }
    requires told { is_finished answer.now ≡ true
        → length core.now.shelf ≤ length shelf.old.items + count_of copy }
    ensures results { results.new.items ≡ results_after results.old.items report answer.now }
    ensures shelf { shelf.new.items
        ≡ shelf_in core.now (with_more shelf.old.items report core.now.shelf) }
{
    if let Some(told) = put_off(shelf, core.shelf(), report, copy) {
        keep(results, told, answer);
    }
    clear_after_end(shelf, core);
}

/// Keeps the result of a report that finished its partition.
pub(crate) fn keep<W: Naming>(
    results: &mut Vec<Option<TaskResult>>,
    report: Report<W>,
    answer: &Answer,
)
    ensures { results.new.items ≡ results_after results.old.items report answer.now }
{
    if is_finished(answer) {
        let partition = report.attempt().partition;
        put(results, partition, report.into_result());
    }
}

/// Whether an answer says that a partition has its result.
fn is_finished(answer: &Answer) -> bool
    ensures { result ≡ is_finished answer.now }
{
    match answer {
        Answer::Finished => true,
        Answer::Task(_) | Answer::Wait { .. } | Answer::Busy { .. } | Answer::Lost => false,
        Answer::Stopped { .. } | Answer::Ended | Answer::Aborted(_) => false,
        Answer::Ignored | Answer::Repeated | Answer::Registered | Answer::Bogus => false,
        Answer::Again | Answer::Resubmitted | Answer::Shelved | Answer::Told => false,
        Answer::Side(_) => false,
    }
}

/// Puts a result in the place of a partition.
fn put(results: &mut Vec<Option<TaskResult>>, partition: u32, given: Option<TaskResult>)
    ensures { results.new.items ≡ change_at results.old.items partition (λ _. given) }
{
    if (partition as usize) < results.len() {
        results[partition as usize] = given;
    }
}
