//! Calls at a desk in step with the log of an executor.
#![tactic(auto)]

ghost use Rattle.std.specs.Prelude.{◌≡◌, ◌<◌, ◌+◌, IfErr, IfOk, OnErr, vec_capacity, vec_len};
ghost use Rattle.sc_exec.specs.JobDesks.{KeepsFiles};
ghost use Rattle.sc_exec.specs.Logging.{HasRoom, IsDelivered, IsPossible, IsSaid, IsSameLog, IsTooEarly, PostsAs, PostsBoth, TakesBoth, TellsEarly};

use crate::job_desks::JobDesk;
use crate::openings::Opening;
use crate::visits::Witnessed;
use sc_core::{Entry, Event};
use sc_desk::{Logged, Posted, Taken};
use sc_files::Files;
use sc_ids::{AttemptId, ExecId, Generation, Mark};
use sc_logs::ExecLog;
use sc_net::{Finding, Report};
use sc_work::Naming;
use std::alloc::{AllocError, AllocFailed};

/// The desk refused a report as not of the task that was given to its attempt. Only who posted it
/// makes one ([`JobDesk::post`]).
#[derive(Clone, Copy, Debug, PartialEq, Eq)]
pub struct Refused {
    attempt: AttemptId,
}

impl Refused {
    /// Whose report it was.
    pub fn attempt(&self) -> AttemptId
        ensures { result ≡ self.now.attempt }
    {
        self.attempt
    }
}

/// The desk refused a report as speaking of a generation that no wipe has brought yet. Only who
/// posted it makes one ([`JobDesk::post`]).
#[derive(Clone, Copy, Debug, PartialEq, Eq)]
pub struct TooEarly {
    exec: ExecId,
    found: Generation,
    due: u64,
}

impl TooEarly {
    /// The executor whose store was found so.
    pub fn exec(&self) -> ExecId
        ensures { result ≡ self.now.exec }
    {
        self.exec
    }

    /// The generation of that store which was found.
    pub fn found(&self) -> Generation
        ensures { result ≡ self.now.found }
    {
        self.found
    }

    /// How many wipes of that store were due.
    pub fn due(&self) -> u64
        ensures { result ≡ self.now.due }
    {
        self.due
    }
}

/// What becomes of a report that an executor posts.
#[derive(Drop)]
pub enum Delivery<W: Naming> {
    /// It is received.
    Received,
    /// It is not of the task that was given to its attempt, and is handed back.
    Stranger {
        /// The report.
        report: Report<W>,
        /// That it was refused.
        refused: Refused,
    },
    /// It speaks of a generation that no wipe has brought yet, and is handed back.
    Early {
        /// The report.
        report: Report<W>,
        /// That it was refused, and why.
        early: TooEarly,
    },
}

impl<W: Naming, J: Opening, F: Files> JobDesk<W, J, F> {
    /// An executor asks for a task, and logs what it was answered. A refused call changes nothing.
    #[tactic(auto, using(crate::proofs::JobDeskLemmas::job_same))]
    pub fn take(&mut self, log: &mut ExecLog) -> Result<Taken<W>, AllocError>
        requires room { HasRoom log.old }
        ensures taken { IfOk result
            (λ t. TakesBoth self.old.desk log.old t self.new.desk log.new) }
        ensures files { KeepsFiles self.old self.new }
        ensures refused { OnErr result (self.new ≡ self.old) }
        ensures unlogged { OnErr result (IsSameLog log.old log.new) }
        ensures room { HasRoom log.new }
    {
        log.entries.reserve(2)?;
        let exec = log.exec;
        let by = Mark::Exec(exec);
        let Logged { taken, answer } = self.desk.take_logged(by, exec)?;
        log.entries.push_reserved(Entry {
            by,
            event: Event::Take { exec },
            answer,
        });
        Ok(taken)
    }

    /// A report that was on its way comes, and is entered under the mark of the executor that
    /// posted it. A refused call changes nothing and hands the report back.
    #[tactic(auto, using(crate::proofs::Rules::says_post))]
    pub(crate) fn receive(
        &mut self,
        exec: ExecId,
        report: Witnessed<W>,
    ) -> Result<Delivery<W>, AllocFailed<Witnessed<W>>>
        ensures posted { IfOk result
            (λ p. PostsAs W.work self.old.desk exec report p self.new.desk) }
        ensures files { KeepsFiles self.old self.new }
        ensures refused { OnErr result (self.new ≡ self.old) }
        ensures back { IfErr result (λ failed. failed.value ≡ report) }
    {
        let posted = report.come_to(&mut self.desk, Mark::Exec(exec))?;
        Ok(delivery_of(posted))
    }

    /// An executor posts a report, and logs what it was answered. One that is handed back isn't
    /// logged. A refused call changes nothing and hands the report back.
    #[tactic(auto, using(crate::proofs::Rules::logs_post))]
    pub fn post(
        &mut self,
        log: &mut ExecLog,
        report: Witnessed<W>,
    ) -> Result<Delivery<W>, AllocFailed<Report<W>>>
        requires room { HasRoom log.old }
        ensures posted { IfOk result
            (λ p. PostsBoth W.work self.old.desk log.old report p self.new.desk log.new) }
        ensures files { KeepsFiles self.old self.new }
        ensures refused { OnErr result (self.new ≡ self.old) }
        ensures unlogged { OnErr result (IsSameLog log.old log.new) }
        ensures back { IfErr result (λ failed. failed.value ≡ report) }
        ensures room { HasRoom log.new }
    {
        let report = report.into_report();
        if log.entries.reserve(2).is_err() {
            return Err(AllocFailed { value: report });
        }
        let by = Mark::Exec(log.exec);
        let attempt = report.attempt();
        let outcome = report.outcome();
        let posted = self.desk.post(by, report)?;
        Ok(delivered(log, Event::Post { attempt, outcome }, posted))
    }
}

/// What becomes of a report that was posted in an event: one that is received is logged.
fn delivered<W: Naming>(log: &mut ExecLog, event: Event, posted: Posted<W>) -> Delivery<W>
    requires room { vec_len log.old.entries + 1 < vec_capacity log.old.entries }
    requires possible { IsPossible W.work posted }
    ensures delivered { IsDelivered log.old event posted result log.new }
    ensures room { HasRoom log.new }
{
    match posted {
        Posted::Receipt(receipt) => {
            log.entries.push_reserved(Entry {
                by: Mark::Exec(log.exec),
                event,
                answer: receipt.answer,
            });
            Delivery::Received
        }
        Posted::Stranger(report) => Delivery::Stranger {
            refused: Refused {
                attempt: report.attempt(),
            },
            report,
        },
        Posted::Early { report, due } => Delivery::Early {
            early: too_early(&report, due),
            report,
        },
    }
}

/// What becomes of a report that was posted, where nothing is logged of it yet.
fn delivery_of<W: Naming>(posted: Posted<W>) -> Delivery<W>
    requires possible { IsPossible W.work posted }
    ensures { IsSaid posted result }
{
    match posted {
        Posted::Receipt(_) => Delivery::Received,
        Posted::Stranger(report) => Delivery::Stranger {
            refused: Refused {
                attempt: report.attempt(),
            },
            report,
        },
        Posted::Early { report, due } => Delivery::Early {
            early: too_early(&report, due),
            report,
        },
    }
}

/// Why a report is refused that speaks of a generation which can't be there yet.
fn too_early<W: Naming>(report: &Report<W>, due: u64) -> TooEarly
    requires early { IsTooEarly W.work report.now.finding due }
    ensures { TellsEarly report.now.finding due result }
{
    match report.finding() {
        Finding::Gone { exec, found, .. } => TooEarly {
            exec: *exec,
            found: *found,
            due,
        },
        _ => unreachable!(),
    }
}
