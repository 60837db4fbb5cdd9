//! Reports.
#![tactic(auto)]

ghost use Rattle.std.specs.Prelude.{◌≡◌, IfOk};
ghost use Rattle.sc_net.specs.Reports.{IsTrueReport, outcome_of, report_data, result_in};

use crate::findings::Finding;
use crate::tasks::Task;
use sc_compute::TaskResult;
use sc_core::Outcome;
use sc_ids::{AttemptId, FailureCause};
use sc_work::Naming;
use std::alloc::AllocError;
use std::marker::Model;

/// What an attempt reports, which by its type is true of its task.
#[derive(Drop)]
pub struct Report<W: Naming> {
    task: Task<W>,
    finding: Finding,
}

impl<W: Naming> Model for Report<W> {
    ghost use Rattle.sc_net.specs.Reports.{IsTrueReport, ReportData, report_code, report_data};

    ghost Value = { ReportData };

    ghost coded = { report_code };

    ghost view = { λ r. report_data r.task r.finding };

    ghost invariant = { λ r. IsTrueReport W.work r.task r.finding };
}

impl<W: Naming> Report<W> {
    /// What was found by an attempt of a task.
    pub fn new(task: Task<W>, finding: Finding) -> Report<W>
        requires is_true { IsTrueReport W.work task finding }
        ensures { result ≡ report_data task finding }
    {
        Report { task, finding }
    }

    /// The same report again, which copies no row.
    pub fn share(&self) -> Result<Report<W>, AllocError>
        ensures { IfOk result (λ r. r ≡ self.now) }
    {
        Ok(Report {
            task: self.task.share()?,
            finding: self.finding.share()?,
        })
    }

    /// The task.
    pub fn task(&self) -> &Task<W>
        ensures { result.now ≡ self.now.task }
    {
        &self.task
    }

    /// Which attempt it is of.
    pub fn attempt(&self) -> AttemptId
        ensures { result ≡ self.now.task.hand_out.attempt }
    {
        self.task.attempt()
    }

    /// What was found.
    pub fn finding(&self) -> &Finding
        ensures { result.now ≡ self.now.finding }
    {
        &self.finding
    }

    /// What the scheduler is told of it.
    pub fn outcome(&self) -> Outcome
        ensures { result ≡ outcome_of self.now.finding }
    {
        match &self.finding {
            Finding::Map(loc) => Outcome::Map(*loc),
            Finding::Result(_) => Outcome::Result,
            Finding::Planned => Outcome::Failed(FailureCause::Planned),
            Finding::Raised(raise) => Outcome::Failed(FailureCause::Raised(*raise)),
            Finding::Gone {
                exec,
                wanted,
                found,
            } => Outcome::Failed(FailureCause::Gone {
                exec: *exec,
                wanted: *wanted,
                found: *found,
            }),
            Finding::Metadata { last } => Outcome::Failed(FailureCause::Metadata { last: *last }),
            Finding::Device(fault) => Outcome::Failed(FailureCause::Device(*fault)),
            Finding::Denied => Outcome::Failed(FailureCause::Denied),
        }
    }

    /// What it hands over, where it tells a result.
    pub fn into_result(self) -> Option<TaskResult>
        ensures { result ≡ result_in self.finding }
    {
        let Report { finding, .. } = self;
        match finding {
            Finding::Result(result) => Some(result),
            _ => None,
        }
    }

    /// What it is by its type: true of its task.
    pub fn is_true(&self)
        ensures { IsTrueReport W.work self.now.task self.now.finding }
    {
        let _ = &self.finding;
    }
}
