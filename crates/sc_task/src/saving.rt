//! Attempts of a save whose part was written.
#![tactic(auto)]

ghost use Rattle.std.specs.Prelude.{◌≡◌};
ghost use Rattle.sc_compute.specs.declared.results.TaskResult.{TaskResult};
ghost use Rattle.sc_ids.specs.Failures.{HasRisen};
ghost use Rattle.sc_net.specs.Reports.{report_data};
ghost use Rattle.sc_net.specs.declared.findings.Finding.{Finding};
ghost use Rattle.sc_task.specs.States.{IsSavable, saver_data};

use sc_compute::TaskResult;
use sc_ids::Fault;
use sc_net::{Finding, Report, Task};
use sc_work::Naming;
use std::marker::Model;

/// An attempt whose part was written, and that is to ask whether it may commit.
#[derive(Drop)]
pub struct Staged<W: Naming> {
    task: Task<W>,
}

impl<W: Naming> Model for Staged<W> {
    ghost use Rattle.sc_task.specs.States.{IsSavable, SaverData, saver_code, saver_data};

    ghost Value = { SaverData };

    ghost coded = { saver_code };

    ghost view = { λ s. saver_data s.task };

    ghost invariant = { λ s. IsSavable W.work s.task };
}

impl<W: Naming> Staged<W> {
    /// An attempt of a task of a save, whose part was written.
    pub(crate) fn new(task: Task<W>) -> Staged<W>
        requires savable { IsSavable W.work task }
        ensures { result ≡ saver_data task }
    {
        Staged { task }
    }

    /// The task.
    pub fn task(&self) -> &Task<W>
        ensures { result.now ≡ self.now.task }
    {
        &self.task
    }

    /// The attempt once it may commit.
    pub fn granted(self) -> Granted<W>
        ensures { result ≡ saver_data self.task }
    {
        let Staged { task } = self;
        Granted { task }
    }

    /// Reports that it may not commit.
    pub fn denied(self) -> Report<W>
        ensures { result ≡ report_data self.task Finding.Denied }
    {
        let Staged { task } = self;
        Report::new(task, Finding::Denied)
    }
}

/// An attempt that may commit, and is to move its part.
#[derive(Drop)]
pub struct Granted<W: Naming> {
    task: Task<W>,
}

impl<W: Naming> Model for Granted<W> {
    ghost use Rattle.sc_task.specs.States.{IsSavable, SaverData, saver_code, saver_data};

    ghost Value = { SaverData };

    ghost coded = { saver_code };

    ghost view = { λ g. saver_data g.task };

    ghost invariant = { λ g. IsSavable W.work g.task };
}

impl<W: Naming> Granted<W> {
    /// The task.
    pub fn task(&self) -> &Task<W>
        ensures { result.now ≡ self.now.task }
    {
        &self.task
    }

    /// The attempt once its part is moved.
    pub fn moved(self) -> Moved<W>
        ensures { result ≡ saver_data self.task }
    {
        let Granted { task } = self;
        Moved { task }
    }

    /// Reports that the call on the files failed that was to move its part.
    pub fn device(self, fault: Fault) -> Report<W>
        requires risen { HasRisen fault }
        ensures { result ≡ report_data self.task (Finding.Device fault) }
    {
        let Granted { task } = self;
        Report::new(task, Finding::Device(fault))
    }
}

/// An attempt whose part was moved.
#[derive(Drop)]
pub struct Moved<W: Naming> {
    task: Task<W>,
}

impl<W: Naming> Model for Moved<W> {
    ghost use Rattle.sc_task.specs.States.{IsSavable, SaverData, saver_code, saver_data};

    ghost Value = { SaverData };

    ghost coded = { saver_code };

    ghost view = { λ m. saver_data m.task };

    ghost invariant = { λ m. IsSavable W.work m.task };
}

impl<W: Naming> Moved<W> {
    /// The task.
    pub fn task(&self) -> &Task<W>
        ensures { result.now ≡ self.now.task }
    {
        &self.task
    }

    /// Reports that its result is saved.
    pub fn report(self) -> Report<W>
        ensures { result ≡ report_data self.task (Finding.Result TaskResult.Saved) }
    {
        let Moved { task } = self;
        Report::new(task, Finding::Result(TaskResult::Saved))
    }
}
