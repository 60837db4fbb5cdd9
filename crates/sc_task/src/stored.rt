//! Attempts whose block was put.
#![tactic(auto)]

ghost use Rattle.std.specs.Prelude.{◌≡◌, true};
ghost use Rattle.sc_net.specs.Reports.{report_data};
ghost use Rattle.sc_net.specs.Tasks.{is_map_task};
ghost use Rattle.sc_net.specs.declared.findings.Finding.{Finding};
ghost use Rattle.sc_task.specs.States.{stored_data};

use sc_ids::Loc;
use sc_net::{Finding, Report, Task};
use sc_work::Naming;
use std::marker::Model;

/// An attempt of a map task whose block was put.
#[derive(Drop)]
pub struct Stored<W: Naming> {
    task: Task<W>,
    loc: Loc,
}

impl<W: Naming> Model for Stored<W> {
    ghost use Rattle.std.specs.Prelude.{◌≡◌, true};
    ghost use Rattle.sc_net.specs.Tasks.{is_map_task};
    ghost use Rattle.sc_task.specs.States.{StoredData, stored_code, stored_data};

    ghost Value = { StoredData };

    ghost coded = { stored_code };

    ghost view = { λ s. stored_data s.task s.loc };

    ghost invariant = { λ s. is_map_task s.task ≡ true };
}

impl<W: Naming> Stored<W> {
    /// An attempt of a map task whose block was put there.
    pub(crate) fn new(task: Task<W>, loc: Loc) -> Stored<W>
        requires map { is_map_task task ≡ true }
        ensures { result ≡ stored_data task loc }
    {
        Stored { task, loc }
    }

    /// The task.
    pub fn task(&self) -> &Task<W>
        ensures { result.now ≡ self.now.task }
    {
        &self.task
    }

    /// Where the block was put.
    pub fn loc(&self) -> Loc
        ensures { result ≡ self.now.loc }
    {
        self.loc
    }

    /// Reports where the block was put.
    pub fn report(self) -> Report<W>
        ensures { result ≡ report_data self.task (Finding.Map self.loc) }
    {
        let Stored { task, loc } = self;
        Report::new(task, Finding::Map(loc))
    }
}
