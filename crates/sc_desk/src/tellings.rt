//! What is told that wasn't posted.
#![tactic(auto)]

ghost use Rattle.std.specs.Prelude.{◌≡◌, Err, IfOk, OnErr, false, true};
ghost use Rattle.sc_core.specs.Losses.{may_be_lost};
ghost use Rattle.sc_core.specs.Releases.{has_no_shelved};
ghost use Rattle.sc_core.specs.declared.answers.NotEnabled.{NotEnabled};
ghost use Rattle.sc_desk.specs.DeskData.{core_of};
ghost use Rattle.sc_desk.specs.Tellings.{Releases, TellsLost, results_with};

use crate::desks::Desk;
use crate::posts::keep;
use crate::receipts::Receipt;
use crate::shelves::{clear_after_end, take_off};
use sc_base::OrMemory;
use sc_compute::TaskResult;
use sc_core::{Answer, Event, NotEnabled};
use sc_ids::{ExecId, Mark};
use sc_net::Report;
use sc_work::Naming;

impl<W: Naming> Desk<W> {
    /// The report under a key is taken off the shelf and told. It is entered with what the core
    /// answers, and a result that finishes its partition is kept. A fault says that
    /// there is no such report. A refused call changes nothing.
    pub fn release(&mut self, by: Mark, key: u32) -> Result<Receipt, OrMemory<NotEnabled>>
        ensures released { IfOk result (λ r. Releases self.old by key r self.new) }
        ensures not_enabled { (fault : NotEnabled) → result ≡ Err (OrMemory.Fault fault)
            → has_no_shelved (core_of self.old) key ≡ true }
        ensures refused { OnErr result (self.new ≡ self.old) }
    {
        let entry = self.journal.entries().len();
        self.journal.core().is_sound();
        self.journal.is_replay();
        match self.journal.enter(by, Event::Release { key }) {
            Ok(answer) => {
                keep_late(&mut self.results, take_off(&mut self.shelf, key), &answer);
                clear_after_end(&mut self.shelf, self.journal.core());
                Ok(Receipt { entry, answer })
            }
            Err(error) => Err(error),
        }
    }

    /// An executor is told lost. It is entered with what the core answers. A fault says that it may
    /// not be told so. A refused call changes nothing.
    pub fn tell_lost(&mut self, by: Mark, exec: ExecId) -> Result<Receipt, OrMemory<NotEnabled>>
        ensures lost { IfOk result (λ r. TellsLost self.old by exec r self.new) }
        ensures not_enabled { (fault : NotEnabled) → result ≡ Err (OrMemory.Fault fault)
            → may_be_lost (core_of self.old) exec ≡ false }
        ensures refused { OnErr result (self.new ≡ self.old) }
    {
        let entry = self.journal.entries().len();
        self.journal.core().is_sound();
        self.journal.is_replay();
        match self.journal.enter(by, Event::TellLost { exec }) {
            Ok(answer) => {
                clear_after_end(&mut self.shelf, self.journal.core());
                Ok(Receipt { entry, answer })
            }
            Err(error) => Err(error),
        }
    }
}

/// Keeps the result of a report that finished its partition, where there is one.
fn keep_late<W: Naming>(
    results: &mut Vec<Option<TaskResult>>,
    report: Option<Report<W>>,
    answer: &Answer,
)
    ensures { results.new.items ≡ results_with results.old.items report answer.now }
{
    match report {
        Some(report) => keep(results, report, answer),
        None => {}
    }
}
