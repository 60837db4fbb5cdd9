//! What an executor has told at a desk, in step with its log.
#![tactic(auto)]

ghost use Rattle.std.specs.Prelude.{◌≡◌, Err, OnErr, OnOk, false, true};
ghost use Rattle.sc_core.specs.Losses.{may_be_lost};
ghost use Rattle.sc_core.specs.Releases.{has_no_shelved};
ghost use Rattle.sc_core.specs.declared.answers.NotEnabled.{NotEnabled};
ghost use Rattle.sc_base.specs.declared.refusals.OrMemory.TheVariants as OrMemory;
ghost use Rattle.sc_desk.specs.DeskData.{core_of};
ghost use Rattle.sc_exec.specs.JobDesks.{KeepsFiles};
ghost use Rattle.sc_exec.specs.Logging.{HasRoom, IsSameLog, LosesBoth, ReleasesBoth};

use crate::job_desks::JobDesk;
use crate::openings::Opening;
use sc_base::OrMemory;
use sc_core::{Entry, Event, NotEnabled};
use sc_files::Files;
use sc_ids::{ExecId, Mark};
use sc_logs::ExecLog;
use sc_work::Naming;

impl<W: Naming, J: Opening, F: Files> JobDesk<W, J, F> {
    /// An executor has the report under a key told, and logs what it was answered. A fault says
    /// that there is no such report. A refused call changes nothing.
    #[tactic(auto, using(crate::proofs::JobDeskLemmas::job_same))]
    pub fn release(&mut self, log: &mut ExecLog, key: u32) -> Result<(), OrMemory<NotEnabled>>
        requires room { HasRoom log.old }
        ensures released { OnOk result
            (ReleasesBoth self.old.desk log.old key self.new.desk log.new) }
        ensures files { KeepsFiles self.old self.new }
        ensures not_enabled { (fault : NotEnabled) → result ≡ Err (OrMemory.Fault fault)
            → has_no_shelved (core_of self.old.desk) key ≡ true }
        ensures refused { OnErr result (self.new ≡ self.old) }
        ensures unlogged { OnErr result (IsSameLog log.old log.new) }
        ensures room { HasRoom log.new }
    {
        log.entries.reserve(2)?;
        let by = Mark::Exec(log.exec);
        let receipt = self.desk.release(by, key)?;
        log.entries.push_reserved(Entry {
            by,
            event: Event::Release { key },
            answer: receipt.answer,
        });
        Ok(())
    }

    /// An executor has another one told lost, or itself, and logs what it was answered. A fault
    /// says that it may not be told so. A refused call changes nothing.
    #[tactic(auto, using(crate::proofs::JobDeskLemmas::job_same))]
    pub fn tell_lost(&mut self, log: &mut ExecLog, exec: ExecId) -> Result<(), OrMemory<NotEnabled>>
        requires room { HasRoom log.old }
        ensures lost { OnOk result
            (LosesBoth self.old.desk log.old exec self.new.desk log.new) }
        ensures files { KeepsFiles self.old self.new }
        ensures not_enabled { (fault : NotEnabled) → result ≡ Err (OrMemory.Fault fault)
            → may_be_lost (core_of self.old.desk) exec ≡ false }
        ensures refused { OnErr result (self.new ≡ self.old) }
        ensures unlogged { OnErr result (IsSameLog log.old log.new) }
        ensures room { HasRoom log.new }
    {
        log.entries.reserve(2)?;
        let by = Mark::Exec(log.exec);
        let receipt = self.desk.tell_lost(by, exec)?;
        log.entries.push_reserved(Entry {
            by,
            event: Event::TellLost { exec },
            answer: receipt.answer,
        });
        Ok(())
    }
}
