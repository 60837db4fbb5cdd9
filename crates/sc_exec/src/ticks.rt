//! The time at a desk.
#![tactic(auto)]

ghost use Rattle.std.specs.Prelude.{◌≡◌, [], OnErr, OnOk};
ghost use Rattle.sc_desk.specs.DeskData.{core_of};
ghost use Rattle.sc_exec.specs.JobDesks.{KeepsFiles};
ghost use Rattle.sc_exec.specs.Lefts.{IsAtWork};
ghost use Rattle.sc_exec.specs.Logging.{HasRoom, IsSameLog, IsTimed, TicksBoth};

use crate::job_desks::JobDesk;
use crate::openings::Opening;
use sc_clock::Clock;
use sc_core::{Answer, Entry, Event, SideEvent};
use sc_files::Files;
use sc_ids::Mark;
use sc_logs::ExecLog;
use sc_work::Naming;
use std::alloc::AllocError;
use std::sync::{Mutex, Wait};

impl<W: Naming, J: Opening, F: Files> JobDesk<W, J, F> {
    /// An executor has the time entered, in milliseconds, and logs what it was answered. Of the
    /// time nothing is known. A refused call changes nothing.
    #[tactic(auto, using(crate::proofs::JobDeskLemmas::job_same))]
    pub fn tick(&mut self, log: &mut ExecLog, now: u64) -> Result<(), AllocError>
        requires room { HasRoom log.old }
        ensures ticked { OnOk result (TicksBoth self.old.desk log.old now self.new.desk log.new) }
        ensures files { KeepsFiles self.old self.new }
        ensures refused { OnErr result (self.new ≡ self.old) }
        ensures unlogged { OnErr result (IsSameLog log.old log.new) }
        ensures room { HasRoom log.new }
    {
        log.entries.reserve(2)?;
        let by = Mark::Exec(log.exec);
        let noted = self.desk.note(by, SideEvent::Tick { now })?;
        log.entries.push_reserved(Entry {
            by,
            event: Event::Side(SideEvent::Tick { now }),
            answer: Answer::Side(noted.answer),
        });
        Ok(())
    }

    /// Whether copies of slow tasks are handed out, for which the time is wanted.
    pub(crate) fn speculates(&self) -> bool
        ensures { result ≡ (core_of self.now.desk).dag.limits.speculation }
    {
        self.desk.core().limits().speculation
    }

    /// An executor reads the clock and has its time entered once, where that is wanted; else it
    /// does nothing.
    #[tactic(auto, using(crate::proofs::TurnLemmas::ticks_on))]
    pub(crate) fn read_clock<C: Clock, R: Wait>(
        &mut self,
        rt: &R,
        clock: &Mutex<C>,
        log: &mut ExecLog,
    ) -> Result<(), AllocError>
        requires room { HasRoom log.old }
        requires works { IsAtWork [] log.old }
        ensures timed { OnOk result (IsTimed self.old.desk log.old self.new.desk log.new) }
        ensures works { IsAtWork [] log.new }
        ensures exec { log.new.exec ≡ log.old.exec }
        ensures room { HasRoom log.new }
    {
        if !self.speculates() {
            return Ok(());
        }
        let now = clock.lock(rt).now();
        self.tick(log, now)
    }
}
