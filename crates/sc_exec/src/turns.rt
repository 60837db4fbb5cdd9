//! What an executor does at a desk when its turn begins.
#![tactic(auto)]

ghost use Rattle.std.specs.Prelude.{◌≡◌, [], IfOk, None, OnErr, OnOk, Some};
ghost use Rattle.sc_desk.specs.DeskData.{core_of};
ghost use Rattle.sc_desk.specs.Dues.{IsDueLoss, IsDueReport};
ghost use Rattle.sc_exec.specs.Lefts.{IsAtWork};
ghost use Rattle.sc_exec.specs.Logging.{HasRoom, LosesBoth, ReleasesBoth, TakesBoth};
ghost use Rattle.sc_exec.specs.Turns.{BeginsTurn, HasToldAll, IsAsked, IsTold};

use crate::job_desks::JobDesk;
use crate::openings::Opening;
use sc_base::OrMemory;
use sc_clock::Clock;
use sc_desk::{Taken, orders_are_due};
use sc_files::Files;
use sc_ids::ExecId;
use sc_logs::ExecLog;
use sc_plan::Order;
use sc_work::Naming;
use std::alloc::AllocError;
use std::sync::{Mutex, Wait};

/// What an executor is to do next.
#[derive(Drop)]
pub(crate) enum Asked<W: Naming> {
    /// To begin its turn again, since a loss or a report that was due was told.
    Told,
    /// To have an order of the fault plan carried out, and to begin its turn again.
    Order(Order),
    /// What it got that asked for a task.
    Taken(Taken<W>),
}

impl<W: Naming, J: Opening, F: Files> JobDesk<W, J, F> {
    /// An executor does what comes next at the desk. A loss that is due is told, or else a report
    /// that is. Where none is, it gets the order of the fault plan that comes next, if one is due;
    /// else it has the time entered, where slow tasks get copies, and asks for a task. All that is
    /// entered is logged. A refused call may have entered the time.
    pub(crate) fn begin_turn<C: Clock, R: Wait>(
        &mut self,
        rt: &R,
        clock: &Mutex<C>,
        log: &mut ExecLog,
    ) -> Result<Asked<W>, AllocError>
        requires room { HasRoom log.old }
        requires works { IsAtWork [] log.old }
        ensures asked { IfOk result (λ asked. IsAsked W.work J.opening.job asked log.new) }
        ensures begins { IfOk result (λ asked.
            BeginsTurn W.work self.old.desk log.old asked self.new.desk log.new) }
        ensures works { OnErr result (IsAtWork [] log.new) }
        ensures exec { log.new.exec ≡ log.old.exec }
        ensures room { HasRoom log.new }
    {
        match self.desk.due_loss() {
            Some(exec) => {
                self.lose(log, exec)?;
                Ok(Asked::Told)
            }
            None => self.tell_next(rt, clock, log),
        }
    }

    /// The same where no loss is due.
    fn tell_next<C: Clock, R: Wait>(
        &mut self,
        rt: &R,
        clock: &Mutex<C>,
        log: &mut ExecLog,
    ) -> Result<Asked<W>, AllocError>
        requires room { HasRoom log.old }
        requires works { IsAtWork [] log.old }
        requires no_loss { IsDueLoss (core_of self.old.desk) None }
        ensures asked { IfOk result (λ asked. IsAsked W.work J.opening.job asked log.new) }
        ensures begins { IfOk result (λ asked.
            BeginsTurn W.work self.old.desk log.old asked self.new.desk log.new) }
        ensures works { OnErr result (IsAtWork [] log.new) }
        ensures exec { log.new.exec ≡ log.old.exec }
        ensures room { HasRoom log.new }
    {
        match self.desk.due_report(log.exec) {
            Some(key) => {
                self.hand_on(log, key)?;
                Ok(Asked::Told)
            }
            None => self.ask_next(rt, clock, log),
        }
    }

    /// The same where no report is due either.
    fn ask_next<C: Clock, R: Wait>(
        &mut self,
        rt: &R,
        clock: &Mutex<C>,
        log: &mut ExecLog,
    ) -> Result<Asked<W>, AllocError>
        requires room { HasRoom log.old }
        requires works { IsAtWork [] log.old }
        requires told { HasToldAll self.old.desk log.old.exec }
        ensures asked { IfOk result (λ asked. IsAsked W.work J.opening.job asked log.new) }
        ensures begins { IfOk result (λ asked.
            BeginsTurn W.work self.old.desk log.old asked self.new.desk log.new) }
        ensures works { OnErr result (IsAtWork [] log.new) }
        ensures exec { log.new.exec ≡ log.old.exec }
        ensures room { HasRoom log.new }
    {
        self.is_sound();
        orders_are_due();
        match self.due_order() {
            Some(order) => Ok(Asked::Order(order)),
            None => {
                self.read_clock(rt, clock, log)?;
                Ok(Asked::Taken(self.request(log)?))
            }
        }
    }

    /// Tells a loss that is due.
    fn lose(&mut self, log: &mut ExecLog, exec: ExecId) -> Result<(), AllocError>
        requires room { HasRoom log.old }
        requires works { IsAtWork [] log.old }
        requires due { IsDueLoss (core_of self.old.desk) (Some exec) }
        ensures lost { OnOk result
            (LosesBoth self.old.desk log.old exec self.new.desk log.new) }
        ensures works { IsAtWork [] log.new }
        ensures exec { log.new.exec ≡ log.old.exec }
        ensures room { HasRoom log.new }
    {
        match self.tell_lost(log, exec) {
            Ok(()) => Ok(()),
            Err(OrMemory::OutOfMemory) => Err(AllocError),
            Err(OrMemory::Fault(_)) => unreachable!(),
        }
    }

    /// Tells a report that is due.
    fn hand_on(&mut self, log: &mut ExecLog, key: u32) -> Result<(), AllocError>
        requires room { HasRoom log.old }
        requires works { IsAtWork [] log.old }
        requires due { IsDueReport (core_of self.old.desk) log.old.exec (Some key) }
        ensures released { OnOk result
            (ReleasesBoth self.old.desk log.old key self.new.desk log.new) }
        ensures works { IsAtWork [] log.new }
        ensures exec { log.new.exec ≡ log.old.exec }
        ensures room { HasRoom log.new }
    {
        match self.release(log, key) {
            Ok(()) => Ok(()),
            Err(OrMemory::OutOfMemory) => Err(AllocError),
            Err(OrMemory::Fault(_)) => unreachable!(),
        }
    }

    /// An executor asks for a task.
    #[tactic(auto, using(crate::proofs::TurnLemmas::works_same))]
    fn request(&mut self, log: &mut ExecLog) -> Result<Taken<W>, AllocError>
        requires room { HasRoom log.old }
        requires works { IsAtWork [] log.old }
        ensures takes { IfOk result (λ t.
            TakesBoth self.old.desk log.old t self.new.desk log.new) }
        ensures told { IfOk result (λ t. IsTold W.work J.opening.job t log.new) }
        ensures works { OnErr result (IsAtWork [] log.new) }
        ensures exec { log.new.exec ≡ log.old.exec }
        ensures room { HasRoom log.new }
    {
        self.is_job();
        self.is_sound();
        let taken = self.take(log);
        self.is_sound();
        taken
    }
}
