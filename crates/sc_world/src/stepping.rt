//! The steps of a world, each where it is enabled.
#![tactic(auto)]

ghost use Rattle.std.specs.Prelude.{◌≡◌, ◌<◌, Err, IfErr, IfOk, OnErr, OnOk, false, length, true};
ghost use Rattle.sc_base.specs.declared.refusals.OrMemory.TheVariants as OrMemory;
ghost use Rattle.sc_core.specs.CoreData.{job_runs};
ghost use Rattle.sc_core.specs.Losses.{may_be_lost};
ghost use Rattle.sc_core.specs.Releases.{has_no_shelved};
ghost use Rattle.sc_core.specs.declared.answers.NotEnabled.{NotEnabled};
ghost use Rattle.sc_desk.specs.Orders.{IsDueAmong};
ghost use Rattle.sc_plan.specs.Orders.{wipes_of};
ghost use Rattle.sc_desk.specs.declared.posts.Posted.{Posted};
ghost use Rattle.sc_world.specs.Places.{IsReceived};
ghost use Rattle.sc_world.specs.declared.places.AttemptState.{AttemptState};
ghost use Rattle.sc_world.specs.Steps.{Computes, EvictsOne, HandsOrder, LosesOne, Posts, Puts, Reads, ReleasesOne, Takes, WipesOne, phase_of};
ghost use Rattle.sc_world.specs.WorldData.{core_in, held_at};

use crate::among::{
    compute_among, evict_among, give_among, hold_among, put_among, read_among, report_among,
    wipe_among,
};
use crate::steps::Kept;
use crate::worlds::World;
use sc_base::OrMemory;
use sc_core::{Answer, NotEnabled};
use sc_desk::{Logged, Posted, Receipt};
use sc_ids::{ExecId, Loc, Mark};
use sc_plan::Order;
use sc_store::WipeAnswer;
use sc_work::Naming;
use std::alloc::{AllocError, Global};

impl<W: Naming> World<W> {
    /// An executor asks for a task; one that it gets it has out. A refused call changes nothing.
    pub fn take(&mut self, alloc: Global, exec: ExecId) -> Result<Answer, AllocError>
        requires there { exec < length self.old.held }
        ensures takes { IfOk result (λ answer. Takes self.old exec answer self.new) }
        ensures refused { OnErr result (self.new ≡ self.old) }
    {
        let Logged { taken, answer } = self.desk.take_logged(Mark::Driver, exec)?;
        give_among(&mut self.held, alloc, exec, taken);
        self.desk.is_sound();
        Ok(answer)
    }

    /// An executor's attempt reads its next block, or finds that it can't. A refused call changes
    /// nothing.
    pub fn read(&mut self, exec: ExecId) -> Result<(), AllocError>
        requires reads { phase_of (held_at self.old exec) ≡ AttemptState.Reads }
        ensures reads { OnOk result (Reads self.old exec self.new) }
        ensures refused { OnErr result (self.new ≡ self.old) }
    {
        read_among(&mut self.held, self.stores.as_slice(), exec)
    }

    /// An executor's attempt computes, which has read all, from the cached partitions too that the
    /// executor's store has; what it computes of others is kept there, and the answer says how much
    /// of it. A refused call changes nothing.
    pub fn compute(&mut self, alloc: Global, exec: ExecId) -> Result<Kept, AllocError>
        requires computes { phase_of (held_at self.old exec) ≡ AttemptState.Computes }
        ensures computes { IfOk result (λ kept. Computes W.work self.old exec kept self.new) }
        ensures refused { OnErr result (self.new ≡ self.old) }
    {
        compute_among(&mut self.held, &mut self.stores, alloc, exec)
    }

    /// An executor's attempt puts the block that it has computed into the executor's store. A
    /// refused call changes nothing.
    pub fn put(&mut self, exec: ExecId) -> Result<Loc, AllocError>
        requires puts { phase_of (held_at self.old exec) ≡ AttemptState.Puts }
        ensures puts { IfOk result (λ loc. Puts W.work self.old exec loc self.new) }
        ensures refused { OnErr result (self.new ≡ self.old) }
    {
        put_among(&mut self.held, &mut self.stores, exec)
    }

    /// An executor's attempt reports, and the executor has none out any more. A refused call
    /// changes nothing.
    pub fn post(&mut self, exec: ExecId) -> Result<Answer, AllocError>
        requires reports { phase_of (held_at self.old exec) ≡ AttemptState.Reports }
        ensures posts { IfOk result (λ answer. Posts W.work self.old exec answer self.new) }
        ensures refused { OnErr result (self.new ≡ self.old) }
    {
        let report = report_among(&mut self.held, exec);
        report.is_true();
        match self.desk.post(Mark::Driver, report) {
            Ok(posted) => {
                self.desk.is_sound();
                let receipt = received(posted);
                Ok(receipt.answer)
            }
            Err(failed) => {
                hold_among(&mut self.held, exec, failed.value);
                Err(AllocError)
            }
        }
    }

    /// The report under a key is told, which was to be told later. A refused call changes nothing.
    pub fn release(&mut self, key: u32) -> Result<Answer, AllocError>
        requires shelved { has_no_shelved (core_in self.old) key ≡ false }
        ensures releases { IfOk result (λ answer. ReleasesOne self.old key answer self.new) }
        ensures refused { OnErr result (self.new ≡ self.old) }
    {
        match self.release_any(key) {
            Ok(answer) => Ok(answer),
            Err(OrMemory::Fault(_)) => unreachable!(),
            Err(OrMemory::OutOfMemory) => Err(AllocError),
        }
    }

    /// The same, where a fault says that there may be no such report. A refused call changes
    /// nothing.
    pub(crate) fn release_any(&mut self, key: u32) -> Result<Answer, OrMemory<NotEnabled>>
        ensures releases { IfOk result (λ answer. ReleasesOne self.old key answer self.new) }
        ensures not_enabled { (fault : NotEnabled) → result ≡ Err (OrMemory.Fault fault)
            → has_no_shelved (core_in self.old) key ≡ true }
        ensures refused { OnErr result (self.new ≡ self.old) }
    {
        match self.desk.release(Mark::Driver, key) {
            Ok(receipt) => {
                self.desk.is_sound();
                Ok(receipt.answer)
            }
            Err(error) => Err(error),
        }
    }

    /// An executor is told lost. A refused call changes nothing.
    pub fn tell_lost(&mut self, exec: ExecId) -> Result<Answer, AllocError>
        requires may { may_be_lost (core_in self.old) exec ≡ true }
        ensures lost { IfOk result (λ answer. LosesOne self.old exec answer self.new) }
        ensures refused { OnErr result (self.new ≡ self.old) }
    {
        match self.desk.tell_lost(Mark::Driver, exec) {
            Ok(receipt) => {
                self.desk.is_sound();
                Ok(receipt.answer)
            }
            Err(OrMemory::Fault(_)) => unreachable!(),
            Err(OrMemory::OutOfMemory) => Err(AllocError),
        }
    }

    /// A store is wiped by an order of the fault plan that is due.
    pub fn wipe(&mut self, order: Order) -> WipeAnswer
        requires runs { job_runs (core_in self.old) ≡ true }
        requires due { IsDueAmong (wipes_of W.work.plan order.exec) (core_in self.old).told order }
        requires there { order.exec < length self.old.stores }
        ensures { WipesOne W.work self.old order result self.new }
    {
        wipe_among(&mut self.stores, order)
    }

    /// A store lets its least recently used cached block go, where there is one.
    pub fn evict(&mut self, exec: ExecId)
        requires runs { job_runs (core_in self.old) ≡ true }
        requires there { exec < length self.old.stores }
        ensures { EvictsOne self.old exec self.new }
    {
        evict_among(&mut self.stores, exec);
    }

    /// The order of the fault plan that comes next, if one is due. It counts as handed out from now
    /// on.
    pub fn next_order(&mut self) -> Option<Order>
        requires runs { job_runs (core_in self.old) ≡ true }
        ensures { HandsOrder W.work self.old result self.new }
    {
        let order = self.desk.due_order();
        self.desk.is_sound();
        order
    }
}

/// The receipt of a report that was neither a stranger nor early.
fn received<W: Naming>(posted: Posted<W>) -> Receipt
    requires { IsReceived posted }
    ensures { posted ≡ Posted.Receipt result }
{
    match posted {
        Posted::Receipt(receipt) => receipt,
        Posted::Stranger(_) => unreachable!(),
        Posted::Early { .. } => unreachable!(),
    }
}
