//! Any step of a world.
#![tactic(auto)]

ghost use Rattle.std.specs.Prelude.{◌≡◌, ◌↔◌, ◌<◌, IfOk, IsTrue, OnErr, length};
ghost use Rattle.sc_desk.specs.Orders.{IsDueAmong};
ghost use Rattle.sc_plan.specs.Orders.{wipes_of};
ghost use Rattle.sc_staging.specs.Outputs.{output_files};
ghost use Rattle.sc_world.specs.Files.{LeavesOutput, OutputGoesOn, OutputStands};
ghost use Rattle.sc_world.specs.Runs.{Reaches, Runs};
ghost use Rattle.sc_world.specs.Steps.{Goes};
ghost use Rattle.sc_world.specs.WorldData.{core_in};
ghost use Rattle.sc_world.specs.declared.steps.Step.TheVariants as steps;

use crate::places::AttemptState;
use crate::steps::{Applied, Step};
use crate::worlds::World;
use sc_base::OrMemory;
use sc_files::Files;
use sc_ids::ExecId;
use sc_plan::Order;
use sc_staging::Output;
use sc_work::Naming;
use std::alloc::{AllocError, Global};

impl<W: Naming> World<W> {
    /// Does one step, where it is enabled; one that isn't changes nothing. The files are those of
    /// its job, and stand as its journal tells. A refused call changes nothing.
    pub fn apply<F: Files>(
        &mut self,
        alloc: Global,
        output: &mut Output<F>,
        step: Step,
    ) -> Result<Applied, AllocError>
        requires stand { OutputStands W.work self.old F.state output.old }
        ensures goes { IfOk result (λ a. Goes W.work self.old step a self.new) }
        ensures refused { OnErr result (self.new ≡ self.old) }
        ensures leaves { IfOk result
            (λ a. LeavesOutput W.work self.old step a F.state output.old output.new) }
        ensures untouched { OnErr result
            (output_files F.state output.new ≡ output_files F.state output.old) }
        ensures files { OutputGoesOn W.work self.old self.new F.state
            output.old output.new }
    {
        match step {
            Step::Take { exec } => self.apply_take(alloc, exec),
            Step::Read { exec } => self.apply_read(exec),
            Step::Compute { exec } => self.apply_compute(alloc, exec),
            Step::Put { exec } => self.apply_put(exec),
            Step::Stage { exec } => self.apply_stage(alloc, output, exec),
            Step::Ask { exec } => self.apply_ask(exec),
            Step::Move { exec } => self.apply_move(alloc, output, exec),
            Step::Post { exec } => self.apply_post(exec),
            Step::Release { key } => self.apply_release(key),
            Step::TellLost { exec } => self.apply_loss(exec),
            Step::Tick { now } => self.apply_tick(now),
            Step::Wipe(order) => Ok(self.apply_wipe(order)),
            Step::Evict { exec } => Ok(self.apply_evict(exec)),
            Step::NextOrder => Ok(self.apply_order()),
        }
    }

    /// Does some steps, one after the other. Whatever comes, the world is one that steps lead to.
    pub fn apply_all<F: Files>(
        &mut self,
        alloc: Global,
        output: &mut Output<F>,
        steps: &[Step],
    ) -> Result<Vec<Applied>, AllocError>
        requires stand { OutputStands W.work self.old F.state output.old }
        ensures runs { IfOk result
            (λ answers. Runs W.work self.old steps.now answers.items self.new) }
        ensures reaches { Reaches W.work self.old self.new }
        ensures files { OutputGoesOn W.work self.old self.new F.state
            output.old output.new }
    {
        let mut answers = Vec::with_capacity(alloc, steps.len())?;
        for step in steps {
            let answer = self.apply(alloc, output, *step)?;
            self.has_sound_desk();
            answers.push(answer)?;
        }
        Ok(answers)
    }

    fn apply_tick(&mut self, now: u64) -> Result<Applied, AllocError>
        ensures goes { IfOk result (λ a. Goes W.work self.old (steps.Tick now) a self.new) }
        ensures refused { OnErr result (self.new ≡ self.old) }
    {
        Ok(Applied::Noted(self.tick(now)?))
    }

    fn apply_take(&mut self, alloc: Global, exec: ExecId) -> Result<Applied, AllocError>
        ensures goes { IfOk result (λ a. Goes W.work self.old (steps.Take exec) a self.new) }
        ensures refused { OnErr result (self.new ≡ self.old) }
    {
        if (exec as usize) < self.held.len() {
            Ok(Applied::Told(self.take(alloc, exec)?))
        } else {
            Ok(Applied::NotEnabled)
        }
    }

    fn apply_read(&mut self, exec: ExecId) -> Result<Applied, AllocError>
        ensures goes { IfOk result (λ a. Goes W.work self.old (steps.Read exec) a self.new) }
        ensures refused { OnErr result (self.new ≡ self.old) }
    {
        if self.phase(exec) == AttemptState::Reads {
            self.read(exec)?;
            Ok(Applied::Done)
        } else {
            Ok(Applied::NotEnabled)
        }
    }

    fn apply_compute(&mut self, alloc: Global, exec: ExecId) -> Result<Applied, AllocError>
        ensures goes { IfOk result (λ a. Goes W.work self.old (steps.Compute exec) a self.new) }
        ensures refused { OnErr result (self.new ≡ self.old) }
    {
        if self.phase(exec) == AttemptState::Computes {
            Ok(Applied::Computed(self.compute(alloc, exec)?))
        } else {
            Ok(Applied::NotEnabled)
        }
    }

    fn apply_put(&mut self, exec: ExecId) -> Result<Applied, AllocError>
        ensures goes { IfOk result (λ a. Goes W.work self.old (steps.Put exec) a self.new) }
        ensures refused { OnErr result (self.new ≡ self.old) }
    {
        if self.phase(exec) == AttemptState::Puts {
            Ok(Applied::Put(self.put(exec)?))
        } else {
            Ok(Applied::NotEnabled)
        }
    }

    fn apply_stage<F: Files>(
        &mut self,
        alloc: Global,
        output: &mut Output<F>,
        exec: ExecId,
    ) -> Result<Applied, AllocError>
        requires stand { OutputStands W.work self.old F.state output.old }
        ensures goes { IfOk result (λ a. Goes W.work self.old (steps.Stage exec) a self.new) }
        ensures refused { OnErr result (self.new ≡ self.old) }
        ensures leaves { IfOk result
            (λ a. LeavesOutput W.work self.old (steps.Stage exec) a F.state output.old output.new) }
        ensures untouched { OnErr result
            (output_files F.state output.new ≡ output_files F.state output.old) }
        ensures files { OutputGoesOn W.work self.old self.new F.state
            output.old output.new }
    {
        if self.phase(exec) == AttemptState::Stages {
            Ok(Applied::Noted(self.stage(alloc, output, exec)?))
        } else {
            Ok(Applied::NotEnabled)
        }
    }

    fn apply_ask(&mut self, exec: ExecId) -> Result<Applied, AllocError>
        ensures goes { IfOk result (λ a. Goes W.work self.old (steps.Ask exec) a self.new) }
        ensures refused { OnErr result (self.new ≡ self.old) }
    {
        if self.phase(exec) == AttemptState::Asks {
            Ok(Applied::Noted(self.ask(exec)?))
        } else {
            Ok(Applied::NotEnabled)
        }
    }

    fn apply_move<F: Files>(
        &mut self,
        alloc: Global,
        output: &mut Output<F>,
        exec: ExecId,
    ) -> Result<Applied, AllocError>
        requires stand { OutputStands W.work self.old F.state output.old }
        ensures goes { IfOk result (λ a. Goes W.work self.old (steps.Move exec) a self.new) }
        ensures refused { OnErr result (self.new ≡ self.old) }
        ensures leaves { IfOk result
            (λ a. LeavesOutput W.work self.old (steps.Move exec) a F.state output.old output.new) }
        ensures untouched { OnErr result
            (output_files F.state output.new ≡ output_files F.state output.old) }
        ensures files { OutputGoesOn W.work self.old self.new F.state
            output.old output.new }
    {
        if self.phase(exec) == AttemptState::Moves {
            Ok(Applied::Noted(self.move_part(alloc, output, exec)?))
        } else {
            Ok(Applied::NotEnabled)
        }
    }

    fn apply_post(&mut self, exec: ExecId) -> Result<Applied, AllocError>
        ensures goes { IfOk result (λ a. Goes W.work self.old (steps.Post exec) a self.new) }
        ensures refused { OnErr result (self.new ≡ self.old) }
    {
        if self.phase(exec) == AttemptState::Reports {
            Ok(Applied::Told(self.post(exec)?))
        } else {
            Ok(Applied::NotEnabled)
        }
    }

    fn apply_release(&mut self, key: u32) -> Result<Applied, AllocError>
        ensures goes { IfOk result (λ a. Goes W.work self.old (steps.Release key) a self.new) }
        ensures refused { OnErr result (self.new ≡ self.old) }
    {
        match self.release_any(key) {
            Ok(answer) => Ok(Applied::Told(answer)),
            Err(OrMemory::Fault(_)) => Ok(Applied::NotEnabled),
            Err(OrMemory::OutOfMemory) => Err(AllocError),
        }
    }

    fn apply_loss(&mut self, exec: ExecId) -> Result<Applied, AllocError>
        ensures goes { IfOk result (λ a. Goes W.work self.old (steps.TellLost exec) a self.new) }
        ensures refused { OnErr result (self.new ≡ self.old) }
    {
        if self.desk.core().may_be_lost(exec) {
            Ok(Applied::Told(self.tell_lost(exec)?))
        } else {
            Ok(Applied::NotEnabled)
        }
    }

    fn apply_wipe(&mut self, order: Order) -> Applied
        ensures { Goes W.work self.old (steps.Wipe order) result self.new }
    {
        if self.runs() && self.has_store(order.exec) && self.is_wipe_due(order) {
            Applied::Wipe(self.wipe(order))
        } else {
            Applied::NotEnabled
        }
    }

    fn apply_evict(&mut self, exec: ExecId) -> Applied
        ensures { Goes W.work self.old (steps.Evict exec) result self.new }
    {
        if self.runs() && self.has_store(exec) {
            self.evict(exec);
            Applied::Done
        } else {
            Applied::NotEnabled
        }
    }

    fn apply_order(&mut self) -> Applied
        ensures { Goes W.work self.old steps.NextOrder result self.new }
    {
        if self.runs() {
            Applied::Ordered(self.next_order())
        } else {
            Applied::NotEnabled
        }
    }

    /// Whether an executor has a store.
    fn has_store(&self, exec: ExecId) -> bool
        ensures { IsTrue result ↔ (exec < length self.now.stores) }
    {
        (exec as usize) < self.stores.len()
    }

    /// Whether a wipe is one of the fault plan, and is due.
    fn is_wipe_due(&self, order: Order) -> bool
        ensures { IsTrue result
            ↔ IsDueAmong (wipes_of W.work.plan order.exec) (core_in self.now).told order }
    {
        self.desk.work().is_named();
        let plan = self.desk.work().get().plan();
        let due = plan.due_wipes(order.exec, self.desk.core().told());
        if order.number == 0 || due < u64::from(order.number) {
            return false;
        }
        plan.wipe_order(order.exec, order.number) == order
    }
}
