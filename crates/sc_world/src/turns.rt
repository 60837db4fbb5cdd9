//! What the driver and an executor do in a turn.
#![tactic(auto)]

ghost use Rattle.std.specs.Prelude.{◌≡◌, ◌<◌, IfOk, None, OnErr, OnOk, is_some, length, true};
ghost use Rattle.sc_core.specs.CoreData.{job_runs};
ghost use Rattle.sc_core.specs.declared.answers.Answer.{Answer};
ghost use Rattle.sc_desk.specs.Dues.{IsDueLoss, IsDueReport};
ghost use Rattle.sc_desk.specs.Orders.{IsDueOrder};
ghost use Rattle.sc_core.specs.declared.answers.SideAnswer.{SideAnswer};
ghost use Rattle.sc_world.specs.Files.{OutputGoesOn, OutputStands};
ghost use Rattle.sc_world.specs.Places.{IsAside};
ghost use Rattle.sc_world.specs.Serial.{Advances, Asks, Drives, Finishes, GoesOn, IsAlone, IsLive, IsResting, Turns};
ghost use Rattle.sc_world.specs.Steps.{Takes};
ghost use Rattle.sc_world.specs.Turns.{AdvancesBy, AdvancesOne, AdvancesPlain, CarriesOut, DoesDueIf, GoesInSave, StopsWork, Works};
ghost use Rattle.sc_world.specs.WorldData.{core_in, held_at};

use crate::places::AttemptState;
use crate::worlds::World;
use sc_files::Files;
use sc_ids::ExecId;
use sc_plan::{Order, OrderKind};
use sc_staging::Output;
use sc_work::Naming;
use std::alloc::{AllocError, Global};

impl<W: Naming> World<W> {
    /// The driver does what is due before an executor asks, and answers whether anything was.
    pub(crate) fn drive(&mut self, exec: ExecId) -> Result<bool, AllocError>
        requires runs { job_runs (core_in self.old) ≡ true }
        requires rests { IsResting self.old }
        ensures drives { IfOk result (λ driven. Drives W.work exec driven self.old self.new) }
        ensures due { IfOk result (λ driven. DoesDueIf driven W.work exec self.old self.new) }
        ensures refused { OnErr result (self.new ≡ self.old) }
    {
        self.is_world();
        match self.desk.due_loss() {
            Some(lost) => {
                self.tell_lost(lost)?;
                self.has_sound_desk();
                Ok(true)
            }
            None => self.tell_next(exec),
        }
    }

    /// The same where no loss is due.
    fn tell_next(&mut self, exec: ExecId) -> Result<bool, AllocError>
        requires runs { job_runs (core_in self.old) ≡ true }
        requires rests { IsResting self.old }
        requires no_loss { IsDueLoss (core_in self.old) None }
        ensures drives { IfOk result (λ driven. Drives W.work exec driven self.old self.new) }
        ensures due { IfOk result (λ driven. DoesDueIf driven W.work exec self.old self.new) }
        ensures refused { OnErr result (self.new ≡ self.old) }
    {
        self.is_world();
        match self.desk.due_report(exec) {
            Some(key) => {
                self.release(key)?;
                self.has_sound_desk();
                Ok(true)
            }
            None => Ok(self.order_next(exec)),
        }
    }

    /// The same where no report is due either.
    fn order_next(&mut self, exec: ExecId) -> bool
        requires runs { job_runs (core_in self.old) ≡ true }
        requires rests { IsResting self.old }
        requires no_loss { IsDueLoss (core_in self.old) None }
        requires due { IsDueReport (core_in self.old) exec None }
        ensures drives { Drives W.work exec result self.old self.new }
        ensures due { DoesDueIf result W.work exec self.old self.new }
    {
        self.is_world();
        match self.next_order() {
            Some(order) => {
                self.has_sound_desk();
                self.carry_out(order);
                true
            }
            None => false,
        }
    }

    /// An order that was handed out is carried out: a wipe, or an eviction.
    fn carry_out(&mut self, order: Order)
        requires runs { job_runs (core_in self.old) ≡ true }
        requires due { IsDueOrder W.work.plan (core_in self.old).told order.kind order }
        requires there { order.exec < length self.old.stores }
        ensures on { GoesOn W.work self.old self.new }
        ensures desk { self.new.desk ≡ self.old.desk }
        ensures held { self.new.held ≡ self.old.held }
        ensures obeys { CarriesOut W.work order self.old self.new }
    {
        self.has_sound_desk();
        match order.kind {
            OrderKind::Drop | OrderKind::Lose => {
                let _ = self.wipe(order);
            }
            OrderKind::Evict => self.evict(order.exec),
        }
    }

    /// An executor asks for a task, and its attempt goes on until it has reported.
    pub(crate) fn run_task<F: Files>(
        &mut self,
        alloc: Global,
        output: &mut Output<F>,
        exec: ExecId,
    ) -> Result<(), AllocError>
        requires runs { job_runs (core_in self.old) ≡ true }
        requires rests { IsResting self.old }
        requires due { IsDueReport (core_in self.old) exec None }
        requires live { IsLive self.old exec }
        requires stand { OutputStands W.work self.old F.state output.old }
        ensures turns { OnOk result (Turns W.work self.old self.new) }
        ensures on { GoesOn W.work self.old self.new }
        ensures works { OnOk result (Works W.work exec self.old self.new) }
        ensures stops { OnErr result (StopsWork W.work exec self.old self.new) }
        ensures files { OutputGoesOn W.work self.old self.new F.state
            output.old output.new }
    {
        self.request(alloc, exec)?;
        self.finish(alloc, output, exec)
    }

    /// An executor asks for a task. It gets one, or the job ends.
    fn request(&mut self, alloc: Global, exec: ExecId) -> Result<(), AllocError>
        requires runs { job_runs (core_in self.old) ≡ true }
        requires rests { IsResting self.old }
        requires due { IsDueReport (core_in self.old) exec None }
        requires live { IsLive self.old exec }
        ensures asks { OnOk result (Asks W.work exec self.old self.new) }
        ensures takes { OnOk result ((answer : Answer) × Takes self.old exec answer self.new) }
        ensures refused { OnErr result (self.new ≡ self.old) }
    {
        self.is_world();
        let _ = self.take(alloc, exec)?;
        self.has_sound_desk();
        Ok(())
    }

    /// An executor's attempt goes on until it has reported, or was over.
    fn finish<F: Files>(
        &mut self,
        alloc: Global,
        output: &mut Output<F>,
        exec: ExecId,
    ) -> Result<(), AllocError>
        requires alone { IsAlone exec self.old }
        requires stand { OutputStands W.work self.old F.state output.old }
        ensures finishes { OnOk result (Finishes W.work self.old self.new) }
        ensures on { GoesOn W.work self.old self.new }
        ensures goes { AdvancesBy W.work exec self.old self.new }
        ensures files { OutputGoesOn W.work self.old self.new F.state
            output.old output.new }
    {
        while self.is_out(exec) {
            self.advance(alloc, output, exec)?;
        }
        Ok(())
    }

    /// An executor's attempt goes on by one step.
    fn advance<F: Files>(
        &mut self,
        alloc: Global,
        output: &mut Output<F>,
        exec: ExecId,
    ) -> Result<(), AllocError>
        requires out { is_some (held_at self.old exec) ≡ true }
        requires alone { IsAlone exec self.old }
        requires stand { OutputStands W.work self.old F.state output.old }
        ensures advances { OnOk result (Advances W.work exec self.old self.new) }
        ensures goes { OnOk result (AdvancesOne W.work exec self.old self.new) }
        ensures refused { OnErr result (self.new ≡ self.old) }
        ensures files { OutputGoesOn W.work self.old self.new F.state
            output.old output.new }
    {
        self.is_world();
        match self.phase(exec) {
            AttemptState::Stages | AttemptState::Asks | AttemptState::Moves => {
                self.advance_save(alloc, output, exec)
            }
            _ => self.advance_plain(alloc, exec),
        }
    }

    /// The same where it does nothing with files.
    fn advance_plain(&mut self, alloc: Global, exec: ExecId) -> Result<(), AllocError>
        requires out { is_some (held_at self.old exec) ≡ true }
        requires alone { IsAlone exec self.old }
        requires plain { IsAside (held_at self.old exec) → ⊥ }
        ensures advances { OnOk result (Advances W.work exec self.old self.new) }
        ensures goes { OnOk result (AdvancesPlain W.work exec self.old self.new) }
        ensures refused { OnErr result (self.new ≡ self.old) }
    {
        self.is_world();
        match self.phase(exec) {
            AttemptState::Reads => self.read(exec),
            AttemptState::Computes => {
                self.compute(alloc, exec)?;
                Ok(())
            }
            AttemptState::Puts => {
                self.put(exec)?;
                Ok(())
            }
            AttemptState::Reports => {
                let _ = self.post(exec)?;
                self.has_sound_desk();
                Ok(())
            }
            AttemptState::Idle => unreachable!(),
            AttemptState::Stages | AttemptState::Asks | AttemptState::Moves => unreachable!(),
        }
    }

    /// The same of an attempt of a save that is to write its part, to ask, or to move it.
    fn advance_save<F: Files>(
        &mut self,
        alloc: Global,
        output: &mut Output<F>,
        exec: ExecId,
    ) -> Result<(), AllocError>
        requires aside { IsAside (held_at self.old exec) }
        requires alone { IsAlone exec self.old }
        requires stand { OutputStands W.work self.old F.state output.old }
        ensures advances { OnOk result (Advances W.work exec self.old self.new) }
        ensures goes { OnOk result ((answer : SideAnswer)
            × GoesInSave self.old exec answer self.new) }
        ensures refused { OnErr result (self.new ≡ self.old) }
        ensures files { OutputGoesOn W.work self.old self.new F.state
            output.old output.new }
    {
        self.is_world();
        match self.phase(exec) {
            AttemptState::Stages => {
                let _ = self.stage(alloc, output, exec)?;
                self.has_sound_desk();
                Ok(())
            }
            AttemptState::Asks => {
                let _ = self.ask(exec)?;
                self.has_sound_desk();
                Ok(())
            }
            AttemptState::Moves => {
                let _ = self.move_part(alloc, output, exec)?;
                self.has_sound_desk();
                Ok(())
            }
            _ => unreachable!(),
        }
    }

    /// Whether an executor has an attempt out.
    fn is_out(&self, exec: ExecId) -> bool
        ensures { result ≡ is_some (held_at self.now exec) }
    {
        match self.held.get(exec as usize) {
            Some(place) => place.is_taken(),
            None => false,
        }
    }
}
