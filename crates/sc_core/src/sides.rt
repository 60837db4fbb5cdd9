//! What happens beside the reports.
#![tactic(auto)]

ghost use Rattle.std.specs.Prelude.{◌≡◌};
ghost use Rattle.sc_core.specs.Owners.{IsThrice};
ghost use Rattle.sc_core.specs.Sides.{Sides, StepsAside};
ghost use Rattle.sc_core.specs.declared.events.SideEvent.TheVariants.{Leave, Tick};

use crate::answers::{Answer, SideAnswer, Stepped};
use crate::events::SideEvent;
use crate::states::State;
use sc_ids::ExecId;

impl State {
    /// Something happens beside the reports. It takes no memory.
    pub fn step_aside(&mut self, event: SideEvent) -> Stepped
        ensures steps { StepsAside self.old.0 event result.answer self.new.0 }
        ensures thrice { IsThrice result result.answer }
    {
        let said = self.side(event);
        Stepped::plain(Answer::Side(said))
    }

    /// What it is answered.
    fn side(&mut self, event: SideEvent) -> SideAnswer
        ensures { Sides self.old.0 event result self.new.0 }
    {
        match event {
            SideEvent::Leave { exec } => self.leave(exec),
            SideEvent::Tick { now } => self.note_tick(now),
            SideEvent::Stage { attempt, wrote } => self.stage(attempt, wrote),
            SideEvent::Ask { attempt } => self.ask(attempt),
            SideEvent::Move { attempt, renamed } => self.move_output(attempt, renamed),
        }
    }

    /// An executor leaves early. The first that does is remembered.
    fn leave(&mut self, exec: ExecId) -> SideAnswer
        ensures { Sides self.old.0 (Leave exec) result self.new.0 }
    {
        if !self.runs() {
            return SideAnswer::Ignored;
        }
        if self.left_first.is_none() {
            self.left_first = Some(exec);
        }
        SideAnswer::Left
    }

    /// The clock was read. The greatest time is kept, so none goes back.
    fn note_tick(&mut self, now: u64) -> SideAnswer
        ensures { Sides self.old.0 (Tick now) result self.new.0 }
    {
        if !self.runs() {
            return SideAnswer::Ignored;
        }
        self.tick = self.tick.max(now);
        SideAnswer::Ticked
    }
}
