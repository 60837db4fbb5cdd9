//! The time in a world.
#![tactic(auto)]

ghost use Rattle.std.specs.Prelude.{◌≡◌, IfOk, OnErr};
ghost use Rattle.sc_world.specs.Steps.{TicksOne};

use crate::worlds::World;
use sc_core::{SideAnswer, SideEvent};
use sc_ids::Mark;
use sc_work::Naming;
use std::alloc::AllocError;

impl<W: Naming> World<W> {
    /// The time is entered, in milliseconds, whatever it is: it may stand still or go back. A
    /// refused call changes nothing.
    pub fn tick(&mut self, now: u64) -> Result<SideAnswer, AllocError>
        ensures ticks { IfOk result (λ answer. TicksOne self.old now answer self.new) }
        ensures refused { OnErr result (self.new ≡ self.old) }
    {
        let noted = self.desk.note(Mark::Driver, SideEvent::Tick { now })?;
        self.desk.is_sound();
        Ok(noted.answer)
    }
}
