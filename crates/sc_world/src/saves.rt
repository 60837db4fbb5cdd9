//! What an attempt of a save does beside the reports, where it is enabled.
#![tactic(auto)]

ghost use Rattle.std.specs.Prelude.{◌≡◌, IfOk, OnErr};
ghost use Rattle.sc_staging.specs.Outputs.{output_files};
ghost use Rattle.sc_world.specs.Files.{OutputGoesOn, OutputStands, RenamesPart, WritesPart};
ghost use Rattle.sc_world.specs.Steps.{AsksOne, Moves, Stages, phase_of};
ghost use Rattle.sc_world.specs.WorldData.{held_at};
ghost use Rattle.sc_world.specs.declared.places.AttemptState.{AttemptState};

use crate::among::{attempt_among, part_among, settle_among};
use crate::worlds::World;
use sc_core::{SideAnswer, SideEvent};
use sc_files::Files;
use sc_ids::{ExecId, Mark};
use sc_output::is_within_types;
use sc_staging::Output;
use sc_work::Naming;
use std::alloc::{AllocError, Global};

impl<W: Naming> World<W> {
    /// An executor's attempt writes its part, where it comes next; where it was over nothing is
    /// written, and it is let go. A refused call changes nothing.
    pub fn stage<F: Files>(
        &mut self,
        alloc: Global,
        output: &mut Output<F>,
        exec: ExecId,
    ) -> Result<SideAnswer, AllocError>
        requires stages { phase_of (held_at self.old exec) ≡ AttemptState.Stages }
        requires stand { OutputStands W.work self.old F.state output.old }
        ensures stages { IfOk result (λ answer. Stages self.old exec answer self.new) }
        ensures writes { IfOk result (λ answer. WritesPart W.work self.old exec answer F.state
            output.old output.new) }
        ensures refused { OnErr result (self.new ≡ self.old) }
        ensures unwritten { OnErr result
            (output_files F.state output.new ≡ output_files F.state output.old) }
        ensures files { OutputGoesOn W.work self.old self.new F.state
            output.old output.new }
    {
        let part = part_among(self.held.as_slice(), alloc, exec)?;
        is_within_types(part.attempt);
        let Output::Save(staging) = output else {
            unreachable!();
        };
        let text = part.text.as_slice();
        let noted = self
            .desk
            .stage_part(alloc, Mark::Driver, part.attempt, staging, text)?;
        settle_among(&mut self.held, exec, noted.answer);
        self.desk.is_sound();
        Ok(noted.answer)
    }

    /// An executor's attempt asks whether it may commit. A refused call changes nothing.
    pub fn ask(&mut self, exec: ExecId) -> Result<SideAnswer, AllocError>
        requires asks { phase_of (held_at self.old exec) ≡ AttemptState.Asks }
        ensures asks { IfOk result (λ answer. AsksOne self.old exec answer self.new) }
        ensures refused { OnErr result (self.new ≡ self.old) }
    {
        let attempt = attempt_among(self.held.as_slice(), exec);
        let noted = self.desk.note(Mark::Driver, SideEvent::Ask { attempt })?;
        settle_among(&mut self.held, exec, noted.answer);
        self.desk.is_sound();
        Ok(noted.answer)
    }

    /// An executor's attempt gives its part the committed name, where it comes next. A refused call
    /// changes nothing.
    pub fn move_part<F: Files>(
        &mut self,
        alloc: Global,
        output: &mut Output<F>,
        exec: ExecId,
    ) -> Result<SideAnswer, AllocError>
        requires moves { phase_of (held_at self.old exec) ≡ AttemptState.Moves }
        requires stand { OutputStands W.work self.old F.state output.old }
        ensures moves { IfOk result (λ answer. Moves self.old exec answer self.new) }
        ensures renames { IfOk result (λ answer. RenamesPart self.old exec answer F.state
            output.old output.new) }
        ensures refused { OnErr result (self.new ≡ self.old) }
        ensures unmoved { OnErr result
            (output_files F.state output.new ≡ output_files F.state output.old) }
        ensures files { OutputGoesOn W.work self.old self.new F.state
            output.old output.new }
    {
        self.desk.is_sound();
        self.desk.is_replay();
        let attempt = attempt_among(self.held.as_slice(), exec);
        is_within_types(attempt);
        let Output::Save(staging) = output else {
            unreachable!();
        };
        let noted = self.desk.move_part(alloc, Mark::Driver, attempt, staging)?;
        settle_among(&mut self.held, exec, noted.answer);
        self.desk.is_sound();
        Ok(noted.answer)
    }
}
