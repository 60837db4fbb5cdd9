//! What an attempt of a save does with its files.
#![tactic(auto)]

ghost use Rattle.std.specs.Prelude.{◌≡◌, IfOk, IfSome, OnErr, true};
ghost use Rattle.sc_core.specs.Saving.{is_granted, saver_phase};
ghost use Rattle.sc_desk.specs.DeskData.{core_of};
ghost use Rattle.sc_desk.specs.Saving.{IsEvidentAnswer, MovesPart, StagesPart, told_of};
ghost use Rattle.sc_output.specs.Calls.{IsOpen};
ghost use Rattle.sc_staging.specs.Parts.{part_rename};

use crate::asides::enter_aside;
use crate::desks::Desk;
use crate::receipts::Noted;
use sc_core::{FileOutcome, SideEvent};
use sc_files::Files;
use sc_ids::{AttemptId, Mark};
use sc_staging::{Staging, Written};
use sc_work::Naming;
use std::alloc::{AllocError, Global};

impl<W: Naming> Desk<W> {
    /// An attempt that comes next to stage writes its part, which has this text, into the staging
    /// area, and that is entered with what the core answers. Where it doesn't come next nothing is
    /// written, and that it is over is entered. There is room for the entry before the file is
    /// called. A refused call changes nothing.
    pub fn stage_part<F: Files>(
        &mut self,
        alloc: Global,
        by: Mark,
        attempt: AttemptId,
        staging: &mut Staging<F>,
        text: &[u8],
    ) -> Result<Noted, AllocError>
        ensures stages { IfOk result (λ n. StagesPart self.old by attempt text.now
            staging.old staging.new n self.new) }
        ensures evident { IfOk result (λ n. IsEvidentAnswer n.answer) }
        ensures refused { OnErr result (self.new ≡ self.old) }
        ensures unwritten { OnErr result (staging.new ≡ staging.old) }
    {
        if !self.core().may_stage(attempt) {
            let wrote = FileOutcome::Done;
            return self.note(by, SideEvent::Stage { attempt, wrote });
        }
        self.journal.reserve()?;
        let entry = self.journal.entries().len();
        self.journal.core().is_sound();
        self.journal.is_replay();
        let wrote = told_of(staging.write_part(alloc, attempt, text)?);
        let event = SideEvent::Stage { attempt, wrote };
        let answer = enter_aside(&mut self.journal, &mut self.shelf, by, event);
        Ok(Noted { entry, answer })
    }

    /// An attempt that comes next to move gives its part the name of a committed one, and that is
    /// entered with what the core answers. Where it doesn't come next nothing is renamed, and that
    /// it is over is entered. There is room for the entry before the file is called. A refused call
    /// changes nothing.
    pub fn move_part<F: Files>(
        &mut self,
        alloc: Global,
        by: Mark,
        attempt: AttemptId,
        staging: &mut Staging<F>,
    ) -> Result<Noted, AllocError>
        requires staged { is_granted (saver_phase (core_of self.old) attempt) ≡ true
            → IfSome staging.old.files.shown (IsOpen (part_rename staging.old.dir attempt)) }
        ensures moves { IfOk result (λ n. MovesPart self.old by attempt
            staging.old staging.new n self.new) }
        ensures evident { IfOk result (λ n. IsEvidentAnswer n.answer) }
        ensures refused { OnErr result (self.new ≡ self.old) }
        ensures unmoved { OnErr result (staging.new ≡ staging.old) }
    {
        if !self.core().may_move(attempt) {
            let renamed = FileOutcome::Done;
            return self.note(by, SideEvent::Move { attempt, renamed });
        }
        self.journal.reserve()?;
        let entry = self.journal.entries().len();
        self.journal.core().is_sound();
        self.journal.is_replay();
        let renamed = told_of(staging.rename_part(alloc, attempt)?);
        let event = SideEvent::Move { attempt, renamed };
        let answer = enter_aside(&mut self.journal, &mut self.shelf, by, event);
        Ok(Noted { entry, answer })
    }
}

/// How a call for a part ended, as the core is told of it.
fn told_of(written: Written) -> FileOutcome
    ensures { result ≡ told_of written }
{
    match written {
        Written::Done => FileOutcome::Done,
        Written::Failed(fault) => FileOutcome::Failed(fault),
    }
}
