//! What happens beside the reports.
#![tactic(auto)]

ghost use Rattle.std.specs.Prelude.{◌≡◌, ◌<◌, ◌++◌, [], ◌∷◌, IfOk, OnErr};
ghost use Rattle.sc_core.specs.Journals.{entry};
ghost use Rattle.sc_core.specs.Steps.{Steps};
ghost use Rattle.sc_core.specs.declared.events.Event.TheVariants as events;
ghost use Rattle.sc_desk.specs.Asides.{IsSaidAside, Notes};
ghost use Rattle.sc_desk.specs.Leaving.{IsNoLeave};
ghost use Rattle.sc_desk.specs.Shelves.{shelf_in};
ghost use Rattle.sc_desk.specs.Sound.{IsEvidentAside};

use crate::desks::Desk;
use crate::journals::DeskJournal;
use crate::receipts::Noted;
use crate::shelves::clear_after_end;
use sc_core::{Answer, SideAnswer, SideEvent};
use sc_ids::Mark;
use sc_net::{Report, ShelvedReport};
use sc_work::Naming;
use std::alloc::AllocError;

impl<W: Naming> Desk<W> {
    /// Something happens beside the reports by which nobody leaves: the clock is read, or an
    /// attempt of a save asks. It is entered with what the core answers. What tells of a call on
    /// the files that failed comes only where a count rose over that call. A refused call changes
    /// nothing.
    pub fn note(&mut self, by: Mark, event: SideEvent) -> Result<Noted, AllocError>
        requires evident { IsEvidentAside event }
        requires stays { IsNoLeave (events.Side event) }
        ensures noted { IfOk result (λ n. Notes self.old by event n self.new) }
        ensures refused { OnErr result (self.new ≡ self.old) }
    {
        self.journal.reserve()?;
        let entry = self.journal.entries().len();
        self.journal.core().is_sound();
        self.journal.is_replay();
        let answer = enter_aside(&mut self.journal, &mut self.shelf, by, event);
        Ok(Noted { entry, answer })
    }
}

/// Enters what happens beside the reports, by which nobody leaves and for which there is room. It
/// takes no memory.
pub(crate) fn enter_aside<W: Naming>(
    journal: &mut DeskJournal,
    shelf: &mut Vec<ShelvedReport<Report<W>>>,
    by: Mark,
    event: SideEvent,
) -> SideAnswer
    requires room { 0 < journal.old.1 }
    requires stays { IsNoLeave (events.Side event) }
    ensures step { Steps journal.old.0.core (events.Side event) (Answer.Side result)
        journal.new.0.core }
    ensures entry { journal.new.0.entries
        ≡ journal.old.0.entries ++ entry by (events.Side event) (Answer.Side result) ∷ [] }
    ensures opening { journal.new.0.opening ≡ journal.old.0.opening }
    ensures shelf { shelf.new.items ≡ shelf_in journal.new.0.core shelf.old.items }
{
    let answer = journal.enter_reserved(by, event);
    clear_after_end(shelf, journal.core());
    said(answer)
}

/// What the core's answer to what happens beside the reports is.
fn said(answer: Answer) -> SideAnswer
    requires { IsSaidAside answer }
    ensures { answer ≡ Answer.Side result }
{
    match answer {
        Answer::Side(said) => said,
        _ => unreachable!(),
    }
}
