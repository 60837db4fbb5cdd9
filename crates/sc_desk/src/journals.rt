//! The journal of a desk.
#![tactic(auto)]

ghost use Rattle.std.specs.Prelude.{◌≡◌, ◌<◌, ◌++◌, [], ◌∷◌, All, Err, IfOk, OnErr, OnOk, false, replicate};
ghost use Rattle.sc_core.specs.Journals.{Replays, entry};
ghost use Rattle.sc_core.specs.Steps.{Steps, is_enabled};
ghost use Rattle.sc_core.specs.declared.answers.NotEnabled.{NotEnabled};
ghost use Rattle.sc_core.specs.declared.events.SideEvent.TheVariants.{Leave};
ghost use Rattle.sc_ids.specs.declared.attempts.Mark.TheVariants.{Exec};
ghost use Rattle.sc_desk.specs.Leaving.{IsNoLeave, IsOwnLeave, has_left};

use sc_base::OrMemory;
use sc_core::{Answer, Core, Entered, Entry, Event, JobHistory, Journal, NotEnabled, SideEvent};
use sc_ids::{ExecId, Mark};
use std::alloc::{AllocError, Global};
use std::marker::Model;

/// A journal with room for the leave of each executor that didn't leave yet, so that no leave takes
/// memory. Contracts see what the journal holds, and for how many entries there is room beside.
#[derive(Drop)]
pub(crate) struct DeskJournal {
    journal: Journal,
    left: Vec<bool>,
}

impl Model for DeskJournal {
    ghost use Rattle.std.specs.Prelude.{ℕ, ◌-◌};
    ghost use Rattle.sc_core.specs.Journals.{JournalData};
    ghost use Rattle.sc_desk.specs.Leaving.{HasRoomToLeave, staying};

    ghost Value = { JournalData × ℕ };

    ghost view = { λ j. (j.journal.0, j.journal.1 - staying j.left.items) };

    ghost invariant = { λ j. HasRoomToLeave j.journal.0 j.left.items j.journal.1 };
}

impl DeskJournal {
    /// A journal without an entry, with room for the leave of each executor.
    pub(crate) fn of(alloc: Global, mut journal: Journal) -> Result<DeskJournal, AllocError>
        requires { journal.0.entries ≡ [] }
        ensures { IfOk result (λ j. j.0 ≡ journal.0) }
    {
        journal.is_replay();
        let executors = journal.core().limits().executors;
        journal.reserve(executors as usize)?;
        let left = none_left(alloc, executors)?;
        Ok(DeskJournal { journal, left })
    }

    /// Room for one more entry. Nothing else changes.
    pub(crate) fn reserve(&mut self) -> Result<(), AllocError>
        ensures same { self.new.0 ≡ self.old.0 }
        ensures room { OnOk result (0 < self.new.1) }
    {
        self.journal.reserve(self.left.len() + 1)
    }

    /// One event by which nobody leaves, with its entry. A refused call changes nothing.
    pub(crate) fn enter(&mut self, by: Mark, event: Event) -> Result<Answer, OrMemory<NotEnabled>>
        requires stays { IsNoLeave event }
        ensures step { IfOk result (λ a. Steps self.old.0.core event a self.new.0.core) }
        ensures entry { IfOk result
            (λ a. self.new.0.entries ≡ self.old.0.entries ++ entry by event a ∷ []) }
        ensures opening { self.new.0.opening ≡ self.old.0.opening }
        ensures not_enabled { (fault : NotEnabled) → result ≡ Err (OrMemory.Fault fault)
            → is_enabled self.old.0.core event ≡ false }
        ensures unchanged { OnErr result (self.new.0 ≡ self.old.0) }
    {
        self.reserve()?;
        self.journal.enter(by, event)
    }

    /// The same for a caller who keeps a log of answers too.
    pub(crate) fn enter_logged(
        &mut self,
        by: Mark,
        event: Event,
    ) -> Result<Entered, OrMemory<NotEnabled>>
        requires stays { IsNoLeave event }
        ensures step { IfOk result (λ e. Steps self.old.0.core event e.answer self.new.0.core) }
        ensures entry { IfOk result
            (λ e. self.new.0.entries ≡ self.old.0.entries ++ entry by event e.answer ∷ []) }
        ensures log { IfOk result (λ e. e.log ≡ e.answer) }
        ensures opening { self.new.0.opening ≡ self.old.0.opening }
        ensures not_enabled { (fault : NotEnabled) → result ≡ Err (OrMemory.Fault fault)
            → is_enabled self.old.0.core event ≡ false }
        ensures unchanged { OnErr result (self.new.0 ≡ self.old.0) }
    {
        self.reserve()?;
        self.journal.enter_logged(by, event)
    }

    /// What happens beside the reports, by which nobody leaves, with its entry, for which there is
    /// room. It takes no memory.
    pub(crate) fn enter_reserved(&mut self, by: Mark, event: SideEvent) -> Answer
        requires room { 0 < self.old.1 }
        requires stays { IsNoLeave (Event.Side event) }
        ensures step { Steps self.old.0.core (Event.Side event) result self.new.0.core }
        ensures entry { self.new.0.entries
            ≡ self.old.0.entries ++ entry by (Event.Side event) result ∷ [] }
        ensures opening { self.new.0.opening ≡ self.old.0.opening }
    {
        self.journal.enter_reserved(by, event)
    }

    /// An executor that didn't leave yet leaves, which is marked by itself. It takes no memory.
    pub(crate) fn leave(&mut self, exec: ExecId) -> Answer
        requires known { exec < self.old.0.opening.dag.limits.executors }
        requires first { has_left exec self.old.0.entries ≡ false }
        ensures step { Steps self.old.0.core (Event.Side (Leave exec)) result self.new.0.core }
        ensures entry { self.new.0.entries
            ≡ self.old.0.entries ++ entry (Exec exec) (Event.Side (Leave exec)) result ∷ [] }
        ensures opening { self.new.0.opening ≡ self.old.0.opening }
    {
        self.left[exec as usize] = true;
        self.journal
            .enter_reserved(Mark::Exec(exec), SideEvent::Leave { exec })
    }

    /// Whether an executor left.
    pub(crate) fn has_left(&self, exec: ExecId) -> bool
        ensures { result ≡ has_left exec self.now.0.entries }
    {
        self.left.get(exec as usize).copied().unwrap_or(false)
    }

    /// The core as it is now.
    pub(crate) fn core(&self) -> &Core
        ensures { result.now ≡ self.now.0.core }
    {
        self.journal.core()
    }

    /// What happened so far, in order.
    pub(crate) fn entries(&self) -> &[Entry]
        ensures { result.now ≡ self.now.0.entries }
    {
        self.journal.entries()
    }

    /// Its core is what the entries leave of the opening.
    pub(crate) fn is_replay(&self)
        ensures { Replays self.now.0.opening self.now.0.entries self.now.0.core }
    {
        self.journal.is_replay();
    }

    /// Who left is who marked it.
    pub(crate) fn leaves_are_own(&self)
        ensures { All IsOwnLeave self.now.0.entries }
    {
        let _ = &self.journal;
    }

    /// How the job went. It takes no memory.
    pub(crate) fn close(self) -> JobHistory
        ensures opening { result.opening ≡ self.0.opening }
        ensures entries { result.entries.items ≡ self.0.entries }
        ensures end { result.end ≡ self.0.core }
        ensures replays { Replays result.opening result.entries.items result.end }
        ensures own { All IsOwnLeave result.entries.items }
    {
        let DeskJournal { journal, left: _ } = self;
        journal.close()
    }
}

/// Of so many executors none left.
fn none_left(alloc: Global, executors: u32) -> Result<Vec<bool>, AllocError>
    ensures { IfOk result (λ left. left.items ≡ replicate executors false) }
{
    let mut left = Vec::with_capacity(alloc, executors as usize)?;
    for _ in 0..executors {
        left.push(false)?;
    }
    Ok(left)
}
