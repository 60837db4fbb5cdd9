//! The journal of a job.
#![tactic(auto)]

ghost use Rattle.std.specs.Prelude.{◌≡◌, ◌<◌, ◌≤◌, ◌+◌, ◌++◌, [], ◌∷◌, IfOk, OnOk, OnErr, false};
ghost use Rattle.sc_core.specs.Journals.{Replays, entry, journal_data};
ghost use Rattle.sc_core.specs.Steps.{Steps, is_enabled};
ghost use Rattle.sc_core.specs.declared.answers.NotEnabled.{NotEnabled};

use crate::answers::{Answer, NotEnabled, Stepped};
use crate::cores::Core;
use crate::entries::Entry;
use crate::events::{Event, SideEvent};
use sc_base::OrMemory;
use sc_ids::Mark;
use std::alloc::{AllocError, Global};
use std::marker::Model;

/// What happened to a core since its job began, and what it was answered. The core is what the
/// entries leave of the opening. Contracts see these, and for how many more entries there is room.
#[derive(Drop)]
pub struct Journal {
    opening: Core,
    entries: Vec<Entry>,
    core: Core,
}

impl Model for Journal {
    ghost use Rattle.std.specs.Prelude.{ℕ, ◌-◌, vec_capacity, vec_len};
    ghost use Rattle.sc_core.specs.Journals.{JournalData, Replays, journal_data};

    ghost Value = { JournalData × ℕ };

    ghost view = { λ j. (
      journal_data j.opening j.entries.items j.core,
      vec_capacity j.entries - vec_len j.entries,
    ) };

    ghost invariant = { λ j. Replays j.opening j.entries.items j.core };
}

/// What an event was answered, for the caller and for its log.
#[derive(Drop)]
pub struct Entered {
    /// For the caller.
    pub answer: Answer,
    /// For the log.
    pub log: Answer,
}

/// How a job began, what happened, and how it ended.
#[derive(Drop)]
pub struct JobHistory {
    /// The core when it began.
    pub opening: Core,
    /// What happened, in order.
    pub entries: Vec<Entry>,
    /// The core in the end.
    pub end: Core,
}

impl Journal {
    /// A journal without an entry. Both cores are of the same opening.
    pub fn begin(alloc: Global, opening: Core, core: Core) -> Journal
        requires { core ≡ opening }
        ensures { result.0 ≡ journal_data opening [] opening }
    {
        Journal {
            opening,
            entries: Vec::new(alloc),
            core,
        }
    }

    /// Room for so many more entries. Nothing else changes.
    pub fn reserve(&mut self, entries: usize) -> Result<(), AllocError>
        ensures same { self.new.0 ≡ self.old.0 }
        ensures room { OnOk result (entries ≤ self.new.1) }
        ensures more { self.old.1 ≤ self.new.1 }
        ensures unchanged { OnErr result (self.new ≡ self.old) }
    {
        self.entries.reserve(entries)
    }

    /// One event, with its entry. What is answered is what the entry records. A refused call
    /// changes nothing.
    pub fn enter(&mut self, by: Mark, event: Event) -> Result<Answer, OrMemory<NotEnabled>>
        ensures step { IfOk result (λ a. Steps self.old.0.core event a self.new.0.core) }
        ensures entry { IfOk result
            (λ a. self.new.0.entries ≡ self.old.0.entries ++ entry by event a ∷ []) }
        ensures opening { self.new.0.opening ≡ self.old.0.opening }
        ensures not_enabled { (fault : NotEnabled) → result ≡ Err (OrMemory.Fault fault)
            → is_enabled self.old.0.core event ≡ false }
        ensures unchanged { OnErr result (self.new.0 ≡ self.old.0) }
        ensures room { self.old.1 ≤ self.new.1 + 1 }
    {
        match self.enter_logged(by, event) {
            Ok(entered) => Ok(entered.answer),
            Err(error) => Err(error),
        }
    }

    /// The same for a caller who keeps a log of answers too.
    pub fn enter_logged(&mut self, by: Mark, event: Event) -> Result<Entered, OrMemory<NotEnabled>>
        ensures step { IfOk result (λ e. Steps self.old.0.core event e.answer self.new.0.core) }
        ensures entry { IfOk result
            (λ e. self.new.0.entries ≡ self.old.0.entries ++ entry by event e.answer ∷ []) }
        ensures log { IfOk result (λ e. e.log ≡ e.answer) }
        ensures opening { self.new.0.opening ≡ self.old.0.opening }
        ensures not_enabled { (fault : NotEnabled) → result ≡ Err (OrMemory.Fault fault)
            → is_enabled self.old.0.core event ≡ false }
        ensures unchanged { OnErr result (self.new.0 ≡ self.old.0) }
        ensures room { self.old.1 ≤ self.new.1 + 1 }
    {
        self.entries.reserve(1)?;
        let Stepped { answer, twin, log } = self.core.step(&event)?;
        self.entries.push_reserved(Entry { by, event, answer });
        Ok(Entered { answer: twin, log })
    }

    /// What happens beside the reports, with its entry, for which there is room. It takes no
    /// memory.
    pub fn enter_reserved(&mut self, by: Mark, event: SideEvent) -> Answer
        requires room { 0 < self.old.1 }
        ensures step { Steps self.old.0.core (Event.Side event) result self.new.0.core }
        ensures entry { self.new.0.entries
            ≡ self.old.0.entries ++ entry by (Event.Side event) result ∷ [] }
        ensures opening { self.new.0.opening ≡ self.old.0.opening }
        ensures one_less { self.new.1 + 1 ≡ self.old.1 }
    {
        let Stepped { answer, twin, .. } = self.core.step_aside(event);
        self.entries.push_reserved(Entry {
            by,
            event: Event::Side(event),
            answer,
        });
        twin
    }

    /// The core as it is now.
    pub fn core(&self) -> &Core
        ensures { result.now ≡ self.now.0.core }
    {
        &self.core
    }

    /// What happened so far, in order.
    pub fn entries(&self) -> &[Entry]
        ensures { result.now ≡ self.now.0.entries }
    {
        self.entries.as_slice()
    }

    /// What every journal keeps: its core is what the entries leave of the opening.
    pub fn is_replay(&self)
        ensures { Replays self.now.0.opening self.now.0.entries self.now.0.core }
    {
        let _ = &self.entries;
    }

    /// How the job went. It takes no memory.
    pub fn close(self) -> JobHistory
        ensures opening { result.opening ≡ self.0.opening }
        ensures entries { result.entries.items ≡ self.0.entries }
        ensures end { result.end ≡ self.0.core }
        ensures replays { Replays result.opening result.entries.items result.end }
    {
        let Journal {
            opening,
            entries,
            core,
        } = self;
        JobHistory {
            opening,
            entries,
            end: core,
        }
    }
}
