//! A report that was to be told later is told.
#![tactic(auto)]

ghost use Rattle.std.specs.Prelude.{◌≡◌, IfOk, OnErr, Some, false, true};
ghost use Rattle.std.specs.List.{AllPairs};
ghost use Rattle.sc_core.specs.declared.answers.NotEnabled.{NotEnabled};
ghost use Rattle.sc_core.specs.CoreData.{shelved_of};
ghost use Rattle.sc_core.specs.Posts.{TellsNow};
ghost use Rattle.sc_core.specs.Owners.{IsThrice, has_task};
ghost use Rattle.sc_core.specs.Releases.{Releases, ReleasesOf, has_no_shelved};
ghost use Rattle.sc_core.specs.Rooms.{wants_room};
ghost use Rattle.sc_core.specs.Sound.{AreTwo};

use crate::answers::{Answer, NotEnabled, Stepped};
use crate::attempts::place_of;
use crate::running::Shelved;
use crate::states::State;
use sc_base::OrMemory;
use std::alloc::AllocError;

impl State {
    /// A report that was to be told later is told.
    pub fn release_key(&mut self, key: u32) -> Result<Stepped, OrMemory<NotEnabled>>
        requires { AllPairs AreTwo self.old.0.running }
        ensures answered { IfOk result (λ s. Releases self.old.0 key s.answer self.new.0) }
        ensures thrice { IfOk result (λ s. IsThrice s s.answer) }
        ensures not_enabled { (fault : NotEnabled) → result ≡ Err (OrMemory.Fault fault)
            → has_no_shelved self.old.0 key ≡ true }
        ensures unchanged { OnErr result (self.new.0 ≡ self.old.0) }
    {
        if !self.runs() {
            return Ok(Stepped::plain(Answer::Ignored));
        }
        match self.shelved(key) {
            Some(report) => Ok(Stepped::plain(self.release_report(key, report)?)),
            None => Err(OrMemory::Fault(NotEnabled)),
        }
    }

    /// A report that was to be told later is told, and kept no longer.
    fn release_report(&mut self, key: u32, report: Shelved) -> Result<Answer, AllocError>
        requires apart { AllPairs AreTwo self.old.0.running }
        requires kept { shelved_of self.old.0 key ≡ Some report }
        ensures answered { IfOk result (λ answer. ReleasesOf (shelved_of self.old.0 key)
            self.old.0 key answer self.new.0) }
        ensures plain { IfOk result (λ answer. has_task answer ≡ false) }
        ensures unchanged { OnErr result (self.new.0 ≡ self.old.0) }
    {
        self.make_room(report.outcome)?;
        self.unshelve(key);
        Ok(self.tell_late(report))
    }

    /// A report that was to be told later is told to its attempt, where that runs still.
    fn tell_late(&mut self, report: Shelved) -> Answer
        requires apart { AllPairs AreTwo self.old.0.running }
        requires room { wants_room report.outcome ≡ true → self.old.1 ≡ true }
        ensures tells { TellsNow self.old.0 report.attempt report.outcome result self.new.0 }
        ensures plain { has_task result ≡ false }
    {
        match place_of(&self.running, report.attempt) {
            Some(place) => self.tell_at(place, report.attempt, report.outcome),
            None => {
                self.count();
                Answer::Ignored
            }
        }
    }
}
