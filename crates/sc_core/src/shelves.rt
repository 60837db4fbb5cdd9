//! Reports that are to be told later.
#![tactic(auto)]

ghost use Rattle.std.specs.Prelude.{◌≡◌, OnErr, OnOk, map, not};
ghost use Rattle.std.specs.List.{filter, find};
ghost use Rattle.sc_core.specs.CoreData.{as_in, has_key, shelved, shelved_if, shelved_of, to_be_told, without_shelved};
ghost use Rattle.sc_core.specs.Posts.{comes_twice};

use crate::attempts::is_of;
use crate::events::Outcome;
use crate::running::{Running, Shelved};
use crate::states::State;
use sc_ids::AttemptId;
use std::alloc::AllocError;

impl State {
    /// A report is to be told later, and a second copy of it where one comes.
    pub fn shelve_late(
        &mut self,
        attempt: AttemptId,
        outcome: Outcome,
        delay: u64,
    ) -> Result<(), AllocError>
        ensures answered { OnOk result (self.new.0 ≡ shelved_if (comes_twice self.old.0 attempt)
            (shelved self.old.0 attempt outcome delay) attempt outcome delay) }
        ensures unchanged { OnErr result (self.new.0 ≡ self.old.0) }
    {
        if self.plan.twice(&attempt) {
            self.shelve_twice(attempt, outcome, delay)
        } else {
            self.shelve(attempt, outcome, delay)
        }
    }

    /// A second copy of a report that is told now is to be told later, where one comes.
    pub fn shelve_copy(&mut self, attempt: AttemptId, outcome: Outcome) -> Result<(), AllocError>
        ensures answered { OnOk result (self.new.0 ≡ shelved_if (comes_twice self.old.0 attempt)
            self.old.0 attempt outcome 0) }
        ensures unchanged { OnErr result (self.new.0 ≡ self.old.0) }
        ensures ready { self.new.1 ≡ self.old.1 }
    {
        if self.plan.twice(&attempt) {
            self.shelve(attempt, outcome, 0)
        } else {
            Ok(())
        }
    }

    /// A report is to be told later.
    fn shelve(&mut self, attempt: AttemptId, outcome: Outcome, delay: u64) -> Result<(), AllocError>
        ensures answered { OnOk result (self.new.0 ≡ shelved self.old.0 attempt outcome delay) }
        ensures unchanged { OnErr result (self.new.0 ≡ self.old.0) }
        ensures ready { self.new.1 ≡ self.old.1 }
    {
        if self.next_key == u32::MAX {
            return Err(AllocError);
        }
        self.shelf.reserve(1)?;
        let report = self.to_be_told(attempt, outcome, delay);
        hand_in(&mut self.running, attempt);
        self.shelf.push_reserved(report);
        self.next_key += 1;
        Ok(())
    }

    /// A report is to be told later, and once more.
    fn shelve_twice(
        &mut self,
        attempt: AttemptId,
        outcome: Outcome,
        delay: u64,
    ) -> Result<(), AllocError>
        ensures answered { OnOk result (self.new.0 ≡ shelved
            (shelved self.old.0 attempt outcome delay) attempt outcome delay) }
        ensures unchanged { OnErr result (self.new.0 ≡ self.old.0) }
    {
        if self.next_key >= u32::MAX - 1 {
            return Err(AllocError);
        }
        self.shelf.reserve(2)?;
        let report = self.to_be_told(attempt, outcome, delay);
        let copy = Shelved {
            key: self.next_key + 1,
            ..report
        };
        hand_in(&mut self.running, attempt);
        hand_in(&mut self.running, attempt);
        self.shelf.push_reserved(report);
        self.shelf.push_reserved(copy);
        self.next_key += 2;
        Ok(())
    }

    /// What is kept of a report that is to be told later.
    fn to_be_told(&self, attempt: AttemptId, outcome: Outcome, delay: u64) -> Shelved
        ensures { result ≡ to_be_told self.now.0 attempt outcome delay }
    {
        Shelved {
            key: self.next_key,
            due: self.told.saturating_add(delay),
            attempt,
            outcome,
        }
    }

    /// The report of a key.
    pub fn shelved(&self, key: u32) -> Option<Shelved>
        ensures { result ≡ shelved_of self.now.0 key }
    {
        find_key(self.shelf.as_slice(), key)
    }

    /// It is kept no longer.
    pub fn unshelve(&mut self, key: u32)
        ensures state { self.new.0 ≡ without_shelved self.old.0 key }
        ensures ready { self.new.1 ≡ self.old.1 }
    {
        remove_key(&mut self.shelf, key);
    }
}

/// The report of a key among others.
fn find_key(shelf: &[Shelved], key: u32) -> Option<Shelved>
    ensures { result ≡ find (has_key key) shelf.now }
{
    shelf.iter().find(|s| s.key == key).copied()
}

/// Removes the report of a key.
fn remove_key(shelf: &mut Vec<Shelved>, key: u32)
    ensures { shelf.new.items ≡ filter (λ s. not (has_key key s)) shelf.old.items }
{
    shelf.retain(|s| s.key != key);
}

/// The report of an attempt was posted: it isn't out any more.
fn hand_in(running: &mut Vec<Running>, attempt: AttemptId)
    ensures { running.new.items ≡ map (as_in attempt) running.old.items }
{
    hand_in_each(running.as_mut_slice(), attempt);
}

/// The same in a slice.
fn hand_in_each(running: &mut [Running], attempt: AttemptId)
    ensures { running.new ≡ map (as_in attempt) running.old }
{
    for one in running.iter_mut() {
        hand_in_one(one, attempt);
    }
}

/// The same of one.
fn hand_in_one(running: &mut Running, attempt: AttemptId)
    ensures { running.new ≡ as_in attempt running.old }
{
    if is_of(running, attempt) {
        running.is_out = false;
    }
}
