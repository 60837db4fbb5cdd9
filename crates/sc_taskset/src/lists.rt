//! The places of rows, by the executors that they are on.
#![tactic(auto)]

ghost use Rattle.std.specs.Prelude.{◌≡◌, ◌<◌, ℕ, OnErr, OnOk, [], length, map};
ghost use Rattle.sc_base.specs.Lists.{at_or};
ghost use Rattle.sc_taskset.specs.Lists.{HasLeft, HaveLeft, IsAdded, IsTaken, IsWithout, list_of};

use crate::copies::exec_of;
use crate::rows::Row;
use sc_ids::ExecId;
use std::alloc::{AllocError, Global};

/// For each executor the places of the rows that were finished on it, or of which an attempt runs
/// there. A place is put in when its row is handed out, and found again from the end: what runs was
/// mostly handed out not long ago.
#[derive(Drop)]
pub struct Lists {
    pub places: Vec<Vec<usize>>,
}

impl Lists {
    /// No places.
    pub fn new(alloc: Global) -> Lists
        ensures { result.places.items ≡ [] }
    {
        Lists {
            places: Vec::new(alloc),
        }
    }

    /// Puts a place behind those of an executor. A refused call changes none.
    pub fn add(&mut self, exec: ExecId, place: usize) -> Result<(), AllocError>
        ensures added { OnOk result (IsAdded self.old self.new exec place) }
        ensures refused { OnErr result ((e : ℕ) → list_of self.new e ≡ list_of self.old e) }
    {
        grow(&mut self.places, exec)?;
        self.places[exec as usize].push(place)?;
        Ok(())
    }

    /// Takes a place out of those of an executor, if it is among them.
    pub fn take(&mut self, exec: ExecId, place: usize)
        ensures { IsTaken self.old self.new exec place }
    {
        if (exec as usize) < self.places.len() {
            take_from(&mut self.places[exec as usize], place);
        }
    }

    /// The same unless a row is on the executor, which may be none.
    fn take_unless(&mut self, exec: Option<ExecId>, place: usize, row: Row)
        ensures { HasLeft self.old self.new exec place row }
    {
        if let Some(exec) = exec {
            if !row.is_on(exec) {
                self.take(exec, place);
            }
        }
    }

    /// Takes the place of a row out of those of the executors that it was on before a change, and
    /// isn't on any more.
    pub fn leave(&mut self, place: usize, before: Row, row: Row)
        ensures { HaveLeft self.old self.new place before row }
    {
        self.take_unless(before.finisher(), place, row);
        self.take_unless(exec_of(before.first), place, row);
        self.take_unless(exec_of(before.second), place, row);
    }
}

/// Makes room for the places of an executor, of which there are none yet.
fn grow(places: &mut Vec<Vec<usize>>, exec: ExecId) -> Result<(), AllocError>
    ensures same { (e : ℕ) → at_or (map (λ v. v.items) places.new.items) e []
        ≡ at_or (map (λ v. v.items) places.old.items) e [] }
    ensures there { OnOk result (exec < length places.new.items) }
{
    let alloc = *places.allocator();
    while places.len() <= exec as usize {
        places.push(Vec::new(alloc))?;
    }
    Ok(())
}

/// Takes a place out of some, if it is among them.
fn take_from(places: &mut Vec<usize>, place: usize)
    ensures { IsWithout places.old.items places.new.items place }
{
    let mut at = places.len();
    while 0 < at {
        at -= 1;
        if places[at] == place {
            places.remove(at);
            return;
        }
    }
}
