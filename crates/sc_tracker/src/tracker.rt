//! The tracker.
#![tactic(auto)]

ghost use Rattle.std.specs.Prelude.{◌≡◌, ◌≤◌, ◌+◌, [], IfOk, OnErr, OnOk, if◌then◌else◌, is_ok, replicate, slice_get};
ghost use Rattle.sc_tracker.specs.Outputs.{location_in};
ghost use Rattle.sc_tracker.specs.TrackerData.{has_all, output_of, registered_on, tracker_data, trust_of};
ghost use Rattle.sc_tracker.specs.TrackerFacts.{IsSoundTracker};
ghost use Rattle.sc_tracker.specs.Tracking.{after_executor_lost, after_gone, is_bogus, registered, sized, unregistered};
ghost use Rattle.sc_tracker.specs.Trust.{are_lost, is_live, is_newer, untold};

use crate::hints::Hints;
use crate::listed::{forget_on, forget_on_in, register_at};
use crate::lists::Lists;
use crate::outputs::{Location, Output};
use crate::shuffles::{ShuffleOutputs, copies, has_all, has_room, output_at, place_for};
use crate::trust::{Trust, is_bogus, is_live, is_newer, note_lost, note_seen, trust_at};
use sc_base::Steps;
use sc_ids::{BlockId, Epoch, ExecId, Generation, Loc, ShuffleId};
use std::alloc::{AllocError, Global};
use std::marker::{Brand, Model};
use std::sync::ledger::{Blank, Ledger};

/// What becomes of an output that is to be registered.
#[derive(Clone, Copy, Debug, PartialEq, Eq)]
pub enum Registration {
    /// It is registered.
    Registered,
    /// It may be lost already, and isn't registered.
    Bogus,
}

/// Where each map output lies, and what was heard of the executors.
#[derive(Drop)]
pub struct Tracker {
    alloc: Global,
    shuffles: Vec<ShuffleOutputs>,
    /// Where each shuffle may stand among them.
    hints: Hints,
    /// The outputs that are registered on each executor.
    lists: Lists,
    trust: Vec<Trust>,
    epoch: Epoch,
}

impl Model for Tracker {
    ghost use Rattle.std.specs.Prelude.{◌<◌, ◌≡◌, ◌^◌, length};
    ghost use Rattle.sc_tracker.specs.Lists.{AreListed};
    ghost use Rattle.sc_tracker.specs.TrackerData.{TrackerData, tracker_data};
    ghost use Rattle.sc_tracker.specs.TrackerFacts.{AreApart, IsSoundTracker, SeenFits};

    ghost Value = { TrackerData };

    ghost view = { λ t. tracker_data t.shuffles.items t.trust.items t.epoch };

    ghost invariant = { λ t. IsSoundTracker (tracker_data t.shuffles.items t.trust.items t.epoch)
        × SeenFits t.trust.items × (length t.trust.items < 2 ^ 32)
        × AreListed t.shuffles.items t.lists
        × (length t.lists.firsts ≡ length t.trust.items)
        × AreApart t.shuffles.items };
}

impl Tracker {
    /// A tracker of so many executors, with room for no shuffle, at epoch 0.
    pub fn new(alloc: Global, executors: u32) -> Result<Tracker, AllocError>
        ensures { IfOk result (λ t. t ≡ tracker_data [] (replicate executors untold) 0) }
    {
        let trust = vec![in alloc; Trust::NEW; executors as usize]?;
        let lists = Lists::new(alloc, executors)?;
        Ok(Tracker {
            alloc,
            shuffles: Vec::new(alloc),
            hints: Hints::new(alloc),
            lists,
            trust,
            epoch: 0,
        })
    }

    /// A copy of all that is known.
    pub fn copied(&self) -> Result<Tracker, AllocError>
        ensures { IfOk result (λ t. t ≡ self.now) }
    {
        let shuffles = copies(self.alloc, self.shuffles.as_slice())?;
        let hints = self.hints.copied(self.alloc)?;
        let lists = self.lists.copied(self.alloc)?;
        let trust = self.trust.as_slice().to_vec(self.alloc)?;
        Ok(Tracker {
            alloc: self.alloc,
            shuffles,
            hints,
            lists,
            trust,
            epoch: self.epoch,
        })
    }

    /// A tracker that heard the same of the executors and has nothing registered, for a job that is
    /// run again over new stores.
    pub fn without_outputs(&self) -> Result<Tracker, AllocError>
        ensures { IfOk result (λ t. t ≡ unregistered self.now) }
    {
        let trust = self.trust.as_slice().to_vec(self.alloc)?;
        let lists = Lists::new(self.alloc, self.trust.len() as u32)?;
        Ok(Tracker {
            alloc: self.alloc,
            shuffles: Vec::new(self.alloc),
            hints: Hints::new(self.alloc),
            lists,
            trust,
            epoch: self.epoch,
        })
    }

    /// Makes room for the outputs of a shuffle of so many map partitions, unless there is some for
    /// it already. A refused call changes nothing.
    pub fn size_for(&mut self, shuffle: ShuffleId, maps: u32) -> Result<(), AllocError>
        ensures sized { OnOk result (self.new ≡ sized self.old shuffle maps) }
        ensures refused { OnErr result (self.new ≡ self.old) }
    {
        if !has_room(self.shuffles.as_slice(), shuffle) {
            let outputs = ShuffleOutputs::new(self.alloc, shuffle, maps)?;
            self.shuffles.reserve(1)?;
            self.hints.reserve(self.alloc, self.shuffles.as_slice())?;
            self.lists.add(self.alloc, maps)?;
            self.hints.note(shuffle, self.shuffles.len());
            self.shuffles.push_reserved(outputs);
        }
        Ok(())
    }

    /// Registers the output of a map task that was handed out at this epoch, unless it is bogus.
    /// It takes no memory: an output that there is no room for stays unregistered.
    pub fn register(&mut self, block: BlockId, loc: Loc, epoch: Epoch) -> Registration
        // Bogus comes exactly where the output is bogus, and changes nothing.
        ensures answer { result ≡ (if is_bogus self.old loc epoch
            then Registration.Bogus else Registration.Registered) }
        ensures state { self.new ≡ (if is_bogus self.old loc epoch
            then self.old else registered self.old block loc) }
    {
        if is_bogus(self.trust.as_slice(), loc, epoch) {
            return Registration::Bogus;
        }
        let guess = self.hints.guess(block.shuffle);
        let place = place_for(self.shuffles.as_slice(), guess, block);
        register_at(&mut self.shuffles, &mut self.lists, place, loc, self.epoch);
        Registration::Registered
    }

    /// Where a block lies, or where it lay last.
    pub fn location(&self, block: BlockId) -> Location
        ensures { result ≡ location_in (output_of self.now block) }
    {
        self.output(block).location()
    }

    /// What is known of an output: where it is registered, where it was last, and since when.
    pub fn output(&self, block: BlockId) -> Output
        ensures { result ≡ output_of self.now block }
    {
        let guess = self.hints.guess(block.shuffle);
        output_at(self.shuffles.as_slice(), guess, block)
    }

    /// Whether the outputs of the first so many map partitions of a shuffle are all registered.
    pub fn has_all(&self, shuffle: ShuffleId, maps: u32) -> bool
        ensures { result ≡ has_all self.now shuffle maps }
    {
        let guess = self.hints.guess(shuffle);
        has_all(self.shuffles.as_slice(), guess, shuffle, maps)
    }

    /// An executor was told lost: its outputs are forgotten. A second telling changes nothing. A
    /// step is an output that is looked at.
    pub fn unregister_exec<L: Ledger>(&mut self, exec: ExecId, steps: &mut Steps<L>)
        ensures state { self.new ≡ after_executor_lost self.old exec }
        ensures looked { steps.new ≤ steps.old + registered_on self.old.shuffles exec }
    {
        if is_live(self.trust.as_slice(), exec) {
            forget_on(&mut self.shuffles, &mut self.lists, exec, steps);
            note_lost(&mut self.trust, exec, self.epoch);
            self.epoch += 1;
        }
    }

    /// A fetch has shown this generation of an executor's store: where it is newer than those seen
    /// before, the executor's outputs are forgotten. Else nothing changes.
    pub fn raise_seen(&mut self, exec: ExecId, found: Generation)
        ensures { self.new ≡ after_gone self.old exec found }
    {
        if is_newer(self.trust.as_slice(), exec, found) {
            forget_on_in::<Brand>(&mut self.shuffles, &mut self.lists, exec, Blank::new(1));
            note_seen(&mut self.trust, exec, found, self.epoch);
            self.epoch += 1;
        }
    }

    /// How often outputs of an executor were forgotten.
    pub fn epoch(&self) -> Epoch
        ensures { result ≡ self.now.epoch }
    {
        self.epoch
    }

    /// The newest generation of an executor's store that a fetch has shown.
    pub fn seen(&self, exec: ExecId) -> Generation
        ensures { result ≡ (trust_of self.now exec).seen }
    {
        trust_at(self.trust.as_slice(), exec).seen
    }

    /// Whether an executor is there, and a generation of its store is newer than what was seen.
    pub fn is_newer(&self, exec: ExecId, found: Generation) -> bool
        ensures { result ≡ is_newer (slice_get self.now.trust exec) found }
    {
        is_newer(self.trust.as_slice(), exec, found)
    }

    /// The epoch when an executor's outputs were last forgotten.
    pub fn mark(&self, exec: ExecId) -> Option<Epoch>
        ensures { result ≡ (trust_of self.now exec).mark }
    {
        trust_at(self.trust.as_slice(), exec).mark
    }

    /// Whether an executor was told lost.
    pub fn lost(&self, exec: ExecId) -> bool
        ensures { result ≡ (trust_of self.now exec).lost }
    {
        trust_at(self.trust.as_slice(), exec).lost
    }

    /// Whether an executor is there, and wasn't told lost.
    pub fn is_live(&self, exec: ExecId) -> bool
        ensures { result ≡ is_live (slice_get self.now.trust exec) }
    {
        is_live(self.trust.as_slice(), exec)
    }

    /// Whether every executor was told lost.
    pub fn all_lost(&self) -> bool
        ensures { result ≡ are_lost self.now.trust }
    {
        self.trust.iter().all(|heard| heard.lost)
    }

    /// What every tracker keeps: marks are below the epoch, registered outputs are fresh, and the
    /// epoch counts what was heard.
    pub fn is_sound(&self)
        ensures { IsSoundTracker self.now }
    {
        let _ = &self.trust;
    }
}
