//! What was heard of an executor.
#![tactic(auto)]

ghost use Rattle.std.specs.Prelude.{◌≡◌, slice_get};
ghost use Rattle.sc_ids.specs.Changes.{change_at};
ghost use Rattle.sc_tracker.specs.Trust.{is_bogus_for, is_live, is_newer, lost_at, seen_at, trust_at};

use sc_ids::{Epoch, ExecId, Generation, Loc};

/// What was heard of an executor.
#[derive(Clone, Copy, Debug, PartialEq, Eq)]
pub struct Trust {
    /// The newest generation of its store that a fetch has shown.
    pub seen: Generation,
    /// The epoch when its outputs were last forgotten.
    pub mark: Option<Epoch>,
    /// Whether it was told lost.
    pub lost: bool,
}

impl Trust {
    /// Nothing was heard yet.
    pub(crate) const NEW: Trust = Trust {
        seen: 0,
        mark: None,
        lost: false,
    };

    /// A newer generation was seen, in this epoch.
    fn see(&mut self, found: Generation, epoch: Epoch)
        ensures { self.new ≡ seen_at found epoch self.old }
    {
        self.seen = found;
        self.mark = Some(epoch);
    }

    /// The executor was told lost, in this epoch.
    fn lose(&mut self, epoch: Epoch)
        ensures { self.new ≡ lost_at epoch self.old }
    {
        self.lost = true;
        self.mark = Some(epoch);
    }
}

/// What was heard of an executor; of one that isn't there, nothing.
pub(crate) fn trust_at(trust: &[Trust], exec: ExecId) -> Trust
    ensures { result ≡ trust_at trust.now exec }
{
    match trust.get(exec as usize) {
        Some(heard) => *heard,
        None => Trust::NEW,
    }
}

/// Whether an output at this location, by a task of this epoch, is bogus.
pub(crate) fn is_bogus(trust: &[Trust], loc: Loc, epoch: Epoch) -> bool
    ensures { result ≡ is_bogus_for (trust_at trust.now loc.exec) loc epoch }
{
    let heard = trust_at(trust, loc.exec);
    match heard.mark {
        Some(mark) => epoch <= mark || loc.generation < heard.seen,
        None => loc.generation < heard.seen,
    }
}

/// Whether the executor is there, and a generation is newer than what was seen of it.
pub(crate) fn is_newer(trust: &[Trust], exec: ExecId, found: Generation) -> bool
    ensures { result ≡ is_newer (slice_get trust.now exec) found }
{
    match trust.get(exec as usize) {
        Some(heard) => heard.seen < found,
        None => false,
    }
}

/// Whether the executor is there and wasn't told lost.
pub(crate) fn is_live(trust: &[Trust], exec: ExecId) -> bool
    ensures { result ≡ is_live (slice_get trust.now exec) }
{
    match trust.get(exec as usize) {
        Some(heard) => !heard.lost,
        None => false,
    }
}

/// A newer generation was found, in this epoch.
pub(crate) fn note_seen(trust: &mut Vec<Trust>, exec: ExecId, found: Generation, epoch: Epoch)
    ensures { trust.new.items ≡ change_at trust.old.items exec (seen_at found epoch) }
{
    if (exec as usize) < trust.len() {
        trust[exec as usize].see(found, epoch);
    }
}

/// The executor was told lost, in this epoch.
pub(crate) fn note_lost(trust: &mut Vec<Trust>, exec: ExecId, epoch: Epoch)
    ensures { trust.new.items ≡ change_at trust.old.items exec (lost_at epoch) }
{
    if (exec as usize) < trust.len() {
        trust[exec as usize].lose(epoch);
    }
}
