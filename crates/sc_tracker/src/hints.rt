//! Guesses of where shuffles stand among others.
#![tactic(auto)]

use crate::shuffles::ShuffleOutputs;
use sc_ids::ShuffleId;
use std::alloc::{AllocError, Global};

/// Where shuffles may stand among others, by numbers made of their names. A guess may be wrong, so
/// who takes one looks whether that shuffle stands there.
#[derive(Drop)]
pub(crate) struct Hints {
    places: Vec<usize>,
}

impl Hints {
    /// Nothing is known.
    pub(crate) fn new(alloc: Global) -> Hints {
        Hints {
            places: Vec::new(alloc),
        }
    }

    /// A copy.
    pub(crate) fn copied(&self, alloc: Global) -> Result<Hints, AllocError> {
        let places = self.places.as_slice().to_vec(alloc)?;
        Ok(Hints { places })
    }

    /// Where a shuffle may stand.
    pub(crate) fn guess(&self, shuffle: ShuffleId) -> usize {
        match self.places.get(slot_in(self.places.len(), shuffle)) {
            Some(place) => *place,
            None => 0,
        }
    }

    /// Notes where a shuffle stands.
    pub(crate) fn note(&mut self, shuffle: ShuffleId, place: usize) {
        let slot = slot_in(self.places.len(), shuffle);
        if slot < self.places.len() {
            self.places[slot] = place;
        }
    }

    /// Makes room for one more shuffle behind some others.
    pub(crate) fn reserve(
        &mut self,
        alloc: Global,
        shuffles: &[ShuffleOutputs],
    ) -> Result<(), AllocError> {
        let wanted = shuffles.len().saturating_mul(4).saturating_add(4);
        if self.places.len() < wanted {
            self.places = vec![in alloc; 0; wanted.saturating_mul(2)]?;
            for place in 0..shuffles.len() {
                self.note(shuffles[place].shuffle(), place);
            }
        }
        Ok(())
    }
}

/// The place of a shuffle's guess among so many: names that lie close together have different ones.
fn slot_in(len: usize, shuffle: ShuffleId) -> usize {
    let name = shuffle.node as usize * 2 + shuffle.side as usize;
    if len > 0 { name % len } else { 0 }
}
