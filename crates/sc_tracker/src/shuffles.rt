//! The outputs of the shuffles that there is room for.
#![tactic(auto)]

ghost use Rattle.std.specs.Prelude.{◌≡◌, IfOk, length, nat_lt, replicate};
ghost use Rattle.std.specs.List.{list_any};
ghost use Rattle.sc_ids.specs.Changes.{change_at};
ghost use Rattle.sc_tracker.specs.Lists.{has_room_at, output_at, place_for, with_one_forgotten, with_output};
ghost use Rattle.sc_tracker.specs.Outputs.{are_here, forgotten, never, output_in, placed};
ghost use Rattle.sc_tracker.specs.TrackerData.{is_of, output_under, outputs_under, place_of, shuffle_data};
ghost use Rattle.sc_tracker.specs.TrackerFacts.{AreApart};
ghost use Rattle.sc_tracker.specs.Tracking.{with_placed};

use crate::links::Place;
use crate::outputs::{Output, forget_in, place_in};
use sc_ids::{BlockId, Epoch, Loc, ShuffleId};
use std::alloc::{AllocError, Global};
use std::marker::Model;

/// The outputs of one shuffle, in the order of its map partitions.
#[derive(Drop)]
pub(crate) struct ShuffleOutputs {
    shuffle: ShuffleId,
    outputs: Vec<Output>,
    /// How many of them are registered.
    registered: usize,
}

impl Model for ShuffleOutputs {
    ghost use Rattle.std.specs.Prelude.{◌≡◌, count_by};
    ghost use Rattle.sc_tracker.specs.Outputs.{is_here};
    ghost use Rattle.sc_tracker.specs.TrackerData.{ShuffleData, shuffle_data};

    ghost Value = { ShuffleData };

    ghost view = { λ s. shuffle_data s.shuffle s.outputs.items };

    ghost invariant = { λ s. s.registered ≡ count_by is_here s.outputs.items };
}

impl ShuffleOutputs {
    /// Room for so many outputs, none of them registered.
    pub(crate) fn new(alloc: Global, shuffle: ShuffleId, maps: u32) -> Result<Self, AllocError>
        ensures { IfOk result (λ s. s ≡ shuffle_data shuffle (replicate maps never)) }
    {
        let outputs = vec![in alloc; Output::NEVER; maps as usize]?;
        Ok(ShuffleOutputs {
            shuffle,
            outputs,
            registered: 0,
        })
    }

    /// A copy of all that is known.
    fn copied(&self, alloc: Global) -> Result<Self, AllocError>
        ensures { IfOk result (λ s. s ≡ self.now) }
    {
        let outputs = self.outputs.as_slice().to_vec(alloc)?;
        Ok(ShuffleOutputs {
            shuffle: self.shuffle,
            outputs,
            registered: self.registered,
        })
    }

    /// Whose outputs these are.
    pub(crate) fn shuffle(&self) -> ShuffleId
        ensures { result ≡ self.now.shuffle }
    {
        self.shuffle
    }

    /// Whether these are the outputs of that shuffle.
    fn is_of(&self, shuffle: ShuffleId) -> bool
        ensures { result ≡ is_of shuffle self.now }
    {
        self.shuffle.node == shuffle.node && self.shuffle.side == shuffle.side
    }

    /// What is known of an output; of one that there is no room for, nothing.
    fn output(&self, map: u32) -> Output
        ensures { result ≡ output_in self.now.outputs map }
    {
        match self.outputs.get(map as usize) {
            Some(output) => *output,
            None => Output::NEVER,
        }
    }

    /// Whether the first so many outputs are all registered. As long as there is room for no more
    /// than these, no output is looked at.
    fn has_all(&self, maps: u32) -> bool
        ensures { result ≡ are_here self.now.outputs maps }
    {
        if self.registered < maps as usize {
            return false;
        }
        self.outputs.len() == maps as usize || self.all_here(maps)
    }

    /// The same, output by output.
    fn all_here(&self, maps: u32) -> bool
        ensures { result ≡ are_here self.now.outputs maps }
    {
        (0..maps).all(|map| self.output(map).is_here())
    }

    /// Registers an output.
    fn place(&mut self, map: u32, loc: Loc, epoch: Epoch)
        ensures { self.new ≡ with_placed map loc epoch self.old }
    {
        if (map as usize) < self.outputs.len() && !self.output(map).is_here() {
            self.registered += 1;
        }
        place_in(&mut self.outputs, map, loc, epoch);
    }

    /// Forgets one output.
    fn forget_one(&mut self, map: u32)
        ensures { self.new ≡ with_one_forgotten map self.old }
    {
        if self.output(map).is_here() {
            self.registered -= 1;
        }
        forget_in(&mut self.outputs, map);
    }

    /// Whether there is room for an output.
    fn has(&self, map: u32) -> bool
        ensures { result ≡ nat_lt map (length self.now.outputs) }
    {
        (map as usize) < self.outputs.len()
    }
}

/// Copies of the outputs of several shuffles.
pub(crate) fn copies(
    alloc: Global,
    shuffles: &[ShuffleOutputs],
) -> Result<Vec<ShuffleOutputs>, AllocError>
    ensures { IfOk result (λ v. v.items ≡ shuffles.now) }
{
    let mut copies = Vec::new(alloc);
    for outputs in shuffles {
        copies.push(outputs.copied(alloc)?)?;
    }
    Ok(copies)
}

/// Whether there is room for a shuffle.
pub(crate) fn has_room(shuffles: &[ShuffleOutputs], shuffle: ShuffleId) -> bool
    ensures { result ≡ list_any (is_of shuffle) shuffles.now }
{
    shuffles.iter().any(|outputs| outputs.is_of(shuffle))
}

/// The place of a shuffle among others, or their number where it isn't there. Only where the guess
/// is wrong they are looked at one by one.
fn place_of(shuffles: &[ShuffleOutputs], guess: usize, shuffle: ShuffleId) -> usize
    requires { AreApart shuffles.now }
    ensures { result ≡ place_of shuffles.now shuffle }
{
    if guess < shuffles.len() && shuffles[guess].is_of(shuffle) {
        guess
    } else {
        found_place(shuffles, shuffle)
    }
}

/// The same by a search.
fn found_place(shuffles: &[ShuffleOutputs], shuffle: ShuffleId) -> usize
    ensures { result ≡ place_of shuffles.now shuffle }
{
    shuffles
        .iter()
        .position(|outputs| outputs.is_of(shuffle))
        .unwrap_or(shuffles.len())
}

/// What is known of an output; of one that there is no room for, nothing.
pub(crate) fn output_at(shuffles: &[ShuffleOutputs], guess: usize, block: BlockId) -> Output
    requires { AreApart shuffles.now }
    ensures { result ≡ output_under shuffles.now block }
{
    match shuffles.get(place_of(shuffles, guess, block.shuffle)) {
        Some(outputs) => outputs.output(block.map),
        None => Output::NEVER,
    }
}

/// Whether the first so many outputs of a shuffle are all registered.
pub(crate) fn has_all(
    shuffles: &[ShuffleOutputs],
    guess: usize,
    shuffle: ShuffleId,
    maps: u32,
) -> bool
    requires { AreApart shuffles.now }
    ensures { result ≡ are_here (outputs_under shuffles.now shuffle) maps }
{
    match shuffles.get(place_of(shuffles, guess, shuffle)) {
        Some(outputs) => outputs.has_all(maps),
        None => maps == 0,
    }
}

/// Where a block's output stands.
pub(crate) fn place_for(shuffles: &[ShuffleOutputs], guess: usize, block: BlockId) -> Place
    requires { AreApart shuffles.now }
    ensures { result ≡ place_for shuffles.now block }
{
    Place {
        at: place_of(shuffles, guess, block.shuffle),
        map: block.map,
    }
}

/// Whether there is room for an output at a place.
pub(crate) fn has_room_at(shuffles: &[ShuffleOutputs], place: Place) -> bool
    ensures { result ≡ has_room_at shuffles.now place }
{
    match shuffles.get(place.at) {
        Some(outputs) => outputs.has(place.map),
        None => false,
    }
}

/// What is known of the output at a place.
pub(crate) fn output_in(shuffles: &[ShuffleOutputs], place: Place) -> Output
    ensures { result ≡ output_at shuffles.now place }
{
    match shuffles.get(place.at) {
        Some(outputs) => outputs.output(place.map),
        None => Output::NEVER,
    }
}

/// Registers the output at a place, where there is one.
pub(crate) fn place_at(shuffles: &mut Vec<ShuffleOutputs>, place: Place, loc: Loc, epoch: Epoch)
    ensures { shuffles.new.items ≡ with_output shuffles.old.items place (placed loc epoch) }
{
    if place.at < shuffles.len() {
        shuffles[place.at].place(place.map, loc, epoch);
    }
}

/// Forgets the output at a place, where there is one.
pub(crate) fn forget_at(shuffles: &mut Vec<ShuffleOutputs>, place: Place)
    ensures { shuffles.new.items ≡ with_output shuffles.old.items place forgotten }
{
    if place.at < shuffles.len() {
        shuffles[place.at].forget_one(place.map);
    }
}
