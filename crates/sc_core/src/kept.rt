//! The lists of inputs that were made last, by their stages.
#![tactic(auto)]

ghost use Rattle.std.specs.Prelude.{◌≡◌, ◌≢◌, ℕ, IfOk, None, Some, map};
ghost use Rattle.sc_ids.specs.Changes.{change_at};
ghost use Rattle.sc_core.specs.Kept.{kept_at};

use crate::inputs::Inputs;
use sc_dag::Success;
use sc_ids::StageId;
use std::alloc::{AllocError, Global};
use std::marker::Model;

/// For each stage the list of its inputs, where it was made and the tracker is the same since.
#[derive(Drop)]
pub(crate) struct Kept {
    lists: Vec<Option<Inputs>>,
}

impl Model for Kept {
    ghost use Rattle.std.specs.Prelude.{List, Option};
    ghost use Rattle.sc_tracker.specs.declared.outputs.Location.{Location};

    ghost Value = { List (Option (List Location)) };

    ghost view = { λ k. k.lists.items };
}

impl Kept {
    /// Room for so many stages, with no list made.
    pub fn new(alloc: Global, stages: usize) -> Result<Kept, AllocError>
        ensures { IfOk result (λ k. (stage : ℕ) → kept_at k stage ≡ None) }
    {
        let mut lists = Vec::with_capacity(alloc, stages)?;
        for _ in 0..stages {
            lists.push(None)?;
        }
        Ok(Kept { lists })
    }

    /// The list of a stage, with one more owner.
    pub fn share(&self, stage: StageId) -> Result<Option<Inputs>, AllocError>
        ensures { IfOk result (λ inputs. inputs ≡ kept_at self.now stage) }
    {
        match self.lists.get(stage as usize) {
            Some(Some(inputs)) => Ok(Some(inputs.share()?)),
            Some(None) | None => Ok(None),
        }
    }

    /// Keeps the list of a stage, unless there is no room for it.
    pub fn put(&mut self, stage: StageId, inputs: Inputs)
        ensures { self.new ≡ change_at self.old stage (λ _. Some inputs) }
    {
        put_in(&mut self.lists, stage, inputs);
    }

    /// Forgets all lists after a success that registered an output.
    pub fn forget_after(&mut self, success: Success)
        ensures forgets { success ≡ Success.Registered
            → (stage : ℕ) → kept_at self.new stage ≡ None }
        ensures keeps { success ≢ Success.Registered → self.new ≡ self.old }
    {
        match success {
            Success::Registered => self.forget(),
            Success::Repeated | Success::Bogus | Success::Finished => {}
        }
    }

    /// Forgets all lists, and keeps their places.
    pub fn forget(&mut self)
        ensures { (stage : ℕ) → kept_at self.new stage ≡ None }
    {
        forget_all(&mut self.lists);
    }
}

/// Forgets the list in each place.
fn forget_all(lists: &mut Vec<Option<Inputs>>)
    ensures { lists.new.items ≡ map (λ _. None) lists.old.items }
{
    forget_each(lists.as_mut_slice());
}

/// The same for places in a slice.
fn forget_each(lists: &mut [Option<Inputs>])
    ensures { lists.new ≡ map (λ _. None) lists.old }
{
    for list in lists.iter_mut() {
        *list = None;
    }
}

/// Puts a list in its place.
fn put_in(lists: &mut Vec<Option<Inputs>>, stage: StageId, inputs: Inputs)
    ensures { lists.new.items ≡ change_at lists.old.items stage (λ _. Some inputs) }
{
    if (stage as usize) < lists.len() {
        lists[stage as usize] = Some(inputs);
    }
}
