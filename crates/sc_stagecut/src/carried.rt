//! What is carried from job to job.
#![tactic(auto)]

ghost use Rattle.std.specs.Prelude.{◌≡◌, [], IfOk, None, OnErr, OnOk, Some, filter_map, replicate};
ghost use Rattle.std.specs.Option.{option_map};
ghost use Rattle.sc_base.specs.Lists.{at_or};
ghost use Rattle.sc_ids.specs.Changes.{change_at};
ghost use Rattle.sc_stagecut.specs.Carrying.{IsForAny, after_job, carried_data, new_number, number_behind, with_bounds};
ghost use Rattle.sc_stagecut.specs.Numbering.{has_number, is_of};

use sc_ids::{ShuffleId, Stage, StageGraph, StageId, Target};
use sc_lineage::NodeId;
use sc_part::Bounds;
use std::alloc::{AllocError, Global};
use std::marker::Model;

/// A shuffle with the number of its map stage.
#[derive(Clone, Copy, Debug, PartialEq, Eq)]
pub struct Numbered {
    /// The shuffle.
    pub shuffle: ShuffleId,
    /// Its map stage.
    pub stage: StageId,
}

impl Numbered {
    /// Whether it is the number of that shuffle.
    pub(crate) fn is_of(&self, shuffle: ShuffleId) -> bool
        ensures { result ≡ is_of shuffle self.now }
    {
        self.shuffle.node == shuffle.node && self.shuffle.side == shuffle.side
    }
}

/// What is carried from job to job: the stages of shuffles, the number of the next stage, and the
/// bounds that were found for sorts. How many tasks a map stage has isn't carried, since it has as
/// many as the parent has partitions, in each job.
#[derive(Drop)]
pub struct Carried {
    alloc: Global,
    stages: Vec<Numbered>,
    next: u64,
    bounds: Vec<Option<Bounds>>,
}

impl Model for Carried {
    ghost use Rattle.sc_stagecut.specs.Carrying.{CarriedData, carried_data};

    ghost Value = { CarriedData };

    ghost view = { λ c. carried_data c.stages.items c.next c.bounds.items };
}

impl Carried {
    /// What is carried to the first job of a script with so many nodes: nothing.
    pub fn new(alloc: Global, nodes: usize) -> Result<Carried, AllocError>
        ensures nothing { IfOk result (λ c. c ≡ carried_data [] 0 (replicate nodes None)) }
        ensures any { IfOk result IsForAny }
    {
        let mut bounds = Vec::new(alloc);
        for _ in 0..nodes {
            bounds.push(None)?;
        }
        Ok(Carried {
            alloc,
            stages: Vec::new(alloc),
            next: 0,
            bounds,
        })
    }

    /// The shuffles that have a map stage, in the order of its numbers.
    pub fn stages(&self) -> &[Numbered]
        ensures { result.now ≡ self.now.stages }
    {
        self.stages.as_slice()
    }

    /// The number of the next stage.
    pub fn next(&self) -> u64
        ensures { result ≡ self.now.next }
    {
        self.next
    }

    /// The bounds of a node, where they were found.
    pub fn bounds(&self, node: usize) -> Option<&Bounds>
        ensures { option_map (λ b. b.now) result ≡ at_or self.now.bounds node None }
    {
        match self.bounds.get(node) {
            Some(Some(bounds)) => Some(bounds),
            _ => None,
        }
    }

    /// Whether a shuffle has a map stage.
    pub fn has_number(&self, shuffle: ShuffleId) -> bool
        ensures { result ≡ has_number self.now.stages shuffle }
    {
        self.stages.iter().any(|numbered| numbered.is_of(shuffle))
    }

    /// Keeps the bounds that were found for a node of the script.
    pub fn set_bounds(&mut self, node: NodeId, bounds: Bounds)
        ensures { self.new ≡ with_bounds self.old node bounds }
    {
        put(&mut self.bounds, node as usize, bounds);
    }

    /// Keeps the new map stages of a job that begins. A refused call changes nothing.
    pub fn keep(&mut self, graph: &StageGraph) -> Result<(), AllocError>
        ensures kept { OnOk result (self.new ≡ after_job self.old graph.now) }
        ensures refused { OnErr result (self.new ≡ self.old) }
    {
        let mut new = new_numbers(self.alloc, graph.stages(), self.next)?;
        self.stages.append(&mut new)?;
        self.next = number_behind(graph.stages(), self.next);
        Ok(())
    }
}

/// Keeps bounds at a place, where there is one.
fn put(bounds: &mut Vec<Option<Bounds>>, node: usize, found: Bounds)
    ensures { bounds.new.items ≡ change_at bounds.old.items node (λ _. Some found) }
{
    if node < bounds.len() {
        bounds[node] = Some(found);
    }
}

/// The numbers of the map stages from one number on.
fn new_numbers(alloc: Global, stages: &[Stage], next: u64) -> Result<Vec<Numbered>, AllocError>
    ensures { IfOk result (λ v. v.items ≡ filter_map (new_number next) stages.now) }
{
    let mut numbers = Vec::new(alloc);
    for stage in stages {
        if let Some(number) = new_number(stage, next) {
            numbers.push(number)?;
        }
    }
    Ok(numbers)
}

/// The number of a map stage, where it is a new one.
fn new_number(stage: &Stage, next: u64) -> Option<Numbered>
    ensures { result ≡ new_number next stage.now }
{
    let id = stage.id();
    match stage.target() {
        Target::Map(shuffle) if u64::from(id) >= next => Some(Numbered { shuffle, stage: id }),
        _ => None,
    }
}

/// The number behind that of the last stage.
fn number_behind(stages: &[Stage], next: u64) -> u64
    ensures { result ≡ number_behind next stages.now }
{
    match stages.last() {
        Some(stage) => u64::from(stage.id()) + 1,
        None => next,
    }
}
