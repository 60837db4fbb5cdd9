//! Which partitions of cache nodes a target reads.
#![tactic(auto)]

ghost use Rattle.std.specs.Prelude.{◌≡◌, ◌<◌, ◌^◌, Bool, IfOk, IfSome, List, OnOk};
ghost use Rattle.sc_lineage.specs.Dependencies.{PlaceData};
ghost use Rattle.sc_lineage.specs.Views.{node_data_of, place_data_of};
ghost use Rattle.sc_compute.specs.Asking.{AsksBehind, AsksFor, AsksNext, IsAsked, IsAsking, IsThere, node_taken, partition_taken, place_number, place_of_number, place_taken};
ghost use Rattle.sc_compute.specs.Stages.{AreRight, mapped_in};
ghost use Rattle.sc_compute.specs.Tasks.{HasAll, IsSideOf, IsTargetOf, target_data_of};

use crate::directs::places_read;
use crate::nodes::node_in;
use crate::stages::ShuffleInputs;
use crate::targets::{TaskTarget, node_of};
use sc_lineage::{Node, NodeId, Place, Work};
use std::alloc::{AllocError, Global};
use std::collections::BTreeSet;

/// The partitions of cache nodes that a target reads, nearest to it first: the caller is given one
/// after another, and says of which it doesn't have the rows. Only then what lies behind is looked
/// at. So each that the caller has is given, unless another that it has stands between, and no
/// other. A call that is refused may leave some of them out.
#[derive(Drop)]
pub struct Asking {
    /// The numbers of the partitions that are still to be looked at.
    left: BTreeSet<u64>,
    /// All these numbers are below this one.
    below: u128,
}

impl Asking {
    /// All that a target reads, where all that it needs was made.
    pub fn new(
        alloc: Global,
        work: &Work,
        stages: &ShuffleInputs,
        target: TaskTarget<'_>,
    ) -> Result<Asking, AllocError>
        requires target { IsTargetOf work.now (target_data_of target) }
        requires made { HasAll work.now stages.now (target_data_of target) }
        ensures asking { IfOk result (IsAsking work.now stages.now) }
        ensures asks { IfOk result (λ a. (had : PlaceData → Bool) (given : List PlaceData)
            → AsksFor work.now had (place_taken work.now (target_data_of target.entry)) given a) }
    {
        work.is_sound();
        let number = number_of(place_of_target(work, target));
        let mut left = BTreeSet::new(alloc);
        left.insert(number)?;
        let below = u128::from(number) + 1;
        Ok(Asking { left, below })
    }

    /// The next of them, behind which nothing is looked at yet.
    pub fn next(
        &mut self,
        alloc: Global,
        work: &Work,
        stages: &ShuffleInputs,
    ) -> Result<Option<Place>, AllocError>
        requires right { AreRight work.now stages.now }
        requires asking { IsAsking work.now stages.now self.old }
        ensures asking { IsAsking work.now stages.now self.new }
        ensures asked { IfOk result (λ o. IfSome o (IsAsked work.now stages.now self.new)) }
        ensures fewer { IfOk result (λ o. IfSome o (λ at. self.new.below < self.old.below)) }
        ensures asks { IfOk result (AsksNext work.now self.old self.new) }
    {
        while let Some(number) = self.left.pop_last() {
            self.below = u128::from(number);
            let at = place_of(number);
            match node_in(work, at.node) {
                Node::Cache { .. } => return Ok(Some(at)),
                _ => self.behind(alloc, work, stages, at)?,
            }
        }
        Ok(None)
    }

    /// Looks behind a partition, whose rows aren't there.
    pub fn behind(
        &mut self,
        alloc: Global,
        work: &Work,
        stages: &ShuffleInputs,
        at: Place,
    ) -> Result<(), AllocError>
        requires right { AreRight work.now stages.now }
        requires asking { IsAsking work.now stages.now self.old }
        requires there { IsThere work.now stages.now at.node at.partition }
        requires last { place_number at ≡ self.old.below }
        ensures asking { IsAsking work.now stages.now self.new }
        ensures below { self.new.below ≡ self.old.below }
        ensures asks { OnOk result (AsksBehind work.now (place_data_of at) self.old self.new) }
    {
        work.is_sound();
        let places = places_read(alloc, work, stages, at)?;
        for place in &places {
            self.left.insert(number_of(*place))?;
        }
        Ok(())
    }
}

/// The partition that a target takes.
fn place_of_target(work: &Work, target: TaskTarget<'_>) -> Place
    requires target { IsTargetOf work.now (target_data_of target) }
    ensures node { result.node ≡ node_taken work.now (target_data_of target.entry) }
    ensures partition { result.partition ≡ partition_taken (target_data_of target.entry) }
{
    match target {
        TaskTarget::Map { node, side, map } => Place {
            node: parent_in(node_in(work, node), side),
            partition: map,
        },
        TaskTarget::Result { action, partition } => Place {
            node: node_of(action),
            partition,
        },
    }
}

/// The node whose partitions go into a side of a node.
fn parent_in(node: &Node, side: u8) -> NodeId
    requires { IsSideOf (node_data_of node.now) side }
    ensures { result ≡ mapped_in (node_data_of node.now) side }
{
    match node {
        Node::Shuffle { parent, .. } => *parent,
        Node::Meet { left, right, .. } => { if side == 0 { *left } else { *right } }
        _ => unreachable!(),
    }
}

/// A partition as a number: those of later nodes have greater ones.
fn number_of(at: Place) -> u64
    ensures number { result ≡ place_number at }
    ensures small { at.partition < 2 ^ 32 }
{
    u64::from(at.node) * 4_294_967_296 + u64::from(at.partition)
}

/// The partition of a number.
fn place_of(number: u64) -> Place
    ensures number { place_number result ≡ number }
    ensures place { place_data_of result ≡ place_of_number number }
    ensures small { result.partition < 2 ^ 32 }
{
    Place {
        node: (number / 4_294_967_296) as u32,
        partition: (number % 4_294_967_296) as u32,
    }
}
