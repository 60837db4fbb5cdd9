//! What is handed in to the nodes of a work: what the tasks of a shuffle left, and bounds.
#![tactic(auto)]

ghost use Rattle.std.specs.Prelude.{◌≡◌, IfOk, OnErr, OnOk, ℕ, option_map};
ghost use Rattle.sc_lineage.specs.Views.{node_data_of, shuffling_data_of};
ghost use Rattle.sc_lineage.specs.NodeData.{shuffle_node};
ghost use Rattle.sc_compute.specs.Inputs.{HandsIn, IsSame, IsUnmade, TellsBounds};
ghost use Rattle.sc_compute.specs.Stages.{AreOutputs, AreRight, HasBounds, HasMade, HasOutputs, bounds_at, handed_in, left_parent, node_at, unless_handed};

use crate::parents::{Parents, parents_of};
use crate::stages::ShuffleInputs;
use sc_lineage::{Node, NodeId, Shuffling, Work};
use sc_part::Bounds;
use sc_shuffle::MapOutput;
use std::alloc::{AllocError, Global};

/// A side of a node's shuffle.
#[derive(Clone, Copy)]
pub struct SideId {
    /// The node.
    pub node: NodeId,
    /// 0 for the only or left parent, 1 for the right.
    pub side: u8,
}

impl ShuffleInputs {
    /// Takes in what the tasks of a side left, one of each map partition in order, before anything
    /// is made. The side is read from that alone, and nothing behind it is made or computed. A
    /// refused call changes nothing.
    pub fn hand_in(
        &mut self,
        work: &Work,
        node: NodeId,
        side: u8,
        outputs: Vec<MapOutput>,
    ) -> Result<(), AllocError>
        requires right { AreRight work.now self.old }
        requires unmade { IsUnmade self.old }
        requires outputs { AreOutputs work.now node side outputs.items }
        ensures right { AreRight work.now self.new }
        ensures unmade { IsUnmade self.new }
        ensures handed { OnOk result (HasOutputs self.new node side) }
        ensures hands_in { OnOk result (HandsIn node side outputs self.old self.new) }
        ensures refused { OnErr result (IsSame self.old self.new) }
    {
        self.handed.insert((node, side), outputs)?;
        Ok(())
    }

    /// Takes in the bounds of a node, by which the tasks of its side deal their rows out. A refused
    /// call changes nothing.
    pub fn tell_bounds(
        &mut self,
        work: &Work,
        node: NodeId,
        bounds: Bounds,
    ) -> Result<(), AllocError>
        requires right { AreRight work.now self.old }
        requires bounds { bounds ≡ bounds_at work.now node }
        ensures right { AreRight work.now self.new }
        ensures told { OnOk result (HasBounds self.new node (node_at work.now node)) }
        ensures tells { OnOk result (TellsBounds node bounds self.old self.new) }
        ensures kept { (k : ℕ) → HasMade self.old k → HasMade self.new k }
        ensures refused { OnErr result (IsSame self.old self.new) }
    {
        self.bounds.insert(node, bounds)?;
        Ok(())
    }

    /// What was handed in for a side.
    pub(crate) fn handed(&self, at: SideId) -> Option<&Vec<MapOutput>>
        ensures { option_map (λ o. o.now) result ≡ handed_in self.now at.node at.side }
    {
        self.handed.get(&(at.node, at.side))
    }

    /// The bounds by which a shuffle of one parent deals its rows out: a sort alone has some.
    pub(crate) fn bounds_of(
        &self,
        alloc: Global,
        work: &Work,
        node: NodeId,
        kind: &Shuffling,
    ) -> Result<Bounds, AllocError>
        requires right { AreRight work.now self.now }
        requires told { (parent n : ℕ)
            → HasBounds self.now node (shuffle_node (shuffling_data_of kind.now) parent n) }
        ensures { IfOk result (λ b. (parent n : ℕ)
            → node_at work.now node ≡ shuffle_node (shuffling_data_of kind.now) parent n
            → b ≡ bounds_at work.now node) }
    {
        match kind {
            Shuffling::SortByKey => match self.bounds.get(&node) {
                Some(bounds) => bounds.share(),
                None => unreachable!(),
            },
            Shuffling::ReduceByKey { .. } | Shuffling::GroupByKey | Shuffling::Repartition => {
                Bounds::none(alloc)
            }
        }
    }

    /// The parents of a node that are to be made before it: what was handed in needs none.
    pub(crate) fn parents_left(&self, id: NodeId, node: &Node) -> Parents
        ensures first { result.first ≡ left_parent self.now id (node_data_of node.now) 0 }
        ensures second { result.second ≡ left_parent self.now id (node_data_of node.now) 1 }
    {
        let parents = parents_of(node);
        Parents {
            first: self.unless_handed(SideId { node: id, side: 0 }, parents.first),
            second: self.unless_handed(SideId { node: id, side: 1 }, parents.second),
        }
    }

    /// The parent of a side, unless something was handed in for the side.
    fn unless_handed(&self, at: SideId, parent: Option<NodeId>) -> Option<NodeId>
        ensures { result ≡ unless_handed (handed_in self.now at.node at.side) parent }
    {
        match self.handed(at) {
            Some(_) => None,
            None => parent,
        }
    }
}
