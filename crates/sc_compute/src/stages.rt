//! What is made for the nodes of a work before their partitions can be computed.
#![tactic(auto)]

ghost use Rattle.std.specs.Prelude.{◌≡◌, ◌<◌, All, IfOk, None, OnOk, length, option_map};
ghost use Rattle.sc_compute.specs.Inputs.{Grows, HasInputs, HasSides, IsUnmade, Makes};
ghost use Rattle.sc_compute.specs.Stages.{AreReadOf, AreRight, AreSides, AtDirectParents, HasMade, handed_in, local_count, made_in, node_at, parents_left};

use crate::making::make;
use crate::nodes::node_in;
use sc_lineage::{NodeId, Work};
use sc_part::Bounds;
use sc_shuffle::MapOutput;
use std::alloc::{AllocError, Global};
use std::collections::HashMap;

/// What a shuffle reads of a parent.
#[derive(Drop)]
pub enum Input {
    /// Of its partition of the same number alone, since the rows lie so already.
    Own,
    /// What the tasks of the side left, which was handed in: of each of its partitions what went
    /// into the shuffle, by bucket.
    Dealt(Vec<MapOutput>),
}

/// What the sides of a node are read from.
#[derive(Drop)]
pub enum Sides {
    /// The node isn't made by a shuffle.
    Narrow,
    /// A shuffle of one parent.
    One(Input),
    /// A shuffle of two parents, the left one first.
    Two(Input, Input),
}

/// What was made for the nodes of a work so far: how many partitions each has, and what its
/// shuffles are read from. That is what the tasks of a side left and was handed in, before anything
/// is made, and nothing else. The bounds of a sort can be told.
#[derive(Drop)]
pub struct ShuffleInputs {
    /// By node; 0 where nothing was made.
    counts: Vec<u32>,
    /// By node, where something was made.
    sides: HashMap<NodeId, Sides>,
    /// By node and side, what the tasks of the side left, where that was handed in.
    pub(crate) handed: HashMap<(NodeId, u8), Vec<MapOutput>>,
    /// By node, its bounds, where they were told.
    pub(crate) bounds: HashMap<NodeId, Bounds>,
}

impl ShuffleInputs {
    /// Nothing yet.
    pub fn new(alloc: Global, work: &Work) -> Result<ShuffleInputs, AllocError>
        ensures right { IfOk result (AreRight work.now) }
        ensures unmade { IfOk result IsUnmade }
    {
        Ok(ShuffleInputs {
            counts: vec![in alloc; 0; work.script().nodes().len()]?,
            sides: HashMap::new(alloc),
            handed: HashMap::new(alloc),
            bounds: HashMap::new(alloc),
        })
    }

    /// The number of partitions of each node for which something was made.
    pub(crate) fn counts(&self) -> &[u32]
        ensures { result.now ≡ self.now.counts.items }
    {
        self.counts.as_slice()
    }

    /// What the sides of a node are read from, where it was made.
    pub(crate) fn sides(&self, node: NodeId) -> Option<&Sides>
        ensures { option_map (λ s. s.now) result ≡ made_in self.now node }
    {
        self.sides.get(&node)
    }

    /// Makes what the partitions of a node need: how many it has and what its shuffles are read
    /// from, and the same for all nodes that it takes in, and for no other. For each shuffle among
    /// them the outputs were handed in. A refused call may have made some of it; what was made
    /// before is the same.
    pub fn prepare(&mut self, alloc: Global, work: &Work, node: NodeId) -> Result<(), AllocError>
        requires known { node < length work.now.script.nodes }
        requires right { AreRight work.now self.old }
        requires inputs { HasInputs work.now self.old node }
        ensures right { AreRight work.now self.new }
        ensures made { OnOk result (HasMade self.new node) }
        ensures grows { Grows work.now node self.old self.new }
    {
        if self.sides.contains_key(&node) {
            return Ok(());
        }
        work.is_sound();
        let parents = self.parents_left(node, node_in(work, node));
        if let Some(parent) = parents.first {
            self.prepare(alloc, work, parent)?;
        }
        if let Some(parent) = parents.second {
            self.prepare(alloc, work, parent)?;
        }
        self.prepare_behind(alloc, work, node)
    }

    /// Makes what the partitions of a node need, where the same was made for its parents.
    fn prepare_behind(&mut self, alloc: Global, work: &Work, node: NodeId) -> Result<(), AllocError>
        requires known { node < length work.now.script.nodes }
        requires right { AreRight work.now self.old }
        requires parents { All (HasMade self.old)
            (parents_left self.old node (node_at work.now node)) }
        requires sides { HasSides work.now self.old node }
        requires unmade { made_in self.old node ≡ None }
        ensures right { AreRight work.now self.new }
        ensures made { OnOk result (HasMade self.new node) }
        ensures makes { Makes node self.old self.new }
    {
        let (count, sides) = make(alloc, work, self, node)?;
        self.put(work, node, count, sides)
    }

    /// Keeps what was made for a node.
    fn put(&mut self, work: &Work, node: NodeId, count: u32, sides: Sides) -> Result<(), AllocError>
        requires known { node < length work.now.script.nodes }
        requires right { AreRight work.now self.old }
        requires parents { AtDirectParents work.now (HasMade self.old) node }
        requires count { count ≡ local_count work.now node }
        requires are { AreSides work.now (node_at work.now node) sides }
        requires read { AreReadOf (handed_in self.old node) sides }
        requires unmade { made_in self.old node ≡ None }
        ensures right { AreRight work.now self.new }
        ensures made { OnOk result (HasMade self.new node) }
        ensures makes { Makes node self.old self.new }
    {
        self.sides.insert(node, sides)?;
        self.counts[node as usize] = count;
        Ok(())
    }
}
