//! Partitioners.
#![tactic(auto)]

ghost use Rattle.std.specs.Prelude.{◌≡◌, map};
ghost use Rattle.sc_base.specs.Lists.{at_or};
ghost use Rattle.sc_lineage.specs.Partitioners.{no_partitioner, partitioner_of_each, partitioner_of_shuffle, partitioner_step, is_parted_by as is_parted_as};
ghost use Rattle.sc_lineage.specs.Views.{node_data_of, partitioner_data_of, shuffling_data_of};

use crate::nodes::{Elementwise, Node, NodeId, Shuffling};

/// By which rule the rows of a node lie in its partitions, after Spark's `Partitioner`.
#[derive(Clone, Copy, Debug, PartialEq, Eq)]
pub enum Partitioner {
    /// By no rule of their keys.
    Unknown,
    /// In the bucket of the key's hash, of so many.
    Hash(u32),
    /// In the range of the key, between bounds of the node's own.
    Range,
}

/// The partitioner of a node, where `known` has those of the nodes before it.
pub(crate) fn partitioner_of(known: &[Partitioner], node: &Node) -> Partitioner
    ensures { partitioner_data_of result
        ≡ partitioner_step (map partitioner_data_of known.now) (node_data_of node.now) }
{
    match node {
        Node::Text { .. } | Node::Parallelize { .. } => Partitioner::Unknown,
        Node::Union { .. } | Node::Coalesce { .. } => Partitioner::Unknown,
        Node::Each { kind, parent, .. } => of_each(*kind, known_at(known, *parent)),
        Node::Cache { parent } => known_at(known, *parent),
        Node::Shuffle {
            kind,
            partitions,
            ..
        } => kind.partitioner(*partitions),
        Node::Meet { partitions, .. } => Partitioner::Hash(*partitions),
    }
}

/// The partitioner of a node, where it is known; else none.
pub(crate) fn known_at(known: &[Partitioner], node: NodeId) -> Partitioner
    ensures { partitioner_data_of result
        ≡ at_or (map partitioner_data_of known.now) node no_partitioner }
{
    match known.get(node as usize) {
        Some(partitioner) => *partitioner,
        None => Partitioner::Unknown,
    }
}

/// What an operation row by row leaves of its parent's partitioner.
fn of_each(kind: Elementwise, parent: Partitioner) -> Partitioner
    ensures { partitioner_data_of result
        ≡ partitioner_of_each kind (partitioner_data_of parent) }
{
    match kind {
        Elementwise::Map | Elementwise::FlatMap => Partitioner::Unknown,
        Elementwise::Filter | Elementwise::MapValues | Elementwise::FlatMapValues => parent,
    }
}

impl Shuffling {
    /// The partitioner of what the shuffle gives, in so many partitions.
    pub fn partitioner(&self, partitions: u32) -> Partitioner
        ensures { partitioner_data_of result
            ≡ partitioner_of_shuffle (shuffling_data_of self.now) partitions }
    {
        match self {
            Shuffling::ReduceByKey { .. } | Shuffling::GroupByKey => Partitioner::Hash(partitions),
            Shuffling::SortByKey => Partitioner::Range,
            Shuffling::Repartition => Partitioner::Unknown,
        }
    }
}

/// Whether rows that lie by the second already lie as the first asks, so that no shuffle is needed:
/// both go by the hash, with the same number of buckets.
pub fn is_parted_by(wanted: Partitioner, lies: Partitioner) -> bool
    ensures { result ≡ is_parted_as (partitioner_data_of wanted) (partitioner_data_of lies) }
{
    match (wanted, lies) {
        (Partitioner::Hash(m), Partitioner::Hash(n)) => m == n,
        _ => false,
    }
}
