//! What nodes read.
#![tactic(auto)]

use sc_lineage::{Node, NodeId, Partitioner, Script, is_parted_by};

/// What a node reads at one side.
#[derive(Clone, Copy)]
pub(crate) struct Side {
    /// The parent.
    pub(crate) parent: NodeId,
    /// Whether its rows are shuffled.
    pub(crate) is_shuffled: bool,
}

/// What the node of a number reads at a side, 0 or 1, where it reads something there.
pub(crate) fn side_of(script: &Script, node: u32, side: u8) -> Option<Side> {
    let known = script.partitioners();
    match script.nodes().get(node as usize) {
        None => None,
        Some(node) => match node {
            Node::Text { .. } | Node::Parallelize { .. } => None,
            Node::Each { parent, .. } | Node::Cache { parent } | Node::Coalesce { parent, .. } => {
                left(side, narrow(*parent))
            }
            Node::Union {
                left: first,
                right: second,
            } => either(side, narrow(*first), narrow(*second)),
            Node::Shuffle {
                kind,
                parent,
                partitions,
            } => left(
                side,
                shuffled(known, *parent, kind.partitioner(*partitions)),
            ),
            Node::Meet {
                left: first,
                right: second,
                partitions,
                ..
            } => {
                let wanted = Partitioner::Hash(*partitions);
                let first = shuffled(known, *first, wanted);
                either(side, first, shuffled(known, *second, wanted))
            }
        },
    }
}

/// A parent whose rows stay where they are.
fn narrow(parent: NodeId) -> Side {
    Side {
        parent,
        is_shuffled: false,
    }
}

/// A parent whose rows are shuffled, unless they lie as it is wanted.
fn shuffled(known: &[Partitioner], parent: NodeId, wanted: Partitioner) -> Side {
    let lies = match known.get(parent as usize) {
        Some(partitioner) => *partitioner,
        None => Partitioner::Unknown,
    };
    Side {
        parent,
        is_shuffled: !is_parted_by(wanted, lies),
    }
}

/// What is read at the left side alone.
fn left(side: u8, read: Side) -> Option<Side> {
    if side == 0 { Some(read) } else { None }
}

/// What is read at one of two sides.
fn either(side: u8, first: Side, second: Side) -> Option<Side> {
    match side {
        0 => Some(first),
        1 => Some(second),
        _ => None,
    }
}
