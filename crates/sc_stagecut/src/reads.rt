//! What a node reads at each side.
#![tactic(auto)]

ghost use Rattle.std.specs.Prelude.{◌≡◌, ◌∷◌, [], false, map, slice_get};
ghost use Rattle.std.specs.Option.{option_map};
ghost use Rattle.sc_lineage.specs.Dependencies.{dependencies_by, shuffled, unless_parted};
ghost use Rattle.sc_lineage.specs.Views.{node_data_of, partitioner_data_of};
ghost use Rattle.sc_stagecut.specs.Marking.{is_read_followed, read_of};
ghost use Rattle.sc_stagecut.specs.Reaching.{dependencies_at};

use sc_lineage::{Node, NodeId, Partitioner, Script, is_parted_by};

/// Which dependencies are followed.
#[derive(Clone, Copy, Debug, PartialEq, Eq)]
pub(crate) enum Follow {
    /// Each of them.
    Every,
    /// Those that aren't shuffles.
    Narrow,
}

/// What a node reads at one side.
#[derive(Clone, Copy, Debug, PartialEq, Eq)]
pub(crate) struct Read {
    /// The parent.
    pub(crate) parent: NodeId,
    /// Whether it is by a shuffle.
    pub(crate) is_shuffled: bool,
}

impl Read {
    fn narrow(parent: NodeId) -> Read
        ensures { result ≡ record { parent = parent; is_shuffled = false } }
    {
        Read {
            parent,
            is_shuffled: false,
        }
    }

    /// Whether it is followed.
    pub(crate) fn is_followed(self, follow: Follow) -> bool
        ensures { result ≡ is_read_followed follow self }
    {
        match follow {
            Follow::Every => true,
            Follow::Narrow => !self.is_shuffled,
        }
    }
}

/// What the node of a number reads at a side, where it is there and reads something.
pub(crate) fn read_at(script: &Script, node: usize, side: u8) -> Option<Read>
    ensures { result
        ≡ option_map read_of (slice_get (dependencies_at script.now.nodes node) side) }
{
    match script.nodes().get(node) {
        Some(node) => read_by(script.partitioners(), node, side),
        None => None,
    }
}

/// What a node reads at a side, where some partitioners are known.
fn read_by(known: &[Partitioner], node: &Node, side: u8) -> Option<Read>
    ensures { result ≡ option_map read_of (slice_get
        (dependencies_by (map partitioner_data_of known.now) (node_data_of node.now)) side) }
{
    match node {
        Node::Text { .. } | Node::Parallelize { .. } => None,
        Node::Each { parent, .. } | Node::Cache { parent } => only(side, Read::narrow(*parent)),
        Node::Coalesce { parent, .. } => only(side, Read::narrow(*parent)),
        Node::Union { left, right } => either(side, Read::narrow(*left), Read::narrow(*right)),
        Node::Shuffle {
            kind,
            parent,
            partitions,
        } => only(
            side,
            unless_parted(known, *parent, kind.partitioner(*partitions)),
        ),
        Node::Meet {
            left,
            right,
            partitions,
            ..
        } => {
            let wanted = Partitioner::Hash(*partitions);
            let left = unless_parted(known, *left, wanted);
            either(side, left, unless_parted(known, *right, wanted))
        }
    }
}

/// What a shuffle reads: rows that lie as it asks need none.
fn unless_parted(known: &[Partitioner], parent: NodeId, wanted: Partitioner) -> Read
    ensures { result ≡ read_of (unless_parted (map partitioner_data_of known.now)
        (shuffled parent (partitioner_data_of wanted))) }
{
    let lies = match known.get(parent as usize) {
        Some(partitioner) => *partitioner,
        None => Partitioner::Unknown,
    };
    Read {
        parent,
        is_shuffled: !is_parted_by(wanted, lies),
    }
}

/// The one read, at the left side.
fn only(side: u8, read: Read) -> Option<Read>
    ensures { result ≡ slice_get (read ∷ []) side }
{
    if side == 0 { Some(read) } else { None }
}

/// One of two reads.
fn either(side: u8, left: Read, right: Read) -> Option<Read>
    ensures { result ≡ slice_get (left ∷ right ∷ []) side }
{
    match side {
        0 => Some(left),
        1 => Some(right),
        _ => None,
    }
}
