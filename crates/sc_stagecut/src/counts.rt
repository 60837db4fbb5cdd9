//! How many partitions nodes have.
#![tactic(auto)]

ghost use Rattle.std.specs.Prelude.{◌≡◌, ◌+◌, [], IfOk, length};
ghost use Rattle.std.specs.Option.{option_map, unwrap_or};
ghost use Rattle.sc_lineage.specs.ByNodes.{by_nodes};
ghost use Rattle.sc_lineage.specs.Meaning.{parts_step};
ghost use Rattle.sc_lineage.specs.Views.{node_data_of};
ghost use Rattle.sc_stagecut.specs.Counting.{counted_step};

use crate::carried::Carried;
use sc_lineage::{Node, Script, Shuffling, count_at};
use sc_part::Bounds;
use std::alloc::{AllocError, Global};

/// The number of partitions of each node, by the bounds that were found.
pub(crate) fn counts(
    alloc: Global,
    script: &Script,
    carried: &Carried,
) -> Result<Vec<u32>, AllocError>
    ensures { IfOk result (λ v. v.items
        ≡ by_nodes (counted_step carried.now.bounds) script.now.nodes) }
{
    let nodes = script.nodes();
    let mut counts = Vec::new(alloc);
    for node in nodes {
        let count = count_of(node, counts.as_slice(), carried.bounds(counts.len()))?;
        counts.push(count)?;
    }
    Ok(counts)
}

/// The number of partitions of a node, from those of the nodes before it and from its bounds. A
/// number past its type is refused as want of memory: no script has so many partitions.
fn count_of(node: &Node, counts: &[u32], bounds: Option<&Bounds>) -> Result<u32, AllocError>
    ensures { IfOk result (λ n. n ≡ parts_step
        (unwrap_or (option_map (λ b. b.now) bounds.entry) []) counts.now (node_data_of node.now)) }
{
    match node {
        Node::Text { slices, .. } | Node::Parallelize { slices, .. } => Ok(*slices),
        Node::Each { parent, .. } | Node::Cache { parent } => Ok(count_at(counts, *parent)),
        Node::Union { left, right } => sum(count_at(counts, *left), count_at(counts, *right)),
        Node::Coalesce { parent, partitions } => Ok(count_at(counts, *parent).min(*partitions)),
        Node::Shuffle {
            kind: Shuffling::SortByKey,
            ..
        } => ranges(bounds),
        Node::Shuffle { partitions, .. } | Node::Meet { partitions, .. } => Ok(*partitions),
    }
}

/// How many ranges bounds divide keys into.
fn ranges(bounds: Option<&Bounds>) -> Result<u32, AllocError>
    ensures { IfOk result (λ n. n
        ≡ length (unwrap_or (option_map (λ b. b.now) bounds.entry) []) + 1) }
{
    match bounds {
        Some(bounds) => sum(bounds.len() as u32, 1),
        None => Ok(1),
    }
}

fn sum(a: u32, b: u32) -> Result<u32, AllocError>
    ensures { IfOk result (λ n. n ≡ a + b) }
{
    a.checked_add(b).ok_or(AllocError)
}
