//! The bounds that a job knows.
#![tactic(auto)]

ghost use Rattle.std.specs.Prelude.{◌≡◌, IfOk, length, map};
ghost use Rattle.sc_base.specs.Lists.{at_or, numbers_below};
ghost use Rattle.sc_lineage.specs.NodeData.{cache_node};
ghost use Rattle.sc_lineage.specs.Views.{node_data_of};
ghost use Rattle.sc_stagecut.specs.Carrying.{is_sort};
ghost use Rattle.sc_jobs.specs.Known.{known_at};

use sc_lineage::{Node, Script, Shuffling};
use sc_part::Bounds;
use sc_stagecut::Carried;
use std::alloc::{AllocError, Global};

/// The bounds of each sort of a script, where they were found. None of them is copied.
pub(crate) fn known_bounds(
    alloc: Global,
    script: &Script,
    carried: &Carried,
) -> Result<Vec<Option<Bounds>>, AllocError>
    ensures { IfOk result (λ v. v.items ≡ map (known_at script.now.nodes carried.now.bounds)
        (numbers_below (length script.now.nodes))) }
{
    let mut known = Vec::new(alloc);
    for node in 0..script.nodes().len() {
        known.push(known_at(script, carried, node)?)?;
    }
    Ok(known)
}

/// The bounds of a node, where it is a sort and they were found.
fn known_at(script: &Script, carried: &Carried, node: usize) -> Result<Option<Bounds>, AllocError>
    ensures { IfOk result (λ found. found ≡ known_at script.now.nodes carried.now.bounds node) }
{
    match carried.bounds(node) {
        Some(bounds) if is_sort(script, node) => Ok(Some(bounds.share()?)),
        _ => Ok(None),
    }
}

/// Whether a node is a sort.
fn is_sort(script: &Script, node: usize) -> bool
    ensures { result ≡ is_sort (at_or script.now.nodes node (cache_node 0)) }
{
    match script.nodes().get(node) {
        Some(
            Node::Shuffle {
                kind: Shuffling::SortByKey,
                ..
            },
        ) => true,
        _ => false,
    }
}
