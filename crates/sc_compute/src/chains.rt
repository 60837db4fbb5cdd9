//! Operations row by row that follow one another.
#![tactic(auto)]

ghost use Rattle.std.specs.Prelude.{◌≡◌, ◌<◌, ◌≤◌, IfOk, IfSome, length, false};
ghost use Rattle.sc_lineage.specs.Views.{place_data_of};
ghost use Rattle.sc_compute.specs.Chains.{LeadsTo};
ghost use Rattle.sc_compute.specs.Keeping.{is_known};
ghost use Rattle.sc_compute.specs.Stages.{AreRight, HasMade, local_count};

use crate::kept::KeptStreams;
use crate::nodes::node_in;
use crate::stages::ShuffleInputs;
use sc_lineage::{Node, Place, Work};
use sc_ops::Step;
use std::alloc::{AllocError, Global};

/// Operations by which a partition is computed from another.
#[derive(Drop)]
pub struct Chain<'a> {
    /// The operations, in order.
    pub steps: Vec<Step<'a>>,
    /// The partition whose stream they begin with.
    pub from: Place,
}

/// The operations that end with the node of a partition that isn't known, where the node is one:
/// down to the first partition that is known or read by others too, or isn't of such a node.
#[cycle(chains)]
pub fn chain_to<'a>(
    alloc: Global,
    work: &'a Work,
    inputs: &ShuffleInputs,
    kept: &KeptStreams,
    at: Place,
) -> Result<Option<Chain<'a>>, AllocError>
    requires node { at.node < length work.now.script.nodes }
    requires partition { at.partition < local_count work.now at.node }
    requires right { AreRight work.now inputs.now }
    requires made { HasMade inputs.now at.node }
    requires lacks { is_known kept.now (place_data_of at) ≡ false }
    ensures leads { IfOk result (λ o. IfSome o
        (LeadsTo work.now inputs.now kept.now (place_data_of at))) }
    ensures before { IfOk result (λ o. IfSome o (λ chain. chain.from.node < at.node)) }
{
    work.is_sound();
    match node_in(work, at.node) {
        Node::Each { kind, parent, expr } => {
            let from = Place {
                node: *parent,
                partition: at.partition,
            };
            let mut chain = chain_behind(alloc, work, inputs, kept, from)?;
            chain.steps.push(Step { kind: *kind, expr })?;
            Ok(Some(chain))
        }
        _ => Ok(None),
    }
}

/// The operations that end with the node of a partition, which is read by such a node: none, where
/// the partition is known or read by others too, or isn't of such a node.
#[cycle(chains)]
fn chain_behind<'a>(
    alloc: Global,
    work: &'a Work,
    inputs: &ShuffleInputs,
    kept: &KeptStreams,
    at: Place,
) -> Result<Chain<'a>, AllocError>
    requires node { at.node < length work.now.script.nodes }
    requires partition { at.partition < local_count work.now at.node }
    requires right { AreRight work.now inputs.now }
    requires made { HasMade inputs.now at.node }
    ensures leads { IfOk result (LeadsTo work.now inputs.now kept.now (place_data_of at)) }
    ensures before { IfOk result (λ chain. chain.from.node ≤ at.node) }
{
    if kept.passes(at)
        && let Some(chain) = chain_to(alloc, work, inputs, kept, at)?
    {
        return Ok(chain);
    }
    Ok(Chain {
        steps: Vec::new(alloc),
        from: at,
    })
}
