//! The numbers of a job's map stages.
#![tactic(auto)]

ghost use Rattle.std.specs.Prelude.{◌≡◌, ◌<◌, ◌+◌, ◌++◌, [], ◌∷◌, IfOk, OnOk, filter, if◌then◌else◌, length};
ghost use Rattle.sc_stagecut.specs.Cuts.{AreNumbers};
ghost use Rattle.sc_stagecut.specs.Marking.{is_fresh, is_marked};
ghost use Rattle.sc_stagecut.specs.Numbering.{is_shuffle, mapped_node, numbered_from, sides_below};

use crate::carried::{Carried, Numbered};
use crate::reached::{is_marked, reached};
use crate::reads::{Follow, read_at};
use sc_ids::{ShuffleId, StageId};
use sc_lineage::{NodeId, Script};
use std::alloc::{AllocError, Global};

/// The map stages of a job, in the order of their numbers, and the number of its result stage.
#[derive(Drop)]
pub(crate) struct JobNumbers {
    /// The map stages.
    pub(crate) stages: Vec<Numbered>,
    /// The number behind them.
    pub(crate) next: u64,
}

/// The numbers of the stages of a job that begins at a node.
pub(crate) fn numbers(
    alloc: Global,
    script: &Script,
    node: NodeId,
    carried: &Carried,
) -> Result<JobNumbers, AllocError>
    requires { node < length script.now.nodes }
    ensures { IfOk result (λ n.
        AreNumbers script.now.nodes carried.now node n.stages.items n.next) }
{
    let marks = reached(alloc, script, node, Follow::Every)?;
    let mut stages = marked(alloc, carried.stages(), marks.as_slice())?;
    let fresh = fresh(alloc, script, node, marks.as_slice(), carried)?;
    let next = number(&mut stages, fresh.as_slice(), carried.next())?;
    Ok(JobNumbers { stages, next })
}

/// Those of some numbered shuffles whose nodes are marked.
pub(crate) fn marked(
    alloc: Global,
    numbered: &[Numbered],
    marks: &[bool],
) -> Result<Vec<Numbered>, AllocError>
    ensures { IfOk result (λ v. v.items
        ≡ filter (λ n. is_marked marks.now n.shuffle.node) numbered.now) }
{
    let mut those = Vec::new(alloc);
    for one in numbered {
        if is_marked(marks, one.shuffle.node as usize) {
            those.push(*one)?;
        }
    }
    Ok(those)
}

/// The shuffles of marked nodes that have no number, in the order of node and side.
fn fresh(
    alloc: Global,
    script: &Script,
    last: NodeId,
    marks: &[bool],
    carried: &Carried,
) -> Result<Vec<ShuffleId>, AllocError>
    ensures { IfOk result (λ v. v.items ≡ filter
        (is_fresh script.now.nodes marks.now carried.now.stages) (sides_below (last + 1))) }
{
    let mut fresh = Vec::new(alloc);
    for node in 0..u64::from(last) + 1 {
        let node = node as u32;
        let left = ShuffleId { node, side: 0 };
        push_if(&mut fresh, left, is_fresh(script, marks, carried, left))?;
        let right = ShuffleId { node, side: 1 };
        push_if(&mut fresh, right, is_fresh(script, marks, carried, right))?;
    }
    Ok(fresh)
}

/// Adds a shuffle behind others, where it is to be.
fn push_if(shuffles: &mut Vec<ShuffleId>, shuffle: ShuffleId, is: bool) -> Result<(), AllocError>
    ensures { OnOk result (shuffles.new.items
        ≡ shuffles.old.items ++ (if is then shuffle ∷ [] else [])) }
{
    if is {
        shuffles.push(shuffle)?;
    }
    Ok(())
}

/// Whether a side is a shuffle of a marked node and has no number.
fn is_fresh(script: &Script, marks: &[bool], carried: &Carried, side: ShuffleId) -> bool
    ensures { result ≡ is_fresh script.now.nodes marks.now carried.now.stages side }
{
    is_marked(marks, side.node as usize) && is_shuffle(script, side) && !carried.has_number(side)
}

/// Whether a side of a node is a shuffle.
fn is_shuffle(script: &Script, side: ShuffleId) -> bool
    ensures { result ≡ is_shuffle script.now.nodes side }
{
    match read_at(script, side.node as usize, side.side) {
        Some(read) => read.is_shuffled,
        None => false,
    }
}

/// The node whose partitions the map tasks of a shuffle take.
pub(crate) fn mapped_node(script: &Script, shuffle: ShuffleId) -> NodeId
    ensures { result ≡ mapped_node script.now.nodes shuffle }
{
    match read_at(script, shuffle.node as usize, shuffle.side) {
        Some(read) => read.parent,
        None => 0,
    }
}

/// Gives shuffles the next numbers behind others; gives the number behind these.
fn number(numbered: &mut Vec<Numbered>, fresh: &[ShuffleId], first: u64) -> Result<u64, AllocError>
    ensures stages { OnOk result (numbered.new.items
        ≡ numbered.old.items ++ numbered_from first fresh.now) }
    ensures next { IfOk result (λ n. n ≡ first + length fresh.now) }
{
    let mut next = first;
    for shuffle in fresh {
        let stage = stage_id(next)?;
        numbered.push(Numbered {
            shuffle: *shuffle,
            stage,
        })?;
        next += 1;
    }
    Ok(next)
}

/// A number as one of a stage; one past its type is refused as want of memory.
pub(crate) fn stage_id(number: u64) -> Result<StageId, AllocError>
    ensures { IfOk result (λ id. id ≡ number) }
{
    if number > u64::from(u32::MAX) {
        return Err(AllocError);
    }
    Ok(number as u32)
}
