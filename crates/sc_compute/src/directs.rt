//! What a partition reads as it is, and what it gives of that.
#![tactic(auto)]

ghost use Rattle.std.specs.Prelude.{◌≡◌, ◌<◌, ◌++◌, All, IfOk, OnOk, Some, length, map};
ghost use Rattle.std.specs.Option.{option_map};
ghost use Rattle.sc_lineage.specs.Meaning.{local_stream};
ghost use Rattle.sc_lineage.specs.Views.{place_data_of};
ghost use Rattle.sc_compute.specs.Reading.{HasOwn, ReadsFrom, direct_reads, own_place};
ghost use Rattle.sc_compute.specs.Stages.{AreRight, HasMade, local_count, made_in};

use crate::nodes::node_in;
use crate::shuffles::{ReadFrom, met, shuffled};
use crate::stages::{Input, ShuffleInputs, Sides};
use sc_lineage::{Node, NodeId, Place, Stream, Work, reads};
use sc_ops::run_node;
use std::alloc::{AllocError, Global};

/// The partitions that a partition reads as they are, in order: what goes through a shuffle isn't.
/// Each is one of an earlier node, so what follows them comes to an end.
pub fn places_read(
    alloc: Global,
    work: &Work,
    stages: &ShuffleInputs,
    at: Place,
) -> Result<Vec<Place>, AllocError>
    requires node { at.node < length work.now.script.nodes }
    requires partition { at.partition < local_count work.now at.node }
    requires right { AreRight work.now stages.now }
    requires made { HasMade stages.now at.node }
    ensures places { IfOk result (λ v. map place_data_of v.items
        ≡ direct_reads work.now at.node at.partition) }
    ensures before { IfOk result (λ v. All (λ q. q.node < at.node) v.items) }
    ensures within { IfOk result
        (λ v. All (λ q. q.partition < local_count work.now q.node) v.items) }
    ensures made { IfOk result (λ v. All (λ q. HasMade stages.now q.node) v.items) }
{
    work.is_sound();
    direct_places(alloc, work, stages, at)
}

/// The same places, by what was made of the node's sides.
fn direct_places(
    alloc: Global,
    work: &Work,
    stages: &ShuffleInputs,
    at: Place,
) -> Result<Vec<Place>, AllocError>
    requires node { at.node < length work.now.script.nodes }
    requires partition { at.partition < local_count work.now at.node }
    requires right { AreRight work.now stages.now }
    requires made { HasMade stages.now at.node }
    ensures { IfOk result (λ v. map place_data_of v.items
        ≡ direct_reads work.now at.node at.partition) }
{
    work.is_sound();
    let p = at.partition;
    let node = node_in(work, at.node);
    match (made_for(stages, at.node), node) {
        (Sides::One(input), Node::Shuffle { parent, .. }) => {
            let mut places = Vec::new(alloc);
            push_own(&mut places, input, *parent, p)?;
            Ok(places)
        }
        (Sides::Two(first, second), Node::Meet { left, right, .. }) => {
            let mut places = Vec::new(alloc);
            push_own(&mut places, first, *left, p)?;
            push_own(&mut places, second, *right, p)?;
            Ok(places)
        }
        (Sides::Narrow, narrow) => reads(alloc, narrow, stages.counts(), p),
        _ => unreachable!(),
    }
}

/// What the sides of a node are read from, for which all was made.
fn made_for(stages: &ShuffleInputs, node: NodeId) -> &Sides
    requires made { HasMade stages.now node }
    ensures { made_in stages.now node ≡ Some result.now }
{
    match stages.sides(node) {
        Some(sides) => sides,
        None => unreachable!(),
    }
}

/// Adds the parent's partition of the same number, where the rows already lie as the shuffle asks.
fn push_own(
    places: &mut Vec<Place>,
    input: &Input,
    node: NodeId,
    partition: u32,
) -> Result<(), AllocError>
    ensures { OnOk result (map place_data_of places.new.items
        ≡ map place_data_of places.old.items ++ own_place input.now node partition) }
{
    match input {
        Input::Own => {
            places.push(Place { node, partition })?;
            Ok(())
        }
        Input::Dealt(_) => Ok(()),
    }
}

/// The stream of a partition, from those that it reads as they are.
pub fn stream_of(
    alloc: Global,
    work: &Work,
    stages: &ShuffleInputs,
    at: Place,
    inputs: &[Stream],
) -> Result<Stream, AllocError>
    requires node { at.node < length work.now.script.nodes }
    requires partition { at.partition < local_count work.now at.node }
    requires right { AreRight work.now stages.now }
    requires made { HasMade stages.now at.node }
    requires inputs { inputs.now ≡ map (λ q. local_stream work.now q.node q.partition)
        (direct_reads work.now at.node at.partition) }
    ensures { IfOk result (λ s. s ≡ local_stream work.now at.node at.partition) }
{
    work.is_sound();
    let p = at.partition;
    let node = node_in(work, at.node);
    match (made_for(stages, at.node), node) {
        (
            Sides::One(input),
            Node::Shuffle {
                kind,
                partitions,
                ..
            },
        ) => {
            let from = read_from(input, inputs.first());
            shuffled(alloc, kind, *partitions, from, p)
        }
        (
            Sides::Two(first, second),
            Node::Meet {
                kind,
                partitions,
                ..
            },
        ) => {
            let left = read_from(first, inputs.first());
            let right = read_from(second, inputs.last());
            met(alloc, *kind, *partitions, left, right, p)
        }
        (Sides::Narrow, _) => run_node(alloc, work, at.node, p, inputs),
        _ => unreachable!(),
    }
}

/// What a partition reads of a parent, where `own` is the parent's partition of the same number if
/// that is read.
fn read_from<'a>(input: &'a Input, own: Option<&'a Stream>) -> ReadFrom<'a>
    requires { HasOwn input.now (option_map (λ s. s.now) own) }
    ensures { ReadsFrom input.now (option_map (λ s. s.now) own.entry) result }
{
    match input {
        Input::Own => match own {
            Some(stream) => ReadFrom::Own(stream),
            None => unreachable!(),
        },
        Input::Dealt(dealt) => ReadFrom::Dealt(dealt),
    }
}
