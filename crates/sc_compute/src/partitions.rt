//! A partition, with all that it reads.
#![tactic(auto)]

ghost use Rattle.std.specs.Prelude.{◌≡◌, ◌<◌, All, IfOk, OnOk, false, length, map};
ghost use Rattle.sc_lineage.specs.Meaning.{local_stream};
ghost use Rattle.sc_lineage.specs.Views.{place_data_of};
ghost use Rattle.sc_compute.specs.Caching.{AreOwn};
ghost use Rattle.sc_compute.specs.Keeping.{KeepsRight, is_known};
ghost use Rattle.sc_compute.specs.Needs.{AreNoted, KnowsJust, Notes, NotesReads};
ghost use Rattle.sc_compute.specs.Reading.{direct_reads};
ghost use Rattle.sc_compute.specs.Stages.{AreRight, HasMade, local_count};

use crate::caching::Caching;
use crate::chains::chain_to;
use crate::directs::{places_read, stream_of};
use crate::kept::KeptStreams;
use crate::stages::ShuffleInputs;
use sc_lineage::{Place, Stream, Work};
use sc_ops::run_chain;
use std::alloc::{AllocError, Global};

/// The stream of a partition of a node for which all was made, for which each partition that it
/// reads is computed once, and those that are known aren't computed. What is computed of cache
/// nodes is noted.
pub fn cached_stream(
    alloc: Global,
    work: &Work,
    inputs: &ShuffleInputs,
    caching: &mut Caching<'_>,
    at: Place,
) -> Result<Stream, AllocError>
    requires node { at.node < length work.now.script.nodes }
    requires partition { at.partition < local_count work.now at.node }
    requires right { AreRight work.now inputs.now }
    requires made { HasMade inputs.now at.node }
    requires own { AreOwn work.now caching.old }
    ensures own { AreOwn work.now caching.new }
    ensures notes { OnOk result (Notes work.now (place_data_of at) caching.old caching.new) }
    ensures stream { IfOk result (λ s. s ≡ local_stream work.now at.node at.partition) }
{
    let mut kept = KeptStreams::new(alloc, work, at.node, caching.known())?;
    stream_at(alloc, work, inputs, &mut kept, caching, at)
}

/// The stream of a partition, where some streams are kept that were computed before.
#[cycle(computing)]
fn stream_at(
    alloc: Global,
    work: &Work,
    inputs: &ShuffleInputs,
    kept: &mut KeptStreams,
    caching: &mut Caching<'_>,
    at: Place,
) -> Result<Stream, AllocError>
    requires node { at.node < length work.now.script.nodes }
    requires partition { at.partition < local_count work.now at.node }
    requires right { AreRight work.now inputs.now }
    requires made { HasMade inputs.now at.node }
    requires kept { KeepsRight work.now kept.old }
    requires knows { KnowsJust kept.old caching.old.known.now }
    requires noted { AreNoted work.now kept.old caching.old }
    requires own { AreOwn work.now caching.old }
    ensures kept { KeepsRight work.now kept.new }
    ensures known { kept.new.known ≡ kept.old.known }
    ensures noted { OnOk result (AreNoted work.now kept.new caching.new) }
    ensures own { AreOwn work.now caching.new }
    ensures notes { OnOk result (Notes work.now (place_data_of at) caching.old caching.new) }
    ensures stream { IfOk result (λ s. s ≡ local_stream work.now at.node at.partition) }
{
    if kept.has(at) {
        return kept.take(at);
    }
    let stream = computed(alloc, work, inputs, kept, caching, at)?;
    kept.keep(at, &stream)?;
    caching.note(work, at, &stream)?;
    Ok(stream)
}

/// The stream of a partition that isn't known, from those that are read for it. Operations row by
/// row that follow one another are done together.
#[cycle(computing)]
fn computed(
    alloc: Global,
    work: &Work,
    inputs: &ShuffleInputs,
    kept: &mut KeptStreams,
    caching: &mut Caching<'_>,
    at: Place,
) -> Result<Stream, AllocError>
    requires node { at.node < length work.now.script.nodes }
    requires partition { at.partition < local_count work.now at.node }
    requires right { AreRight work.now inputs.now }
    requires made { HasMade inputs.now at.node }
    requires kept { KeepsRight work.now kept.old }
    requires knows { KnowsJust kept.old caching.old.known.now }
    requires noted { AreNoted work.now kept.old caching.old }
    requires own { AreOwn work.now caching.old }
    requires lacks { is_known kept.old (place_data_of at) ≡ false }
    ensures kept { KeepsRight work.now kept.new }
    ensures known { kept.new.known ≡ kept.old.known }
    ensures noted { OnOk result (AreNoted work.now kept.new caching.new) }
    ensures own { AreOwn work.now caching.new }
    ensures notes { OnOk result (NotesReads work.now (place_data_of at)
        caching.old caching.new (direct_reads work.now at.node at.partition)) }
    ensures stream { IfOk result (λ s. s ≡ local_stream work.now at.node at.partition) }
{
    if let Some(chain) = chain_to(alloc, work, inputs, kept, at)? {
        let input = stream_at(alloc, work, inputs, kept, caching, chain.from)?;
        return run_chain(alloc, &chain.steps, &input);
    }
    let places = places_read(alloc, work, inputs, at)?;
    let mut streams = Vec::with_capacity(alloc, places.len())?;
    for place in &places {
        streams.push(stream_at(alloc, work, inputs, kept, caching, *place)?)?;
    }
    stream_of(alloc, work, inputs, at, &streams)
}
