//! Streams that several dependencies read.
#![tactic(auto)]

ghost use Rattle.std.specs.Prelude.{◌≡◌, ◌||◌, All, IfOk, IfSome, IsTrue, OnOk, false, is_some, true};
ghost use Rattle.std.specs.HashMap.{get};
ghost use Rattle.sc_lineage.specs.Meaning.{local_stream};
ghost use Rattle.sc_lineage.specs.ScriptData.{WorkData};
ghost use Rattle.sc_lineage.specs.Views.{place_data_of};
ghost use Rattle.sc_compute.specs.Caching.{IsOwnPart};
ghost use Rattle.sc_compute.specs.Keeping.{AreOwnRows, Keeps, KeepsRight, Lessens, is_kept, is_known, same_place};
ghost use Rattle.sc_compute.specs.Needs.{HasJust, KeepsNone, KnowsJust};

use crate::caching::CachedPart;
use crate::readers::readers;
use sc_columns::Rows;
use sc_lineage::{NodeId, Place, Stream, Work};
use sc_ops::share_stream;
use std::alloc::{AllocError, Global};
use std::collections::HashMap;

/// A stream that is to be read again.
#[derive(Drop)]
pub struct Kept {
    stream: Stream,
    /// How often it is still to be read.
    left: u32,
}

/// The streams that needn't be computed: those that are known, and of those nodes that several
/// dependencies read each from when it is computed until it is read for the last time.
#[derive(Drop)]
pub struct KeptStreams {
    /// How many dependencies read each node.
    readers: Vec<u32>,
    /// By node and partition, the rows that are known, however often they are read.
    known: HashMap<(NodeId, u32), Rows>,
    /// By node and partition.
    streams: HashMap<(NodeId, u32), Kept>,
}

impl KeptStreams {
    /// What is known, and no other streams yet, of those that a target needs.
    pub fn new(
        alloc: Global,
        work: &Work,
        target: NodeId,
        known: &[CachedPart],
    ) -> Result<KeptStreams, AllocError>
        requires own { All (IsOwnPart work.now) known.now }
        ensures right { IfOk result (KeepsRight work.now) }
        ensures just { IfOk result (λ kept. KnowsJust kept known.now) }
        ensures none { IfOk result KeepsNone }
    {
        Ok(KeptStreams {
            readers: readers(alloc, work.script(), target)?,
            known: by_place(alloc, work, known)?,
            streams: HashMap::new(alloc),
        })
    }

    /// Whether the stream of a partition is known or kept.
    pub fn has(&self, at: Place) -> bool
        ensures { result ≡ (is_known self.now (place_data_of at)
            || is_kept self.now (place_data_of at)) }
    {
        self.knows(at) || self.streams.contains_key(&(at.node, at.partition))
    }

    /// Whether a partition is read by one dependency alone, and isn't known.
    pub fn passes(&self, at: Place) -> bool
        ensures { IsTrue result → is_known self.now (place_data_of at) ≡ false }
    {
        self.readers_of(at.node) < 2 && !self.has(at)
    }

    /// Whether the rows of a partition are known.
    fn knows(&self, at: Place) -> bool
        ensures { result ≡ is_known self.now (place_data_of at) }
    {
        self.known.contains_key(&(at.node, at.partition))
    }

    /// The stream of a partition that is known or kept: for good, where nothing is left to read it
    /// again, else a share of it. A refused call may leave it kept no longer.
    pub fn take(&mut self, at: Place) -> Result<Stream, AllocError>
        requires had { (is_known self.old (place_data_of at)
            || is_kept self.old (place_data_of at)) ≡ true }
        ensures right { (work : WorkData) → KeepsRight work self.old → KeepsRight work self.new }
        ensures stream { (work : WorkData) → KeepsRight work self.old
            → IfOk result (λ s. s ≡ local_stream work at.node at.partition) }
        ensures less { Lessens self.old self.new }
    {
        if self.knows(at) {
            self.share_known(at)
        } else {
            self.take_kept(at)
        }
    }

    /// A share of the rows of a partition that is known, as its stream.
    fn share_known(&self, at: Place) -> Result<Stream, AllocError>
        requires known { is_known self.now (place_data_of at) ≡ true }
        ensures { (work : WorkData) → KeepsRight work self.now
            → IfOk result (λ s. s ≡ local_stream work at.node at.partition) }
    {
        match self.known.get(&(at.node, at.partition)) {
            Some(rows) => Ok(Stream {
                rows: rows.share()?,
                raise: None,
            }),
            None => unreachable!(),
        }
    }

    /// The stream of a partition that is kept.
    fn take_kept(&mut self, at: Place) -> Result<Stream, AllocError>
        requires kept { is_kept self.old (place_data_of at) ≡ true }
        ensures right { (work : WorkData) → KeepsRight work self.old → KeepsRight work self.new }
        ensures stream { (work : WorkData) → KeepsRight work self.old
            → IfOk result (λ s. s ≡ local_stream work at.node at.partition) }
        ensures less { Lessens self.old self.new }
    {
        let Kept { stream, left } = self.remove(at);
        if left < 2 {
            return Ok(stream);
        }
        let shared = share_stream(&stream)?;
        let left = left - 1;
        self.insert(at, Kept { stream, left })?;
        Ok(shared)
    }

    /// Keeps the stream of a partition, where it is to be read again.
    pub fn keep(&mut self, at: Place, stream: &Stream) -> Result<(), AllocError>
        ensures right { (work : WorkData) → stream.now ≡ local_stream work at.node at.partition
            → KeepsRight work self.old → KeepsRight work self.new }
        ensures keeps { Keeps (place_data_of at) self.old self.new }
    {
        let readers = self.readers_of(at.node);
        if readers < 2 {
            return Ok(());
        }
        let stream = share_stream(stream)?;
        let left = readers - 1;
        self.insert(at, Kept { stream, left })
    }

    /// How many dependencies read a node.
    fn readers_of(&self, node: NodeId) -> u32 {
        match self.readers.get(node as usize) {
            Some(readers) => *readers,
            None => 0,
        }
    }

    /// What is kept of a partition, which it is then no longer.
    fn remove(&mut self, at: Place) -> Kept
        requires kept { is_kept self.old (place_data_of at) ≡ true }
        ensures right { (work : WorkData) → KeepsRight work self.old → KeepsRight work self.new }
        ensures stream { (work : WorkData) → KeepsRight work self.old
            → result.stream ≡ local_stream work at.node at.partition }
        ensures less { Lessens self.old self.new }
    {
        match self.streams.remove(&(at.node, at.partition)) {
            Some(kept) => kept,
            None => unreachable!(),
        }
    }

    /// Keeps the stream of a partition.
    fn insert(&mut self, at: Place, kept: Kept) -> Result<(), AllocError>
        ensures right { (work : WorkData) → kept.stream ≡ local_stream work at.node at.partition
            → KeepsRight work self.old → KeepsRight work self.new }
        ensures keeps { Keeps (place_data_of at) self.old self.new }
    {
        self.streams.insert((at.node, at.partition), kept)?;
        Ok(())
    }
}

/// The rows of partitions, by node and partition.
fn by_place(
    alloc: Global,
    work: &Work,
    parts: &[CachedPart],
) -> Result<HashMap<(NodeId, u32), Rows>, AllocError>
    requires own { All (IsOwnPart work.now) parts.now }
    ensures own { IfOk result (λ m. AreOwnRows work.now (get same_place m)) }
    ensures just { IfOk result (λ m. HasJust (get same_place m) parts.now) }
{
    let mut rows = HashMap::new(alloc);
    for part in parts {
        rows.insert((part.at.node, part.at.partition), part.rows.share()?)?;
    }
    Ok(rows)
}
