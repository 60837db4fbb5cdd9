//! Partitions of cache nodes.
#![tactic(auto)]

ghost use Rattle.std.specs.Prelude.{◌≡◌, ◌<◌, ◌++◌, [], ◌∷◌, All, None, OnOk, length, map, true};
ghost use Rattle.sc_lineage.specs.Meaning.{local_stream};
ghost use Rattle.sc_lineage.specs.ScriptData.{WorkData};
ghost use Rattle.sc_lineage.specs.Streams.{whole_stream};
ghost use Rattle.sc_lineage.specs.Views.{place_data_of};
ghost use Rattle.sc_compute.specs.Caching.{AreOwn, IsCachedPart, IsOwnPart, is_cache};
ghost use Rattle.sc_compute.specs.Needs.{NotesOne, places_noted};
ghost use Rattle.sc_compute.specs.Stages.{node_at};

use crate::nodes::node_in;
use sc_columns::Rows;
use sc_lineage::{Node, Place, Stream, Work};
use std::alloc::{AllocError, Global};

/// The rows of a partition, which doesn't raise.
#[derive(Drop)]
pub struct CachedPart {
    /// The partition.
    pub at: Place,
    /// Its rows.
    pub rows: Rows,
}

/// What is known of partitions while a target is computed, and which of cache nodes were computed.
#[derive(Drop)]
pub struct Caching<'a> {
    /// Those that needn't be computed.
    known: &'a [CachedPart],
    /// Those of cache nodes that were computed.
    fresh: Vec<CachedPart>,
}

impl<'a> Caching<'a> {
    /// Nothing was computed yet.
    pub fn new(alloc: Global, known: &'a [CachedPart]) -> Caching<'a>
        ensures own { (work : WorkData) → All (IsOwnPart work) known.now → AreOwn work result }
        ensures known { result.known.now ≡ known.now }
        ensures none { places_noted result ≡ [] }
    {
        Caching {
            known,
            fresh: Vec::new(alloc),
        }
    }

    /// The partitions that needn't be computed.
    pub fn known(&self) -> &[CachedPart]
        ensures own { (work : WorkData) → AreOwn work self.now → All (IsOwnPart work) result.now }
        ensures known { result.now ≡ self.now.known.now }
    {
        self.known
    }

    /// Notes the stream of a partition, where it is one of a cache node and doesn't raise.
    pub fn note(&mut self, work: &Work, at: Place, stream: &Stream) -> Result<(), AllocError>
        requires node { at.node < length work.now.script.nodes }
        requires stream { stream.now ≡ local_stream work.now at.node at.partition }
        requires own { AreOwn work.now self.old }
        ensures own { AreOwn work.now self.new }
        ensures notes { OnOk result (NotesOne work.now (place_data_of at) self.old self.new) }
    {
        if stream.raise.is_some() {
            return Ok(());
        }
        match node_in(work, at.node) {
            Node::Cache { .. } => self.push(work, at, stream.rows.share()?),
            _ => Ok(()),
        }
    }

    /// Notes the rows of a partition.
    fn push(&mut self, work: &Work, at: Place, rows: Rows) -> Result<(), AllocError>
        requires cache { is_cache (node_at work.now at.node) ≡ true }
        requires rows { local_stream work.now at.node at.partition ≡ whole_stream rows }
        requires own { AreOwn work.now self.old }
        ensures own { AreOwn work.now self.new }
        ensures known { self.new.known.now ≡ self.old.known.now }
        ensures one { OnOk result
            (places_noted self.new ≡ places_noted self.old ++ place_data_of at ∷ []) }
    {
        self.fresh.push(CachedPart { at, rows })?;
        Ok(())
    }

    /// The partitions of cache nodes that were computed.
    pub fn fresh(self) -> Vec<CachedPart>
        ensures own { (work : WorkData) → AreOwn work self.entry
            → All (IsCachedPart work) result.items }
        ensures noted { result.items ≡ self.entry.fresh.items }
    {
        self.fresh
    }
}
