//! What executors keep of cache nodes.
#![tactic(auto)]

ghost use Rattle.std.specs.Prelude.{◌<◌};

use crate::cache_reads::{cache_reads, place_of};
use sc_cache::BlockCache;
use sc_ids::{AttemptId, ExecId, Limits};
use sc_lineage::{NodeId, Place, Script};
use sc_plan::Plan;
use std::alloc::{AllocError, Global};

/// How often partitions of cache nodes were used that an executor kept, and how often they were
/// computed, by tasks that didn't fail.
#[derive(Clone, Copy)]
pub struct CacheUses {
    pub(crate) used: u64,
    pub(crate) computed: u64,
}

impl CacheUses {
    /// None.
    pub(crate) fn none() -> CacheUses {
        CacheUses {
            used: 0,
            computed: 0,
        }
    }

    /// Some more.
    pub(crate) fn add(&mut self, more: CacheUses) {
        self.used = self.used.saturating_add(more.used);
        self.computed = self.computed.saturating_add(more.computed);
    }
}

/// An executor: what it keeps, and the attempt that it is at.
#[derive(Drop)]
pub(crate) struct Keeper {
    cache: BlockCache<()>,
    pub(crate) attempt: Option<AttemptId>,
    /// How often its store was wiped.
    wipes: u64,
    /// How often it was to let a partition go.
    evicts: u64,
}

/// The executors of a run, as it begins.
pub(crate) fn keepers(alloc: Global, limits: Limits) -> Result<Vec<Keeper>, AllocError>
    requires { 0 < limits.cache }
{
    let mut keepers = Vec::new(alloc);
    for _ in 0..limits.executors {
        keepers.push(Keeper {
            cache: BlockCache::new(alloc, limits.cache)?,
            attempt: None,
            wipes: 0,
            evicts: 0,
        })?;
    }
    Ok(keepers)
}

impl Keeper {
    /// The executor of a number has its store wiped, and lets partitions go, as far as that is due
    /// once so many reports were told.
    pub(crate) fn obey(&mut self, plan: &Plan, exec: ExecId, told: u64) {
        let evicts = plan.due_evicts(exec, told);
        for _ in self.evicts..evicts {
            let _ = self.cache.evict_last();
        }
        self.evicts = evicts;
        let wipes = plan.due_wipes(exec, told);
        if self.wipes < wipes {
            self.cache.clear();
        }
        self.wipes = wipes;
    }

    /// The executor has kept what its attempt left to keep that computes a partition of a node,
    /// which counts once.
    pub(crate) fn end(
        &mut self,
        alloc: Global,
        script: &Script,
        attempt: AttemptId,
        node: NodeId,
    ) -> Result<CacheUses, AllocError> {
        if self.attempt != Some(attempt) {
            return Ok(CacheUses::none());
        }
        self.attempt = None;
        let partition = attempt.partition;
        self.keep(alloc, script, Place { node, partition })
    }

    /// The cache of the executor as a task leaves it that has computed a partition.
    fn keep(&mut self, alloc: Global, script: &Script, at: Place) -> Result<CacheUses, AllocError> {
        let mut uses = CacheUses::none();
        let mut reads = cache_reads(alloc, script, &self.cache, at)?;
        for _ in 0..reads.used.len() {
            if let Some(number) = reads.used.pop_last() {
                let _ = self.cache.get(place_of(number));
                uses.used = uses.used.saturating_add(1);
            }
        }
        for number in reads.computed.as_slice() {
            let _ = self.cache.keep(place_of(*number), ())?;
            uses.computed = uses.computed.saturating_add(1);
        }
        Ok(uses)
    }
}
