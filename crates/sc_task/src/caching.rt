//! Partitions that are taken from the store of an attempt's executor.
#![tactic(auto)]

ghost use Rattle.std.specs.Prelude.{◌≡◌, All, IfOk, IfSome, None, is_some, option_map};
ghost use Rattle.std.specs.List.{list_any};
ghost use Rattle.sc_lineage.specs.Views.{node_data_of, place_data_of};
ghost use Rattle.sc_compute.specs.Caching.{IsOwnPart, is_cache};
ghost use Rattle.sc_compute.specs.Stages.{AreRight};
ghost use Rattle.sc_compute.specs.Tasks.{HasAll, IsTargetOf, target_data_of};
ghost use Rattle.sc_net.specs.Tasks.{target_of_task};
ghost use Rattle.sc_store.specs.StoreData.{cached_in};
ghost use Rattle.sc_task.specs.Caches.{TakesCached, cached_id, has_cache};
ghost use Rattle.sc_task.specs.States.{HasReadAll};

use crate::computing::made_for;
use crate::keeping::name_of;
use sc_compute::{Asking, CachedPart, ShuffleInputs, TaskTarget};
use sc_lineage::{Node, Place, Work};
use sc_net::Task;
use sc_shuffle::MapOutput;
use sc_store::Store;
use sc_work::Naming;
use std::alloc::{AllocError, Global};

/// The partitions of cache nodes that a task needs and a store has, nearest to its target first.
/// Behind one that the store has nothing is looked at.
pub(crate) fn known_of<W: Naming>(
    alloc: Global,
    task: &Task<W>,
    got: &[MapOutput],
    store: &Store<W>,
) -> Result<Vec<CachedPart>, AllocError>
    requires all { HasReadAll W.work task.now got.now }
    ensures own { IfOk result (λ v. All (IsOwnPart W.work) v.items) }
    ensures takes { IfOk result (λ v. TakesCached W.work (target_of_task W.work task.now)
        store.now v.items) }
{
    task.is_task();
    let attempt = task.attempt();
    let shared = task.work();
    let work = shared.get();
    work.is_sound();
    let target = task
        .job()
        .task_target(shared, attempt.stage, attempt.partition);
    if !has_cache(work) {
        return Ok(Vec::new(alloc));
    }
    let stages = made_for(alloc, work, task, got, target)?;
    known_in(alloc, work, &stages, store, target)
}

/// Whether a work has a cache node.
fn has_cache(work: &Work) -> bool
    ensures { result ≡ has_cache work.now }
{
    any_cache(work.script().nodes())
}

/// Whether a node of some is a cache node.
fn any_cache(nodes: &[Node]) -> bool
    ensures { result ≡ list_any (λ n. is_cache (node_data_of n)) nodes.now }
{
    nodes.iter().any(|node| is_cache(node))
}

/// Whether a node is a cache node.
fn is_cache(node: &Node) -> bool
    ensures { result ≡ is_cache (node_data_of node.now) }
{
    matches!(node, Node::Cache { .. })
}

/// The partitions of cache nodes that a target needs and a store has, nearest to the target first,
/// where all that it needs was made.
fn known_in<W: Naming>(
    alloc: Global,
    work: &Work,
    stages: &ShuffleInputs,
    store: &Store<W>,
    target: TaskTarget<'_>,
) -> Result<Vec<CachedPart>, AllocError>
    requires named { work.now ≡ W.work }
    requires target { IsTargetOf work.now (target_data_of target) }
    requires right { AreRight work.now stages.now }
    requires made { HasAll work.now stages.now (target_data_of target) }
    ensures own { IfOk result (λ v. All (IsOwnPart work.now) v.items) }
    ensures takes { IfOk result (λ v. TakesCached work.now (target_data_of target.entry) store.now
        v.items) }
{
    let mut known = Vec::new(alloc);
    let mut asking = Asking::new(alloc, work, stages, target)?;
    while let Some(at) = asking.next(alloc, work, stages)? {
        match part_in(store, at)? {
            Some(part) => known.push(part)?,
            None => asking.behind(alloc, work, stages, at)?,
        }
    }
    Ok(known)
}

/// A partition, where a store has it cached.
fn part_in<W: Naming>(store: &Store<W>, at: Place) -> Result<Option<CachedPart>, AllocError>
    ensures own { IfOk result (λ found. IfSome found (IsOwnPart W.work)) }
    ensures at { IfOk result (λ found. IfSome found (λ part. part.at ≡ at)) }
    ensures rows { IfOk result (λ found. option_map (λ part. part.rows) found
        ≡ cached_in store.now (cached_id (place_data_of at))) }
{
    match store.peek_cached(name_of(at))? {
        Some(rows) => Ok(Some(CachedPart { at, rows })),
        None => Ok(None),
    }
}
