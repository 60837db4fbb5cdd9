//! Partitions that are kept in the store of an attempt's executor.
#![tactic(auto)]

ghost use Rattle.std.specs.Prelude.{ℕ, ◌≡◌, ◌<◌, All, OnErr, OnOk, length, take};
ghost use Rattle.sc_cache.specs.Caches.{with_kept};
ghost use Rattle.sc_compute.specs.Caching.{IsCachedPart};
ghost use Rattle.sc_lineage.specs.Views.{place_data_of};
ghost use Rattle.sc_store.specs.StoreData.{with_cache};
ghost use Rattle.sc_task.specs.Caches.{KeepsEach, KeepsSome, cached_id, with_each_kept, with_each_used};

use sc_cache::CachedId;
use sc_compute::CachedPart;
use sc_lineage::Place;
use sc_store::Store;
use sc_work::Naming;
use std::alloc::AllocError;

/// Partitions that were used become the most recently used of a store, in order, and others are
/// kept there then, one after another. A refused call has kept the first of them alone.
pub(crate) fn keep_all<W: Naming>(
    store: &mut Store<W>,
    used: &[CachedPart],
    fresh: &[CachedPart],
) -> Result<(), AllocError>
    requires own { All (IsCachedPart W.work) fresh.now }
    ensures keeps { OnOk result (KeepsEach used.now fresh.now store.old store.new) }
    ensures refused { OnErr result (KeepsSome used.now fresh.now store.old store.new) }
{
    mark_used(store, used);
    keep_each(store, fresh)
}

/// Partitions become the most recently used of a store, in order.
fn mark_used<W: Naming>(store: &mut Store<W>, used: &[CachedPart])
    ensures { store.new ≡ with_cache store.old (with_each_used store.old.cache used.now) }
{
    for part in used {
        store.mark_used(name_of(part.at));
    }
}

/// Keeps partitions in a store, one after another. A refused call has kept the first of them alone,
/// and not all.
fn keep_each<W: Naming>(store: &mut Store<W>, fresh: &[CachedPart]) -> Result<(), AllocError>
    requires own { All (IsCachedPart W.work) fresh.now }
    ensures kept { OnOk result
        (store.new ≡ with_cache store.old (with_each_kept store.old.cache fresh.now)) }
    ensures refused { OnErr result ((n : ℕ) × (n < length fresh.now)
        × (store.new ≡ with_cache store.old (with_each_kept store.old.cache (take n fresh.now)))) }
{
    for part in fresh {
        keep(store, part)?;
    }
    Ok(())
}

/// Keeps a partition in a store. A refused call changes nothing.
fn keep<W: Naming>(store: &mut Store<W>, part: &CachedPart) -> Result<(), AllocError>
    requires own { IsCachedPart W.work part.now }
    ensures kept { OnOk result (store.new ≡ with_cache store.old
        (with_kept store.old.cache (cached_id (place_data_of part.now.at)) part.now.rows)) }
    ensures refused { OnErr result (store.new ≡ store.old) }
{
    store.keep(name_of(part.at), part.rows.share()?)
}

/// What a partition is called in a cache.
pub(crate) fn name_of(at: Place) -> CachedId
    ensures { result ≡ cached_id (place_data_of at) }
{
    CachedId {
        node: at.node,
        partition: at.partition,
    }
}
