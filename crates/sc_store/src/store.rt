//! The store.
#![tactic(auto)]

ghost use Rattle.std.specs.Prelude.{◌≡◌, ◌<◌, [], IfOk, IfSome, OnErr, OnOk};
ghost use Rattle.sc_cache.specs.Caches.{cache_data, with_kept, with_used, without_last};
ghost use Rattle.sc_store.specs.OwnBlocks.{IsOwnPartition};
ghost use Rattle.sc_store.specs.StoreData.{HoldsOwn, cached_in, store_data, with_cache};
ghost use Rattle.sc_store.specs.Storing.{Fetches, IsWipe, Puts, Wipes};

use crate::answers::{FetchAnswer, PutReceipt, WipeAnswer};
use crate::blocks::Block;
use sc_cache::{BlockCache, CachedId};
use sc_columns::Rows;
use sc_ids::{BlockId, ExecId, Generation, Loc};
use sc_plan::Order;
use sc_shuffle::MapOutput;
use sc_work::{Naming, SharedWork};
use std::alloc::{AllocError, Global};
use std::collections::HashMap;
use std::marker::Model;

/// The blocks of an executor, at a generation.
#[derive(Drop)]
pub struct Store<W: Naming> {
    work: SharedWork<W>,
    exec: ExecId,
    generation: Generation,
    blocks: HashMap<BlockId, MapOutput>,
    cache: BlockCache<Rows>,
}

impl<W: Naming> Model for Store<W> {
    ghost use Rattle.sc_store.specs.StoreData.{HoldsOwn, StoreData, store_code, store_data};

    ghost Value = { StoreData };

    ghost coded = { store_code };

    ghost view = { λ s. store_data s.exec s.generation s.blocks.entries s.cache };

    ghost invariant = { λ s. HoldsOwn W.work
        (store_data s.exec s.generation s.blocks.entries s.cache) };
}

impl<W: Naming> Store<W> {
    /// An empty store at generation 0, whose cache takes so many blocks. A refused call lets its
    /// share of the work go.
    pub fn make(
        alloc: Global,
        work: SharedWork<W>,
        exec: ExecId,
        cache: u32,
    ) -> Result<Store<W>, AllocError>
        requires some { 0 < cache }
        ensures { IfOk result (λ s. s ≡ store_data exec 0 [] (cache_data [] cache)) }
    {
        Ok(Store {
            work,
            exec,
            generation: 0,
            blocks: HashMap::new(alloc),
            cache: BlockCache::new(alloc, cache)?,
        })
    }

    /// The work.
    pub fn work(&self) -> &SharedWork<W>
        ensures { result.now ≡ W.work }
    {
        self.work.is_named();
        &self.work
    }

    /// The executor.
    pub fn exec(&self) -> ExecId
        ensures { result ≡ self.now.exec }
    {
        self.exec
    }

    /// The generation that it stands at.
    pub fn generation(&self) -> Generation
        ensures { result ≡ self.now.generation }
    {
        self.generation
    }

    /// What it holds is right by its type.
    pub fn holds_own(&self)
        ensures { HoldsOwn W.work self.now }
    {
        let _ = &self.blocks;
    }

    /// Keeps a block, which takes the place of one of its name. A refused call changes nothing in
    /// the store, and the block is lost.
    pub fn put(&mut self, block: Block<W>) -> Result<PutReceipt, AllocError>
        ensures receipt { IfOk result (λ r. r.generation ≡ self.old.generation) }
        ensures puts { OnOk result (Puts self.old block self.new) }
        ensures refused { OnErr result (self.new ≡ self.old) }
    {
        let (id, output) = block.into_parts();
        self.blocks.insert(id, output)?;
        Ok(PutReceipt {
            generation: self.generation,
        })
    }

    /// The block of a name, which was put at the generation of a location, or why there is none.
    pub fn fetch(&self, id: BlockId, loc: Loc) -> Result<FetchAnswer<W>, AllocError>
        requires own { loc.exec ≡ self.now.exec }
        ensures { IfOk result (Fetches self.now id loc.generation) }
    {
        if loc.generation < self.generation {
            return Ok(FetchAnswer::Gone {
                wanted: loc.generation,
                found: self.generation,
            });
        }
        match self.blocks.get(&id) {
            Some(output) => Ok(FetchAnswer::Found(Block::new(id, output.share()?))),
            None => Ok(FetchAnswer::Absent),
        }
    }

    /// Carries out an order to wipe, unless it was wiped by that order before, or by a later one.
    pub fn wipe(&mut self, order: Order) -> WipeAnswer
        requires own { order.exec ≡ self.old.exec }
        requires wipes { IsWipe order.kind }
        ensures { Wipes self.old order.number result self.new }
    {
        let generation = self.generation;
        if order.number <= generation {
            return WipeAnswer::Stale { generation };
        }
        self.generation = order.number;
        self.blocks.clear();
        self.cache.clear();
        WipeAnswer::Wiped {
            generation: order.number,
        }
    }

    /// The rows of a cached block, where there is one, which isn't counted as a use of it.
    pub fn peek_cached(&self, id: CachedId) -> Result<Option<Rows>, AllocError>
        ensures found { IfOk result (λ found. found ≡ cached_in self.now id) }
        ensures own { IfOk result (λ found. IfSome found (IsOwnPartition W.work id)) }
    {
        match self.cache.peek(id) {
            Some(rows) => Ok(Some(rows.share()?)),
            None => Ok(None),
        }
    }

    /// A cached block becomes the most recently used, where there is one of the name.
    pub fn mark_used(&mut self, id: CachedId)
        ensures { self.new ≡ with_cache self.old (with_used self.old.cache id) }
    {
        let _ = self.cache.get(id);
    }

    /// The rows of a cached block, where there is one, which becomes the most recently used. A
    /// refused call changes nothing.
    pub fn cached(&mut self, id: CachedId) -> Result<Option<Rows>, AllocError>
        ensures found { IfOk result (λ found. found ≡ cached_in self.old id) }
        ensures own { IfOk result (λ found. IfSome found (IsOwnPartition W.work id)) }
        ensures used { OnOk result (self.new ≡ with_cache self.old (with_used self.old.cache id)) }
        ensures refused { OnErr result (self.new ≡ self.old) }
    {
        let found = self.peek_cached(id)?;
        self.mark_used(id);
        Ok(found)
    }

    /// Caches a partition, as the most recently used block. Where the cache was full and lacked the
    /// name, the least recently used goes. A refused call changes nothing in the store, and the
    /// rows are lost.
    pub fn keep(&mut self, id: CachedId, rows: Rows) -> Result<(), AllocError>
        requires own { IsOwnPartition W.work id rows }
        ensures kept { OnOk result
            (self.new ≡ with_cache self.old (with_kept self.old.cache id rows)) }
        ensures refused { OnErr result (self.new ≡ self.old) }
    {
        self.cache.is_sound();
        self.cache.keep(id, rows)?;
        Ok(())
    }

    /// Lets the least recently used cached block go, where there is one.
    pub fn evict(&mut self)
        ensures { self.new ≡ with_cache self.old (without_last self.old.cache) }
    {
        self.cache.is_sound();
        let _ = self.cache.evict_last();
    }
}
