//! The cache.
#![tactic(auto)]

ghost use Rattle.std.specs.Prelude.{◌≡◌, ◌<◌, [], IfOk, OnErr, OnOk, length, option_copied, ◌==◌};
ghost use Rattle.std.specs.Borrow.{sem};
ghost use Rattle.sc_cache.specs.CacheLends.{ends_used};
ghost use Rattle.sc_cache.specs.Caches.{block_of, cache_data, displaced_by, IsSoundCache, last_used, with_kept, without_last};

use crate::names::CachedId;
use lru::LruCache;
use std::alloc::{AllocError, Global};
use std::marker::Model;
use std::num::NonZeroUsize;

/// Blocks of cached nodes under their names, as many as the limit says.
#[derive(Drop)]
pub struct BlockCache<V> {
    blocks: LruCache<CachedId, V>,
}

impl<V> Model for BlockCache<V> {
    ghost use Rattle.sc_cache.specs.Caches.{CacheData, cache_data};

    ghost Value = { CacheData V };

    ghost view = { λ c. cache_data c.blocks.entries c.blocks.cap };
}

impl<V> BlockCache<V> {
    /// A cache without a block, for so many of them at most.
    pub fn new(alloc: Global, limit: u32) -> Result<BlockCache<V>, AllocError>
        requires some { 0 < limit }
        ensures { IfOk result (λ c. c ≡ cache_data [] limit) }
    {
        match NonZeroUsize::new(limit as usize) {
            Some(limit) => Ok(BlockCache {
                blocks: LruCache::sparse(alloc, limit)?,
            }),
            None => unreachable!(),
        }
    }

    /// How many blocks there are.
    pub fn len(&self) -> usize
        ensures { result ≡ length self.now.blocks }
    {
        self.blocks.len()
    }

    /// Whether there is no block.
    pub fn is_empty(&self) -> bool
        ensures { result ≡ (length self.now.blocks == 0) }
    {
        self.blocks.is_empty()
    }

    /// The block of a name, which isn't counted as a use of it.
    pub fn peek(&self, id: CachedId) -> Option<&V>
        ensures { option_copied result ≡ block_of self.now id }
    {
        self.blocks.peek(&id)
    }

    /// What every cache keeps.
    pub fn is_sound(&self)
        ensures { IsSoundCache self.now }
    {
        let _ = self.blocks.len();
    }
}

impl<V: Drop> BlockCache<V> {
    /// The block of a name, which becomes the most recently used.
    pub fn get(&mut self, id: CachedId) -> Option<&V>
        ensures* used { sem 𝓛 (ends_used V.row self.entry id) }
        ensures found { option_copied result ≡ block_of self.old id }
    {
        self.blocks.get(&id)
    }

    /// Keeps a block, which becomes the most recently used and takes the place of one of its name.
    /// Where the cache was full and lacked the name, the least recently used goes and is answered.
    /// A refused call changes nothing in the cache, and the block is lost.
    pub fn keep(&mut self, id: CachedId, block: V) -> Result<Option<(CachedId, V)>, AllocError>
        ensures displaced { IfOk result (λ gone. gone ≡ displaced_by self.old id) }
        ensures kept { OnOk result (self.new ≡ with_kept self.old id block) }
        ensures refused { OnErr result (self.new ≡ self.old) }
    {
        self.is_sound();
        let is_new = !self.blocks.contains(&id);
        let gone = self.blocks.push(id, block)?;
        if is_new { Ok(gone) } else { Ok(None) }
    }

    /// Lets the least recently used block go, where there is one.
    pub fn evict_last(&mut self) -> Option<(CachedId, V)>
        ensures gone { result ≡ last_used self.old }
        ensures others { self.new ≡ without_last self.old }
    {
        self.blocks.pop_lru()
    }

    /// Lets all blocks go.
    pub fn clear(&mut self)
        ensures { self.new ≡ cache_data [] self.old.limit }
    {
        self.blocks.clear();
    }
}
