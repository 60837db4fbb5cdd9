//! Which partitions of cache nodes a task comes by.
#![tactic(auto)]

use crate::edges::mark_within;
use crate::reached::{is_marked, no_marks};
use crate::sides::side_of;
use sc_cache::{BlockCache, CachedId};
use sc_input::slice;
use sc_lineage::{Node, NodeId, Place, Script, Shuffling, count_at};
use std::alloc::{AllocError, Global};
use std::collections::BTreeSet;

/// The partitions of cache nodes that a task comes by.
#[derive(Drop)]
pub(crate) struct CacheReads {
    /// Those that are cached, where no other that is stands between: the one that is used last
    /// stands first.
    pub(crate) used: BTreeSet<u64>,
    /// Those that it computes, in order.
    pub(crate) computed: Vec<u64>,
}

/// What is still to be looked at, and what was.
#[derive(Drop)]
struct Walk {
    /// A partition, and whether all that it reads was looked at.
    left: Vec<(Place, bool)>,
    seen: BTreeSet<u64>,
    found: CacheReads,
}

/// Which partitions of cache nodes a task comes by that computes a partition, by what is cached.
pub(crate) fn cache_reads(
    alloc: Global,
    script: &Script,
    cache: &BlockCache<()>,
    at: Place,
) -> Result<CacheReads, AllocError> {
    let mut walk = Walk {
        left: Vec::new(alloc),
        seen: BTreeSet::new(alloc),
        found: CacheReads {
            used: BTreeSet::new(alloc),
            computed: Vec::new(alloc),
        },
    };
    walk.left.push((at, false))?;
    for _ in 0..u64::MAX {
        match walk.left.pop() {
            Some((at, true)) => walk.end(script, at)?,
            Some((at, false)) => walk.begin(alloc, script, cache, at)?,
            None => return Ok(walk.found),
        }
    }
    Ok(walk.found)
}

impl Walk {
    /// A partition is looked at, where it wasn't before.
    fn begin(
        &mut self,
        alloc: Global,
        script: &Script,
        cache: &BlockCache<()>,
        at: Place,
    ) -> Result<(), AllocError> {
        let number = number_of(at);
        if !self.seen.insert(number)? {
            return Ok(());
        }
        if cache.peek(place_of(number)).is_some() {
            self.found.used.insert(number)?;
            return Ok(());
        }
        self.left.push((at, true))?;
        let mut read = places_read(alloc, script, at)?;
        for _ in 0..read.len() {
            if let Some(place) = read.pop() {
                self.left.push((place, false))?;
            }
        }
        Ok(())
    }

    /// All that a partition reads was looked at.
    fn end(&mut self, script: &Script, at: Place) -> Result<(), AllocError> {
        match script.nodes().get(at.node as usize) {
            Some(Node::Cache { .. }) => {
                self.found.computed.push(number_of(at))?;
                Ok(())
            }
            _ => Ok(()),
        }
    }
}

/// A partition as a number: those of later nodes have greater ones.
fn number_of(at: Place) -> u64 {
    u64::from(at.node)
        .wrapping_mul(4_294_967_296)
        .wrapping_add(u64::from(at.partition))
}

/// The name under which the partition of a number is cached.
pub(crate) fn place_of(number: u64) -> CachedId {
    CachedId {
        node: number.wrapping_div(4_294_967_296) as u32,
        partition: number.wrapping_rem(4_294_967_296) as u32,
    }
}

/// The partitions that a partition reads without a shuffle, in order.
fn places_read(alloc: Global, script: &Script, at: Place) -> Result<Vec<Place>, AllocError> {
    let mut places = Vec::new(alloc);
    let partition = at.partition;
    match script.nodes().get(at.node as usize) {
        Some(Node::Union { left, right }) => {
            let first = count_at(script.counts(), *left);
            places.push(if partition < first {
                Place {
                    node: *left,
                    partition,
                }
            } else {
                Place {
                    node: *right,
                    partition: partition.saturating_sub(first),
                }
            })?;
        }
        Some(Node::Coalesce { parent, partitions }) => {
            push_run(&mut places, script, *parent, *partitions, partition)?;
        }
        _ => {
            for side in 0..2 {
                match side_of(script, at.node, side) {
                    Some(read) if !read.is_shuffled => {
                        let node = read.parent;
                        places.push(Place { node, partition })?;
                    }
                    _ => {}
                }
            }
        }
    }
    Ok(places)
}

/// Adds the partitions of a node that one of so many runs has at most.
fn push_run(
    places: &mut Vec<Place>,
    script: &Script,
    node: NodeId,
    most: u32,
    nth: u32,
) -> Result<(), AllocError> {
    let count = count_at(script.counts(), node);
    let runs = count.min(most);
    if nth < runs {
        let (from, to) = slice(u64::from(count), u64::from(runs), u64::from(nth));
        for partition in from as u32..to as u32 {
            places.push(Place { node, partition })?;
        }
    }
    Ok(())
}

/// Whether the script tells which partitions each reads: not where those of a sort, of which there
/// may be fewer than it says, are put behind others or together.
pub(crate) fn tells_reads(alloc: Global, script: &Script) -> Result<bool, AllocError> {
    for (at, node) in script.nodes().iter().enumerate() {
        if matches!(node, Node::Union { .. } | Node::Coalesce { .. }) {
            let mut marks = no_marks(alloc, script)?;
            mark_within(script, &mut marks, at);
            if has_sort(script, marks.as_slice()) {
                return Ok(false);
            }
        }
    }
    Ok(true)
}

/// Whether one of the nodes that are marked is a sort.
fn has_sort(script: &Script, marks: &[bool]) -> bool {
    for (at, node) in script.nodes().iter().enumerate() {
        match node {
            Node::Shuffle {
                kind: Shuffling::SortByKey,
                ..
            } if is_marked(marks, at) => return true,
            _ => {}
        }
    }
    false
}
