//! Items that are shared.
#![tactic(auto)]

ghost use Rattle.std.specs.Prelude.{◌≡◌, ◌≤◌, IfOk, OnOk, length, slice_range};
ghost use Rattle.sc_value.specs.Kept.{kept};
ghost use Rattle.sc_value.specs.Picked.{ArePlaces, picked};

use std::alloc::{AllocError, Global};
use std::marker::Model;
use std::sync::Arc;

/// A range of items that are shared and never change. Contracts see it as a list.
#[derive(Drop)]
pub struct Held<T> {
    shared: Arc<Vec<T>, Global>,
    first: usize,
    end: usize,
}

impl<T> Model for Held<T> {
    ghost use Rattle.std.specs.Arc.{arc_value};
    ghost use Rattle.std.specs.Prelude.{◌≤◌, List, length, slice_range};

    ghost Value = { List T };

    ghost view = { λ h. slice_range (arc_value h.shared).items h.first h.end };

    ghost invariant = { λ h. (h.first ≤ h.end) × (h.end ≤ length (arc_value h.shared).items) };
}

impl<T: Drop> Held<T> {
    /// The items of a vector, which are moved and not copied.
    pub fn new(alloc: Global, items: Vec<T>) -> Result<Held<T>, AllocError>
        ensures { IfOk result (λ h. h ≡ items.items) }
    {
        let end = items.len();
        Ok(Held {
            shared: Arc::new(alloc, items)?,
            first: 0,
            end,
        })
    }

    /// The items, borrowed.
    pub fn as_slice(&self) -> &[T]
        ensures { result.now ≡ self.now }
    {
        &self.shared.as_slice()[self.first..self.end]
    }

    /// How many items there are.
    pub fn len(&self) -> usize
        ensures { result ≡ length self.now }
    {
        self.end - self.first
    }

    /// The same items again, which copies none of them.
    pub fn share(&self) -> Result<Held<T>, AllocError>
        ensures { IfOk result (λ h. h ≡ self.now) }
    {
        Ok(Held {
            shared: Arc::try_clone(&self.shared)?,
            first: self.first,
            end: self.end,
        })
    }

    /// The items from one place up to, not including, another, which copies none of them.
    pub fn part(&self, from: usize, to: usize) -> Result<Held<T>, AllocError>
        requires ordered { from ≤ to }
        requires within { to ≤ length self.now }
        ensures { IfOk result (λ h. h ≡ slice_range self.now from to) }
    {
        Ok(Held {
            shared: Arc::try_clone(&self.shared)?,
            first: self.first + from,
            end: self.first + to,
        })
    }
}

/// How many items are kept at a time.
const BLOCK: usize = 512;

/// The items whose place is marked. They are kept block by block, so that no more memory is touched
/// than those take that are kept.
pub fn kept_items<T: Copy>(alloc: Global, items: &[T], marks: &[bool]) -> Result<Vec<T>, AllocError>
    ensures { IfOk result (λ v. v.items ≡ kept marks.now items.now) }
{
    let end = items.len().min(marks.len());
    let mut out = Vec::with_capacity(alloc, marked(marks))?;
    let mut block = Vec::with_capacity(alloc, BLOCK.min(end))?;
    let mut from = 0;
    while from < end {
        let to = from + BLOCK.min(end - from);
        keep_block(&items[from..to], &marks[from..to], &mut block)?;
        out.extend_from_slice(&block)?;
        from = to;
    }
    Ok(out)
}

/// About how many places are marked, for a reservation.
fn marked(marks: &[bool]) -> usize {
    let mut n: usize = 0;
    for mark in marks {
        n = n.wrapping_add(usize::from(*mark));
    }
    n
}

/// Leaves the items in a block whose place is marked. Each item is written where the next kept one
/// belongs, and stays there if its place is marked: so marks in no order cost no more than others.
fn keep_block<T: Copy>(items: &[T], marks: &[bool], block: &mut Vec<T>) -> Result<(), AllocError>
    ensures { OnOk result (block.new.items ≡ kept marks.now items.now) }
{
    let end = items.len().min(marks.len());
    block.clear();
    block.extend_from_slice(&items[..end])?;
    let mut n = 0;
    for i in 0..end {
        block[n] = items[i];
        n += usize::from(marks[i]);
    }
    block.truncate(n);
    Ok(())
}

/// The items at some places, of which each has one.
pub fn picked_items<T: Copy>(
    alloc: Global,
    items: &[T],
    places: &[u32],
) -> Result<Vec<T>, AllocError>
    requires { ArePlaces items.now places.now }
    ensures { IfOk result (λ v. v.items ≡ picked items.now places.now) }
{
    let mut out = Vec::with_capacity(alloc, places.len())?;
    for i in 0..places.len() {
        let place = places[i] as usize;
        out.push(items[place])?;
    }
    Ok(out)
}
