//! The bounds between ranges of keys, and the range of a key.
#![tactic(auto)]

ghost use Rattle.std.specs.Prelude.{◌≡◌, ◌<◌, ◌≤◌, ◌^◌, [], IfOk, Some, length, map, slice_get};
ghost use Rattle.std.specs.List.{dedup};
ghost use Rattle.std.specs.List.Sorted.{IsSortedBy};
ghost use Rattle.sc_part.specs.Bounds.{is_before, is_same_key, range_of};
ghost use Rattle.sc_value.specs.Keys.{number_key, text_key};
ghost use Rattle.sc_value.specs.Views.{key_data_of};

use sc_value::{Held, Key, keys_are_ordered, order};
use std::alloc::{AllocError, Global};
use std::marker::Model;

/// The bounds between ranges of keys: each is before the next, and is the last key of a range.
/// Contracts see them as a list of keys. To share them copies nothing.
#[derive(Drop)]
pub struct Bounds {
    keys: Held<Key>,
}

impl Model for Bounds {
    ghost use Rattle.std.specs.Prelude.{◌<◌, ◌^◌, List, length, map};
    ghost use Rattle.std.specs.List.Sorted.{IsStrictlySortedBy};
    ghost use Rattle.sc_value.specs.Keys.{KeyData, key_order};
    ghost use Rattle.sc_value.specs.Views.{key_data_of};

    ghost Value = { List KeyData };

    ghost view = { λ b. map key_data_of b.keys };

    ghost invariant = { λ b. IsStrictlySortedBy key_order (map key_data_of b.keys)
        × (length b.keys < 2 ^ 32) };
}

impl Bounds {
    /// No bounds: all keys are in one range.
    pub fn none(alloc: Global) -> Result<Bounds, AllocError>
        ensures { IfOk result (λ b. b ≡ []) }
    {
        Bounds::of_ends(alloc, Vec::new(alloc))
    }

    /// Some keys in order as bounds, each key once.
    pub(crate) fn of_ends(alloc: Global, ends: Vec<Key>) -> Result<Bounds, AllocError>
        requires few { length ends.items < 2 ^ 32 }
        requires in_order { IsSortedBy is_before (map key_data_of ends.items) }
        ensures { IfOk result (λ b. b ≡ dedup is_same_key (map key_data_of ends.items)) }
    {
        keys_are_ordered();
        let mut keys = ends;
        keys.dedup_by(|a, b| order(a, b).is_eq());
        Ok(Bounds {
            keys: Held::new(alloc, keys)?,
        })
    }

    /// How many bounds there are: one less than there are ranges.
    pub fn len(&self) -> usize
        ensures count { result ≡ length self.now }
        ensures few { result < 2 ^ 32 }
    {
        self.keys.len()
    }

    /// The bound behind a range.
    pub fn get(&self, i: usize) -> &Key
        requires { i < length self.now }
        ensures { slice_get self.now i ≡ Some (key_data_of result.now) }
    {
        &self.keys.as_slice()[i]
    }

    /// The same bounds again, which copies none of them.
    pub fn share(&self) -> Result<Bounds, AllocError>
        ensures { IfOk result (λ b. b ≡ self.now) }
    {
        Ok(Bounds {
            keys: self.keys.share()?,
        })
    }
}

/// The range of a key: how many bounds are before it.
pub fn range_bucket(bounds: &Bounds, key: &Key) -> u32
    ensures value { result ≡ range_of bounds.now (key_data_of key.now) }
    ensures within { result ≤ length bounds.now }
{
    keys_are_ordered();
    let keys = bounds.keys.as_slice();
    keys.partition_point(|b| order(b, key).is_lt()) as u32
}

/// The range of a number.
pub fn range_of_int(bounds: &Bounds, n: i64) -> u32
    ensures value { result ≡ range_of bounds.now (number_key n) }
    ensures within { result ≤ length bounds.now }
{
    keys_are_ordered();
    let keys = bounds.keys.as_slice();
    keys.partition_point(|b| is_before_int(b, n)) as u32
}

/// The range of a text.
pub fn range_of_text(bounds: &Bounds, text: &str) -> u32
    ensures value { result ≡ range_of bounds.now (text_key text.now) }
    ensures within { result ≤ length bounds.now }
{
    keys_are_ordered();
    let keys = bounds.keys.as_slice();
    keys.partition_point(|b| is_before_text(b, text)) as u32
}

/// Whether a key is before a number.
fn is_before_int(key: &Key, n: i64) -> bool
    ensures { result ≡ is_before (key_data_of key.now) (number_key n) }
{
    match key {
        Key::Int(m) => *m < n,
        Key::Text(_) => false,
    }
}

/// Whether a key is before a text.
fn is_before_text(key: &Key, text: &str) -> bool
    ensures { result ≡ is_before (key_data_of key.now) (text_key text.now) }
{
    match key {
        Key::Int(_) => true,
        Key::Text(other) => other.as_str().cmp(text).is_lt(),
    }
}
