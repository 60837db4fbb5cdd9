//! The ranges that keys fall into.
#![tactic(auto)]

ghost use Rattle.std.specs.Prelude.{◌≡◌, ◌≤◌, IfOk, length, map};
ghost use Rattle.std.specs.List.{All};
ghost use Rattle.sc_part.specs.Bounds.{bounds_of, range_of};
ghost use Rattle.sc_value.specs.Keys.{number_key, text_key};
ghost use Rattle.sc_value.specs.Views.{key_data_of};

use crate::keyed::Keys;
use sc_part::{
    Bounds, bounds_are_lawful, bounds_of_ints, bounds_of_keys, bounds_of_texts, range_bucket,
    range_of_int, range_of_text,
};
use sc_value::{Key, Texts};
use std::alloc::{AllocError, Global};

impl Keys {
    /// The bounds between `n` ranges of the keys.
    pub fn bounds(&self, alloc: Global, n: u32) -> Result<Bounds, AllocError>
        ensures { IfOk result (λ b. b ≡ bounds_of self.now n) }
    {
        if let Some(ints) = self.ints() {
            return bounds_of_ints(alloc, ints, n);
        }
        if let Some(texts) = self.texts() {
            return bounds_of_texts(alloc, texts, n);
        }
        let keys = self.each(alloc)?;
        bounds_of_keys(alloc, &keys, n)
    }

    /// The range of each key between some bounds.
    pub fn ranges(&self, alloc: Global, bounds: &Bounds) -> Result<Vec<u32>, AllocError>
        ensures are { IfOk result (λ v. v.items ≡ map (range_of bounds.now) self.now) }
        ensures below { IfOk result (λ v. All (λ r. r ≤ length bounds.now) v.items) }
    {
        bounds_are_lawful();
        if let Some(ints) = self.ints() {
            return ranges_of_ints(alloc, ints, bounds);
        }
        if let Some(texts) = self.texts() {
            return ranges_of_texts(alloc, texts, bounds);
        }
        let keys = self.each(alloc)?;
        ranges_of_keys(alloc, &keys, bounds)
    }
}

fn ranges_of_ints(alloc: Global, keys: &[i64], bounds: &Bounds) -> Result<Vec<u32>, AllocError>
    ensures { IfOk result (λ v. v.items ≡ map (range_of bounds.now) (map number_key keys.now)) }
{
    let mut out = Vec::with_capacity(alloc, keys.len())?;
    for i in 0..keys.len() {
        out.push(range_of_int(bounds, keys[i]))?;
    }
    Ok(out)
}

fn ranges_of_texts(alloc: Global, keys: &Texts, bounds: &Bounds) -> Result<Vec<u32>, AllocError>
    ensures { IfOk result (λ v. v.items ≡ map (range_of bounds.now) (map text_key keys.now)) }
{
    let mut out = Vec::with_capacity(alloc, keys.len())?;
    for i in 0..keys.len() {
        out.push(range_of_text(bounds, keys.get(i)))?;
    }
    Ok(out)
}

fn ranges_of_keys(alloc: Global, keys: &[Key], bounds: &Bounds) -> Result<Vec<u32>, AllocError>
    ensures { IfOk result (λ v. v.items ≡ map (range_of bounds.now) (map key_data_of keys.now)) }
{
    let mut out = Vec::with_capacity(alloc, keys.len())?;
    for i in 0..keys.len() {
        out.push(range_bucket(bounds, &keys[i]))?;
    }
    Ok(out)
}
