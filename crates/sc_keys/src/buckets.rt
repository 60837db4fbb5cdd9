//! The buckets of keys.
#![tactic(auto)]

ghost use Rattle.std.specs.Prelude.{◌≡◌, ◌<◌, IfOk, map};
ghost use Rattle.std.specs.List.{All};
ghost use Rattle.sc_hash.specs.Hashes.{bucket_of};
ghost use Rattle.sc_value.specs.Keys.{number_key, text_key};
ghost use Rattle.sc_value.specs.Views.{key_data_of};

use crate::keyed::Keys;
use sc_hash::{bucket, bucket_of_hash, hash_of_int, hash_of_text, keys_have_buckets};
use sc_value::{Key, Texts};
use std::alloc::{AllocError, Global};

impl Keys {
    /// The bucket of each key, of `n` buckets.
    pub fn buckets(&self, alloc: Global, n: u32) -> Result<Vec<u32>, AllocError>
        requires { 0 < n }
        ensures are { IfOk result (λ v. v.items ≡ map (bucket_of n) self.now) }
        ensures below { IfOk result (λ v. All (λ b. b < n) v.items) }
    {
        keys_have_buckets();
        if let Some(ints) = self.ints() {
            return buckets_of_ints(alloc, ints, n);
        }
        if let Some(texts) = self.texts() {
            return buckets_of_texts(alloc, texts, n);
        }
        let keys = self.each(alloc)?;
        buckets_of_keys(alloc, &keys, n)
    }
}

fn buckets_of_ints(alloc: Global, keys: &[i64], n: u32) -> Result<Vec<u32>, AllocError>
    requires { 0 < n }
    ensures { IfOk result (λ v. v.items ≡ map (bucket_of n) (map number_key keys.now)) }
{
    let mut out = Vec::with_capacity(alloc, keys.len())?;
    for i in 0..keys.len() {
        out.push(bucket_of_hash(hash_of_int(keys[i]), n))?;
    }
    Ok(out)
}

fn buckets_of_texts(alloc: Global, keys: &Texts, n: u32) -> Result<Vec<u32>, AllocError>
    requires { 0 < n }
    ensures { IfOk result (λ v. v.items ≡ map (bucket_of n) (map text_key keys.now)) }
{
    let mut out = Vec::with_capacity(alloc, keys.len())?;
    for i in 0..keys.len() {
        out.push(bucket_of_hash(hash_of_text(keys.get(i)), n))?;
    }
    Ok(out)
}

fn buckets_of_keys(alloc: Global, keys: &[Key], n: u32) -> Result<Vec<u32>, AllocError>
    requires { 0 < n }
    ensures { IfOk result (λ v. v.items ≡ map (bucket_of n) (map key_data_of keys.now)) }
{
    let mut out = Vec::with_capacity(alloc, keys.len())?;
    for i in 0..keys.len() {
        out.push(bucket(&keys[i], n))?;
    }
    Ok(out)
}
