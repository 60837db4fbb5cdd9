//! Buckets.
#![tactic(auto)]

ghost use Rattle.std.specs.Prelude.{◌≡◌, ◌<◌};
ghost use Rattle.sc_hash.specs.Hashes.{KeysHaveBuckets, bucket_of, bucket_of_hash as hash_bucket};
ghost use Rattle.sc_value.specs.Views.{key_data_of};

use crate::hashes::hash_of;
use sc_value::Key;

/// The bucket of a key, of `n` buckets.
pub fn bucket(key: &Key, n: u32) -> u32
    requires some_buckets { 0 < n }
    ensures value { result ≡ bucket_of n (key_data_of key.now) }
    ensures within { result < n }
{
    bucket_of_hash(hash_of(key), n)
}

/// The bucket of a hash, of `n` buckets: the remainder that isn't negative.
pub fn bucket_of_hash(hash: i32, n: u32) -> u32
    requires some_buckets { 0 < n }
    ensures value { result ≡ hash_bucket n hash }
    ensures within { result < n }
{
    i64::from(hash).rem_euclid(i64::from(n)) as u32
}

/// The law of buckets: each is below their number. A call does nothing.
pub fn keys_have_buckets()
    ensures { KeysHaveBuckets }
{}
