//! The hash of a key, and the bucket that it falls into.
//!
//! [`hash_of`] gives the hash of a [`Key`](sc_value::Key): of a number the two halves of its 64
//! bits in one, of a text 31 times the hash so far and the next UTF-16 unit, in 32 bits that wrap.
//! They are the numbers that a Java virtual machine gives, so a key goes into the bucket that it
//! has in Spark. [`bucket`] is the remainder by the number of buckets, never below 0. A column of
//! numbers or of texts has [`hash_of_int`] and [`hash_of_text`], which want no key to be made.
//!
//! `specs/Hashes.antt` has the definitions, and [`keys_have_buckets`] says that a bucket is below
//! their number. No call takes memory. That the numbers are Java's is tested, not proved. Keys come
//! from `sc_value`; how rows are split by bucket stands above.
#![tactic(auto)]

mod buckets;
mod hashes;

pub use buckets::{bucket, bucket_of_hash, keys_have_buckets};
pub use hashes::{hash_of, hash_of_int, hash_of_text};
