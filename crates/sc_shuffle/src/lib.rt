//! What a map task leaves for the tasks that read its shuffle.
//!
//! A [`MapOutput`] has the rows of a map partition by bucket. Contracts see it as the rows of each
//! bucket, in order. It is made once, of rows and the bucket of each (`specs/Buckets.antt`); after
//! that it never changes. To share it, or the rows of a bucket, copies nothing, so that a store can
//! keep it and hand it out at the same time. [`rows_of_bucket`] puts the rows of one bucket behind
//! one another over all map partitions.
//!
//! Which rows go in, and which bucket each has, is said above, and so is where an output lies and
//! whose it is. Rows come from `sc_columns`, splits by number from `sc_keys`.
#![tactic(auto)]

mod outputs;

pub use outputs::{MapOutput, rows_of_bucket};
