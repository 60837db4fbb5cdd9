//! Narrow operations: the stream of a partition from the streams of the partitions that it reads.
//!
//! [`run_node`] gives what a node makes of the streams that one of its partitions reads, which is
//! `narrow_stream` of `sc_lineage`. It asks nothing of them, and copies no row where a share will
//! do: of an input, of literals, of streams that are put behind one another. An operation row by
//! row goes through its rows in batches of some thousand, each of them evaluated by `sc_batch`, and
//! stops at the first raise. [`run_chain`] takes each batch through several operations, which give
//! `chain_stream`. [`fold_stream`] folds a partition for an action that puts rows together,
//! [`fold_rows`] any rows, as the driver does with the results.
//!
//! Contracts see a stream as its rows and what ended them. Want of memory is the only refusal.
//!
//! It knows nothing of the order in which partitions are computed, which `sc_compute` chooses.
#![tactic(auto)]

mod batches;
mod chains;
mod each;
mod folds;
mod int_folds;
mod joins;
mod keyed;
mod nodes;
mod slices;
mod streams;

pub use chains::{Step, run_chain};
pub use folds::{fold_rows, fold_stream};
pub use nodes::run_node;
pub use streams::share as share_stream;
