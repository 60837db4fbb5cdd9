//! Sorts by key, the bounds between ranges of keys, and the range that a key falls into.
//!
//! [`sort_ints`] and [`sort_texts`] give the order of a column of keys as row numbers: the rows are
//! then picked by them, and none is moved. Rows of one key stay as they stood. [`Bounds`] are what
//! divides keys into ranges of about the same number of rows, made of all keys by
//! [`bounds_of_keys`], or straight of a column by [`bounds_of_ints`] and [`bounds_of_texts`]. They
//! are shared by all tasks of a sort. [`range_bucket`] finds the range of a key by a binary search,
//! and [`range_of_int`] and [`range_of_text`] do with no key made. [`room_for`] is where a sort,
//! and whoever gathers its keys, puts what is held for a while.
//!
//! `specs/Sorts.antt` and `specs/Bounds.antt` have the definitions, `specs/Laws.antt` what holds of
//! them: [`rows_are_sorted`] and [`bounds_are_lawful`]. Row numbers have 32 bits, so more rows than
//! that are answered as want of memory. Keys, texts and their order come from `sc_value`.
#![tactic(auto)]

mod ends;
mod fronts;
mod laws;
mod levels;
mod ranges;
mod rooms;
mod selecting;
mod sorting;

pub use ends::{bounds_of_ints, bounds_of_keys, bounds_of_texts};
pub use laws::{bounds_are_lawful, rows_are_sorted};
pub use ranges::{Bounds, range_bucket, range_of_int, range_of_text};
pub use rooms::room_for;
pub use sorting::{sort_ints, sort_texts};
