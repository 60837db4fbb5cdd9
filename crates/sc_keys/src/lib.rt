//! The keys of rows in one column, and rows by bucket, by range, by group and in order.
//!
//! [`Keys::of`] takes rows that are keys, and copies none of them where they lie in one column.
//! Contracts see a list of keys. [`Keys::buckets`], [`Keys::ranges`] and [`Keys::groups`] give the
//! number of each row: its bucket, its range, its group in order of first appearance.
//! [`Keys::order`] gives the places of a stable sort, [`Keys::bounds`] the bounds of ranges. A
//! [`Split`] holds the places of rows by such numbers in one array, so that [`Split::rows`] picks
//! all rows once, and [`CutRows`] has ranges of them.
//!
//! To sort or group the rows of several partitions, put these behind one another first:
//! [`Rows::concat`](sc_columns::Rows::concat) and `RowsBuilder::append` copy no row, and
//! [`Keys::of`] then copies each key once, into one column.
//!
//! `specs/Groups.antt` and `specs/Splits.antt` have the definitions, and `specs/Laws.antt` what
//! holds of them. Places and numbers have 32 bits, so more rows than that are answered as want of
//! memory. Hashes come from `sc_hash`, sorts and bounds from `sc_part`, rows from `sc_columns`;
//! which rows go where stands above.
#![tactic(auto)]

mod buckets;
mod codes;
mod cuts;
mod grouping;
mod keyed;
mod laws;
mod lending;
mod orders;
mod ranges;
mod splitting;

pub use cuts::CutRows;
pub use grouping::Groups;
pub use keyed::Keys;
pub use laws::{bucket_law, distinct_law, group_law, range_law, split_law};
pub use splitting::Split;
