//! Laws of the meaning that hold of whole lineages.
//!
//! [`skip_law`]: the sequential meaning of a script shuffles at every operation by key, while tasks
//! read rows that already lie by the same partitioner as they lie. Both give the same. After
//! Spark's `cogroup` and `combineByKey`, which depend one to one on a parent with an equal
//! partitioner.
//!
//! [`raises_spread`]: a raise anywhere that a node reads is a raise of the node, so nothing that is
//! read can raise while what reads it gives an outcome.
//!
//! [`bounds_law`]: the bounds of a sort may be found from what tasks compute. [`combine_law`] and
//! [`leader_law`] say of rows under keys, as of lists, what folds over rows define.
//!
//! Each law stands under a function that does nothing, for a caller to cite.
#![tactic(auto)]

mod laws;

pub use laws::{
    bounds_law, coalesce_law, combine_law, leader_law, nevers_are_by_raises, outcome_law,
    own_raises_spread, raises_spread, raises_spread_along, skip_law,
};
