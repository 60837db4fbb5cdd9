//! Speculation: when an attempt that runs is so slow that a second one is worth its while.
//!
//! [`is_speculatable`] is the test alone, of numbers: how long the tasks of a set took that
//! succeeded, how many tasks it has, and how long one attempt has run. Who may run the second
//! attempt, and where, is for the task set. `specs/Speculation.antt` has the rule.
//!
//! After `spark.speculation` of Spark's configuration, with its quantile of 0.75, its multiplier of
//! 1.5 and its interval of 100 milliseconds.
#![tactic(auto)]

mod speculation;

pub use speculation::is_speculatable;
