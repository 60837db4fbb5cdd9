//! How many tasks a job hands out at most, and how many losses its run sees.
//!
//! [`hand_out_bound`] is a number that the stages of a job, the plan and the limits of a run give.
//! What leads to it are laws of journals, as functions that do nothing: outputs of executors are
//! forgotten, and attempts of a stage fail, no more often than the plan allows; a task set hands a
//! partition out twice, and twice more for each entry that frees it; and there are no more of these
//! than the limits, the plan and the older sets of its stage allow. A job counts as many hand-outs
//! as its sets have made. So a job whose stages have few task sets keeps the bound, and limits that
//! leave room for all this abort no job. Below this crate lies `sc_history`.
#![tactic(auto)]

mod bounds;
mod laws;
#[cfg(test)]
mod tests;

pub use bounds::hand_out_bound;
pub use laws::{
    accounts_are_kept, bounds_are_kept, failed_attempts_are_planned, frees_are_bounded,
    hand_outs_are_given, limits_suffice, losses_are_planned,
};
