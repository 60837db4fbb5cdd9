//! What the epochs of tasks tell in the worlds of a job.
//!
//! A map task's output may be lost before it is told of. The driver finds that by two tests: the
//! epoch in which the task was handed out, and the generation at which its output was put. In a
//! world, where a desk is told only of what attempts did at their stores, the first test finds all
//! that the second one does. So whatever a stage lacks was lost since it was tried last, outputs
//! are forgotten between any two attempts of a stage, and it has few of them. By that a job hands
//! out no more tasks than a bound, and survives the losses that its limits leave room for; so does
//! one that a serial run brings to its end.
//!
//! This crate has laws alone, as functions that do nothing. A desk by itself keeps few of them:
//! `sc_bound` says what holds of each journal. Below lies `sc_world`, and no crate stands on this
//! one.
#![tactic(auto)]

mod laws;

pub use laws::{
    attempts_are_apart, desks_forget_as_planned, epochs_find_stale, hand_outs_are_bounded,
    jobs_survive, outputs_were_there, serial_runs_survive, stages_have_few_attempts,
    stale_were_forgotten,
};
