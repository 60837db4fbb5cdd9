//! A job: what it is for, its stages, and what its tasks compute.
//!
//! Each action of a script runs as a job of tasks, and so does the search for the bounds of a sort:
//! a [`Goal`] says which. [`Job::plan`] cuts the stages of a job behind what is carried from the
//! jobs before it. What a [`Job`] is of is known by its type, as for `SharedWork`: its stages are
//! those of the work that `W` stands for, and it holds the bounds of the sorts that its map stages
//! deal out by range. [`Job::task_target`] says what a task of a stage is to compute.
//!
//! Contracts see a job as its goal and its stages: `specs/JobData.antt`, and `specs/Plans.antt` for
//! what every job keeps. `specs/Fitting.antt` says which trackers can be carried on to the jobs of
//! a work. Nothing runs here: below lie `sc_stagecut`, which cuts, and `sc_compute`, which
//! computes; the crates above hand the tasks out.
#![tactic(auto)]

mod goals;
mod jobs;
mod known;
mod laws;
mod nodes;
mod same;

pub use goals::Goal;
pub use jobs::Job;
pub use laws::{laws_of_jobs, laws_of_trackers};
