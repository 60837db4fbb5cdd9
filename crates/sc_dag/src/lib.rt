//! The stages of a job while it runs: which have all their outputs, which wait, and which hand out
//! tasks. Spark calls this the DAGScheduler.
//!
//! A [`Dag`] owns the task sets of a job's stages and the tracker of their outputs. A stage is
//! submitted by [`Dag::submit`]: where its inputs are there it gets a new attempt with the
//! partitions that aren't done, and else it waits, while the parents that are missing are submitted
//! in its stead. What becomes of tasks is told by [`Dag::map_success`], [`Dag::result_success`],
//! [`Dag::failed`] and [`Dag::held`], what becomes of stages by [`Dag::map_done`] and
//! [`Dag::stage_failed`], and losses by [`Dag::raise_seen`] and [`Dag::tell_lost`].
//!
//! Contracts see a [`Dag`] as the record `DagData` of `specs/DagData.antt`, with a flag that says
//! whether there is room for a submission: [`Dag::prepare`] may want memory, so that what follows
//! it doesn't. `specs/Submission.antt` says which stages a submission looks at, as a set and not by
//! an order. This crate knows no executor's attempts, no commit and no fault plan, and doesn't
//! decide which of these calls an event makes. Below it lie `sc_taskset` and `sc_tracker`.
//!
//! After `submitStage`, `submitMissingTasks` and `handleTaskCompletion` of Spark's DAGScheduler.
#![tactic(auto)]

mod attempts;
mod changes;
mod dags;
mod fates;
mod laws;
mod openings;
mod outputs;
mod readers;
mod reports;
mod rows;
mod stages;
mod submissions;
mod uncounted;

pub use attempts::StageAttempt;
pub use dags::Dag;
pub use reports::Success;
