//! The cut of a job into stages: which shuffles it has, and what their tasks are.
//!
//! [`cut`] gives the [`sc_ids::StageGraph`] of a job that begins at a node. Each shuffle that the
//! node reaches has a map stage, with a task for each partition of the parent, and the result
//! stage comes last. Where rows already lie as an operation by key asks, there is no shuffle and no
//! stage. [`Carried`] has what goes on from job to job: which shuffle has which stage, the number
//! of the next one, and the bounds that were found for sorts. [`unbounded_sort`] names the first
//! sort whose bounds a job needs and doesn't have yet.
//!
//! `specs/Reaching.antt` says what a node reaches, by paths of dependencies, `specs/Cuts.antt` what
//! a job's stages are, and `specs/CutLaws.antt` what follows: [`laws_of_cuts`]. This crate computes
//! no row and knows no task that runs. Below it lie `sc_lineage` and `sc_ids`.
//!
//! After `getOrCreateParentStages` and `createResultStage` of Spark's DAGScheduler.
#![tactic(auto)]

mod carried;
mod counts;
mod cuts;
mod laws;
mod numbers;
mod reached;
mod reads;
mod sorts;
mod stages;

pub use carried::{Carried, Numbered};
pub use cuts::cut;
pub use laws::laws_of_cuts;
pub use sorts::unbounded_sort;
