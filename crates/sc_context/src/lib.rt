//! The jobs of a run: which comes next, how each went, and what the actions give.
//!
//! A [`Context`] runs the actions of a work in order. Before an action's own job come those that
//! find the bounds of the sorts which it reads, where these weren't found before; each job begins
//! behind what the ones before left: stages, bounds, registered map outputs, the stores of the
//! executors, and how many reports were told. Each leaves its history. A job that saves has its
//! files opened before it begins, and committed or aborted at its end. An action gives what the
//! sequential meaning says, whatever the fault plan does. Else it says why not: a job was aborted,
//! which the last history shows, its directory is there already, a call on its files failed, or
//! memory ran out.
//!
//! `specs/Progress.antt` says which job comes next, `specs/Histories.antt` how jobs follow one
//! another, `specs/Files.antt` what they leave of the files, `specs/Aborts.antt` what an abort
//! shows, and `specs/Contexts.antt` what an action answers. Executor threads run the jobs
//! (`work_job` of `sc_exec`). Where what they wrote down isn't what the driver's desk says, or one
//! of them met what can't be, they give the job up, and the driver runs it again alone
//! (`World::serial`), with no output registered, its staging area made anew, and over new stores:
//! what is known of stores isn't known past their locks. `specs/Records.antt` says what is kept of
//! each job, and `specs/Goings.antt` how one goes from its beginning to its end. No text is written
//! here.
//!
//! After `SparkContext.runJob` of Spark.
#![tactic(auto)]

mod actions;
mod alone;
mod bounds;
mod context;
mod crews;
mod endings;
mod jobs;
mod lasts;
mod outputs;
mod records;
mod results;
mod running;
mod starts;
mod stops;
mod went;

pub use actions::Given;
pub use context::Context;
pub use records::{GaveUp, Records};
pub use stops::{JobFault, Stopped};
