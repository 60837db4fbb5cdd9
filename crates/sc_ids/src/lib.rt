//! What the parts of the scheduler call things: stages, executors, attempts, blocks, locations.
//!
//! A [`StageGraph`] says which stages a job has, what their tasks make ([`Target`]) and whose
//! outputs they read. A task that was handed out is an [`AttemptId`]; what a map task leaves is a
//! block ([`BlockId`]), kept in an executor's store at a generation of it ([`Loc`]). The limits of
//! a run are [`Limits`]. [`FailureCause`] says why an attempt gave no success, [`Counts`] and
//! [`Fault`] what the files counted, and [`Mark`] who made an entry of the journal.
//!
//! All of it is plain data without behaviour, so that every part names the same thing by the same
//! value; only a graph holds a list, and contracts see it as one. From `sc_expr` it takes the names
//! of raises, since one may be why an attempt fails. `specs/Changes.antt` has the word in which the
//! parts say how their states change.
#![tactic(auto)]

mod attempts;
mod blocks;
mod failures;
mod graphs;
mod limits;

pub use attempts::{AttemptId, ExecId, Mark, StageId};
pub use blocks::{BlockId, Epoch, Generation, Loc, ShuffleId, Target};
pub use failures::{Counts, FailureCause, Fault};
pub use graphs::{Stage, StageGraph};
pub use limits::Limits;
