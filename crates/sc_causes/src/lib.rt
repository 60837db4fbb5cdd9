//! Why a job that ends without a value does so: laws that tie what was seen of it to what the
//! script means, and to what the plan says.
//!
//! A task is one of many behind an action: where what it is to compute raises, the action has no
//! outcome by the sequential meaning, in which there are no tasks. Where the driver learnt that
//! every executor is lost, the fault plan loses each of them. So a job that is aborted for one of
//! these causes could not have had a value, or was planned to end so. And where a task is handed
//! out without a location for one of its inputs, as before Spark's metadata fetch failure, that
//! output was registered once and lost since.
//!
//! `specs/Raises.antt`, `specs/Losses.antt` and `specs/Inputs.antt` say what the laws are. Each law
//! stands under a function that does nothing, for a caller to cite.
#![tactic(auto)]

mod laws;

pub use laws::{missing_inputs_were_lost, planned_losses_alone, raises_leave_no_value};
