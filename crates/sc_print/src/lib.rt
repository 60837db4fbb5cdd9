//! The actions of a work, printed to a sink.
//!
//! [`print_work`] runs a work's actions in order, each by its jobs, and hands each text that isn't
//! empty to the sink by one write. What ends it, a job that is aborted, an action whose results
//! have no value, a directory that is there already, a call on files or a sink that failed, or want
//! of memory, leaves the texts before it as they were written, and the saved directories. However
//! it ends, the histories of the jobs and the files are handed back.
//!
//! Contracts see the pieces that a sink took, where it shows them, how often it failed, and what
//! the files show. Jobs come from `sc_context`, sinks from `sc_sink`, files from `sc_files`; where
//! scripts come from and which status a run has is said by `sc_app`, which calls it.
#![tactic(auto)]

mod faults;
mod printing;
mod writing;

pub use faults::PrintFault;
pub use printing::{Printed, print_work};
