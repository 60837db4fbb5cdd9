//! Logs of executors: what each one wrote down of its calls on the desk, beside the journal.
//!
//! Executors work side by side, and what the desk was at one call can't be said outside its lock.
//! So each writes down in its [`ExecLog`] which events it entered and what it was answered. Once
//! all are done, [`agree`] tests these logs against the history: it holds exactly where the entries
//! marked with each executor are its log, in order, and no entry is of an executor without one
//! (`Interleaves` of `specs/Logs.antt`). Then no call was dropped, doubled or made up.
//!
//! What a log alone tells of its executor stands in `specs/Folds.antt`: what its last Take was
//! answered, which attempts it still owes a report, and whether it left early. Where the logs agree
//! with the history and each executor worked until there was no more for it, the job has ended
//! (`specs/Endings.antt`). Below this crate lies `sc_core`; the threads that write logs are above.
#![tactic(auto)]

mod agrees;
mod laws;
mod logs;
mod same;
#[cfg(test)]
mod tests;

pub use agrees::{agree, is_by, is_drivers, is_log};
pub use laws::worked_jobs_have_ended;
pub use logs::ExecLog;
