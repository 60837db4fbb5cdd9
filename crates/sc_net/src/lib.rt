//! What goes between the driver and the executors: tasks out, and reports back.
//!
//! A [`Task`] is handed out to an executor: one partition of one stage of a job, with the places of
//! the blocks that it reads. By its type the job has it, and each block has its place. What its
//! attempt came to is a [`Report`], which keeps its task and tells a [`Finding`]. By its type a
//! report is true: a result is what the task is to compute, a raise is its own and of nothing that
//! it reads, a block whose fetch failed is one of its inputs, and a call on the files that failed
//! or a commit that was denied comes only in a job that saves (`specs/Reports.antt`). So the driver
//! need not ask who sent it.
//!
//! A fault plan may have a report come late, or twice. Such a [`ShelvedReport`] is kept at the desk
//! under the key that the core gave it, until it is due.
//!
//! Jobs come from `sc_jobs`, hand-outs from `sc_core`. The executors that compute and report, and
//! the driver's desk, stand above.
#![tactic(auto)]

mod findings;
mod reports;
mod same;
mod shelved;
mod tasks;

pub use findings::Finding;
pub use reports::Report;
pub use shelved::ShelvedReport;
pub use tasks::Task;
