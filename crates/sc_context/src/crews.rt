//! The executors of a job before it begins.
#![tactic(auto)]

ghost use Rattle.std.specs.Prelude.{ℕ, ◌≡◌, ◌<◌, All, IfOk};
ghost use Rattle.sc_context.specs.Crews.{IsCrew};
ghost use Rattle.sc_exec.specs.Workers.{AreInPlace};
ghost use Rattle.sc_exec.specs.Working.{IsFresh};

use sc_exec::{Left, Worker};
use sc_ids::ExecId;
use sc_logs::ExecLog;
use std::alloc::{AllocError, Global};

/// The executors of a job, which have written nothing down yet, with room for what becomes of that.
#[derive(Drop)]
pub(crate) struct Crew {
    pub(crate) workers: Vec<Worker>,
    pub(crate) logs: Vec<ExecLog>,
    pub(crate) lefts: Vec<Left>,
}

impl Crew {
    /// So many executors.
    pub(crate) fn new(alloc: Global, executors: u32) -> Result<Crew, AllocError>
        ensures { IfOk result (IsCrew executors) }
    {
        let many = executors as usize;
        Ok(Crew {
            workers: fresh_workers(alloc, executors)?,
            logs: Vec::with_capacity(alloc, many)?,
            lefts: Vec::with_capacity(alloc, many)?,
        })
    }
}

/// So many executors in the order of their numbers, each with room in its log.
fn fresh_workers(alloc: Global, executors: u32) -> Result<Vec<Worker>, AllocError>
    ensures fresh { IfOk result (λ v. All (IsFresh executors) v.items) }
    ensures places { IfOk result (λ v. AreInPlace executors v.items) }
{
    let mut workers = Vec::with_capacity(alloc, executors as usize)?;
    for exec in 0..executors {
        workers.push(fresh_worker(alloc, exec)?)?;
    }
    Ok(workers)
}

/// An executor that has written nothing down yet.
fn fresh_worker(alloc: Global, exec: ExecId) -> Result<Worker, AllocError>
    ensures fresh { IfOk result
        (λ w. (executors : ℕ) → exec < executors → IsFresh executors w) }
    ensures exec { IfOk result (λ w. w.log.exec ≡ exec) }
{
    Ok(Worker {
        log: ExecLog {
            exec,
            entries: Vec::with_capacity(alloc, 1)?,
        },
        left: Left::NoMemory,
    })
}
