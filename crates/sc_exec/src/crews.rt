//! The executors of a job, each with its side of the queue of reports.
#![tactic(auto)]

ghost use Rattle.std.specs.Prelude.{◌≡◌, ◌≤◌, All, [], length, map, true, vec_capacity};
ghost use Rattle.crossbeam_queue.specs.Passes.{IsPassOf, view};
ghost use Rattle.sc_queue.specs.Rule.{is_driver, made_of};
ghost use Rattle.sc_exec.specs.Crews.{IsMarked, worker_of};
ghost use Rattle.sc_exec.specs.Workers.{AreInPlace};

use crate::openings::Opening;
use crate::visits::Witnessed;
use crate::workers::Worker;
use sc_queue::{Poster, Queue, QueuePass, hire};
use sc_work::Naming;

/// An executor with its side of the queue.
#[derive(Drop)]
pub struct Member<W: Naming, J: Opening> {
    /// The executor.
    pub worker: Worker,
    /// What it pushes its reports by.
    pub poster: Poster<Witnessed<W>, J>,
}

/// Executors get their sides of the queue, in order. There is room for them.
pub fn enlist<W: Naming, J: Opening>(
    queue: &Queue<Witnessed<W>>,
    pass: &mut QueuePass<Witnessed<W>>,
    workers: Vec<Worker>,
    mut members: Vec<Member<W, J>>,
) -> Vec<Member<W, J>>
    requires queue { queue.now.table.shared.table_id ≡ J.queue }
    requires pass { IsPassOf queue.now pass.old }
    requires driver { is_driver (view pass.old) ≡ true }
    requires first { made_of (view pass.old) ≡ 0 }
    requires places { AreInPlace W.work.limits.executors workers.items }
    requires none { members.items ≡ [] }
    requires room { length workers.items ≤ vec_capacity members }
    ensures pass { IsPassOf queue.now pass.new }
    ensures driver { is_driver (view pass.new) ≡ true }
    ensures workers { map worker_of result.items ≡ workers.items }
    ensures marked { All IsMarked result.items }
{
    for worker in workers {
        let poster = hire(queue, pass, worker.log.exec);
        members.push_reserved(Member { worker, poster });
    }
    members
}

/// The executors alone, in order. There is room for them.
pub fn dismiss<W: Naming, J: Opening>(
    members: Vec<Member<W, J>>,
    mut workers: Vec<Worker>,
) -> Vec<Worker>
    requires none { workers.items ≡ [] }
    requires room { length members.items ≤ vec_capacity workers }
    ensures { result.items ≡ map worker_of members.items }
{
    for member in members {
        let Member { worker, .. } = member;
        workers.push_reserved(worker);
    }
    workers
}
