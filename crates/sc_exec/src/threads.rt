//! A job on threads.
#![tactic(auto)]

ghost use Rattle.std.specs.Prelude.{◌≡◌, [], All};
ghost use Rattle.crossbeam_queue.specs.Passes.{IsPassOf, view};
ghost use Rattle.sc_desk.specs.Files.{FilesStand};
ghost use Rattle.sc_staging.specs.Outputs.{output_dir, output_files};
ghost use Rattle.sc_queue.specs.declared.rules.Hand.TheVariants as hands;
ghost use Rattle.sc_exec.specs.Crews.{HasWorkedMember, HaveWorked, IsFreshMember};
ghost use Rattle.sc_exec.specs.JobDesks.{IsJobOf, job_desk_data, opening_of};
ghost use Rattle.sc_exec.specs.Workers.{AreInPlace, HasCause};
ghost use Rattle.sc_exec.specs.Working.{IsFresh};

use crate::crews::{Member, dismiss, enlist};
use crate::driver::Driver;
use crate::gates::Gate;
use crate::helms::Helm;
use crate::job_desks::JobDesk;
use crate::openings::Opening;
use crate::places::Stores;
use crate::visits::Witnessed;
use crate::work::work_loop;
use crate::workers::Worker;
use sc_clock::Clock;
use sc_desk::Desk;
use sc_files::Files;
use sc_queue::{Queue, QueuePass};
use sc_staging::Output;
use sc_work::Naming;
use std::alloc::Global;
use std::marker::Brand;
use std::sync::{Condvar, Mutex, Wait};
use std::thread::Threads;
use std::{thread, time};

/// How many reports may be on their way. Each executor has one there at most.
const CAPACITY: usize = 64;

/// The executors of a job work, each on a thread of its own where one can be had, until each takes
/// no more tasks. The desk and the files come back. Where there is no memory for the queue of their
/// reports none of them works. Where slow tasks get copies the clock is read before an executor
/// asks for a task, under the lock of the desk; no clause rests on its times.
#[tactic(auto, using(crate::proofs::Rules::opens))]
pub fn work_job<
    W: Naming + Send + Sync,
    F: Files + Send,
    G: Gate + Sync,
    C: Clock + Send,
    R: Threads + Wait + time::Clock + Sync,
>(
    rt: &R,
    alloc: Global,
    desk: Desk<W>,
    output: Output<F>,
    stores: &Stores<W>,
    gate: &G,
    clock: &Mutex<C>,
    workers: Vec<Worker>,
) -> (Desk<W>, Output<F>, Vec<Worker>)
    requires begun { desk.journal.entries ≡ [] }
    requires stand { FilesStand W.work desk (output_dir output) (output_files F.state output) }
    requires fresh { All (IsFresh W.work.limits.executors) workers.items }
    requires places { AreInPlace W.work.limits.executors workers.items }
    ensures job { IsJobOf W.work
        (opening_of (job_desk_data desk (output_dir output) (output_files F.state output)))
        (job_desk_data result.0 (output_dir result.1) (output_files F.state result.1)) }
    ensures worked { All (HasCause W.work) result.2.items }
    ensures places { AreInPlace W.work.limits.executors result.2.items }
{
    match Queue::<Witnessed<W>>::ruled(alloc, CAPACITY) {
        Ok((queue, pass)) => work_job_of::<W, Brand, F, G, C, R>(
            rt, alloc, desk, output, queue, pass, stores, gate, clock, workers,
        ),
        Err(_) => (desk, output, workers),
    }
}

/// The same of a job that began as `J` says, whose reports go through the queue that it says.
#[tactic(auto, using(crate::proofs::CrewLemmas::unworked))]
fn work_job_of<
    W: Naming + Send + Sync,
    J: Opening + Send + Sync,
    F: Files + Send,
    G: Gate + Sync,
    C: Clock + Send,
    R: Threads + Wait + time::Clock + Sync,
>(
    rt: &R,
    alloc: Global,
    desk: Desk<W>,
    output: Output<F>,
    queue: Queue<Witnessed<W>>,
    mut pass: QueuePass<Witnessed<W>>,
    stores: &Stores<W>,
    gate: &G,
    clock: &Mutex<C>,
    workers: Vec<Worker>,
) -> (Desk<W>, Output<F>, Vec<Worker>)
    requires job { IsJobOf W.work J.opening
        (job_desk_data desk (output_dir output) (output_files F.state output)) }
    requires queue { queue.table.shared.table_id ≡ J.queue }
    requires pass { IsPassOf queue pass × (view pass ≡ hands.Driver 0 [] []) }
    requires fresh { All (IsFresh W.work.limits.executors) workers.items }
    requires places { AreInPlace W.work.limits.executors workers.items }
    ensures job { IsJobOf W.work J.opening
        (job_desk_data result.0 (output_dir result.1) (output_files F.state result.1)) }
    ensures worked { All (HasCause W.work) result.2.items }
    ensures places { AreInPlace W.work.limits.executors result.2.items }
{
    let Ok(members) = Vec::with_capacity(alloc, workers.len()) else {
        return (desk, output, workers);
    };
    let Ok(room) = Vec::with_capacity(alloc, workers.len()) else {
        return (desk, output, workers);
    };
    let mut members = enlist(&queue, &mut pass, workers, members);
    let driver = Driver {
        helm: Mutex::new(Helm::<W, J, F>::of(JobDesk::of(desk, output), pass)),
        bell: Condvar::new(),
        queue,
    };
    employ_all(rt, alloc, &driver, stores, gate, clock, &mut members);
    let Driver {
        helm,
        bell: _,
        queue: _,
    } = driver;
    let (desk, output) = helm.into_inner().into_parts();
    (desk, output, dismiss(members, room))
}

/// Executors work side by side, and it is written down why each takes no more tasks.
fn employ_all<
    W: Naming + Send + Sync,
    J: Opening + Send + Sync,
    F: Files + Send,
    G: Gate + Sync,
    C: Clock + Send,
    R: Threads + Wait + time::Clock + Sync,
>(
    rt: &R,
    alloc: Global,
    driver: &Driver<W, J, F>,
    stores: &Stores<W>,
    gate: &G,
    clock: &Mutex<C>,
    members: &mut [Member<W, J>],
)
    requires fresh { All (IsFreshMember W.work.limits.executors) members.old }
    ensures worked { HaveWorked W.work members.old members.new }
{
    let many = members.len();
    if 0 < many {
        thread::for_each_mut(
            rt,
            members,
            many,
            &|_, member|
                requires { IsFreshMember W.work.limits.executors member.now }
                ensures { HasWorkedMember W.work member.entry.now member.exit.now }
            { employ(rt, alloc, driver, stores, gate, clock, member) },
        );
    }
}

/// An executor works, and it is written down why it takes no more tasks.
fn employ<W: Naming, J: Opening, F: Files, G: Gate, C: Clock, R: Wait + time::Clock>(
    rt: &R,
    alloc: Global,
    driver: &Driver<W, J, F>,
    stores: &Stores<W>,
    gate: &G,
    clock: &Mutex<C>,
    member: &mut Member<W, J>,
)
    requires fresh { IsFreshMember W.work.limits.executors member.old }
    ensures { HasWorkedMember W.work member.old member.new }
{
    member.worker.left = work_loop(
        rt,
        alloc,
        driver,
        stores,
        gate,
        clock,
        &mut member.worker.log,
        &mut member.poster,
    );
}
