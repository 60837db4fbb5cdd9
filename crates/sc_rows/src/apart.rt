//! Executors that each look at stores of their own, where in a run they share them: then one puts a
//! block where no other one looks, and another one looks where the driver's desk doesn't know of.
#![tactic(auto)]

ghost use Rattle.crossbeam_queue.specs.Passes.{IsPassOf, view};
ghost use Rattle.std.specs.Prelude.{◌≡◌, ◌<◌, [], All};
ghost use Rattle.sc_desk.specs.Files.{FilesStand};
ghost use Rattle.sc_exec.specs.Crews.{HasWorkedMember, HaveWorked, IsFreshMember};
ghost use Rattle.sc_exec.specs.JobDesks.{IsJobOf, job_desk_data};
ghost use Rattle.sc_exec.specs.Workers.{AreInPlace, HasCause};
ghost use Rattle.sc_exec.specs.Working.{IsFresh};
ghost use Rattle.sc_queue.specs.declared.rules.Hand.TheVariants as hands;
ghost use Rattle.sc_rows.specs.Worlds.{IsOfFirst};
ghost use Rattle.sc_staging.specs.Outputs.{output_dir, output_files};

use crate::executors::{begun, fresh, stores_of};
use crate::gates::{Keeper, Kept};
use crate::given::STILL;
use sc_clock::Clock;
use sc_desk::Desk;
use sc_exec::{
    Driver, Gate, Helm, JobDesk, Member, Opening, Stores, Witnessed, Worker, dismiss, enlist,
    work_loop,
};
use sc_files::Files;
use sc_queue::{Queue, QueuePass};
use sc_staging::Output;
use sc_work::{Naming, SharedWork};
use std::alloc::Global;
use std::marker::Brand;
use std::process::Abort;
use std::sync::{Condvar, Mutex, Wait};
use std::thread::Threads;
use std::{thread, time};

/// How many reports may be on their way.
const CAPACITY: usize = 2;

/// How the executors of a job work.
#[derive(Clone, Copy, Debug, PartialEq, Eq)]
pub struct Setting {
    /// By how many threads: by one they work one after the other.
    pub threads: usize,
    /// How many attempts wait for one another, two by two, before they go on.
    pub pairs: usize,
    /// How many executors, from the first on, have a task out that nobody does.
    pub out: u32,
}

/// So many executors, from the first on, are handed a task at a desk, which nobody does.
fn hand_out<W: Naming, J: Opening, F: Files, R: Abort + AllocGlobal>(
    rt: &R,
    desk: &mut JobDesk<W, J, F>,
    many: u32,
) {
    for exec in 0..many {
        let mut worker = fresh(rt, exec);
        desk.take(&mut worker.log).expect(rt, "memory");
    }
}

/// An executor works, over the stores that it looks at: its own, or those of all.
fn employ<W: Naming, J: Opening, F: Files, G: Gate, C: Clock, R: Abort + Wait + time::Clock>(
    rt: &R,
    alloc: Global,
    driver: &Driver<W, J, F>,
    all: &[Stores<W>],
    gate: &G,
    clock: &Mutex<C>,
    member: &mut Member<W, J>,
)
    requires fresh { IsFreshMember W.work.limits.executors member.old }
    ensures { HasWorkedMember W.work member.old member.new }
{
    let stores = match all.get(member.worker.log.exec as usize) {
        Some(stores) => stores,
        None => all.first().expect(rt, "stores"),
    };
    member.worker.left = work_loop(
        rt,
        alloc,
        driver,
        stores,
        gate,
        clock,
        &mut member.worker.log,
        &mut member.poster,
    );
}

/// Executors work by so many threads, each over the stores that it looks at, until each takes no
/// more tasks.
fn employ_apart<
    W: Naming + Send + Sync,
    J: Opening + Send + Sync,
    F: Files + Send,
    G: Gate + Sync,
    C: Clock + Send,
    R: Abort + Threads + Wait + time::Clock + Sync,
>(
    rt: &R,
    alloc: Global,
    driver: &Driver<W, J, F>,
    all: &[Stores<W>],
    gate: &G,
    clock: &Mutex<C>,
    threads: usize,
    members: &mut [Member<W, J>],
)
    requires fresh { All (IsFreshMember W.work.limits.executors) members.old }
    ensures worked { HaveWorked W.work members.old members.new }
{
    assert!(rt; 0 < threads, "no thread");
    thread::for_each_mut(
        rt,
        members,
        threads,
        &|_, member|
            requires { IsFreshMember W.work.limits.executors member.now }
            ensures { HasWorkedMember W.work member.entry.now member.exit.now }
        { employ(rt, alloc, driver, all, gate, clock, member) },
    );
}

/// The executors of a job that began as `J` says, whose reports go through the queue that it says,
/// work each over the stores that it looks at, until each takes no more tasks.
fn work_apart<
    W: Naming + Send + Sync,
    J: Opening + Send + Sync,
    F: Files + Send,
    G: Gate + Sync,
    C: Clock + Send,
    R: Abort + AllocGlobal + Threads + Wait + time::Clock + Sync,
>(
    rt: &R,
    desk: Desk<W>,
    output: Output<F>,
    queue: Queue<Witnessed<W>>,
    mut pass: QueuePass<Witnessed<W>>,
    all: &[Stores<W>],
    gate: &G,
    clock: &Mutex<C>,
    setting: Setting,
    workers: Vec<Worker>,
) -> (Desk<W>, Output<F>, Vec<Worker>)
    requires job { IsJobOf W.work J.opening
        (job_desk_data desk (output_dir output) (output_files F.state output)) }
    requires queue { queue.table.shared.table_id ≡ J.queue }
    requires pass { IsPassOf queue pass × (view pass ≡ hands.Driver 0 [] []) }
    requires fresh { All (IsFresh W.work.limits.executors) workers.items }
    requires places { AreInPlace W.work.limits.executors workers.items }
    ensures job { IsJobOf W.work J.opening
        (job_desk_data result.0 (output_dir result.1) (output_files F.state result.1)) }
    ensures worked { All (HasCause W.work) result.2.items }
    ensures places { AreInPlace W.work.limits.executors result.2.items }
{
    let mut desk = JobDesk::<W, J, F>::of(desk, output);
    hand_out(rt, &mut desk, setting.out);
    let members = Vec::with_capacity(rt.alloc(), workers.len()).expect(rt, "memory");
    let room = Vec::with_capacity(rt.alloc(), workers.len()).expect(rt, "memory");
    let mut members = enlist(&queue, &mut pass, workers, members);
    let driver = Driver {
        helm: Mutex::new(Helm::of(desk, pass)),
        bell: Condvar::new(),
        queue,
    };
    employ_apart(
        rt,
        rt.alloc(),
        &driver,
        all,
        gate,
        clock,
        setting.threads,
        &mut members,
    );
    let Driver {
        helm,
        bell: _,
        queue: _,
    } = driver;
    let (desk, output) = helm.into_inner().into_parts();
    (desk, output, dismiss(members, room))
}

/// What executors leave of the first job of a work, each over the stores that it looks at: its
/// desk, its files, and themselves.
pub fn worked_apart<
    W: Naming + Send + Sync,
    F: Files + Send + Drop,
    R: Abort + AllocGlobal + Threads + Wait + time::Clock + Sync,
>(
    rt: &R,
    work: &SharedWork<W>,
    files: F,
    setting: Setting,
    stores: &str,
) -> (Desk<W>, Output<F>, Vec<Worker>)
    ensures first { IsOfFirst W.work result.0 }
    ensures stand { FilesStand W.work result.0 (output_dir result.1)
        (output_files F.state result.1) }
    ensures worked { All (HasCause W.work) result.2.items }
    ensures places { AreInPlace W.work.limits.executors result.2.items }
{
    let (desk, output, workers) = begun(rt, work, files);
    let all = stores_of(rt, work, stores);
    let (queue, pass) = Queue::<Witnessed<W>>::ruled(rt.alloc(), CAPACITY).expect(rt, "memory");
    work_apart::<W, Brand, F, Keeper, _, R>(
        rt,
        desk,
        output,
        queue,
        pass,
        all.as_slice(),
        &Keeper::new(rt.alloc(), Kept::Pairs, setting.pairs),
        &Mutex::new(STILL),
        setting,
        workers,
    )
}
