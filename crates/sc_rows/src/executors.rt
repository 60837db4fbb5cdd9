//! Executors of a job that has just begun, and the stores that they look at.
#![tactic(auto)]

ghost use Rattle.std.specs.Prelude.{ℕ, ◌≡◌, ◌<◌, All};
ghost use Rattle.sc_desk.specs.Files.{FilesStand};
ghost use Rattle.sc_exec.specs.Logging.{HasRoom};
ghost use Rattle.sc_exec.specs.Workers.{AreInPlace};
ghost use Rattle.sc_exec.specs.Working.{IsFresh};
ghost use Rattle.sc_rows.specs.Worlds.{IsFirstDesk};
ghost use Rattle.sc_staging.specs.Outputs.{output_dir, output_files};

use crate::works::{at, numbers_of};
use crate::world_lines::{desk_of, output_of};
use sc_desk::{Desk, files_go_on};
use sc_exec::{Left, Stores, Worker};
use sc_files::Files;
use sc_ids::ExecId;
use sc_logs::ExecLog;
use sc_plan::{Order, OrderKind};
use sc_staging::Output;
use sc_store::Store;
use sc_work::{Naming, SharedWork};
use std::process::Abort;
use std::sync::Mutex;

/// The empty stores that lie at the places of executors, as each line says: by the numbers of two
/// each has that executor's, at that generation, and behind these its own one.
pub fn stores_of<W: Naming, R: Abort + AllocGlobal>(
    rt: &R,
    work: &SharedWork<W>,
    lines: &str,
) -> Vec<Stores<W>> {
    work.is_named();
    let executors = work.get().limits().executors;
    let mut all = Vec::new(rt.alloc());
    for line in lines.lines() {
        let numbers = numbers_of(rt, line);
        let mut locked = Vec::new(rt.alloc());
        for place in 0..executors {
            let store = store_at(rt, work, &numbers, place);
            locked.push(Mutex::new(store)).expect(rt, "memory");
        }
        all.push(Stores::of(locked)).expect(rt, "memory");
    }
    all
}

/// The empty store that lies at a place.
fn store_at<W: Naming, R: Abort + AllocGlobal>(
    rt: &R,
    work: &SharedWork<W>,
    numbers: &[u64],
    place: ExecId,
) -> Store<W> {
    work.is_named();
    work.get().is_sound();
    let first = (place as usize).saturating_mul(2);
    let is_named = first < numbers.len();
    let exec = if is_named { at(numbers, first) } else { place };
    let shared = work.share().expect(rt, "memory");
    let cache = work.get().limits().cache;
    let mut store = Store::make(rt.alloc(), shared, exec, cache).expect(rt, "memory");
    let _ = store.wipe(Order {
        exec,
        number: at(numbers, first.saturating_add(1)),
        kind: OrderKind::Drop,
    });
    store
}

/// So many executors of a job, in the order of their numbers, that have written nothing down yet.
fn crew<R: Abort + AllocGlobal>(rt: &R, executors: u32) -> Vec<Worker>
    ensures fresh { All (IsFresh executors) result.items }
    ensures places { AreInPlace executors result.items }
{
    let mut workers = Vec::new(rt.alloc());
    for exec in 0..executors {
        workers.push(fresh(rt, exec)).expect(rt, "memory");
    }
    workers
}

/// An executor that has written nothing down yet.
pub fn fresh<R: Abort + AllocGlobal>(rt: &R, exec: ExecId) -> Worker
    ensures fresh { (executors : ℕ) → exec < executors → IsFresh executors result }
    ensures exec { result.log.exec ≡ exec }
    ensures room { HasRoom result.log }
{
    Worker {
        log: ExecLog {
            exec,
            entries: Vec::with_capacity(rt.alloc(), 1).expect(rt, "memory"),
        },
        left: Left::NoMemory,
    }
}

/// The first job of a work that has just begun: its desk, its files, and its executors, which have
/// written nothing down yet.
pub fn begun<W: Naming, F: Files, R: Abort + AllocGlobal>(
    rt: &R,
    work: &SharedWork<W>,
    files: F,
) -> (Desk<W>, Output<F>, Vec<Worker>)
    ensures first { IsFirstDesk W.work result.0 }
    ensures stand { FilesStand W.work result.0 (output_dir result.1)
        (output_files F.state result.1) }
    ensures fresh { All (IsFresh W.work.limits.executors) result.2.items }
    ensures places { AreInPlace W.work.limits.executors result.2.items }
{
    files_go_on();
    work.is_named();
    let executors = work.get().limits().executors;
    let desk = desk_of(rt, work);
    let output = output_of(rt, work, files);
    (desk, output, crew(rt, executors))
}
