//! A job that the driver runs on its own thread alone, over new stores.
#![tactic(auto)]

ghost use Rattle.std.specs.Prelude.{◌≡◌, ◌≤◌, [], IfErr, IfOk, List, length, vec_capacity};
ghost use Rattle.sc_context.specs.Goings.{ComesFrom, GoesFrom};
ghost use Rattle.sc_context.specs.Histories.{AreDrivers};
ghost use Rattle.sc_context.specs.Outputs.{CountsIn};
ghost use Rattle.sc_context.specs.Starts.{IsUnregistered};
ghost use Rattle.sc_desk.specs.Files.{FilesStand, faults_of};
ghost use Rattle.sc_exec.specs.JobDesks.{job_desk_data};
ghost use Rattle.sc_exec.specs.Openings.{OpeningData};
ghost use Rattle.sc_staging.specs.Outputs.{output_dir, output_files};
ghost use Rattle.sc_store.specs.StoreData.{StoreData};
ghost use Rattle.sc_world.specs.Files.{OutputStands};
ghost use Rattle.sc_world.specs.Runs.{HasBegun, idle_world};
ghost use Rattle.sc_world.specs.Serial.{IsResting};

use crate::starts::{locked, stores_at};
use crate::went::{Went, finish};
use sc_desk::Desk;
use sc_exec::Stores;
use sc_files::Files;
use sc_staging::Output;
use sc_store::Store;
use sc_work::Naming;
use sc_world::{World, entries_are_the_drivers};
use std::alloc::{AllocError, Global};
use std::sync::Mutex;

/// A job that the driver ran alone.
#[derive(Drop)]
pub(crate) struct Alone<W: Naming, F: Files> {
    /// What is left of it.
    pub(crate) went: Went<F>,
    /// The stores of its executors.
    pub(crate) stores: Stores<W>,
}

/// A world in which a job begins, and room for its stores behind locks.
#[derive(Drop)]
struct Beginning<W: Naming> {
    world: World<W>,
    room: Vec<Mutex<Store<W>>>,
}

/// Runs a job on the driver's thread alone, over new stores, each at the generation that was seen
/// of its executor. Where memory is wanting before it begins the files are handed back as they are.
pub(crate) fn run_alone<W: Naming, F: Files>(
    alloc: Global,
    desk: Desk<W>,
    output: Output<F>,
) -> Result<Alone<W, F>, Output<F>>
    requires begun { HasBegun W.work desk }
    requires unregistered { IsUnregistered desk }
    requires stand { FilesStand W.work desk (output_dir output) (output_files F.state output) }
    ensures went { IfOk result (λ a. (o : OpeningData) → ComesFrom W.work o
        (job_desk_data desk (output_dir output) (output_files F.state output))
        → GoesFrom W.work o a.went.history a.went.passed a.went.results
        (F.state a.went.files)) }
    ensures drivers { IfOk result (λ a. AreDrivers a.went.history.entries.items) }
    ensures counted { IfOk result (λ a. CountsIn (faults_of a.went.history.entries.items)
        (output_files F.state output) (F.state a.went.files) a.went.results) }
    ensures back { IfErr result (λ o. output_files F.state o ≡ output_files F.state output) }
{
    match begin_alone(alloc, desk) {
        Ok(begun) => Ok(run_over(alloc, begun.world, begun.room, output)),
        Err(_) => Err(output),
    }
}

/// The world of a job that begins over new stores, and room for them.
fn begin_alone<W: Naming>(alloc: Global, desk: Desk<W>) -> Result<Beginning<W>, AllocError>
    requires begun { HasBegun W.work desk }
    requires unregistered { IsUnregistered desk }
    ensures begun { IfOk result (λ b. (stores : List StoreData)
        × (b.world ≡ idle_world W.work desk stores)) }
    ensures empty { IfOk result (λ b. b.room.items ≡ []) }
    ensures room { IfOk result (λ b. W.work.limits.executors ≤ vec_capacity b.room) }
{
    let Ok(room) = room_for(alloc, &desk) else {
        // by a call, since `?` would have the proof open all that the desk holds
        drop(desk);
        return Err(AllocError);
    };
    match world_over(alloc, desk) {
        Ok(world) => Ok(Beginning { world, room }),
        Err(error) => {
            drop(room);
            Err(error)
        }
    }
}

/// Room for the stores of all executors behind locks.
fn room_for<W: Naming>(alloc: Global, desk: &Desk<W>) -> Result<Vec<Mutex<Store<W>>>, AllocError>
    ensures empty { IfOk result (λ v. v.items ≡ []) }
    ensures room { IfOk result (λ v. W.work.limits.executors ≤ vec_capacity v) }
{
    let work = desk.work();
    work.is_named();
    Vec::with_capacity(alloc, work.get().limits().executors as usize)
}

/// The world of a job that begins over new stores.
fn world_over<W: Naming>(alloc: Global, desk: Desk<W>) -> Result<World<W>, AllocError>
    requires begun { HasBegun W.work desk }
    requires unregistered { IsUnregistered desk }
    ensures { IfOk result (λ w. (stores : List StoreData)
        × (w ≡ idle_world W.work desk stores)) }
{
    let Ok(stores) = stores_at(alloc, &desk) else {
        // by a call, as above
        drop(desk);
        return Err(AllocError);
    };
    match World::begin(alloc, desk, stores) {
        Ok(world) => Ok(world),
        Err(back) => {
            drop(back);
            Err(AllocError)
        }
    }
}

/// Runs the job of a world to its end, and puts its stores behind locks, for which there is room.
fn run_over<W: Naming, F: Files>(
    alloc: Global,
    world: World<W>,
    room: Vec<Mutex<Store<W>>>,
    output: Output<F>,
) -> Alone<W, F>
    requires rests { IsResting world }
    requires none { world.desk.journal.entries ≡ [] }
    requires stand { OutputStands W.work world F.state output }
    requires empty { room.items ≡ [] }
    requires room { W.work.limits.executors ≤ vec_capacity room }
    ensures went { (o : OpeningData) → ComesFrom W.work o
        (job_desk_data world.desk (output_dir output) (output_files F.state output))
        → GoesFrom W.work o result.went.history result.went.passed result.went.results
        (F.state result.went.files) }
    ensures drivers { AreDrivers result.went.history.entries.items }
    ensures counted { CountsIn (faults_of result.went.history.entries.items)
        (output_files F.state output) (F.state result.went.files) result.went.results }
{
    let (went, stores) = run_world(alloc, world, output);
    Alone {
        went,
        stores: locked(stores, room),
    }
}

/// Runs the job of a world to its end, and says what is left of it, and its stores. Where memory
/// runs out the job runs on, which is what its end tells.
fn run_world<W: Naming, F: Files>(
    alloc: Global,
    world: World<W>,
    output: Output<F>,
) -> (Went<F>, Vec<Store<W>>)
    requires rests { IsResting world }
    requires none { world.desk.journal.entries ≡ [] }
    requires stand { OutputStands W.work world F.state output }
    ensures went { (o : OpeningData) → ComesFrom W.work o
        (job_desk_data world.desk (output_dir output) (output_files F.state output))
        → GoesFrom W.work o result.0.history result.0.passed result.0.results
        (F.state result.0.files) }
    ensures drivers { AreDrivers result.0.history.entries.items }
    ensures counted { CountsIn (faults_of result.0.history.entries.items)
        (output_files F.state output) (F.state result.0.files) result.0.results }
    ensures many { length result.1.items ≡ W.work.limits.executors }
{
    entries_are_the_drivers();
    let mut world = world;
    let mut output = output;
    let _ = world.serial(alloc, &mut output);
    world.is_sound();
    let (desk, stores) = world.into_parts();
    (finish(alloc, desk, output), stores)
}
