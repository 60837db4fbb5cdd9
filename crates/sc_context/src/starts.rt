//! The stores that a job begins with, where they are new.
#![tactic(auto)]

ghost use Rattle.std.specs.Prelude.{◌≡◌, ◌≤◌, [], IfOk, length, vec_capacity};
ghost use Rattle.sc_context.specs.Starts.{IsUnregistered, empty_store, new_stores};
ghost use Rattle.sc_desk.specs.DeskData.{core_of};
ghost use Rattle.sc_plan.specs.Orders.{wipes_of};
ghost use Rattle.sc_world.specs.Runs.{AreReady};

use sc_desk::Desk;
use sc_exec::Stores;
use sc_ids::{ExecId, Generation};
use sc_store::Store;
use sc_work::{Naming, SharedWork};
use std::alloc::{AllocError, Global};
use std::sync::Mutex;

/// An empty store for each executor, in the order of their numbers.
pub(crate) fn new_stores<W: Naming>(
    alloc: Global,
    work: &SharedWork<W>,
) -> Result<Vec<Store<W>>, AllocError>
    ensures { IfOk result (λ v. v.items ≡ new_stores W.work) }
{
    work.is_named();
    work.get().is_sound();
    let limits = work.get().limits();
    let mut stores = Vec::with_capacity(alloc, limits.executors as usize)?;
    for exec in 0..limits.executors {
        stores.push(Store::make(alloc, work.share()?, exec, limits.cache)?)?;
    }
    Ok(stores)
}

/// The same for a desk that knows of no place of an output any more, since what lay in the stores
/// was given up: each store is at the generation that was seen of its executor.
pub(crate) fn stores_at<W: Naming>(
    alloc: Global,
    desk: &Desk<W>,
) -> Result<Vec<Store<W>>, AllocError>
    requires unregistered { IsUnregistered desk.now }
    ensures ready { IfOk result (λ v. AreReady W.work v.items (core_of desk.now).dag.tracker
        (core_of desk.now).told) }
{
    desk.is_sound();
    let work = desk.work();
    let executors = work.get().limits().executors;
    let mut stores = Vec::with_capacity(alloc, executors as usize)?;
    for exec in 0..executors {
        stores.push(store_at(alloc, work, exec, desk.seen(exec))?)?;
    }
    Ok(stores)
}

/// An empty store at a generation, to which it comes by the fault plan's wipe of that number.
fn store_at<W: Naming>(
    alloc: Global,
    work: &SharedWork<W>,
    exec: ExecId,
    generation: Generation,
) -> Result<Store<W>, AllocError>
    requires planned { generation ≤ length (wipes_of W.work.plan exec) }
    ensures { IfOk result (λ s. s ≡ empty_store W.work exec generation) }
{
    work.is_named();
    work.get().is_sound();
    let mut store = Store::make(alloc, work.share()?, exec, work.get().limits().cache)?;
    if generation != 0 {
        let _ = store.wipe(work.get().plan().wipe_order(exec, generation));
    }
    Ok(store)
}

/// The stores of all executors behind locks of their own, in the same order, where there is room
/// for them. It takes no memory.
pub(crate) fn locked<W: Naming>(stores: Vec<Store<W>>, mut room: Vec<Mutex<Store<W>>>) -> Stores<W>
    requires many { length stores.items ≡ W.work.limits.executors }
    requires empty { room.items ≡ [] }
    requires room { length stores.items ≤ vec_capacity room }
{
    for store in stores {
        room.push_reserved(Mutex::new(store));
    }
    Stores::of(room)
}
