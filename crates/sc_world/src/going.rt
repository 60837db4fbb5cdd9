//! How one attempt goes on.
#![tactic(auto)]

ghost use Rattle.std.specs.Prelude.{◌≡◌, IfErr, IfOk, List, OnErr, Some};
ghost use Rattle.sc_compute.specs.declared.caching.CachedPart.{CachedPart};
ghost use Rattle.sc_net.specs.Tasks.{is_map_task, target_of_task};
ghost use Rattle.sc_task.specs.Attempts.{assigned, attempt_data_of};
ghost use Rattle.sc_task.specs.Caches.{TakesCached};
ghost use Rattle.sc_task.specs.Nexts.{next_of};
ghost use Rattle.sc_task.specs.Steps.{Computes};
ghost use Rattle.sc_task.specs.declared.next.Next.{Next};
ghost use Rattle.sc_world.specs.Caching.{Caches, KeepsSoMuch};
ghost use Rattle.sc_world.specs.Places.{AreInOrder, FetchStands, FetchesTo, IsAtRest, NextStands};
ghost use Rattle.sc_world.specs.Steps.{HasMade, Makes, ReadsAt, is_put_aside, phase_of, phase_reading};

use crate::places::AttemptState;
use crate::steps::Kept;
use sc_net::Task;
use sc_store::Store;
use sc_task::{Assigned, Attempt, Computed, Did, Next, Read, Took};
use sc_work::Naming;
use std::alloc::{AllocFailed, Global};

/// How far an attempt is.
pub(crate) fn phase_of<W: Naming>(attempt: &Attempt<W>) -> AttemptState
    ensures { result ≡ phase_of (Some (attempt_data_of attempt.now)) }
{
    match attempt {
        Attempt::Assigned(state) => phase_reading(state.next()),
        Attempt::Computed(state) if is_map(state.task()) => AttemptState::Puts,
        Attempt::Computed(_) => AttemptState::Stages,
        Attempt::Staged(_) => AttemptState::Asks,
        Attempt::Granted(_) => AttemptState::Moves,
        Attempt::Stored(_) | Attempt::Reported(_) => AttemptState::Reports,
    }
}

/// How far an attempt is that reads, by what comes next.
fn phase_reading(next: Next) -> AttemptState
    ensures { result ≡ phase_reading next }
{
    match next {
        Next::Fetch { .. } | Next::Missing { .. } => AttemptState::Reads,
        Next::Complete => AttemptState::Computes,
    }
}

/// The attempt that has read the next block, or has found that it can't. A refused call hands it
/// back.
pub(crate) fn read_next<W: Naming>(
    stores: &[Store<W>],
    state: Assigned<W>,
) -> Result<Attempt<W>, AllocFailed<Assigned<W>>>
    requires order { AreInOrder stores.now }
    requires stands { NextStands stores.now (next_of state.task state.got) }
    requires reads { phase_reading (next_of state.task state.got) ≡ AttemptState.Reads }
    ensures reads { IfOk result (λ next. ReadsAt stores.now
        (Some (assigned state.task state.got)) (Some (attempt_data_of next))) }
    ensures rests { IfOk result (λ next. IsAtRest W.work (Some (attempt_data_of next))) }
    ensures back { IfErr result (λ failed. failed.value ≡ state) }
{
    match state.next() {
        Next::Fetch { loc, .. } => fetch_next(&stores[loc.exec as usize], state),
        Next::Missing { .. } => Ok(Attempt::Reported(state.missing())),
        Next::Complete => unreachable!(),
    }
}

/// Fetches the next block of an attempt from the store where it lies.
fn fetch_next<W: Naming>(
    store: &Store<W>,
    state: Assigned<W>,
) -> Result<Attempt<W>, AllocFailed<Assigned<W>>>
    requires stands { FetchStands store.now (next_of state.task state.got) }
    ensures fetches { IfOk result (λ next. FetchesTo store.now state.task state.got
        (next_of state.task state.got) (attempt_data_of next)) }
    ensures rests { IfOk result (λ next. IsAtRest W.work (Some (attempt_data_of next))) }
    ensures back { IfErr result (λ failed. failed.value ≡ state) }
{
    match state.read(store) {
        Ok(Took::Next(next)) => Ok(Attempt::Assigned(next)),
        Ok(Took::Gone(report)) => Ok(Attempt::Reported(report)),
        Ok(Took::Absent { .. }) => unreachable!(),
        Err(failed) => Err(failed),
    }
}

/// The attempt that has computed, unless it fails: then it is to report. Partitions of cache nodes
/// that the store has it takes from there before, and others it keeps there behind, as long as
/// there is memory for them, which the answer tells. A refused call hands it back.
pub(crate) fn compute_next<W: Naming>(
    alloc: Global,
    state: Assigned<W>,
    store: &mut Store<W>,
) -> Result<(Attempt<W>, Kept), AllocFailed<Assigned<W>>>
    requires complete { next_of state.task state.got ≡ Next.Complete }
    ensures makes { IfOk result (λ both. Makes W.work state.task (attempt_data_of both.0)) }
    ensures rests { IfOk result (λ both. IsAtRest W.work (Some (attempt_data_of both.0))) }
    ensures caches { IfOk result (λ both. Caches W.work state.task both.1 store.old store.new) }
    ensures back { IfErr result (λ failed. failed.value ≡ state) }
    ensures same { OnErr result (store.new ≡ store.old) }
{
    match did_of(alloc, state.ready(alloc), store) {
        Ok(Did::Computed(computed)) => {
            let (done, kept) = keep(computed, store);
            Ok((made_of(done), kept))
        }
        Ok(Did::Failed(report)) => Ok((Attempt::Reported(report), Kept::All)),
        Err(failed) => {
            let read = failed.value;
            Err(AllocFailed {
                value: read.reading(),
            })
        }
    }
}

/// What an attempt does that has read all: it takes from the store what that has, and computes. A
/// refused call hands it back.
fn did_of<W: Naming>(
    alloc: Global,
    read: Read<W>,
    store: &Store<W>,
) -> Result<Did<W>, AllocFailed<Read<W>>>
    ensures did { IfOk result (λ did. (known : List CachedPart)
        × TakesCached W.work (target_of_task W.work read.task) store.now known
        × Computes W.work read.task known did) }
    ensures task { IfErr result (λ failed. failed.value.task ≡ read.task) }
    ensures got { IfErr result (λ failed. failed.value.got ≡ read.got) }
{
    match read.cached(alloc, store) {
        Ok(read) => read.compute(alloc),
        Err(failed) => Err(failed),
    }
}

/// An attempt whose partitions of cache nodes were kept in the store, as long as there was memory
/// for them, and whether there was for all.
fn keep<W: Naming>(computed: Computed<W>, store: &mut Store<W>) -> (Computed<W>, Kept)
    ensures task { result.0.task ≡ computed.task }
    ensures keeps { KeepsSoMuch result.1 computed.used computed.fresh store.old store.new }
{
    match computed.keep(store) {
        Ok(computed) => (computed, Kept::All),
        Err(failed) => (failed.value, Kept::Short),
    }
}

/// What an attempt has that has computed: a block or a part that is to be put aside, or what it
/// hands over, to report.
fn made_of<W: Naming>(computed: Computed<W>) -> Attempt<W>
    ensures made { HasMade W.work computed.task (attempt_data_of result) }
    ensures rests { IsAtRest W.work (Some (attempt_data_of result)) }
{
    if is_put_aside(computed.task()) {
        return Attempt::Computed(computed);
    }
    let report = computed.result();
    report.is_true();
    Attempt::Reported(report)
}

/// Whether what a task computes is put or written before it is reported.
fn is_put_aside<W: Naming>(task: &Task<W>) -> bool
    ensures { result ≡ is_put_aside W.work task.now }
{
    is_map(task) || task.job().saves(task.work())
}

/// Whether a task is one of a map stage.
fn is_map<W: Naming>(task: &Task<W>) -> bool
    ensures { result ≡ is_map_task task.now }
{
    task.block().is_some()
}
