//! The actions of a work, printed.
#![tactic(auto)]

ghost use Rattle.std.specs.Prelude.{◌≡◌, ◌<◌, ◌≤◌, IfErr, IfOk, length};
ghost use Rattle.sc_base.specs.Outside.{IsLaterFiles};
ghost use Rattle.sc_context.specs.Contexts.{new_context};
ghost use Rattle.sc_context.specs.Records.{AreKept, histories_of};
ghost use Rattle.sc_print.specs.Printing.{Prints, PrintsNext, StopsNext, fault_of};

use crate::faults::PrintFault;
use crate::writing::write_value;
use sc_base::OrMemory;
use sc_clock::Clock;
use sc_context::{Context, Given, JobFault, Records, Stopped};
use sc_exec::Gate;
use sc_files::Files;
use sc_lineage::{Work, meaning_is_lawful};
use sc_sink::Sink;
use sc_work::{Naming, SharedWork};
use std::alloc::{AllocFailed, Global};
use std::sync::{Mutex, Wait};
use std::thread::Threads;
use std::time;

/// How the running of a work's actions went.
#[derive(Drop)]
pub struct Printed<F: Files> {
    /// Whether all were printed, or what ended it.
    pub end: Result<(), OrMemory<PrintFault>>,
    /// How the jobs went, in order.
    pub records: Records,
    /// The files that saves wrote to.
    pub files: F,
}

/// Runs a work's actions in order, and writes their texts to the sink, each by one write where it
/// isn't empty. The executors of a job are threads, which pass the gate with each task.
///
/// It ends with the first action of which a job is aborted, whose directory is there already, for
/// which a call on the files failed, or whose results have no value; with a failure of the sink; or
/// with want of memory. The texts and the saved directories of the actions before it stand.
pub fn print_work<
    W: Naming + Send + Sync,
    K: Sink,
    F: Files + Send,
    G: Gate + Sync,
    C: Clock + Send,
    R: Threads + Wait + time::Clock + Sync,
>(
    rt: &R,
    alloc: Global,
    work: Work,
    files: F,
    sink: &mut K,
    gate: &G,
    clock: &Mutex<C>,
) -> Printed<F>
    requires named { work ≡ W.work }
    ensures later { (K.state sink.old).faults ≤ (K.state sink.new).faults }
    ensures files_later { IsLaterFiles (F.state files) (F.state result.files) }
    ensures kept { AreKept W.work result.records }
    ensures prints { Prints W.work (K.state sink.old) (K.state sink.new) (F.state files)
        (F.state result.files) result.end result.records.histories.items
        (histories_of result.records.gave_up.items) }
{
    match new_context::<W, F>(alloc, work, files) {
        Ok(context) => print_actions(rt, alloc, context, sink, gate, clock),
        Err(failed) => Printed {
            end: Err(OrMemory::OutOfMemory),
            records: Records::new(alloc),
            files: failed.value,
        },
    }
}

/// A context of a work in which no job has run.
fn new_context<W: Naming, F: Files>(
    alloc: Global,
    work: Work,
    files: F,
) -> Result<Context<W, F>, AllocFailed<F>>
    requires named { work ≡ W.work }
    ensures new { IfOk result (λ c. c ≡ new_context W.work (F.state files)) }
    ensures back { IfErr result (λ failed. F.state failed.value ≡ F.state files) }
{
    match SharedWork::of(alloc, work) {
        Ok(shared) => Context::new(alloc, shared, files),
        Err(_) => Err(AllocFailed { value: files }),
    }
}

/// Prints the actions of a work from the first on.
fn print_actions<
    W: Naming + Send + Sync,
    K: Sink,
    F: Files + Send,
    G: Gate + Sync,
    C: Clock + Send,
    R: Threads + Wait + time::Clock + Sync,
>(
    rt: &R,
    alloc: Global,
    first: Context<W, F>,
    sink: &mut K,
    gate: &G,
    clock: &Mutex<C>,
) -> Printed<F>
    requires { first ≡ new_context W.work first.files }
    ensures later { (K.state sink.old).faults ≤ (K.state sink.new).faults }
    ensures files_later { IsLaterFiles first.files (F.state result.files) }
    ensures kept { AreKept W.work result.records }
    ensures prints { Prints W.work (K.state sink.old) (K.state sink.new) first.files
        (F.state result.files) result.end result.records.histories.items
        (histories_of result.records.gave_up.items) }
{
    meaning_is_lawful();
    let actions = first.work().get().script().actions().len();
    let mut context = first;
    while (context.actions() as usize) < actions {
        match print_action(rt, alloc, context, sink, gate, clock) {
            Ok(next) => context = next,
            Err(stop) => {
                return Printed {
                    end: Err(stop.why),
                    records: stop.records,
                    files: stop.files,
                };
            }
        }
    }
    context.is_sound();
    let (records, files) = context.into_parts();
    Printed {
        end: Ok(()),
        records,
        files,
    }
}

/// Why no more actions are printed, how the jobs went, and the files.
#[derive(Drop)]
struct Stop<F: Files> {
    why: OrMemory<PrintFault>,
    records: Records,
    files: F,
}

/// Runs the next action, and writes its text.
fn print_action<
    W: Naming + Send + Sync,
    K: Sink,
    F: Files + Send,
    G: Gate + Sync,
    C: Clock + Send,
    R: Threads + Wait + time::Clock + Sync,
>(
    rt: &R,
    alloc: Global,
    context: Context<W, F>,
    sink: &mut K,
    gate: &G,
    clock: &Mutex<C>,
) -> Result<Context<W, F>, Stop<F>>
    requires within { context.progress.actions < length W.work.script.actions }
    ensures later { (K.state sink.old).faults ≤ (K.state sink.new).faults }
    ensures prints { IfOk result
        (PrintsNext W.work (K.state sink.old) (K.state sink.new) context) }
    ensures stops { IfErr result (λ s. StopsNext W.work (K.state sink.old) (K.state sink.new)
        context (F.state s.files) s.why s.records.histories.items
        (histories_of s.records.gave_up.items)) }
    ensures kept { IfErr result (λ s. AreKept W.work s.records) }
{
    let action = context.actions();
    match context.run_action(rt, alloc, gate, clock) {
        Ok(Given { context, value }) => match write_value(action, &value, sink) {
            Ok(()) => Ok(context),
            Err(why) => {
                let (records, files) = context.into_parts();
                Err(Stop {
                    why,
                    records,
                    files,
                })
            }
        },
        Err(
            Stopped {
                why,
                records,
                files,
            },
        ) => Err(Stop {
            why: fault_of(action, why),
            records,
            files,
        }),
    }
}

/// What is told where a context ran no further.
fn fault_of(action: u32, why: OrMemory<JobFault>) -> OrMemory<PrintFault>
    ensures { result ≡ fault_of action why }
{
    match why {
        OrMemory::Fault(JobFault::Aborted(abort)) => {
            OrMemory::Fault(PrintFault::Aborted { action, abort })
        }
        OrMemory::Fault(JobFault::Exists(path)) => {
            OrMemory::Fault(PrintFault::Exists { action, path })
        }
        OrMemory::Fault(JobFault::Device(path)) => {
            OrMemory::Fault(PrintFault::Device { action, path })
        }
        OrMemory::OutOfMemory => OrMemory::OutOfMemory,
    }
}
