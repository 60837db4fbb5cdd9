//! The run of one script.
#![tactic(auto)]

ghost use Rattle.std.specs.Prelude.{◌≡◌, ◌≤◌, []};
ghost use Rattle.sc_base.specs.Outside.{IsLaterFiles, IsLaterSource, outside_of};
ghost use Rattle.sc_ids.specs.LimitRanges.{AreLimits};
ghost use Rattle.sc_app.specs.Ends.{NothingRan};
ghost use Rattle.sc_app.specs.Handed.{HasNoJob, IsRunOf, KeepsRecordsOf};
ghost use Rattle.sc_context.specs.Records.{histories_of};

use crate::ran::Status;
use crate::stops::{status_of_input, status_of_plan, status_of_print, status_of_script};
use sc_clock::Clock;
use sc_context::Records;
use sc_exec::Gate;
use sc_files::Files;
use sc_input::Source;
use sc_print::{Printed, print_work};
use sc_read::{Read, read_plan, read_script, read_work};
use sc_sink::Sink;
use sc_words::Command;
use std::alloc::Global;
use std::marker::Brand;
use std::sync::{Mutex, Wait};
use std::thread::Threads;
use std::time;

/// Reads the script that a command names, its plan and its inputs, and prints its actions. The
/// files are handed back.
pub(crate) fn run_script<
    S: Source,
    K: Sink,
    F: Files + Send,
    G: Gate + Sync,
    C: Clock + Send,
    R: Threads + Wait + time::Clock + Sync,
>(
    rt: &R,
    alloc: Global,
    command: Command,
    source: &mut S,
    sink: &mut K,
    files: F,
    gate: &G,
    clock: &Mutex<C>,
    reads: &mut Vec<Read>,
    records: &mut Records,
) -> (Status, F)
    requires empty { reads.old.items ≡ [] }
    requires none_ran { NothingRan records.old.histories.items
        (histories_of records.old.gave_up.items) }
    requires kept { HasNoJob records.old }
    requires limits { AreLimits command.limits }
    ensures later { IsLaterSource (S.state source.old) (S.state source.new) }
    ensures sink_later { (K.state sink.old).faults ≤ (K.state sink.new).faults }
    ensures files_later { IsLaterFiles (F.state files) (F.state result.1) }
    ensures kept { KeepsRecordsOf command reads.new.items records.new }
    ensures run { IsRunOf command reads.new.items records.new.histories.items
        (histories_of records.new.gave_up.items)
        (outside_of (S.state source.old) (K.state sink.old))
        (outside_of (S.state source.new) (K.state sink.new)) (F.state files) (F.state result.1)
        result.0 }
{
    let script = match read_script(alloc, source, &command.script, reads) {
        Ok(script) => script,
        Err(stop) => return (status_of_script(command.script, stop), files),
    };
    let limits = command.limits;
    let plan = match read_plan(alloc, source, command.plan, limits.executors, reads) {
        Ok(plan) => plan,
        Err(stop) => return (status_of_plan(stop), files),
    };
    let work = match read_work(rt, alloc, source, script, plan, limits, reads) {
        Ok(work) => work,
        Err(stop) => return (status_of_input(stop), files),
    };
    work.is_sound();
    let Printed {
        end,
        records: kept,
        files,
    } = print_work::<Brand, K, F, G, C, R>(rt, alloc, work, files, sink, gate, clock);
    *records = kept;
    match end {
        Ok(()) => (Status::Done, files),
        Err(stop) => (status_of_print(stop), files),
    }
}
