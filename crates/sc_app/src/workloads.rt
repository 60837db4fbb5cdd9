//! The run of one command.
#![tactic(auto)]

ghost use Rattle.std.specs.Prelude.{◌≡◌, ◌≤◌, [], Some, length};
ghost use Rattle.sc_base.specs.Outside.{IsLaterFiles, IsLaterSource, outside_of};
ghost use Rattle.sc_ids.specs.LimitRanges.{AreLimits};
ghost use Rattle.sc_app.specs.Ends.{NothingRan};
ghost use Rattle.sc_app.specs.Handed.{HasNoJob, IsRunOf, KeepsRecordsOf};
ghost use Rattle.sc_app.specs.Sources.{OverMade, RunsOver, files_for, files_made};
ghost use Rattle.sc_context.specs.Records.{histories_of};

use crate::ran::Status;
use crate::scripts::run_script;
use sc_clock::Clock;
use sc_context::Records;
use sc_exec::Gate;
use sc_files::Files;
use sc_gen::Generated;
use sc_input::Source;
use sc_read::Read;
use sc_sink::Sink;
use sc_words::{Command, Workload};
use std::alloc::Global;
use std::sync::{Mutex, Wait};
use std::thread::Threads;
use std::time;

/// Runs the script that a command names, or the generator's where it asks for a workload.
pub(crate) fn run_command<
    S: Source,
    K: Sink,
    F: Files + Send,
    G: Gate + Sync,
    C: Clock + Send,
    R: Threads + Wait + time::Clock + Sync,
>(
    rt: &R,
    alloc: Global,
    command: Command,
    source: &mut S,
    sink: &mut K,
    files: F,
    gate: &G,
    clock: &Mutex<C>,
    reads: &mut Vec<Read>,
    records: &mut Records,
) -> (Status, F)
    requires empty { reads.old.items ≡ [] }
    requires none_ran { NothingRan records.old.histories.items
        (histories_of records.old.gave_up.items) }
    requires kept { HasNoJob records.old }
    requires limits { AreLimits command.limits }
    ensures later { IsLaterSource (S.state source.old) (S.state source.new) }
    ensures sink_later { (K.state sink.old).faults ≤ (K.state sink.new).faults }
    ensures files_later { IsLaterFiles (F.state files) (F.state result.1) }
    ensures kept { KeepsRecordsOf command reads.new.items records.new }
    ensures run { OverMade (files_made command) (λ before after.
        IsRunOf command reads.new.items records.new.histories.items
        (histories_of records.new.gave_up.items)
        (outside_of before (K.state sink.old)) (outside_of after (K.state sink.new))
        (F.state files) (F.state result.1) result.0) (S.state source.old) (S.state source.new) }
{
    match command.workload {
        Some(workload) => run_workload(
            rt, alloc, command, workload, sink, files, gate, clock, reads, records,
        ),
        None => run_script(
            rt, alloc, command, source, sink, files, gate, clock, reads, records,
        ),
    }
}

/// Makes the files of a workload, and runs the script among them.
fn run_workload<
    K: Sink,
    F: Files + Send,
    G: Gate + Sync,
    C: Clock + Send,
    R: Threads + Wait + time::Clock + Sync,
>(
    rt: &R,
    alloc: Global,
    command: Command,
    workload: Workload,
    sink: &mut K,
    files: F,
    gate: &G,
    clock: &Mutex<C>,
    reads: &mut Vec<Read>,
    records: &mut Records,
) -> (Status, F)
    requires empty { reads.old.items ≡ [] }
    requires none_ran { NothingRan records.old.histories.items
        (histories_of records.old.gave_up.items) }
    requires kept { HasNoJob records.old }
    requires limits { AreLimits command.limits }
    ensures sink_later { (K.state sink.old).faults ≤ (K.state sink.new).faults }
    ensures files_later { IsLaterFiles (F.state files) (F.state result.1) }
    ensures kept { KeepsRecordsOf command reads.new.items records.new }
    ensures run { RunsOver (files_for command.script workload) (λ before after.
        IsRunOf command reads.new.items records.new.histories.items
        (histories_of records.new.gave_up.items)
        (outside_of before (K.state sink.old)) (outside_of after (K.state sink.new))
        (F.state files) (F.state result.1) result.0) }
{
    let Ok(script) = command.script.copy(alloc) else {
        return (Status::OutOfMemory, files);
    };
    match Generated::new(alloc, script, workload.seed, workload.size) {
        Ok(generated) => {
            let mut generated = generated;
            run_script(
                rt,
                alloc,
                command,
                &mut generated,
                sink,
                files,
                gate,
                clock,
                reads,
                records,
            )
        }
        Err(_) => (Status::OutOfMemory, files),
    }
}
