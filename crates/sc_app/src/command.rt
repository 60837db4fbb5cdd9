//! The run.
#![tactic(auto)]

ghost use Rattle.std.specs.Prelude.{◌≡◌, ◌≤◌, [], length, map};
ghost use Rattle.std.specs.List.{All, AllZip};
ghost use Rattle.std.specs.String.{string_bytes};
ghost use Rattle.sc_base.specs.Outside.{IsLaterFiles, IsLaterSource, outside_of};
ghost use Rattle.sc_app.specs.Exactly.{TellsDriverFault, TellsExists, TellsFault, TellsNever, TellsNoFailure, TellsNotText, TellsPlanFault, TellsUsage};
ghost use Rattle.sc_app.specs.Ends.{NothingRan};
ghost use Rattle.sc_app.specs.Handed.{HasNoJob, IsRun, KeepsRecords};
ghost use Rattle.sc_app.specs.Promises.{Ends, GoodRunsEndWell, GoodRunsSurvive, GrantsOneAlone, IsAuthorisedAlone, IsGivenUpIn, ZeroMeansText, ZeroShowsJobs};
ghost use Rattle.sc_app.specs.Runs.{AreReads, AsksOnce, run_of};
ghost use Rattle.sc_app.specs.Sources.{Over};
ghost use Rattle.sc_context.specs.Records.{IsLogged, histories_of};

use crate::ran::{Ran, Status};
use crate::workloads::run_command;
use sc_base::OrMemory;
use sc_clock::Clock;
use sc_context::Records;
use sc_exec::Gate;
use sc_files::Files;
use sc_history::grants_are_sole;
use sc_input::Source;
use sc_lineage::meaning_is_lawful;
use sc_output::laws_of_names;
use sc_plan::plans_have_one_reading;
use sc_read::Read;
use sc_script::scripts_have_one_reading;
use sc_sink::Sink;
use sc_words::read_words;
use std::alloc::Global;
use std::sync::{Mutex, Wait};
use std::thread::Threads;
use std::time;

/// Runs the script that the words name, as `run SCRIPT` and options, or the generator's script over
/// the lines that it makes, as `gen --seed S --size N`. The second is the same run over files that
/// are made (`Over`), and asks the source for nothing.
///
/// What is promised, of which the clauses below have what this release has:
///
/// > For every script, inputs, fault plan, clock and interleaving of executor threads, `run`
/// > answering 0 means that the sink got exactly the text of the script's sequential meaning and
/// > each saved directory holds exactly that meaning's part files and `_SUCCESS`, each part renamed
/// > from one attempt authorised alone; an abort is answered only where the returned history shows
/// > its limit, loss, script fault or device fault.
///
/// The actions are run in order, each by its jobs. The executors of a job are threads, where these
/// can be had: they share the driver's desk, they pass the gate with each task that they take, and
/// they lose what the fault plan says. Where one of them meets what can't be, the job is given up,
/// and the calling thread runs it again alone. Where `--speculation` is given the clock is asked
/// each time before an executor asks for a task. No clause has a premise on what the clock gives,
/// nor on the order in which executors took the locks.
///
/// `read` of the answer is the script, the plan where one is named, and then the inputs, as they
/// were read, which shows a script's fault and a plan's; `history` has the jobs, of which the last
/// shows an abort, and `logs` what their executors wrote down; `gave_up` has the jobs that were
/// given up; and `files` are those that it was given to save to. That threads ran, and that the
/// logs are theirs, isn't promised.
pub fn run<
    S: Source,
    K: Sink,
    F: Files + Send,
    G: Gate + Sync,
    C: Clock + Send,
    R: Threads + Wait + time::Clock + Sync,
>(
    rt: &R,
    alloc: Global,
    words: &[String],
    source: &mut S,
    sink: &mut K,
    files: F,
    gate: &G,
    clock: C,
) -> Ran<F, C>
    // The source shows what it showed, and no count has fallen.
    ensures later { IsLaterSource (S.state source.old) (S.state source.new) }
    ensures sink_later { (K.state sink.old).faults ≤ (K.state sink.new).faults }
    ensures files_later { IsLaterFiles (F.state files) (F.state result.files) }

    // The script was read under its word, then the plan, where one is named, and then each input
    // that the script names, once and in order.
    ensures reads { Over (map string_bytes words.now) (λ before after.
        AreReads (run_of (map string_bytes words.now) result.read.items
        (outside_of before (K.state sink.old)) (outside_of after (K.state sink.new))
        (F.state files) (F.state result.files)))
        (S.state source.old) (S.state source.new) }

    // The source was asked for that, and for the name that it didn't give, and for nothing else.
    ensures asked { Over (map string_bytes words.now) (λ before after.
        AsksOnce (run_of (map string_bytes words.now) result.read.items
        (outside_of before (K.state sink.old)) (outside_of after (K.state sink.new))
        (F.state files) (F.state result.files))
        result.status) (S.state source.old) (S.state source.new) }

    // Done: the sink got exactly the text of the meaning of the script and inputs that were read.
    // Where the files show and the directories are apart, each saved directory holds exactly that
    // meaning's part files and `_SUCCESS`, and nothing else has changed.
    ensures headline { Over (map string_bytes words.now) (λ before after.
        ZeroMeansText (run_of (map string_bytes words.now) result.read.items
        (outside_of before (K.state sink.old)) (outside_of after (K.state sink.new))
        (F.state files) (F.state result.files))
        result.status) (S.state source.old) (S.state source.new) }

    // And the history is that of the jobs of all actions of what was read, and each part was
    // renamed from that of its winner.
    ensures histories { Over (map string_bytes words.now) (λ before after.
        ZeroShowsJobs (run_of (map string_bytes words.now) result.read.items
        (outside_of before (K.state sink.old)) (outside_of after (K.state sink.new))
        (F.state files) (F.state result.files))
        result.history.items (histories_of result.gave_up.items) result.status)
        (S.state source.old) (S.state source.new) }

    // However it ends, in each job at most one attempt of a partition at a time is granted that it
    // may commit, and each winner was granted it, then moved its part, then told its success.
    ensures alone { All IsAuthorisedAlone result.history.items }

    // In a job that was given up at most one attempt of a partition at a time was granted that too.
    ensures grants { All (λ g. GrantsOneAlone g.history) result.gave_up.items }

    // Each history is an interleaving of its executors' logs: no call was dropped, doubled or made
    // up, and what no executor did is the driver's.
    ensures logged { AllZip (λ h logs. IsLogged h logs.items) result.history.items
        result.logs.items }

    // The executors of a job that was given up each have their log and a reason to take no more
    // tasks, which that log tells. And the job was given up only where its logs disagree with its
    // history, or an executor found its attempt out twice, a report of another attempt, another
    // executor's store, a report of what can't be yet, or no block.
    ensures given_up { All (IsGivenUpIn (map string_bytes words.now) result.read.items)
        result.gave_up.items }

    // Each status has its cause, and this is what stands.
    ensures ends { Over (map string_bytes words.now) (λ before after.
        Ends (run_of (map string_bytes words.now) result.read.items
        (outside_of before (K.state sink.old)) (outside_of after (K.state sink.new))
        (F.state files) (F.state result.files))
        result.history.items (histories_of result.gave_up.items) result.status)
        (S.state source.old) (S.state source.new) }

    // Usage comes only where `clap` refuses the words, and there unless memory runs out.
    ensures usage { TellsUsage (map string_bytes words.now) result.status }

    // A fault of the bytes that were read as the script is told, unless memory runs out.
    ensures script_exactly { TellsFault result.read.items result.status }

    // So is a fault of the bytes that were read as the plan.
    ensures plan_exactly { TellsPlanFault (map string_bytes words.now) result.read.items
        result.status }

    // An input that was read and isn't text is told by its name, unless memory runs out.
    ensures text_exactly { TellsNotText result.read.items result.status }

    // Where a partition of the first action that fails raises, a job is aborted; where that action
    // fails on the driver, the status says so, unless a job is aborted. Memory may run out, the
    // sink or a call on files fail, or a directory be there before.
    ensures never_exactly { TellsNever (map string_bytes words.now) result.read.items
        result.status }
    ensures driver_exactly { TellsDriverFault (map string_bytes words.now) result.read.items
        result.status }

    // A directory that is there when an action is to save to it is told by its name, unless a job
    // is aborted, memory runs out, or the sink or a call on files fails before.
    ensures exists_exactly { Over (map string_bytes words.now) (λ before after.
        TellsExists (run_of (map string_bytes words.now) result.read.items
        (outside_of before (K.state sink.old)) (outside_of after (K.state sink.new))
        (F.state files) (F.state result.files)) result.status)
        (S.state source.old) (S.state source.new) }

    // Without a line in the fault plan no executor is lost, no stage is given up, and no task fails
    // too often unless a partition of some action raises; or some action saves, and the faults that
    // the files count rose, or, where these don't show, the clashes.
    ensures no_failure { Over (map string_bytes words.now) (λ before after.
        TellsNoFailure (run_of (map string_bytes words.now) result.read.items
        (outside_of before (K.state sink.old)) (outside_of after (K.state sink.new))
        (F.state files) (F.state result.files)) result.status)
        (S.state source.old) (S.state source.new) }

    // With nothing to refuse the run is done, unless memory runs out, a job is aborted, or the
    // results of an action have no value together.
    ensures good { Over (map string_bytes words.now) (λ before after.
        GoodRunsEndWell (run_of (map string_bytes words.now) result.read.items
        (outside_of before (K.state sink.old)) (outside_of after (K.state sink.new))
        (F.state files) (F.state result.files))
        result.status) (S.state source.old) (S.state source.new) }

    // Survival: such a run is done under every plan that leaves room for it, where each action has
    // a text; unless memory runs out, or a job hands out as many tasks as it may. Room is left
    // where outputs are forgotten fewer times than attempts of a stage may fail, of each partition
    // fewer attempts fail by the plan than may, and an executor has no line that loses it.
    ensures survives { Over (map string_bytes words.now) (λ before after.
        GoodRunsSurvive (run_of (map string_bytes words.now) result.read.items
        (outside_of before (K.state sink.old)) (outside_of after (K.state sink.new))
        (F.state files) (F.state result.files))
        result.status) (S.state source.old) (S.state source.new) }
{
    scripts_have_one_reading();
    plans_have_one_reading();
    meaning_is_lawful();
    laws_of_names();
    grants_are_sole();
    let clock = Mutex::new(clock);
    let mut read = Vec::new(alloc);
    let mut records = Records::new(alloc);
    let (status, files) = run_words(
        rt,
        alloc,
        words,
        source,
        sink,
        files,
        gate,
        &clock,
        &mut read,
        &mut records,
    );
    let Records {
        histories,
        logs,
        gave_up,
    } = records;
    Ran {
        status,
        read,
        history: histories,
        logs,
        gave_up,
        files,
        clock: clock.into_inner(),
    }
}

/// Runs the script that the words name, if they name one.
fn run_words<
    S: Source,
    K: Sink,
    F: Files + Send,
    G: Gate + Sync,
    C: Clock + Send,
    R: Threads + Wait + time::Clock + Sync,
>(
    rt: &R,
    alloc: Global,
    words: &[String],
    source: &mut S,
    sink: &mut K,
    files: F,
    gate: &G,
    clock: &Mutex<C>,
    reads: &mut Vec<Read>,
    records: &mut Records,
) -> (Status, F)
    requires empty { reads.old.items ≡ [] }
    requires none_ran { NothingRan records.old.histories.items
        (histories_of records.old.gave_up.items) }
    requires kept { HasNoJob records.old }
    ensures later { IsLaterSource (S.state source.old) (S.state source.new) }
    ensures sink_later { (K.state sink.old).faults ≤ (K.state sink.new).faults }
    ensures files_later { IsLaterFiles (F.state files) (F.state result.1) }
    ensures kept { KeepsRecords (map string_bytes words.now) reads.new.items records.new }
    ensures run { Over (map string_bytes words.now) (λ before after.
        IsRun (run_of (map string_bytes words.now) reads.new.items
        (outside_of before (K.state sink.old)) (outside_of after (K.state sink.new))
        (F.state files) (F.state result.1)) records.new.histories.items
        (histories_of records.new.gave_up.items) result.0)
        (S.state source.old) (S.state source.new) }
{
    match read_words(alloc, words) {
        Ok(command) => run_command(
            rt, alloc, command, source, sink, files, gate, clock, reads, records,
        ),
        Err(refusal) => match refusal {
            OrMemory::Fault(_) => (Status::Usage, files),
            OrMemory::OutOfMemory => (Status::OutOfMemory, files),
        },
    }
}
