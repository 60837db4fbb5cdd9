//! A job that runs on executor threads, and again on the driver's alone where they give it up.
#![tactic(auto)]

ghost use Rattle.std.specs.Prelude.{◌≡◌, length};
ghost use Rattle.std.specs.Option.{option_map};
ghost use Rattle.sc_context.specs.Crews.{IsCrew};
ghost use Rattle.sc_context.specs.Goings.{BeganBehind, CameFrom, RunsAgain, RunsFrom, RunsRenewed};
ghost use Rattle.sc_context.specs.Records.{HaveStopped, WasGivenUp};
ghost use Rattle.sc_context.specs.Starts.{IsUnregistered};
ghost use Rattle.sc_core.specs.Openings.{tracker_behind};
ghost use Rattle.sc_core.specs.Sound.{HasLive};
ghost use Rattle.sc_desk.specs.Begins.{Begins, FitsLast};
ghost use Rattle.sc_desk.specs.DeskData.{PassedData};
ghost use Rattle.sc_desk.specs.Files.{FilesStand};
ghost use Rattle.sc_jobs.specs.declared.goals.Goal.{Goal};
ghost use Rattle.sc_staging.specs.Outputs.{output_dir, output_files};
ghost use Rattle.sc_world.specs.Runs.{HasBegun};

use crate::alone::run_alone;
use crate::crews::Crew;
use crate::outputs::{Refused, renew_output};
use crate::records::GaveUp;
use crate::stops::JobFault;
use crate::went::{Went, finish};
use sc_base::OrMemory;
use sc_clock::Clock;
use sc_core::Core;
use sc_desk::{Again, Desk, Orders};
use sc_exec::{Gate, Left, Stores, Verdict, into_logs, judge, work_job};
use sc_files::Files;
use sc_logs::ExecLog;
use sc_staging::{Output, laws_of_files};
use sc_work::Naming;
use std::alloc::Global;
use std::sync::{Mutex, Wait};
use std::thread::Threads;
use std::time;

/// A job that begins: its desk, and which orders of the fault plan were handed out before.
#[derive(Drop)]
pub(crate) struct Begun<W: Naming> {
    pub(crate) desk: Desk<W>,
    pub(crate) ordered: Orders,
}

/// What came of a job that began.
#[derive(Drop)]
pub(crate) enum Run<W: Naming, F: Files> {
    /// It went so.
    Went {
        /// What is left of it.
        went: Went<F>,
        /// What its executors wrote down.
        logs: Vec<ExecLog>,
        /// How it went before, where its executors gave it up.
        gave_up: Option<GaveUp>,
        /// The stores of its executors.
        stores: Stores<W>,
    },
    /// Its executors gave it up, and it didn't begin again.
    Refused {
        /// How it went.
        gave_up: GaveUp,
        /// Why it didn't: its staging area couldn't be made anew, or memory ran out.
        why: OrMemory<JobFault>,
        /// The files.
        files: F,
    },
}

/// Runs a job on executor threads until all of them have left it. Where they give it up, which what
/// they wrote down shows, the driver runs it again alone, with nothing registered, nothing in its
/// staging area, and over new stores.
pub(crate) fn run_begun<
    W: Naming + Send + Sync,
    F: Files + Send,
    G: Gate + Sync,
    C: Clock + Send,
    R: Threads + Wait + time::Clock + Sync,
>(
    rt: &R,
    alloc: Global,
    gate: &G,
    clock: &Mutex<C>,
    last: Option<&Core>,
    begun: Begun<W>,
    output: Output<F>,
    stores: Stores<W>,
    crew: Crew,
) -> Run<W, F>
    requires stand { FilesStand W.work begun.desk (output_dir output)
        (output_files F.state output) }
    requires ordered { begun.ordered ≡ begun.desk.ordered }
    requires begun { BeganBehind W.work (option_map (λ l. l.now) last) begun.desk }
    requires fits { FitsLast W.work (option_map (λ l. l.now) last) }
    requires live { HasLive (tracker_behind (option_map (λ l. l.now) last) W.work.limits) }
    requires crew { IsCrew W.work.limits.executors crew }
    ensures runs { (passed : PassedData) (goal : Goal)
        → Begins W.work passed (option_map (λ l. l.now) last.entry) goal begun.desk
        → RunsFrom W.work F.state passed (option_map (λ l. l.now) last.entry) goal
        (output_dir output) (output_files F.state output) result }
{
    begun.desk.is_sound();
    let Begun { desk, ordered } = begun;
    let Crew {
        workers,
        logs,
        lefts,
    } = crew;
    let (desk, output, workers) = work_job(rt, alloc, desk, output, &stores, gate, clock, workers);
    let how = judge(&desk, workers.as_slice());
    let (logs, lefts) = into_logs(workers, logs, lefts);
    match how {
        Verdict::Ended | Verdict::NoMemory => Run::Went {
            went: finish(alloc, desk, output),
            logs,
            gave_up: None,
            stores,
        },
        Verdict::GivenUp => run_again(alloc, last, Begun { desk, ordered }, output, logs, lefts),
    }
}

/// Runs a job again that its executors gave up.
fn run_again<W: Naming, F: Files>(
    alloc: Global,
    last: Option<&Core>,
    given: Begun<W>,
    output: Output<F>,
    logs: Vec<ExecLog>,
    lefts: Vec<Left>,
) -> Run<W, F>
    requires stand { FilesStand W.work given.desk (output_dir output)
        (output_files F.state output) }
    requires from { CameFrom W.work (option_map (λ l. l.now) last) given.ordered given.desk }
    requires many { length given.ordered ≡ W.work.limits.executors }
    requires fits { FitsLast W.work (option_map (λ l. l.now) last) }
    requires live { HasLive (tracker_behind (option_map (λ l. l.now) last) W.work.limits) }
    requires stopped { HaveStopped W.work logs.items lefts.items }
    requires cause { WasGivenUp given.desk.journal.entries logs.items lefts.items }
    ensures again { RunsAgain W.work F.state given.desk (option_map (λ l. l.now) last.entry)
        given.ordered (output_dir output) (output_files F.state output) result }
{
    laws_of_files();
    let Begun { desk, ordered } = given;
    let Again { history, begun } = desk.again(alloc, last, ordered);
    let gave_up = GaveUp {
        history,
        logs,
        lefts,
    };
    let Ok(desk) = begun else {
        return Run::Refused {
            gave_up,
            why: OrMemory::OutOfMemory,
            files: output.close(),
        };
    };
    match renew_output(output) {
        Ok(output) => run_renewed(alloc, desk, output, gave_up),
        Err(Refused { why, files }) => {
            drop(desk);
            Run::Refused {
                gave_up,
                why,
                files,
            }
        }
    }
}

/// Runs a job again that began again, with nothing in its staging area.
fn run_renewed<W: Naming, F: Files>(
    alloc: Global,
    desk: Desk<W>,
    output: Output<F>,
    gave_up: GaveUp,
) -> Run<W, F>
    requires begun { HasBegun W.work desk }
    requires unregistered { IsUnregistered desk }
    requires stand { FilesStand W.work desk (output_dir output) (output_files F.state output) }
    ensures runs { RunsRenewed W.work F.state desk (output_dir output) (output_files F.state output)
        gave_up result }
{
    match run_alone(alloc, desk, output) {
        Ok(alone) => Run::Went {
            went: alone.went,
            logs: Vec::new(alloc),
            gave_up: Some(gave_up),
            stores: alone.stores,
        },
        Err(output) => Run::Refused {
            gave_up,
            why: OrMemory::OutOfMemory,
            files: output.close(),
        },
    }
}
