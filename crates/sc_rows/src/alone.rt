//! Jobs that one thread runs alone to their end, at first or where their executors gave them up.
//!
//! Want of memory is free in the contract of a serial run, so one that always gave up would meet
//! it. The cases of the tables are those of `lefts`.
#![tactic(auto)]

ghost use Rattle.std.specs.Prelude.{◌≡◌, Option};
ghost use Rattle.sc_base.specs.Outside.{FilesState};
ghost use Rattle.sc_base.specs.Trees.{Path};
ghost use Rattle.sc_context.specs.Outputs.{IsRenewedFor, IsRenewedIn};
ghost use Rattle.sc_desk.specs.Files.{FilesStand};
ghost use Rattle.sc_rows.specs.Worlds.{IsFirstDesk, IsOfFirst};
ghost use Rattle.sc_staging.specs.Outputs.{output_dir, output_files};

use crate::lefts::assert_case;
use crate::world_lines::{new_stores, push_results};
use sc_core::JobHistory;
use sc_desk::{Again, Closed, Desk, Passed};
use sc_files::Files;
use sc_staging::{Output, Renewed, laws_of_files};
use sc_work::Naming;
use sc_world::World;
use std::process::Abort;

/// Word counts that are run alone, at first or where their executors gave them up, which have told
/// no report then. One thread takes turns in the order of the executors, so it is known what each
/// does.
const COUNTS: &str = r#"==== a word count has four tasks, however many executors take turns
alone or 1 thread
--executors=2 or --executors=64
----
1@0 0@0
----
collect c
----
----
Done
(b,2)
(a,1)
----
8 | driver
4 | take: task
2 | : registered
2 | : finished
==== the store of the first executor is wiped behind its output, which is made again
alone or 1 thread or 2 threads, 2 in pairs
--executors=2
drop 0 1
----
1@0 0@0
----
collect c
----
----
Done
(b,2)
(a,1)
----
1 | post 1.0.0.0 failed: gone 0@0 found 1: resubmitted
1 | failed
6 | take: task
3 | : registered
2 | : finished
==== three wipes let the reading stage fail twice, and the results are those without a plan
alone or 1 thread
--executors=2 or --executors=4
drop 0 1
drop 0 3
drop 1 2
----
1@0 0@0
----
collect c
----
----
Done
(b,2)
(a,1)
----
1 | post 1.0.0.0 failed: gone 0@0 found 1: resubmitted
1 | post 1.1.0.0 failed: gone 1@0 found 1: resubmitted
2 | failed
2 | : finished
==== the first executor is lost behind its output, and has no turn any more
alone or 1 thread or 2 threads, 2 in pairs
--executors=2
lose 0 1 1
----
1@0 0@0
----
collect c
----
----
Done
(b,2)
(a,1)
----
1 | lost 0: told
5 | take: task
3 | : registered
2 | : finished
==== reports that all come late are told where nothing else can happen
alone or 1 thread
--executors=2 or --executors=64
late 0 0 0 9
late 0 1 0 9
late 1 0 0 9
late 1 1 0 9
----
1@0 0@0
----
collect c
----
----
Done
(b,2)
(a,1)
----
4 | : shelved
4 | release
4 | take: task
2 | : registered
2 | : finished
==== each part of a save is written, granted and moved
alone or 1 thread or 2 threads, 2 in pairs
--executors=2
----
1@0 0@0
----
save c "out"
----
----
Done
out/ out/_temporary/ out/_temporary/c-1-0-0-0=(b,2)
 out/_temporary/c-1-0-1-0=(a,1)
 ----
2 | : staged
2 | : granted
2 | : moved
2 | : finished
"#;

/// Jobs that are run alone at first.
const FIRST: &str = r#"==== each of 64 executors has its turn
alone
--executors=64
----
----
l = parallelize 64 1
collect l
----
----
Done
1
----
64 | take: task
64 | : finished
==== the first executor is lost before it had a turn
alone
--executors=2
lose 0 0 0
----
----
collect c
----
----
Done
(b,2)
(a,1)
----
1 | lost 0: told
4 | take: task
==== both executors are lost
alone
--executors=2
lose 0 1 1
lose 1 1 1
----
----
collect c
----
----
Aborted(NoExecutor)
----
1 | take: task
1 | lost 0: told
1 | lost 1: aborted: no executor
==== a partition fails once more than it may
alone
--executors=2
fail 0 0 0
fail 0 0 1
fail 0 0 2
fail 0 0 3
----
----
collect c
----
----
Aborted(TaskLimit { stage: 0, stage_attempt: 0, partition: 0 })
----
3 | failed: planned: again
1 | failed: planned: aborted: task limit of 0.0 partition 0
==== the holder of a commit is told lost, and the other executor commits in its place
alone
--executors=2
late 0 0 0 9
lose 0 1 1
----
----
l = parallelize 2 1 2 3 4
save l "out"
----
----
Done
out/ out/_temporary/ out/_temporary/c-0-0-0-0=1
2
 out/_temporary/c-0-0-1-0=3
4
 out/_temporary/c-0-0-0-1=1
2
 ----
driver take: task 0.0.0.0, epoch 0
driver stage 0.0.0.0: staged
driver ask 0.0.0.0: granted
driver move 0.0.0.0: moved
driver post 0.0.0.0 result: shelved
driver take: task 0.0.1.0, epoch 0
driver stage 0.0.1.0: staged
driver ask 0.0.1.0: granted
driver move 0.0.1.0: moved
driver post 0.0.1.0 result: finished
driver lost 0: told
driver take: task 0.0.0.1, epoch 1
driver stage 0.0.0.1: staged
driver ask 0.0.0.1: granted
driver move 0.0.0.1: moved
driver post 0.0.0.1 result: finished
"#;

/// What is seen of a job: how it ended, with the results that are there, its history and its files.
#[derive(Drop)]
pub struct Seen<F: Files> {
    /// How it ended, with its results, line by line.
    pub told: String,
    /// How it went.
    pub history: JobHistory,
    /// Its files.
    pub files: F,
}

/// Runs the job of a desk alone over new stores, which is the first of a run and has just begun.
pub fn run_alone<W: Naming, F: Files, R: Abort + AllocGlobal>(
    rt: &R,
    desk: Desk<W>,
    output: Output<F>,
) -> Seen<F>
    requires first { IsFirstDesk W.work desk }
    requires stand { FilesStand W.work desk (output_dir output) (output_files F.state output) }
{
    let stores = new_stores(rt, desk.work());
    let Ok(world) = World::begin(rt.alloc(), desk, stores) else {
        panic!(rt; "memory")
    };
    let mut world = world;
    let mut output = output;
    world.serial(rt.alloc(), &mut output).expect(rt, "memory");
    let (desk, _) = world.into_parts();
    end_of(rt, desk, output)
}

/// What is seen of a job.
pub fn end_of<W: Naming, F: Files, R: Abort + AllocGlobal>(
    rt: &R,
    desk: Desk<W>,
    output: Output<F>,
) -> Seen<F> {
    let mut told = String::new(rt.alloc());
    let job = desk.core().job();
    writeln!(told, "{job:?}").expect(rt, "memory");
    push_results(rt, &desk, &mut told);
    let Closed { history, .. } = desk.close();
    Seen {
        told,
        history,
        files: output.close(),
    }
}

/// Runs the first job of a work again alone that its executors gave up.
pub fn run_again<W: Naming, F: Files, R: Abort + AllocGlobal>(
    rt: &R,
    desk: Desk<W>,
    output: Output<F>,
) -> Seen<F>
    requires first { IsOfFirst W.work desk }
    requires stand { FilesStand W.work desk (output_dir output) (output_files F.state output) }
{
    let desk = begun_again(rt, desk);
    let output = renewed(rt, output);
    run_alone(rt, desk, output)
}

/// The desk at which the first job of a run begins again, where that of a desk is given up.
fn begun_again<W: Naming, R: Abort + AllocGlobal>(rt: &R, desk: Desk<W>) -> Desk<W>
    requires first { IsOfFirst W.work desk }
    ensures first { IsFirstDesk W.work result }
    ensures stand { (dir : Option Path) (files begun : FilesState)
        → FilesStand W.work desk dir files → IsRenewedIn dir files begun
        → FilesStand W.work result dir begun }
{
    laws_of_files();
    let work = desk.work();
    work.is_named();
    work.get().is_sound();
    let passed = Passed::first(rt.alloc(), work.get()).expect(rt, "memory");
    let Again { begun, .. } = desk.again(rt.alloc(), None, passed.ordered);
    match begun {
        Ok(desk) => desk,
        Err(_) => panic!(rt; "memory"),
    }
}

/// The files of a job that begins again, with nothing in its staging area where it saves.
fn renewed<F: Files, R: Abort>(rt: &R, output: Output<F>) -> Output<F>
    ensures { IsRenewedFor F.state output result }
{
    match output {
        Output::Nothing(files) => Output::Nothing(files),
        Output::Save(staging) => match staging.again() {
            Renewed::Staging(staging) => Output::Save(staging),
            Renewed::Device { .. } | Renewed::NoMemory { .. } => panic!(rt; "not renewed"),
        },
    }
}

#[test]
fn a_job_is_run_alone_to_its_end(rt: HostRuntime) {
    for case in FIRST.split("==== ") {
        if !case.is_empty() {
            assert_case(&rt, case);
        }
    }
}

#[test]
fn a_job_that_was_given_up_is_run_again_alone(rt: HostRuntime) {
    for case in COUNTS.split("==== ") {
        if !case.is_empty() {
            assert_case(&rt, case);
        }
    }
}
